// Steps at which nothing is chosen.
ghost use Rattle.std.specs.Prelude.{◌≡◌, ◌≤◌, ◌+◌, IfOk, OnOk};
ghost use Rattle.std.specs.Option.{option_map, option_and_then};
ghost use Rattle.bdb_base.specs.Same.{tuple_of};
ghost use Rattle.bdb_queries.specs.Slots.{slot_at, uid_of, must_hold};
ghost use Rattle.bdb_plan.specs.Holding.{differ};
ghost use Rattle.bdb_plan.specs.Running.{with_world, denied, decided, reached_if};
ghost use Rattle.bdb_exec.specs.LookUps.{deny_looks, decided_looks};
ghost use Rattle.bdb_tables.specs.Reading.{OnlyReads};
ghost use Rattle.bdb_exec.specs.Memos.{Recalls};
ghost use Rattle.bdb_exec.specs.Readable.{CanBeRun};
ghost use Rattle.bdb_exec.specs.Seen.{sight_of};

use crate::looking::{denies, edge};
use crate::memo::Memo;
use crate::shared::Shared;
use crate::state::State;
use bdb_base::{Tuple, Who};
use bdb_keep::Keeper;
use bdb_plan::Step;
use bdb_queries::{must_hold, uid_of};
use bdb_tables::TabError;
use std::alloc::{AllocError, Global};

/// Where a step leads at which nothing is chosen; none where it doesn't hold.
pub fn decide<K: Keeper>(
    alloc: Global,
    keeper: &mut K,
    memo: &mut Memo,
    step: &Step,
    state: State,
) -> Result<Option<State>, TabError>
    requires run { CanBeRun (K.seen keeper.old).kept }
    requires memo { Recalls (K.seen keeper.old).kept memo.old }
    ensures next { IfOk result
        (λ next. next ≡ decided (sight_of (K.seen keeper.old).kept) state step.now) }
    ensures reads { OnOk result
        ((K.seen keeper.new).reads ≤ (K.seen keeper.old).reads + decided_looks
        (sight_of (K.seen keeper.old).kept) state step.now) }
    ensures memo { OnOk result (Recalls (K.seen keeper.old).kept memo.new) }
    ensures looks { OnlyReads (K.seen keeper.old) (K.seen keeper.new) result TabError.Fault }
{
    match step {
        Step::User { .. } => Ok(None),
        Step::Start { .. } => Ok(Some(state.at(0))),
        Step::Edge { who, .. } => match follow(alloc, keeper, memo, *who, state) {
            Ok(next) => Ok(next),
            Err(error) => Err(error),
        },
        Step::Differ { left, right, .. } => Ok(where_they_differ(*left, *right, state)),
        Step::Pos { .. } => Ok(None),
        Step::Bind { item, right, .. } => match state.bound(alloc, *item, right) {
            Ok(next) => Ok(next),
            Err(_) => {
                keeper.undo();
                Err(TabError::Memory)
            }
        },
        Step::Neg { item, rel } => match deny(alloc, keeper, memo, *item, *rel, state) {
            Ok(next) => Ok(next),
            Err(error) => Err(error),
        },
        Step::Test { cond } => Ok(reached_if(must_hold(state.slots(), cond), state)),
    }
}

// The state where a test holds.
fn reached_if(test: bool, state: State) -> Option<State>
    ensures { result ≡ reached_if test state }
{
    if test { Some(state) } else { None }
}

// The state where two users differ.
fn where_they_differ(left: Who, right: Who, state: State) -> Option<State>
    ensures { result ≡ reached_if (differ (uid_of state.slots left) (uid_of state.slots right))
        state }
{
    match (uid_of(state.slots(), left), uid_of(state.slots(), right)) {
        (Some(i), Some(j)) => reached_if(i != j, state),
        _ => None,
    }
}

// Along the edge of a user.
fn follow<K: Keeper>(
    alloc: Global,
    keeper: &mut K,
    memo: &mut Memo,
    who: Who,
    state: State,
) -> Result<Option<State>, TabError>
    requires run { CanBeRun (K.seen keeper.old).kept }
    requires memo { Recalls (K.seen keeper.old).kept memo.old }
    ensures next { IfOk result
        (λ next. next ≡ option_map (with_world state)
        (option_and_then ((sight_of (K.seen keeper.old).kept).edge state.world)
        (uid_of state.slots who))) }
    ensures reads { OnOk result ((K.seen keeper.new).reads ≤ (K.seen keeper.old).reads + 1) }
    ensures memo { OnOk result (Recalls (K.seen keeper.old).kept memo.new) }
    ensures looks { OnlyReads (K.seen keeper.old) (K.seen keeper.new) result TabError.Fault }
{
    match uid_of(state.slots(), who) {
        Some(uid) => match edge(alloc, keeper, memo, state.world(), uid) {
            Ok(Some(target)) => Ok(Some(state.at(target))),
            Ok(None) => Ok(None),
            Err(error) => Err(error),
        },
        None => Ok(None),
    }
}

// With a tuple of the relation, where the world denies it.
fn deny<K: Keeper>(
    alloc: Global,
    keeper: &mut K,
    memo: &mut Memo,
    item: u32,
    rel: u32,
    state: State,
) -> Result<Option<State>, TabError>
    requires run { CanBeRun (K.seen keeper.old).kept }
    requires memo { Recalls (K.seen keeper.old).kept memo.old }
    ensures next { IfOk result (λ next. next ≡ denied (sight_of (K.seen keeper.old).kept).keys
        ((sight_of (K.seen keeper.old).kept).rows state.world rel) state item rel
        (slot_at state.slots item)) }
    ensures reads { OnOk result ((K.seen keeper.new).reads ≤ (K.seen keeper.old).reads + deny_looks
        ((sight_of (K.seen keeper.old).kept).keys rel)
        ((sight_of (K.seen keeper.old).kept).rows state.world rel) (slot_at state.slots item)) }
    ensures memo { OnOk result (Recalls (K.seen keeper.old).kept memo.new) }
    ensures looks { OnlyReads (K.seen keeper.old) (K.seen keeper.new) result TabError.Fault }
{
    let (state, chosen) = state.taken(item);
    let shared = match chosen {
        Some(shared) => shared,
        None => return Ok(None),
    };
    let tuple = match of_relation(alloc, shared, rel) {
        Ok(tuple) => tuple,
        Err(_) => {
            keeper.undo();
            return Err(TabError::Memory);
        }
    };
    match denies(alloc, keeper, memo, state.world(), tuple.tuple()) {
        Ok(true) => Ok(Some(state.with(item, tuple))),
        Ok(false) => Ok(None),
        Err(error) => Err(error),
    }
}

// The values of a tuple, as a tuple of a relation.
fn of_relation(alloc: Global, shared: Shared, rel: u32) -> Result<Shared, AllocError>
    ensures { IfOk result (λ tuple. tuple ≡ tuple_of rel shared.vals) }
{
    let Tuple { vals, .. } = shared.into_tuple(alloc)?;
    let tuple = Shared::new(alloc, Tuple { rel, vals })?;
    Ok(tuple)
}
