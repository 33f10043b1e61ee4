// Steps, one after the other, for each choice.
ghost use Rattle.std.specs.Prelude.{◌≡◌, ◌≤◌, ◌+◌, IfOk, OnOk, reverse};
ghost use Rattle.std.specs.List.{flat_map, sum_by};
ghost use Rattle.bdb_base.specs.Queries.{option_list};
ghost use Rattle.bdb_queries.specs.Collected.{with_rows};
ghost use Rattle.bdb_queries.specs.Slots.{known_row};
ghost use Rattle.bdb_plan.specs.Running.{rows_from};
ghost use Rattle.bdb_exec.specs.Coming.{ComesTo, ComesOn, came_looks, looks_with, rows_with};
ghost use Rattle.bdb_exec.specs.LookUps.{looks_from};
ghost use Rattle.bdb_tables.specs.Reading.{OnlyReads};
ghost use Rattle.bdb_exec.specs.Memos.{Recalls};
ghost use Rattle.bdb_exec.specs.Readable.{CanBeRun};
ghost use Rattle.bdb_exec.specs.Seen.{sight_of};
ghost use Rattle.bdb_exec.specs.SeenKeys.{IsEnd, IsKey, HasSeen};

use crate::deciding::decide;
use crate::memo::Memo;
use crate::reading::choices;
use crate::seen_keys::{SeenKeys, key_of, tests_ahead};
use crate::shared::Shared;
use crate::state::State;
use crate::values::Key;
use bdb_base::{List, Ref};
use bdb_keep::Keeper;
use bdb_plan::{Plan, Step};
use bdb_queries::{Found, known_row};
use bdb_tables::TabError;
use std::alloc::{AllocError, Global};

/// How far steps come before something is chosen.
#[derive(Drop)]
pub enum Came {
    /// A step doesn't hold.
    Nothing,
    /// All steps are done.
    End {
        state: State,
    },
    /// The last of so many steps chooses one of these tuples for an item.
    Choice {
        done: usize,
        item: u32,
        pool: List<Shared>,
        state: State,
    },
}

/// One of these tuples is chosen for an item, in a state.
#[derive(Drop)]
struct Choosing {
    item: u32,
    pool: List<Shared>,
    state: State,
}

/// Takes steps up to the first at which something is chosen.
pub fn advance<K: Keeper>(
    alloc: Global,
    keeper: &mut K,
    memo: &mut Memo,
    steps: &[Step],
    state: State,
) -> Result<Came, TabError>
    requires run { CanBeRun (K.seen keeper.old).kept }
    requires memo { Recalls (K.seen keeper.old).kept memo.old }
    ensures rows { IfOk result
        (λ came. ComesTo (sight_of (K.seen keeper.old).kept) steps.now state came) }
    ensures on { IfOk result (λ came. ComesOn steps.now came) }
    ensures reads { IfOk result
        (λ came. (K.seen keeper.new).reads + came_looks (sight_of (K.seen keeper.old).kept)
        steps.now came ≤ (K.seen keeper.old).reads + looks_from (sight_of (K.seen keeper.old).kept)
        steps.now state) }
    ensures memo { OnOk result (Recalls (K.seen keeper.old).kept memo.new) }
    ensures looks { OnlyReads (K.seen keeper.old) (K.seen keeper.new) result TabError.Fault }
{
    let mut state = state;
    let mut done = 0;
    for step in steps {
        done += 1;
        match choices(alloc, keeper, memo, step, &state, &steps[done..]) {
            Ok(Some((item, pool))) => {
                return Ok(Came::Choice {
                    done,
                    item,
                    pool,
                    state,
                });
            }
            Ok(None) => {}
            Err(error) => return Err(error),
        }
        match decide(alloc, keeper, memo, step, state) {
            Ok(Some(next)) => state = next,
            Ok(None) => return Ok(Came::Nothing),
            Err(error) => return Err(error),
        }
    }
    Ok(Came::End { state })
}

/// Takes the rows that come of the last steps of a plan. It stops where there are too many, and runs nothing again for values for
/// which it was run.
#[cycle(running)]
pub fn run<K: Keeper>(
    alloc: Global,
    keeper: &mut K,
    memo: &mut Memo,
    plan: &Plan,
    steps: &[Step],
    state: State,
    found: &mut Found,
    keys: &mut SeenKeys,
) -> Result<(), TabError>
    requires run { CanBeRun (K.seen keeper.old).kept }
    requires memo { Recalls (K.seen keeper.old).kept memo.old }
    requires end { IsEnd plan.now.steps steps.now }
    requires keys { HasSeen (sight_of (K.seen keeper.old).kept) plan.now found.old keys.old }
    ensures rows { OnOk result
        (found.new ≡ with_rows found.old
        (rows_from (sight_of (K.seen keeper.old).kept) plan.now.take steps.now state)) }
    ensures reads { OnOk result ((K.seen keeper.new).reads ≤ (K.seen keeper.old).reads + looks_from
        (sight_of (K.seen keeper.old).kept) steps.now state) }
    ensures memo { OnOk result (Recalls (K.seen keeper.old).kept memo.new) }
    ensures keys { OnOk result
        (HasSeen (sight_of (K.seen keeper.old).kept) plan.now found.new keys.new) }
    ensures looks { OnlyReads (K.seen keeper.old) (K.seen keeper.new) result TabError.Fault }
{
    let done = match tests_ahead(state.slots(), steps) {
        Some(done) => done,
        None => return Ok(()),
    };
    match run_once(
        alloc,
        keeper,
        memo,
        plan,
        &steps[done..],
        state,
        found,
        keys,
    ) {
        Ok(()) => Ok(()),
        Err(error) => Err(error),
    }
}

// Takes the rows that come of steps, unless they were run for the same key.
#[cycle(running)]
fn run_once<K: Keeper>(
    alloc: Global,
    keeper: &mut K,
    memo: &mut Memo,
    plan: &Plan,
    steps: &[Step],
    state: State,
    found: &mut Found,
    keys: &mut SeenKeys,
) -> Result<(), TabError>
    requires run { CanBeRun (K.seen keeper.old).kept }
    requires memo { Recalls (K.seen keeper.old).kept memo.old }
    requires end { IsEnd plan.now.steps steps.now }
    requires keys { HasSeen (sight_of (K.seen keeper.old).kept) plan.now found.old keys.old }
    ensures rows { OnOk result
        (found.new ≡ with_rows found.old
        (rows_from (sight_of (K.seen keeper.old).kept) plan.now.take steps.now state)) }
    ensures reads { OnOk result ((K.seen keeper.new).reads ≤ (K.seen keeper.old).reads + looks_from
        (sight_of (K.seen keeper.old).kept) steps.now state) }
    ensures memo { OnOk result (Recalls (K.seen keeper.old).kept memo.new) }
    ensures keys { OnOk result
        (HasSeen (sight_of (K.seen keeper.old).kept) plan.now found.new keys.new) }
    ensures looks { OnlyReads (K.seen keeper.old) (K.seen keeper.new) result TabError.Fault }
{
    let key = match key_of(alloc, steps, plan.take(), &state) {
        Ok(key) => key,
        Err(_) => {
            keeper.undo();
            return Err(TabError::Memory);
        }
    };
    match key {
        Some(key) => {
            match run_key(alloc, keeper, memo, plan, steps, key, state, found, keys) {
                Ok(()) => Ok(()),
                Err(error) => Err(error),
            }
        }
        None => match run_steps(alloc, keeper, memo, plan, steps, state, found, keys) {
            Ok(()) => Ok(()),
            Err(error) => Err(error),
        },
    }
}

// Takes the rows that come of steps, unless their key was seen.
#[cycle(running)]
fn run_key<K: Keeper>(
    alloc: Global,
    keeper: &mut K,
    memo: &mut Memo,
    plan: &Plan,
    steps: &[Step],
    key: Key,
    state: State,
    found: &mut Found,
    keys: &mut SeenKeys,
) -> Result<(), TabError>
    requires run { CanBeRun (K.seen keeper.old).kept }
    requires memo { Recalls (K.seen keeper.old).kept memo.old }
    requires end { IsEnd plan.now.steps steps.now }
    requires key { IsKey steps.now plan.now.take state key }
    requires keys { HasSeen (sight_of (K.seen keeper.old).kept) plan.now found.old keys.old }
    ensures rows { OnOk result
        (found.new ≡ with_rows found.old
        (rows_from (sight_of (K.seen keeper.old).kept) plan.now.take steps.now state)) }
    ensures reads { OnOk result ((K.seen keeper.new).reads ≤ (K.seen keeper.old).reads + looks_from
        (sight_of (K.seen keeper.old).kept) steps.now state) }
    ensures memo { OnOk result (Recalls (K.seen keeper.old).kept memo.new) }
    ensures keys { OnOk result
        (HasSeen (sight_of (K.seen keeper.old).kept) plan.now found.new keys.new) }
    ensures looks { OnlyReads (K.seen keeper.old) (K.seen keeper.new) result TabError.Fault }
{
    if keys.has(&key) {
        return Ok(());
    }
    match run_steps(alloc, keeper, memo, plan, steps, state, found, keys) {
        Ok(()) => {}
        Err(error) => return Err(error),
    }
    if !keys.has_room() {
        return Ok(());
    }
    match keys.add(key) {
        Ok(()) => Ok(()),
        Err(_) => {
            keeper.undo();
            Err(TabError::Memory)
        }
    }
}

// Takes the rows that come of steps, up to the first choice and for each tuple there.
#[cycle(running)]
fn run_steps<K: Keeper>(
    alloc: Global,
    keeper: &mut K,
    memo: &mut Memo,
    plan: &Plan,
    steps: &[Step],
    state: State,
    found: &mut Found,
    keys: &mut SeenKeys,
) -> Result<(), TabError>
    requires run { CanBeRun (K.seen keeper.old).kept }
    requires memo { Recalls (K.seen keeper.old).kept memo.old }
    requires end { IsEnd plan.now.steps steps.now }
    requires keys { HasSeen (sight_of (K.seen keeper.old).kept) plan.now found.old keys.old }
    ensures rows { OnOk result
        (found.new ≡ with_rows found.old
        (rows_from (sight_of (K.seen keeper.old).kept) plan.now.take steps.now state)) }
    ensures reads { OnOk result ((K.seen keeper.new).reads ≤ (K.seen keeper.old).reads + looks_from
        (sight_of (K.seen keeper.old).kept) steps.now state) }
    ensures memo { OnOk result (Recalls (K.seen keeper.old).kept memo.new) }
    ensures keys { OnOk result
        (HasSeen (sight_of (K.seen keeper.old).kept) plan.now found.new keys.new) }
    ensures looks { OnlyReads (K.seen keeper.old) (K.seen keeper.new) result TabError.Fault }
{
    match advance(alloc, keeper, memo, steps, state) {
        Ok(Came::Nothing) => Ok(()),
        Ok(Came::End { state }) => match finish(alloc, plan.take(), &state, found) {
            Ok(()) => Ok(()),
            Err(_) => {
                keeper.undo();
                Err(TabError::Memory)
            }
        },
        Ok(
            Came::Choice {
                done,
                item,
                pool,
                state,
            },
        ) => {
            let choosing = Choosing { item, pool, state };
            match run_each(
                alloc,
                keeper,
                memo,
                plan,
                &steps[done..],
                choosing,
                found,
                keys,
            ) {
                Ok(()) => Ok(()),
                Err(error) => Err(error),
            }
        }
        Err(error) => Err(error),
    }
}

// Takes the rows that come of steps once an item has each of these tuples in turn. The last tuple goes on with the state itself,
// each other with a copy.
#[cycle(running)]
fn run_each<K: Keeper>(
    alloc: Global,
    keeper: &mut K,
    memo: &mut Memo,
    plan: &Plan,
    steps: &[Step],
    choosing: Choosing,
    found: &mut Found,
    keys: &mut SeenKeys,
) -> Result<(), TabError>
    requires run { CanBeRun (K.seen keeper.old).kept }
    requires memo { Recalls (K.seen keeper.old).kept memo.old }
    requires end { IsEnd plan.now.steps steps.now }
    requires keys { HasSeen (sight_of (K.seen keeper.old).kept) plan.now found.old keys.old }
    ensures rows { OnOk result
        (found.new ≡ with_rows found.old
        (flat_map
        (rows_with (sight_of (K.seen keeper.old).kept)
        plan.now.take steps.now choosing.state choosing.item) choosing.pool)) }
    ensures reads { OnOk result ((K.seen keeper.new).reads ≤ (K.seen keeper.old).reads + sum_by
        (looks_with (sight_of (K.seen keeper.old).kept) steps.now choosing.state choosing.item)
        choosing.pool) }
    ensures memo { OnOk result (Recalls (K.seen keeper.old).kept memo.new) }
    ensures keys { OnOk result
        (HasSeen (sight_of (K.seen keeper.old).kept) plan.now found.new keys.new) }
    ensures looks { OnlyReads (K.seen keeper.old) (K.seen keeper.new) result TabError.Fault }
{
    let Choosing {
        item,
        pool,
        state: here,
    } = choosing;
    let mut left = in_turn(pool);
    while let Some(tuple) = left.pop() {
        if !found.has_room() {
            return Ok(());
        }
        if left.as_slice().is_empty() {
            let last = here.with(item, tuple);
            match run(alloc, keeper, memo, plan, steps, last, found, keys) {
                Ok(()) => return Ok(()),
                Err(error) => return Err(error),
            }
        }
        let next = match here.copy_with(alloc, item, tuple) {
            Ok(next) => next,
            Err(_) => {
                keeper.undo();
                return Err(TabError::Memory);
            }
        };
        match run(alloc, keeper, memo, plan, steps, next, found, keys) {
            Ok(()) => {}
            Err(error) => return Err(error),
        }
    }
    Ok(())
}

// Tuples, the first of them at the end.
fn in_turn(pool: List<Shared>) -> Vec<Shared>
    ensures { result.items ≡ reverse pool }
{
    let mut items = pool.into_vec();
    items.reverse();
    items
}

// Takes the row of what is chosen.
fn finish(alloc: Global, take: &[Ref], state: &State, found: &mut Found) -> Result<(), AllocError>
    ensures { OnOk result
        (found.new ≡ with_rows found.old (option_list (known_row state.now.slots take.now))) }
{
    match known_row(alloc, state.slots(), take)? {
        Some(row) => {
            found.add(row)?;
            Ok(())
        }
        None => Ok(()),
    }
}
