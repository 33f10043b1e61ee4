// Steps at which something is chosen.
ghost use Rattle.std.specs.Prelude.{◌≡◌, ◌≤◌, ◌+◌, ◌*◌, IfOk, OnOk, filter, length};
ghost use Rattle.bdb_plan.specs.Running.{plus_tuples};
ghost use Rattle.bdb_exec.specs.Keys.{choices_before, key_asked, passes};
ghost use Rattle.bdb_exec.specs.LookUps.{choice_looks, pool_looks};
ghost use Rattle.bdb_tables.specs.Reading.{OnlyReads};
ghost use Rattle.bdb_exec.specs.Memos.{Recalls};
ghost use Rattle.bdb_exec.specs.Readable.{CanBeRun};
ghost use Rattle.bdb_exec.specs.Seen.{sight_of};

use crate::index::by_columns;
use crate::keys::asks_for_key;
use crate::looking::{plus_tuples, plus_tuples_of_key, users};
use crate::memo::Memo;
use crate::passing::{kept, passing};
use crate::shared::Shared;
use crate::state::State;
use bdb_base::List;
use bdb_keep::Keeper;
use bdb_plan::Step;
use bdb_tables::TabError;
use std::alloc::Global;

/// What a step chooses from, and for which item; none where it chooses nothing. It is only the tuples that the tests right
/// behind the step let through.
pub fn choices<K: Keeper>(
    alloc: Global,
    keeper: &mut K,
    memo: &mut Memo,
    step: &Step,
    state: &State,
    behind: &[Step],
) -> Result<Option<(u32, List<Shared>)>, TabError>
    requires run { CanBeRun (K.seen keeper.old).kept }
    requires memo { Recalls (K.seen keeper.old).kept memo.old }
    ensures choices { IfOk result
        (λ choices. choices ≡ choices_before (sight_of (K.seen keeper.old).kept)
        state.now step.now behind.now) }
    ensures reads { OnOk result
        ((K.seen keeper.new).reads ≤ (K.seen keeper.old).reads + choice_looks
        (sight_of (K.seen keeper.old).kept) state.now step.now behind.now) }
    ensures memo { OnOk result (Recalls (K.seen keeper.old).kept memo.new) }
    ensures looks { OnlyReads (K.seen keeper.old) (K.seen keeper.new) result TabError.Fault }
{
    match step {
        Step::User { item } => match some_users(alloc, keeper, memo, *item, state, behind) {
            Ok(pool) => Ok(Some((*item, pool))),
            Err(error) => Err(error),
        },
        Step::Pos { item, rel } => {
            match some_tuples(alloc, keeper, memo, *item, *rel, state, behind) {
                Ok(pool) => Ok(Some((*item, pool))),
                Err(error) => Err(error),
            }
        }
        Step::Start { .. } => Ok(None),
        Step::Edge { .. } => Ok(None),
        Step::Differ { .. } => Ok(None),
        Step::Bind { .. } => Ok(None),
        Step::Neg { .. } => Ok(None),
        Step::Test { .. } => Ok(None),
    }
}

// The users that the tests right behind let through. They are read where they weren't yet.
fn some_users<K: Keeper>(
    alloc: Global,
    keeper: &mut K,
    memo: &mut Memo,
    item: u32,
    state: &State,
    behind: &[Step],
) -> Result<List<Shared>, TabError>
    requires run { CanBeRun (K.seen keeper.old).kept }
    requires memo { Recalls (K.seen keeper.old).kept memo.old }
    ensures pool { IfOk result (λ pool. pool ≡ filter (passes state.now.slots item behind.now)
        (sight_of (K.seen keeper.old).kept).users) }
    ensures reads { OnOk result
        ((K.seen keeper.new).reads
        ≤ (K.seen keeper.old).reads + ((sight_of (K.seen keeper.old).kept).places + 1)) }
    ensures memo { OnOk result (Recalls (K.seen keeper.old).kept memo.new) }
    ensures looks { OnlyReads (K.seen keeper.old) (K.seen keeper.new) result TabError.Fault }
{
    match &memo.users {
        Some(all) => {
            return match let_through(alloc, keeper, item, state, behind, all.as_slice()) {
                Ok(pool) => Ok(pool),
                Err(error) => Err(error),
            };
        }
        None => {}
    }
    let all = match users(alloc, keeper) {
        Ok(all) => all,
        Err(error) => return Err(error),
    };
    match let_through(alloc, keeper, item, state, behind, all.as_slice()) {
        Ok(pool) => {
            memo.users = Some(all);
            Ok(pool)
        }
        Err(error) => Err(error),
    }
}

// Of the tuples of a relation that the walk's world has with plus, those that the tests right behind let through. Where the tests
// ask for a key, only its rows are read.
fn some_tuples<K: Keeper>(
    alloc: Global,
    keeper: &mut K,
    memo: &mut Memo,
    item: u32,
    rel: u32,
    state: &State,
    behind: &[Step],
) -> Result<List<Shared>, TabError>
    requires run { CanBeRun (K.seen keeper.old).kept }
    requires memo { Recalls (K.seen keeper.old).kept memo.old }
    ensures pool { IfOk result (λ pool. pool ≡ filter (passes state.now.slots item behind.now)
        (plus_tuples ((sight_of (K.seen keeper.old).kept).rows state.now.world rel))) }
    ensures reads { OnOk result ((K.seen keeper.new).reads ≤ (K.seen keeper.old).reads + pool_looks
        (key_asked ((sight_of (K.seen keeper.old).kept).keys rel) state.now.slots item behind.now)
        ((sight_of (K.seen keeper.old).kept).rows state.now.world rel)) }
    ensures memo { OnOk result (Recalls (K.seen keeper.old).kept memo.new) }
    ensures looks { OnlyReads (K.seen keeper.old) (K.seen keeper.new) result TabError.Fault }
{
    if !asks_for_key(state.slots(), item, behind) {
        return match of_relation(alloc, keeper, memo, item, rel, state, behind) {
            Ok(pool) => Ok(pool),
            Err(error) => Err(error),
        };
    }
    match plus_tuples_of_key(alloc, keeper, memo, item, rel, state, behind) {
        Ok(all) => Ok(kept(state.slots(), item, behind, all)),
        Err(error) => Err(error),
    }
}

// The same where the tests ask for no key. The world's tuples are read where they weren't yet, and from then on looked up by the
// columns that tests ask for.
fn of_relation<K: Keeper>(
    alloc: Global,
    keeper: &mut K,
    memo: &mut Memo,
    item: u32,
    rel: u32,
    state: &State,
    behind: &[Step],
) -> Result<List<Shared>, TabError>
    requires run { CanBeRun (K.seen keeper.old).kept }
    requires memo { Recalls (K.seen keeper.old).kept memo.old }
    ensures pool { IfOk result (λ pool. pool ≡ filter (passes state.now.slots item behind.now)
        (plus_tuples ((sight_of (K.seen keeper.old).kept).rows state.now.world rel))) }
    ensures reads { OnOk result
        ((K.seen keeper.new).reads
        ≤ (K.seen keeper.old).reads + (2 * length
        ((sight_of (K.seen keeper.old).kept).rows state.now.world rel) + 1)) }
    ensures memo { OnOk result (Recalls (K.seen keeper.old).kept memo.new) }
    ensures looks { OnlyReads (K.seen keeper.old) (K.seen keeper.new) result TabError.Fault }
{
    let world = state.world();
    let place = (world, rel);
    match memo.pools.get(&place) {
        Some(all) => {
            let slots = state.slots();
            let all = all.as_slice();
            return match by_columns(alloc, &mut memo.indexes, place, slots, item, behind, all) {
                Ok(pool) => Ok(pool),
                Err(_) => {
                    keeper.undo();
                    Err(TabError::Memory)
                }
            };
        }
        None => {}
    }
    let all = match plus_tuples(alloc, keeper, memo, world, rel) {
        Ok(all) => all,
        Err(error) => return Err(error),
    };
    let pool = match let_through(alloc, keeper, item, state, behind, all.as_slice()) {
        Ok(pool) => pool,
        Err(error) => return Err(error),
    };
    match memo.pools.insert(place, all) {
        Ok(_) => Ok(pool),
        Err(_) => {
            keeper.undo();
            Err(TabError::Memory)
        }
    }
}

// The tuples that the tests right behind let through.
fn let_through<K: Keeper>(
    alloc: Global,
    keeper: &mut K,
    item: u32,
    state: &State,
    behind: &[Step],
    all: &[Shared],
) -> Result<List<Shared>, TabError>
    requires run { CanBeRun (K.seen keeper.old).kept }
    ensures pool { IfOk result (λ pool. pool ≡ filter (passes state.now.slots item behind.now)
        all.now) }
    ensures reads { (K.seen keeper.new).reads ≡ (K.seen keeper.old).reads }
    ensures looks { OnlyReads (K.seen keeper.old) (K.seen keeper.new) result TabError.Fault }
{
    match passing(alloc, state.slots(), item, behind, all) {
        Ok(pool) => Ok(pool),
        Err(_) => {
            keeper.undo();
            Err(TabError::Memory)
        }
    }
}
