// States along a path that go.
ghost use Rattle.std.specs.Prelude.{◌≡◌, ◌+◌, true, IfOk, OnOk, length};
ghost use Rattle.bdb_base.specs.Alternation.{alternates};
ghost use Rattle.bdb_keep.specs.Seen.{NeverFall, Steps};
ghost use Rattle.bdb_tables.specs.Grammar.{InGrammar};
ghost use Rattle.bdb_worlds.specs.Bounds.{WritesWithin};
ghost use Rattle.bdb_worlds.specs.Growth.{SameOutside};
ghost use Rattle.bdb_worlds.specs.Holding.{HoldSome};
ghost use Rattle.bdb_worlds.specs.Shrinking.{DropsStates, LeavesOthers, AreAlong};

use crate::leaving::drop_state;
use crate::reach::states_along;
use crate::staying::is_needed;
use bdb_keep::Keeper;
use bdb_tables::TabError;
use std::alloc::Global;

/// Takes away the prefixes of a path that is a state, longest first, up to the first that stays: the numbers of those
/// that went. One stays that is empty, has an explicit row, or is a user shorter than a state that stays. Where the path
/// is no state, nothing goes. For each place at which the rows before and after differ, no more writes are made than the
/// path has users, and two.
pub fn drop_states<K: Keeper>(
    alloc: Global,
    keeper: &mut K,
    path: &[u32],
) -> Result<Vec<u32>, TabError>
    requires running { (K.seen keeper.old).running ≡ true }
    requires grammar { InGrammar (K.seen keeper.old).kept }
    requires states { HoldSome (K.seen keeper.old).kept path.now }
    requires apart { alternates path.now ≡ true }
    ensures dropped { IfOk result
        (λ gone. DropsStates (K.seen keeper.old).kept
        (K.seen keeper.new).kept path.now gone.items) }
    ensures unless { IfOk result
        (λ gone. LeavesOthers (K.seen keeper.old).kept
        (K.seen keeper.new).kept path.now gone.items) }
    ensures others { OnOk result
        (SameOutside 6 10 (K.seen keeper.old).kept (K.seen keeper.new).kept) }
    ensures grammar { OnOk result (InGrammar (K.seen keeper.new).kept) }
    ensures writes { OnOk result (WritesWithin (length path.now + 2) (K.seen keeper.old)
        (K.seen keeper.new)) }
    ensures counts { NeverFall (K.seen keeper.old) (K.seen keeper.new) }
    ensures steps { Steps (K.seen keeper.old) (K.seen keeper.new) result TabError.Fault }
{
    match states_along(alloc, keeper, path) {
        Ok(Some(numbers)) => match drop_dead(alloc, keeper, path, &numbers) {
            Ok(gone) => Ok(gone),
            Err(error) => Err(error),
        },
        Ok(None) => Ok(Vec::new(alloc)),
        Err(error) => Err(error),
    }
}

/// Takes away the prefixes of a path, longest first, up to the first that stays. Each prefix but the empty one has its
/// number in `numbers`.
fn drop_dead<K: Keeper>(
    alloc: Global,
    keeper: &mut K,
    path: &[u32],
    numbers: &[u32],
) -> Result<Vec<u32>, TabError>
    requires running { (K.seen keeper.old).running ≡ true }
    requires grammar { InGrammar (K.seen keeper.old).kept }
    requires states { HoldSome (K.seen keeper.old).kept path.now }
    requires along { AreAlong (K.seen keeper.old).kept path.now numbers.now }
    ensures dropped { IfOk result
        (λ gone. DropsStates (K.seen keeper.old).kept
        (K.seen keeper.new).kept path.now gone.items) }
    ensures others { OnOk result
        (SameOutside 6 10 (K.seen keeper.old).kept (K.seen keeper.new).kept) }
    ensures grammar { OnOk result (InGrammar (K.seen keeper.new).kept) }
    ensures writes { OnOk result (WritesWithin (length path.now + 2) (K.seen keeper.old)
        (K.seen keeper.new)) }
    ensures counts { NeverFall (K.seen keeper.old) (K.seen keeper.new) }
    ensures steps { Steps (K.seen keeper.old) (K.seen keeper.new) result TabError.Fault }
{
    let mut gone = Vec::new(alloc);
    for back in 0..numbers.len() {
        let left = numbers.len() - back;
        let wid = numbers[left - 1];
        match is_needed(alloc, keeper, wid, left + 1) {
            Ok(true) => return Ok(gone),
            Ok(false) => {}
            Err(error) => return Err(error),
        }
        match drop_state(alloc, keeper, wid) {
            Ok(()) => {}
            Err(error) => return Err(error),
        }
        match gone.push(wid) {
            Ok(()) => {}
            Err(_) => {
                keeper.undo();
                return Err(TabError::Memory);
            }
        }
    }
    Ok(gone)
}
