// States along a path that come to be.
ghost use Rattle.std.specs.Prelude.{◌≡◌, ◌+◌, true, IfOk, OnOk, length};
ghost use Rattle.bdb_base.specs.Alternation.{alternates};
ghost use Rattle.bdb_keep.specs.Seen.{NeverFall, Steps};
ghost use Rattle.bdb_tables.specs.Grammar.{InGrammar};
ghost use Rattle.bdb_worlds.specs.Bounds.{WritesWithin};
ghost use Rattle.bdb_worlds.specs.Growth.{AddsStates, SomeMayGrow, SameOutside};

use crate::free::free_number;
use crate::reach::longest_state;
use crate::taking::add_next;
use bdb_keep::Keeper;
use bdb_tables::TabError;
use std::alloc::Global;

/// Makes states of all prefixes of a path, where the tables hold as many states as `worlds`: the numbers of the new
/// states, shortest first. Each is the least number that was not in use. For each place at which the rows before and
/// after differ, no more writes are made than the path has users, and two.
pub fn add_states<K: Keeper>(
    alloc: Global,
    keeper: &mut K,
    path: &[u32],
    worlds: u32,
) -> Result<Vec<u32>, TabError>
    requires running { (K.seen keeper.old).running ≡ true }
    requires grammar { InGrammar (K.seen keeper.old).kept }
    requires room { SomeMayGrow (K.seen keeper.old).kept path.now worlds }
    requires apart { alternates path.now ≡ true }
    ensures added { IfOk result
        (λ new. AddsStates (K.seen keeper.old).kept
        (K.seen keeper.new).kept path.now worlds new.items) }
    ensures others { OnOk result
        (SameOutside 6 10 (K.seen keeper.old).kept (K.seen keeper.new).kept) }
    ensures grammar { OnOk result (InGrammar (K.seen keeper.new).kept) }
    ensures writes { OnOk result (WritesWithin (length path.now + 2) (K.seen keeper.old)
        (K.seen keeper.new)) }
    ensures counts { NeverFall (K.seen keeper.old) (K.seen keeper.new) }
    ensures steps { Steps (K.seen keeper.old) (K.seen keeper.new) result TabError.Fault }
{
    let (len, start) = match longest_state(alloc, keeper, path) {
        Ok(found) => found,
        Err(error) => return Err(error),
    };
    let mut numbers = Vec::new(alloc);
    let mut at = start;
    let mut low = 0;
    let mut count = worlds;
    for k in len..path.len() {
        let number = match free_number(alloc, keeper, count, low) {
            Ok(number) => number,
            Err(error) => return Err(error),
        };
        match add_next(alloc, keeper, at, path[k], k as u32 + 1, number) {
            Ok(()) => {}
            Err(error) => return Err(error),
        }
        match numbers.push(number) {
            Ok(()) => {}
            Err(_) => {
                keeper.undo();
                return Err(TabError::Memory);
            }
        }
        at = number;
        low = number;
        count += 1;
    }
    Ok(numbers)
}
