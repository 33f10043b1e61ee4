// Changing statements of one path.
ghost use Rattle.std.specs.Prelude.{◌≡◌, true, OnOk};
ghost use Rattle.bdb_keep.specs.Seen.{NeverFall};
ghost use Rattle.bdb_update.specs.Calls.{Changes, SomeMayChange};
ghost use Rattle.bdb_update.specs.Keeping.{ChangeKeeps};
ghost use Rattle.bdb_update.specs.Steps.{ChangesThrough};

use crate::answer::UpdateError;
use crate::replacing::replace;
use crate::trying::stopped_by;
use crate::weighing::{Weight, weigh};
use bdb_base::{Stmt, What};
use bdb_canon::Counts;
use bdb_keep::Keeper;
use std::alloc::Global;

/// Puts statements of a path in place of others of it, in the base that the tables store, whose sizes are `counts`. `Clash`
/// comes exactly where two statements of the path would clash then, with the least that clashes with another, and `Full`
/// exactly where none would and there would be too many tuples; at both nothing is written. Worlds and tuples of statements
/// that stay keep their numbers. It reads the path's rows, and makes at most two reads for each statement that goes and one for
/// each that comes, however many worlds there are; then it takes statements away and adds others, one after the other. For each
/// of them there are no more writes than `drop_statement` or `add_statement` makes for it.
pub fn change_statements<K: Keeper>(
    alloc: Global,
    keeper: &mut K,
    counts: &mut Counts,
    path: &[u32],
    gone: &[Stmt],
    come: &[Stmt],
) -> Result<(), UpdateError>
    requires running { (K.seen keeper.old).running ≡ true }
    requires base { SomeMayChange (K.seen keeper.old).kept counts.old path.now gone.now come.now }
    ensures changed { Changes (K.seen keeper.old) (K.seen keeper.new)
        counts.old counts.new path.now gone.now come.now result }
    ensures keeps { OnOk result
        (ChangeKeeps counts.old path.now gone.now come.now (K.seen keeper.old)
        (K.seen keeper.new)) }
    ensures writes { OnOk result
        (ChangesThrough counts.old path.now gone.now come.now (K.seen keeper.old)
        (K.seen keeper.new)) }
    ensures counts { NeverFall (K.seen keeper.old) (K.seen keeper.new) }
{
    let first = match gone.first() {
        Some(first) => first,
        None => return Ok(()),
    };
    match weigh(alloc, keeper, counts, &first.path, gone, come) {
        Ok(Weight::Fits) => {}
        Ok(Weight::Clashes(least)) => return Err(UpdateError::Clash(least)),
        Ok(Weight::Fills) => return Err(UpdateError::Full(What::Tuples)),
        Err(error) => return Err(stopped_by(error)),
    }
    match replace(alloc, keeper, counts, gone, come) {
        Ok(next) => {
            *counts = next;
            Ok(())
        }
        Err(error) => Err(stopped_by(error)),
    }
}
