// Taking a statement away.
ghost use Rattle.std.specs.Prelude.{◌≡◌, ◌+◌, true, length, OnOk};
ghost use Rattle.bdb_keep.specs.Seen.{NeverFall};
ghost use Rattle.bdb_update.specs.Bounds.{WritesWithinMore};
ghost use Rattle.bdb_update.specs.Calls.{Drops, SomeMayMeet};
ghost use Rattle.bdb_update.specs.Keeping.{KeepsNumbers};

use crate::leaving::try_drop;
use bdb_base::Stmt;
use bdb_canon::Counts;
use bdb_keep::Keeper;
use bdb_tables::TabError;
use std::alloc::Global;

/// Takes a statement away from the base that the tables store, whose sizes are `counts`, and settles the rows of the worlds
/// that inherited it. Worlds and numbers of tuples that no statement has any more go, and all others keep their numbers. True
/// exactly where it stood; where it did not, nothing is written. For each place at which the rows before and after differ, no
/// more writes are made than the path has users, and two, and eight more in all.
pub fn drop_statement<K: Keeper>(
    alloc: Global,
    keeper: &mut K,
    counts: &mut Counts,
    stmt: &Stmt,
) -> Result<bool, TabError>
    requires running { (K.seen keeper.old).running ≡ true }
    requires base { SomeMayMeet (K.seen keeper.old).kept counts.old stmt.now }
    ensures dropped { Drops (K.seen keeper.old) (K.seen keeper.new)
        counts.old counts.new stmt.now result }
    ensures keeps { OnOk result (KeepsNumbers (K.seen keeper.new).kept (K.seen keeper.old).kept) }
    ensures writes { OnOk result (WritesWithinMore (length stmt.now.path + 2) 8 (K.seen keeper.old)
        (K.seen keeper.new)) }
    ensures counts { NeverFall (K.seen keeper.old) (K.seen keeper.new) }
{
    match try_drop(alloc, keeper, counts, stmt) {
        Ok(Some(next)) => {
            *counts = next;
            Ok(true)
        }
        Ok(None) => Ok(false),
        Err(error) => Err(error),
    }
}
