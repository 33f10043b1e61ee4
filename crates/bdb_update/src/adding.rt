// Adding a statement.
ghost use Rattle.std.specs.Prelude.{◌≡◌, ◌+◌, true, length, OnOk};
ghost use Rattle.bdb_keep.specs.Seen.{NeverFall};
ghost use Rattle.bdb_update.specs.Bounds.{WritesWithinMore};
ghost use Rattle.bdb_update.specs.Calls.{Adds, SomeMayMeet};
ghost use Rattle.bdb_update.specs.Keeping.{KeepsNumbers, TakesLeastNames};
ghost use Rattle.bdb_update.specs.Numbering.{TakesLeast};

use crate::answer::{Added, UpdateError};
use crate::trying::try_add;
use bdb_base::Stmt;
use bdb_canon::Counts;
use bdb_keep::Keeper;
use std::alloc::Global;

/// Adds a statement to the base that the tables store, whose sizes are `counts`, and settles the rows of the worlds that
/// inherit it. `Already` comes exactly where it stands, `Clash` exactly where a statement of its path clashes with it, with
/// the least such one, and `Full` exactly where none clashes and the base would pass a limit, with the first of worlds,
/// tuples and statements. At each of these nothing is written. Worlds and tuples keep their numbers. A tuple that had none
/// gets the least one not in use, and so do the worlds that come, shortest path first. For each place at which the rows before
/// and after differ, no more writes are made than the path has users, and two, and eight more in all.
pub fn add_statement<K: Keeper>(
    alloc: Global,
    keeper: &mut K,
    counts: &mut Counts,
    stmt: &Stmt,
) -> Result<Added, UpdateError>
    requires running { (K.seen keeper.old).running ≡ true }
    requires base { SomeMayMeet (K.seen keeper.old).kept counts.old stmt.now }
    ensures added { Adds (K.seen keeper.old) (K.seen keeper.new)
        counts.old counts.new stmt.now result }
    ensures keeps { OnOk result (KeepsNumbers (K.seen keeper.old).kept (K.seen keeper.new).kept) }
    ensures worlds { OnOk result
        (TakesLeastNames (K.seen keeper.old).kept (K.seen keeper.new).kept stmt.now.path) }
    ensures number { OnOk result
        (TakesLeast (K.seen keeper.old).kept (K.seen keeper.new).kept stmt.now.tuple) }
    ensures writes { OnOk result (WritesWithinMore (length stmt.now.path + 2) 8 (K.seen keeper.old)
        (K.seen keeper.new)) }
    ensures counts { NeverFall (K.seen keeper.old) (K.seen keeper.new) }
{
    match try_add(alloc, keeper, counts, stmt) {
        Ok(Some(next)) => {
            *counts = next;
            Ok(Added::New)
        }
        Ok(None) => Ok(Added::Already),
        Err(error) => Err(error),
    }
}
