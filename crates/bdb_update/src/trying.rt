// Trying to add a statement.
ghost use Rattle.std.specs.Prelude.{◌≡◌, ◌+◌, ◌-◌, ◌^◌, ◌<◌, ◌≤◌, true, length, OnOk};
ghost use Rattle.bdb_keep.specs.Seen.{NeverFall};
ghost use Rattle.bdb_update.specs.Bounds.{WritesWithinMore};
ghost use Rattle.bdb_update.specs.Calls.{SomeMayMeet};
ghost use Rattle.bdb_update.specs.Examining.{AreSizes};
ghost use Rattle.bdb_update.specs.Keeping.{KeepsNumbers, TakesLeastNames};
ghost use Rattle.bdb_update.specs.Numbering.{TakesLeast};
ghost use Rattle.bdb_update.specs.Trying.{Tries, stopped_by};

use crate::answer::UpdateError;
use crate::inserting::{Moved, insert};
use crate::looking::{Prospect, Ready, examine};
use bdb_base::Stmt;
use bdb_canon::Counts;
use bdb_keep::Keeper;
use bdb_tables::TabError;
use std::alloc::Global;

/// Adds a statement to the base that the tables store, whose sizes are `counts`. It tells the sizes with it, or nothing where
/// it stood.
pub fn try_add<K: Keeper>(
    alloc: Global,
    keeper: &mut K,
    counts: &Counts,
    stmt: &Stmt,
) -> Result<Option<Counts>, UpdateError>
    requires running { (K.seen keeper.old).running ≡ true }
    requires base { SomeMayMeet (K.seen keeper.old).kept counts.now stmt.now }
    ensures tried { Tries (K.seen keeper.old) (K.seen keeper.new) counts.now stmt.now result }
    ensures keeps { OnOk result (KeepsNumbers (K.seen keeper.old).kept (K.seen keeper.new).kept) }
    ensures least { OnOk result
        (TakesLeastNames (K.seen keeper.old).kept (K.seen keeper.new).kept stmt.now.path) }
    ensures number { OnOk result
        (TakesLeast (K.seen keeper.old).kept (K.seen keeper.new).kept stmt.now.tuple) }
    ensures writes { OnOk result (WritesWithinMore (length stmt.now.path + 2) 8 (K.seen keeper.old)
        (K.seen keeper.new)) }
    ensures counts { NeverFall (K.seen keeper.old) (K.seen keeper.new) }
{
    let ready = match examine(alloc, keeper, stmt, counts) {
        Ok(Prospect::Fits(ready)) => ready,
        Ok(Prospect::Stands) => return Ok(None),
        Ok(Prospect::Clashes(least)) => return Err(UpdateError::Clash(least)),
        Ok(Prospect::Fills(what)) => return Err(UpdateError::Full(what)),
        Err(error) => return Err(stopped_by(error)),
    };
    match insert(alloc, keeper, stmt, &ready, counts.worlds, counts.tuples) {
        Ok(moved) => Ok(Some(counts_after(counts, &ready, moved))),
        Err(error) => Err(stopped_by(error)),
    }
}

/// Why nothing is changed, where tables could not be read or written.
pub fn stopped_by(error: TabError) -> UpdateError
    ensures { result ≡ stopped_by error }
{
    match error {
        TabError::Fault => UpdateError::Fault,
        TabError::Memory => UpdateError::Memory,
    }
}

// The sizes after a statement has joined a base.
fn counts_after(counts: &Counts, ready: &Ready, moved: Moved) -> Counts
    requires came { counts.now.rows + moved.came < 2 ^ 32 }
    requires went { moved.went ≤ counts.now.rows + moved.came }
    ensures sizes { AreSizes result ready.now.next }
    ensures rows { result.rows ≡ counts.now.rows + moved.came - moved.went }
{
    let rows = counts.rows as usize + moved.came - moved.went;
    Counts {
        worlds: ready.next.worlds,
        tuples: ready.next.tuples,
        stmts: ready.next.stmts,
        rows: rows as u32,
    }
}
