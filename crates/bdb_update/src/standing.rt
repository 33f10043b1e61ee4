// Whether a statement stands.
ghost use Rattle.std.specs.Prelude.{◌≡◌, true, IfOk};
ghost use Rattle.bdb_keep.specs.Calls.{IsRead};
ghost use Rattle.bdb_update.specs.Calls.{SomeMayMeet};
ghost use Rattle.bdb_update.specs.Examining.{StandsThere, says_stands};

use crate::looking::{Prospect, examine};
use bdb_base::Stmt;
use bdb_canon::Counts;
use bdb_keep::Keeper;
use bdb_tables::TabError;
use std::alloc::Global;

/// Whether a statement stands in the base that the tables store, whose sizes are `counts`. It reads the states of its path, the
/// rows of its relation and key there, and the number of its tuple.
pub fn stands<K: Keeper>(
    alloc: Global,
    keeper: &mut K,
    counts: &Counts,
    stmt: &Stmt,
) -> Result<bool, TabError>
    requires running { (K.seen keeper.old).running ≡ true }
    requires base { SomeMayMeet (K.seen keeper.old).kept counts.now stmt.now }
    ensures stands { IfOk result (StandsThere (K.seen keeper.old).kept counts.now stmt.now) }
    ensures read { IsRead (K.seen keeper.old) (K.seen keeper.new) result TabError.Fault }
{
    match examine(alloc, keeper, stmt, counts) {
        Ok(verdict) => Ok(says_stands(&verdict)),
        Err(error) => Err(error),
    }
}

/// What is said of a statement is that it stands.
fn says_stands(verdict: &Prospect) -> bool
    ensures { result ≡ says_stands verdict.now }
{
    match verdict {
        Prospect::Stands => true,
        Prospect::Clashes(_) => false,
        Prospect::Fills(_) => false,
        Prospect::Fits(_) => false,
    }
}
