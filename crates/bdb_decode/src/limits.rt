// Whether the worlds of tables of any bytes, and the statements that their rows make, are within the limits of a base.
ghost use Rattle.std.specs.Prelude.{◌≡◌, nat_lt, length, IfOk};
ghost use Rattle.std.specs.Bool.{MatchBool};
ghost use Rattle.bdb_base.specs.Limits.{most_statements};
ghost use Rattle.bdb_decode.specs.Limits.{AreWithinLimits, is_shallow};
ghost use Rattle.bdb_decode.specs.Parts.{StoreNone};
ghost use Rattle.bdb_tables.specs.Reading.{OnlyReads};

use bdb_base::Stmt;
use bdb_base::limits::{DEEPEST_STATEMENT, MOST_STATEMENTS, MOST_WORLDS};
use bdb_entries::next_raw;
use bdb_keep::Keeper;
use bdb_tables::{DepthTab, Room, TabError};
use std::alloc::Global;

/// Whether the worlds are not more than a base may have, and none is deeper than the path of a statement may be. False only
/// where the tables store no valid base. One read for each world and one more; none is kept, and none is read behind the first
/// that is too many or too deep. To be asked before the worlds are named, which takes as much memory as all paths together.
pub fn worlds_are_within_limits<K: Keeper>(alloc: Global, keeper: &mut K) -> Result<bool, TabError>
    ensures within { IfOk result
        (λ within. MatchBool within (AreWithinLimits (K.seen keeper.old).kept)
        (StoreNone (K.seen keeper.old).kept)) }
    ensures reading { OnlyReads (K.seen keeper.old) (K.seen keeper.new) result TabError.Fault }
{
    let mut low = Vec::new(alloc);
    let mut room = Room::new(alloc);
    for many in 0..MOST_WORLDS + 1 {
        match next_raw::<DepthTab, K>(alloc, keeper, &mut low, &mut room) {
            Ok(Some(Some(row))) => {
                if !is_shallow(&row) {
                    return Ok(false);
                }
            }
            Ok(Some(None)) => return Ok(true),
            Ok(None) => return Ok(false),
            Err(error) => return Err(error),
        }
    }
    Ok(false)
}

// Whether the world of a row is no deeper than the path of a statement may be.
fn is_shallow(row: &(u32, u32)) -> bool
    ensures { result ≡ is_shallow row.now }
{
    row.1 as usize <= DEEPEST_STATEMENT
}

/// Whether statements are more than a base may have.
pub fn are_too_many(stmts: &[Stmt]) -> bool
    ensures { result ≡ nat_lt most_statements (length stmts.now) }
{
    MOST_STATEMENTS < stmts.len()
}
