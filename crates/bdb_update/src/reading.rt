// Whether statements have a tuple, by how many of its rows are explicit.
ghost use Rattle.std.specs.Prelude.{IfOk};
ghost use Rattle.bdb_keep.specs.Calls.{IsRead};
ghost use Rattle.bdb_keep.specs.Marked.{IsMarkedCount};
ghost use Rattle.bdb_update.specs.Reads.{TellsTold};

use bdb_keep::{Keeper, KeyEnd};
use bdb_tables::{Tab, TabError, ValTab, table_error};

/// Whether a statement of the stored base has the tuple of a number: whether some world has an explicit row of it. One read,
/// however many worlds there are.
pub fn is_told<K: Keeper>(keeper: &mut K, tid: u32) -> Result<bool, TabError>
    ensures told { IfOk result (TellsTold (K.seen keeper.old).kept tid) }
    ensures read { IsRead (K.seen keeper.old) (K.seen keeper.new) result TabError.Fault }
{
    match count_told(keeper, tid) {
        Ok(count) => Ok(count > 0),
        Err(error) => Err(error),
    }
}

/// How many worlds have an explicit row of the tuple of a number: one for each path at which a statement has the tuple. One
/// read.
pub fn count_told<K: Keeper>(keeper: &mut K, tid: u32) -> Result<usize, TabError>
    ensures counted { IfOk result
        (IsMarkedCount (K.seen keeper.old).kept 11 KeyEnd.Last tid) }
    ensures read { IsRead (K.seen keeper.old) (K.seen keeper.new) result TabError.Fault }
{
    match keeper.count_marked(ValTab::NUMBER, KeyEnd::Last, tid) {
        Ok(count) => Ok(count),
        Err(error) => Err(table_error(error)),
    }
}
