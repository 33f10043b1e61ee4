// Whether a world has an explicit row.
ghost use Rattle.std.specs.Prelude.{IfOk, OnOk};
ghost use Rattle.bdb_base.specs.Causes.{RoseBy};
ghost use Rattle.bdb_keep.specs.Calls.{IsRead};
ghost use Rattle.bdb_tables.specs.Explicit.{TellsExplicit};
ghost use Rattle.bdb_tables.specs.Grammar.{InGrammar};

use crate::access::table_error;
use crate::marks::MARKS;
use crate::tab::TabError;
use bdb_keep::{Keeper, KeyEnd};

/// Whether a world has an explicit row. One read.
pub fn has_explicit<K: Keeper>(keeper: &mut K, wid: u32) -> Result<bool, TabError>
    requires grammar { InGrammar (K.seen keeper.old).kept }
    ensures explicit { IfOk result (TellsExplicit (K.seen keeper.old).kept wid) }
    ensures reads { OnOk result (RoseBy 1 (K.seen keeper.old).reads (K.seen keeper.new).reads) }
    ensures read { IsRead (K.seen keeper.old) (K.seen keeper.new) result TabError.Fault }
{
    match keeper.count_marked(MARKS, KeyEnd::First, wid) {
        Ok(count) => Ok(count > 0),
        Err(error) => Err(table_error(error)),
    }
}
