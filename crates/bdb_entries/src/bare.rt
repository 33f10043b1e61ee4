// Tables with no row.
ghost use Rattle.std.specs.Prelude.{◌≤◌, IfOk};
ghost use Rattle.std.specs.Bool.{MatchBool};
ghost use Rattle.bdb_keep.specs.Calls.{IsRead};
ghost use Rattle.bdb_keep.specs.Tables.{LieInTables};
ghost use Rattle.bdb_entries.specs.Reading.{IsBare, OthersAreBare};
ghost use Rattle.bdb_tables.specs.Reading.{OnlyReads};

use bdb_keep::Keeper;
use bdb_tables::{TABLES, TabError, table_error};
use std::alloc::Global;

/// The first of the tables that have no row in this format: that of statements by path, and those behind it.
const FIRST_BARE: u8 = 12;

/// Whether each table that has no row in this format has none. One read for each.
pub fn others_are_bare<K: Keeper>(alloc: Global, keeper: &mut K) -> Result<bool, TabError>
    requires tables { LieInTables (K.seen keeper.old).kept }
    ensures bare { IfOk result (λ bare. MatchBool bare (OthersAreBare (K.seen keeper.old).kept)
        (OthersAreBare (K.seen keeper.old).kept → ⊥)) }
    ensures reading { OnlyReads (K.seen keeper.old) (K.seen keeper.new) result TabError.Fault }
{
    for tab in FIRST_BARE..TABLES + 1 {
        match is_bare(alloc, keeper, tab) {
            Ok(true) => {}
            Ok(false) => return Ok(false),
            Err(error) => return Err(error),
        }
    }
    Ok(true)
}

/// Whether a table has no row. One read.
pub fn is_bare<K: Keeper>(alloc: Global, keeper: &mut K, tab: u8) -> Result<bool, TabError>
    requires table { (1 ≤ tab) × (tab ≤ 15) }
    ensures bare { IfOk result (λ bare. MatchBool bare (IsBare (K.seen keeper.old).kept tab)
        (IsBare (K.seen keeper.old).kept tab → ⊥)) }
    ensures tables { LieInTables (K.seen keeper.old).kept }
    ensures read { IsRead (K.seen keeper.old) (K.seen keeper.new) result TabError.Fault }
{
    let mut key = Vec::new(alloc);
    let mut row = Vec::new(alloc);
    match keeper.next(tab, &[], &mut key, &mut row) {
        Ok(true) => Ok(false),
        Ok(false) => Ok(true),
        Err(error) => Err(table_error(error)),
    }
}
