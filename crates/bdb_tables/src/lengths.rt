// The length of the key of a stored relation.
ghost use Rattle.std.specs.Prelude.{◌≡◌, IfOk, OnOk};
ghost use Rattle.bdb_base.specs.Causes.{RoseBy};
ghost use Rattle.bdb_keep.specs.Calls.{IsRead};
ghost use Rattle.bdb_key.specs.Reading.{Reads};
ghost use Rattle.bdb_tables.specs.Codec.{IsRowOf};
ghost use Rattle.bdb_tables.specs.Grammar.{InGrammar};
ghost use Rattle.bdb_tables.specs.InUse.{rel_codec};
ghost use Rattle.bdb_tables.specs.Lengths.{HasKeyAt, IsKeyLength};

use crate::access::{fill_key, table_error};
use crate::room::Room;
use crate::tab::{Tab, TabError};
use crate::tabs::RelTab;
use bdb_base::RelDef;
use bdb_keep::Keeper;
use bdb_key::key_length_of;
use std::alloc::Global;

/// The length of the key of a relation, as its row has it; 1 where there is no row. One read.
pub fn stored_key_length<K: Keeper>(
    alloc: Global,
    keeper: &mut K,
    rel: u32,
) -> Result<u32, TabError>
    requires grammar { InGrammar (K.seen keeper.old).kept }
    ensures length { IfOk result (IsKeyLength (K.seen keeper.old).kept rel) }
    ensures row { IfOk result (HasKeyAt (K.seen keeper.old).kept rel) }
    ensures reads { OnOk result (RoseBy 1 (K.seen keeper.old).reads (K.seen keeper.new).reads) }
    ensures read { IsRead (K.seen keeper.old) (K.seen keeper.new) result TabError.Fault }
{
    let Room {
        mut key,
        mut row,
        ..
    } = Room::new(alloc);
    match fill_key::<RelTab>(&rel, &mut key) {
        Ok(()) => {}
        Err(_) => {
            keeper.undo();
            return Err(TabError::Memory);
        }
    }
    match keeper.get(RelTab::NUMBER, &key, &mut row) {
        Ok(true) => Ok(length_in(&row)),
        Ok(false) => Ok(1),
        Err(error) => Err(table_error(error)),
    }
}

// The length of the key of a relation's row.
fn length_in(row: &[u8]) -> u32
    requires { IsRowOf rel_codec row.now }
    ensures { (def : RelDef) → Reads rel_codec.IsRow rel_codec.row_bytes row.now def
        → result ≡ def.key }
{
    match key_length_of(row) {
        Some(length) => length,
        None => unreachable!(),
    }
}
