// Writing changes of rows.
ghost use Rattle.std.specs.Prelude.{◌≡◌, true, OnOk, length};
ghost use Rattle.std.specs.List.{AllByRecursion};
ghost use Rattle.bdb_base.specs.Causes.{Rises, RoseBy};
ghost use Rattle.bdb_keep.specs.Calls.{IsWrite};
ghost use Rattle.bdb_tables.specs.Grammar.{InGrammar};
ghost use Rattle.bdb_tables.specs.Writes.{IsChange, MayBeChange, with_change, with_changes};

use crate::access::{spell_key, spell_row, table_error};
use crate::tab::{Tab, TabError};
use bdb_keep::Keeper;
use std::alloc::Global;

/// Makes changes of rows, one after the other: each puts a row at its key, or takes the row there away. One write each.
pub fn write_rows<T: Tab, K: Keeper>(
    alloc: Global,
    keeper: &mut K,
    changes: &[(T::Key, Option<T::Row>)],
) -> Result<(), TabError>
    requires running { (K.seen keeper.old).running ≡ true }
    requires changes { AllByRecursion (MayBeChange T.codec) changes.now }
    ensures kept { OnOk result
        ((K.seen keeper.new).kept ≡ with_changes T.codec (K.seen keeper.old).kept changes.now) }
    ensures fits { OnOk result (AllByRecursion (IsChange T.codec) changes.now) }
    ensures grammar { OnOk result (InGrammar (K.seen keeper.old).kept
        → InGrammar (K.seen keeper.new).kept) }
    ensures writes { OnOk result (Rises (length changes.now) (K.seen keeper.old).writes
        (K.seen keeper.new).writes) }
    ensures write { IsWrite (K.seen keeper.old) (K.seen keeper.new) result TabError.Fault }
{
    let mut key = Vec::new(alloc);
    let mut row = Vec::new(alloc);
    for change in changes {
        match write_row::<T, K>(keeper, change, &mut key, &mut row) {
            Ok(()) => {}
            Err(error) => return Err(error),
        }
    }
    Ok(())
}

// Makes a change. `key` and `row` are room for bytes.
fn write_row<T: Tab, K: Keeper>(
    keeper: &mut K,
    change: &(T::Key, Option<T::Row>),
    key: &mut Vec<u8>,
    row: &mut Vec<u8>,
) -> Result<(), TabError>
    requires running { (K.seen keeper.old).running ≡ true }
    requires change { MayBeChange T.codec change.now }
    ensures kept { OnOk result
        ((K.seen keeper.new).kept ≡ with_change T.codec (K.seen keeper.old).kept change.now) }
    ensures fits { OnOk result (IsChange T.codec change.now) }
    ensures grammar { OnOk result (InGrammar (K.seen keeper.old).kept
        → InGrammar (K.seen keeper.new).kept) }
    ensures writes { OnOk result (RoseBy 1 (K.seen keeper.old).writes (K.seen keeper.new).writes) }
    ensures write { IsWrite (K.seen keeper.old) (K.seen keeper.new) result TabError.Fault }
{
    key.clear();
    row.clear();
    if spell_key::<T>(&change.0, key).is_err() {
        keeper.undo();
        return Err(TabError::Memory);
    }
    match &change.1 {
        Some(content) => {
            if spell_row::<T>(content, row).is_err() {
                keeper.undo();
                return Err(TabError::Memory);
            }
            match keeper.put(T::NUMBER, key, row) {
                Ok(()) => Ok(()),
                Err(error) => Err(table_error(error)),
            }
        }
        None => match keeper.remove(T::NUMBER, key) {
            Ok(_) => Ok(()),
            Err(error) => Err(table_error(error)),
        },
    }
}
