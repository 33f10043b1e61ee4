// Numbers that are no keys.
ghost use Rattle.std.specs.Prelude.{◌≡◌, ◌+◌, ◌≤◌, ◌∷◌, IfOk, OnOk, is_some};
ghost use Rattle.std.specs.FinMap as tables;
ghost use Rattle.bdb_base.specs.Causes.{RoseBy};
ghost use Rattle.bdb_keep.specs.Calls.{IsRead};
ghost use Rattle.bdb_key.specs.Bytes.{num_bytes};
ghost use Rattle.bdb_tables.specs.Gaps.{IsFirstGap};

use crate::access::table_error;
use crate::tab::TabError;
use bdb_keep::Keeper;
use bdb_key::put_num;
use std::alloc::Global;

/// The least number from `low` on that is no key of the table `tab`, whose keys are one number each. No row is decoded. One
/// read for each number from `low` on that is a key, and one more.
pub fn first_gap<K: Keeper>(
    alloc: Global,
    keeper: &mut K,
    tab: u8,
    low: u32,
) -> Result<u32, TabError>
    requires table { (1 ≤ tab) × (tab ≤ 15) }
    ensures gap { IfOk result (IsFirstGap (K.seen keeper.old).kept tab low) }
    ensures reads { IfOk result
        (λ n. (K.seen keeper.new).reads + low ≤ (K.seen keeper.old).reads + (n + 1)) }
    ensures read { IsRead (K.seen keeper.old) (K.seen keeper.new) result TabError.Fault }
{
    let mut key = Vec::new(alloc);
    let mut row = Vec::new(alloc);
    for number in low..u32::MAX {
        match is_key(keeper, tab, number, &mut key, &mut row) {
            Ok(true) => {}
            Ok(false) => return Ok(number),
            Err(error) => return Err(error),
        }
    }
    keeper.undo();
    Err(TabError::Memory)
}

// Whether a number is a key of a table. `key` and `row` are room for bytes. One read.
fn is_key<K: Keeper>(
    keeper: &mut K,
    tab: u8,
    number: u32,
    key: &mut Vec<u8>,
    row: &mut Vec<u8>,
) -> Result<bool, TabError>
    requires table { (1 ≤ tab) × (tab ≤ 15) }
    ensures found { IfOk result
        (λ found. is_some (tables.get (K.seen keeper.old).kept (tab ∷ num_bytes number)) ≡ found) }
    ensures reads { OnOk result (RoseBy 1 (K.seen keeper.old).reads (K.seen keeper.new).reads) }
    ensures read { IsRead (K.seen keeper.old) (K.seen keeper.new) result TabError.Fault }
{
    key.clear();
    if put_num(key, number).is_err() {
        keeper.undo();
        return Err(TabError::Memory);
    }
    match keeper.get(tab, key, row) {
        Ok(found) => Ok(found),
        Err(error) => Err(table_error(error)),
    }
}
