// Taking all rows of tables away.
ghost use Rattle.std.specs.Prelude.{◌≡◌, ◌≤◌, true, OnOk};
ghost use Rattle.bdb_keep.specs.Seen.{NeverFall, Steps};
ghost use Rattle.bdb_keep.specs.Tables.{LieInTables};
ghost use Rattle.bdb_stored.specs.Writing.{IsCleared};
ghost use Rattle.bdb_update.specs.StoredLaws.{HaveNoRows};

use bdb_keep::Keeper;
use bdb_tables::{TABLES, TabError, table_error};
use std::alloc::Global;

/// Takes all rows away, whatever they are. Two calls for each row, and one for each table.
pub fn clear_tables<K: Keeper>(alloc: Global, keeper: &mut K) -> Result<(), TabError>
    requires running { (K.seen keeper.old).running ≡ true }
    ensures cleared { OnOk result (HaveNoRows (K.seen keeper.new).kept) }
    ensures counts { NeverFall (K.seen keeper.old) (K.seen keeper.new) }
    ensures steps { Steps (K.seen keeper.old) (K.seen keeper.new) result TabError.Fault }
{
    for before in 0..TABLES {
        match clear_table(alloc, keeper, before + 1) {
            Ok(()) => {}
            Err(error) => return Err(error),
        }
    }
    Ok(())
}

// Takes the rows of one table away.
fn clear_table<K: Keeper>(alloc: Global, keeper: &mut K, tab: u8) -> Result<(), TabError>
    requires table { (1 ≤ tab) × (tab ≤ 15) }
    requires running { (K.seen keeper.old).running ≡ true }
    ensures cleared { OnOk result
        (IsCleared tab (K.seen keeper.old).kept (K.seen keeper.new).kept) }
    ensures tables { OnOk result (LieInTables (K.seen keeper.new).kept) }
    ensures counts { NeverFall (K.seen keeper.old) (K.seen keeper.new) }
    ensures steps { Steps (K.seen keeper.old) (K.seen keeper.new) result TabError.Fault }
{
    let mut key = Vec::new(alloc);
    let mut row = Vec::new(alloc);
    for _ in 0..u64::MAX {
        match keeper.next(tab, &[], &mut key, &mut row) {
            Ok(true) => {}
            Ok(false) => return Ok(()),
            Err(error) => return Err(table_error(error)),
        }
        match keeper.remove(tab, &key) {
            Ok(_) => {}
            Err(error) => return Err(table_error(error)),
        }
    }
    keeper.undo();
    Err(TabError::Memory)
}
