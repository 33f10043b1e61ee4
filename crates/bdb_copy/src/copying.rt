// A copy of all rows, spelled as this format spells them.
ghost use Rattle.std.specs.Prelude.{◌≡◌, ◌≤◌, ◌+◌, [], ◌∷◌, false, IfOk, OnOk};
ghost use Rattle.std.specs.FinMap as tables;
ghost use Rattle.bdb_keep.specs.Calls.{IsRead};
ghost use Rattle.bdb_keep.specs.Scans.{next_key};
ghost use Rattle.bdb_keep.specs.Seen.{NeverFall, Steps};
ghost use Rattle.bdb_keep.specs.Tables.{LieInTables};
ghost use Rattle.bdb_former.specs.Respelled.{below, respelled, respelled_place, respelled_row};

use bdb_former::{respelled_key, respelled_row};
use bdb_keep::{KeepError, Keeper};
use bdb_memory::QuietKeeper;
use bdb_tables::TABLES;
use std::alloc::{AllocError, Global};

/// A keeper in memory that has all rows, each as this format spells it. Nothing is written to the keeper that is read: a read for
/// each row, and one more for each table.
pub fn respelled_copy<K: Keeper>(alloc: Global, keeper: &mut K) -> Result<QuietKeeper, KeepError>
    requires tables { LieInTables (K.seen keeper.old).kept }
    ensures copy { IfOk result (λ copy. copy.kept ≡ respelled (K.seen keeper.old).kept) }
    ensures still { IfOk result (λ copy. copy.running ≡ false) }
    ensures kept { OnOk result ((K.seen keeper.new).kept ≡ (K.seen keeper.old).kept) }
    ensures writes { (K.seen keeper.new).writes ≡ (K.seen keeper.old).writes }
    ensures counts { NeverFall (K.seen keeper.old) (K.seen keeper.new) }
    ensures steps { Steps (K.seen keeper.old) (K.seen keeper.new) result KeepError.Fault }
{
    let mut copy = QuietKeeper::new(alloc);
    for before in 0..TABLES {
        match copy_table(alloc, keeper, before + 1, &mut copy) {
            Ok(()) => {}
            Err(error) => return Err(error),
        }
    }
    Ok(copy)
}

// Adds the rows of a table to a copy that has those of the tables before it.
fn copy_table<K: Keeper>(
    alloc: Global,
    keeper: &mut K,
    tab: u8,
    copy: &mut QuietKeeper,
) -> Result<(), KeepError>
    requires table { (1 ≤ tab) × (tab ≤ 15) }
    requires still { copy.old.running ≡ false }
    requires before { copy.old.kept ≡ respelled (below (tab ∷ []) (K.seen keeper.old).kept) }
    ensures copied { OnOk result
        (copy.new.kept ≡ respelled (below ((tab + 1) ∷ []) (K.seen keeper.old).kept)) }
    ensures still { OnOk result (copy.new.running ≡ false) }
    ensures read { IsRead (K.seen keeper.old) (K.seen keeper.new) result KeepError.Fault }
{
    let mut low = Vec::new(alloc);
    let mut key = Vec::new(alloc);
    let mut row = Vec::new(alloc);
    for _ in 0..u64::MAX {
        match keeper.next(tab, &low, &mut key, &mut row) {
            Ok(true) => {}
            Ok(false) => return Ok(()),
            Err(error) => return Err(error),
        }
        match copy_row(alloc, copy, tab, &key, &row, &mut low) {
            Ok(()) => {}
            Err(_) => {
                keeper.undo();
                return Err(KeepError::Memory);
            }
        }
    }
    keeper.undo();
    Err(KeepError::Memory)
}

// Adds a row to a copy. `low` becomes the least key behind the row's.
fn copy_row(
    alloc: Global,
    copy: &mut QuietKeeper,
    tab: u8,
    key: &[u8],
    row: &[u8],
    low: &mut Vec<u8>,
) -> Result<(), AllocError>
    requires table { (1 ≤ tab) × (tab ≤ 15) }
    requires still { copy.old.running ≡ false }
    ensures copied { OnOk result
        (copy.new.kept ≡ tables.insert copy.old.kept (respelled_place (tab ∷ key.now))
        (respelled_row tab row.now)) }
    ensures still { OnOk result (copy.new.running ≡ false) }
    ensures low { OnOk result (low.new.items ≡ next_key key.now) }
{
    let spelled_key = respelled_key(alloc, tab, key)?;
    let spelled_row = respelled_row(alloc, tab, row)?;
    copy.preset(tab, &spelled_key, &spelled_row)?;
    set_behind(low, key)?;
    Ok(())
}

// The least key behind a key.
fn set_behind(low: &mut Vec<u8>, key: &[u8]) -> Result<(), AllocError>
    ensures { OnOk result (low.new.items ≡ next_key key.now) }
{
    low.clear();
    low.extend_from_slice(key)?;
    low.push(0)?;
    Ok(())
}
