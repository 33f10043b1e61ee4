// The rows of a keeper in another one.
ghost use Rattle.std.specs.Prelude.{◌≡◌, false, IfOk};

use crate::tests::quiet_keeper;
use bdb_keep::Keeper;
use bdb_memory::MemKeeper;
use std::alloc::Global;
use std::test::Fail;

/// The tables of a keeper.
const TABLES: [u8; 15] = [1, 2, 3, 4, 5, 6, 7, 8, 9, 10, 11, 12, 13, 14, 15];

/// How many rows of a table are copied at most.
const MOST_ROWS: u32 = 100_000;

/// A keeper that doesn't fail with the rows of another one.
pub(crate) fn copy_of(alloc: Global, from: &mut MemKeeper) -> Result<MemKeeper, Fail>
    ensures idle { IfOk result (λ copy. copy.seen.running ≡ false) }
{
    let mut copy = quiet_keeper(alloc);
    copy_rows(alloc, from, &mut copy)?;
    Ok(copy)
}

/// Presets a keeper's rows in another one. They are read one after the other.
pub(crate) fn copy_rows(
    alloc: Global,
    from: &mut MemKeeper,
    copy: &mut MemKeeper,
) -> Result<(), Fail>
    requires idle { copy.old.seen.running ≡ false }
    ensures idle { copy.new.seen.running ≡ false }
{
    for tab in TABLES {
        copy_table(alloc, tab, from, copy)?;
    }
    Ok(())
}

/// Copies the rows of a table.
fn copy_table(
    alloc: Global,
    tab: u8,
    from: &mut MemKeeper,
    copy: &mut MemKeeper,
) -> Result<(), Fail>
    requires idle { copy.old.seen.running ≡ false }
    ensures idle { copy.new.seen.running ≡ false }
{
    let mut low = Vec::new(alloc);
    for _ in 0..MOST_ROWS {
        if !copy_row(alloc, tab, &mut low, from, copy)? {
            return Ok(());
        }
    }
    Err(Fail::new("there are too many rows"))
}

/// Copies the row of the least key that isn't below `low`, and makes `low` the next key; false where there is none.
fn copy_row(
    alloc: Global,
    tab: u8,
    low: &mut Vec<u8>,
    from: &mut MemKeeper,
    copy: &mut MemKeeper,
) -> Result<bool, Fail>
    requires idle { copy.old.seen.running ≡ false }
    ensures idle { copy.new.seen.running ≡ false }
{
    let mut key = Vec::new(alloc);
    let mut row = Vec::new(alloc);
    if tab == 0 || 15 < tab {
        return Ok(false);
    }
    if !from.next(tab, low.as_slice(), &mut key, &mut row)? {
        return Ok(false);
    }
    copy.preset(tab, key.as_slice(), row.as_slice())?;
    key.push(0)?;
    *low = key;
    Ok(true)
}
