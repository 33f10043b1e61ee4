// Finding and changing places beside the cursor that was set last. In work in the order of the places this is where they are, and no
// shelf is looked for.
ghost use Rattle.std.specs.Prelude.{◌≡◌, ◌<◌, [], true, false, Some, IfOk, IfErr, IfSome, OnOk, OnErr, length, slice_index_or};
ghost use Prim.Native.Nat.{suc};
ghost use Rattle.std.specs.Option.{option_copied};
ghost use Rattle.bdb_memory.specs.Entries.{place_at, row_of, IsSetAt};
ghost use Rattle.bdb_memory.specs.Blocks.{joined, starts_within, AreSorted};
ghost use Rattle.bdb_memory.specs.Shelves.{IsFirstRow};

use crate::cursors::Cursor;
use crate::entry::Entry;
use crate::row::Row;
use crate::shelf::Shelf;
use crate::shelves::{is_from, shelf_at};
use crate::words::Probe;

/// Where a place stands or would stand, and the row there, if there is one. None where it isn't beside the cursor.
#[inline(always)]
pub fn row_beside<'a>(
    shelves: &'a [Shelf],
    cursor: Cursor,
    probe: &Probe<'_>,
) -> Option<(Cursor, Option<&'a [u8]>)>
    requires { AreSorted shelves.now }
    ensures { IfSome result
        (λ found. option_copied found.1 ≡ row_of (place_at (joined shelves.now) probe.now)) }
{
    let (at, spot) = cursor;
    if at >= shelves.len() {
        return None;
    }
    match shelf_at(shelves, at).row_beside(spot, probe) {
        Some((spot, row)) => Some(((at, spot), row)),
        None => None,
    }
}

/// Where the first place stands that has a row and isn't below the one that is looked for, and its entry. None where it isn't beside
/// the cursor.
#[inline(always)]
pub fn first_row_beside<'a>(
    shelves: &'a [Shelf],
    cursor: Cursor,
    probe: &Probe<'_>,
) -> Option<(Cursor, &'a Entry)>
    requires { AreSorted shelves.now }
    ensures { IfSome result (λ first. IsFirstRow (joined shelves.now) probe.now first.1.now) }
{
    let (at, spot) = cursor;
    if at >= shelves.len() {
        return None;
    }
    match shelf_at(shelves, at).first_row_beside(spot, probe) {
        Some((spot, entry)) => Some(((at, spot), entry)),
        None => None,
    }
}

/// Puts what stands at a place, and answers where, and what stood there. The answer is the new row where no such place is beside the
/// cursor.
#[inline(always)]
pub fn swap_beside(
    shelves: &mut Vec<Shelf>,
    cursor: Cursor,
    probe: &Probe<'_>,
    row: Option<Row>,
) -> Result<(Cursor, Option<Row>), Option<Row>>
    requires { AreSorted shelves.old.items }
    ensures sorted { AreSorted shelves.new.items }
    ensures found { IfOk result (λ before. place_at (joined shelves.old.items) probe.now
        ≡ Some before.1) }
    ensures set { OnOk result (IsSetAt (joined shelves.old.items) (joined shelves.new.items)
        probe.now (Some row)) }
    ensures back { IfErr result (λ back. back ≡ row) }
    ensures same { OnErr result (joined shelves.new.items ≡ joined shelves.old.items) }
{
    let (at, spot) = cursor;
    if at >= shelves.len() {
        return Err(row);
    }
    match shelves[at].swap_beside(spot, probe, row) {
        Ok((spot, before)) => Ok(((at, spot), before)),
        Err(row) => Err(row),
    }
}

/// Whether it is known that nothing behind a cursor's shelf is at or below a place. It is looked at only where the cursor is in the last
/// block of the shelf: elsewhere what stands beside the cursor tells.
#[inline(always)]
pub fn is_last_for(shelves: &[Shelf], cursor: Cursor, probe: &Probe<'_>) -> bool
    requires { cursor.0 < length shelves.now }
    ensures { result ≡ true → suc cursor.0 < length shelves.now
        → starts_within probe.now (slice_index_or shelves.now (suc cursor.0) []) ≡ false }
{
    let (at, spot) = cursor;
    let is_in_last_block = spot.0.saturating_add(1) >= shelf_at(shelves, at).block_count();
    is_in_last_block && !is_from(shelves, at + 1, probe)
}
