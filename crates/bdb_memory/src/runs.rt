// Putting and taking away rows beside the place that was used last: right behind it, or where a new place belongs near it.
ghost use Rattle.std.specs.Prelude.{◌≡◌, Some, None, IfSome, IfNone, OnSome};
ghost use Rattle.bdb_memory.specs.Entries.{place_at, row_of, IsSetAt};
ghost use Rattle.bdb_memory.specs.Blocks.{joined, AreSorted};

use crate::beside::is_last_for;
use crate::cursors::Cursor;
use crate::row::Row;
use crate::shelf::Shelf;
use crate::shelves::{cut_full, has_room};
use crate::words::Probe;
use std::alloc::Global;

/// Puts a row at a place, and answers where, whether the place is new, and the row that stood there. None, and nothing changes, where the
/// place doesn't come right behind the cursor, or memory runs out.
#[inline(always)]
pub fn put_behind(
    alloc: Global,
    shelves: &mut Vec<Shelf>,
    cursor: Cursor,
    probe: &Probe<'_>,
    row: &[u8],
) -> Option<(Cursor, bool, Option<Row>)>
    requires { AreSorted shelves.old.items }
    ensures sorted { AreSorted shelves.new.items }
    ensures found { IfSome result
        (λ put. row_of (place_at (joined shelves.old.items) probe.now) ≡ put.2) }
    ensures set { OnSome result (IsSetAt (joined shelves.old.items) (joined shelves.new.items)
        probe.now (Some (Some row.now))) }
    ensures same { IfNone result (joined shelves.new.items ≡ joined shelves.old.items) }
{
    match put_on(alloc, shelves, cursor, probe, row) {
        Some((cursor, is_new, before)) => Some((cut_if_full(shelves, cursor), is_new, before)),
        None => None,
    }
}

/// Cuts the shelf of a cursor in two where it is full, and answers where the cursor is then.
#[inline(always)]
fn cut_if_full(shelves: &mut Vec<Shelf>, cursor: Cursor) -> Cursor
    requires { AreSorted shelves.old.items }
    ensures sorted { AreSorted shelves.new.items }
    ensures same { joined shelves.new.items ≡ joined shelves.old.items }
{
    if has_room(shelves, cursor.0) {
        return cursor;
    }
    cut_full(shelves, cursor)
}

/// The same, where the shelf isn't cut.
#[inline(always)]
fn put_on(
    alloc: Global,
    shelves: &mut Vec<Shelf>,
    cursor: Cursor,
    probe: &Probe<'_>,
    row: &[u8],
) -> Option<(Cursor, bool, Option<Row>)>
    requires { AreSorted shelves.old.items }
    ensures sorted { AreSorted shelves.new.items }
    ensures found { IfSome result
        (λ put. row_of (place_at (joined shelves.old.items) probe.now) ≡ put.2) }
    ensures set { OnSome result (IsSetAt (joined shelves.old.items) (joined shelves.new.items)
        probe.now (Some (Some row.now))) }
    ensures same { IfNone result (joined shelves.new.items ≡ joined shelves.old.items) }
{
    let (at, spot) = cursor;
    if at >= shelves.len() {
        return None;
    }
    let is_last = is_last_for(shelves, cursor, probe);
    match shelves[at].put_behind(alloc, spot, is_last, probe, row) {
        Some((spot, is_new, before)) => Some(((at, spot), is_new, before)),
        None => None,
    }
}

/// Puts a row at a new place, and answers where. None, and nothing changes, where the place is there already, or isn't beside the cursor, or
/// memory runs out.
#[inline(always)]
pub fn add_beside(
    alloc: Global,
    shelves: &mut Vec<Shelf>,
    cursor: Cursor,
    probe: &Probe<'_>,
    row: &[u8],
) -> Option<Cursor>
    requires { AreSorted shelves.old.items }
    ensures sorted { AreSorted shelves.new.items }
    ensures absent { OnSome result (place_at (joined shelves.old.items) probe.now ≡ None) }
    ensures set { OnSome result (IsSetAt (joined shelves.old.items) (joined shelves.new.items)
        probe.now (Some (Some row.now))) }
    ensures same { IfNone result (joined shelves.new.items ≡ joined shelves.old.items) }
{
    match add_on(alloc, shelves, cursor, probe, row) {
        Some(cursor) => Some(cut_if_full(shelves, cursor)),
        None => None,
    }
}

/// The same, where the shelf isn't cut.
#[inline(always)]
fn add_on(
    alloc: Global,
    shelves: &mut Vec<Shelf>,
    cursor: Cursor,
    probe: &Probe<'_>,
    row: &[u8],
) -> Option<Cursor>
    requires { AreSorted shelves.old.items }
    ensures sorted { AreSorted shelves.new.items }
    ensures absent { OnSome result (place_at (joined shelves.old.items) probe.now ≡ None) }
    ensures set { OnSome result (IsSetAt (joined shelves.old.items) (joined shelves.new.items)
        probe.now (Some (Some row.now))) }
    ensures same { IfNone result (joined shelves.new.items ≡ joined shelves.old.items) }
{
    let (at, spot) = cursor;
    if at >= shelves.len() {
        return None;
    }
    let is_last = is_last_for(shelves, cursor, probe);
    match shelves[at].add_beside(alloc, spot, is_last, probe, row) {
        Some(spot) => Some((at, spot)),
        None => None,
    }
}

/// Empties a place, and answers where it stands, and the row that stood there. None, and nothing changes, where it isn't the first one
/// behind the cursor.
#[inline(always)]
pub fn empty_behind(
    shelves: &mut Vec<Shelf>,
    cursor: Cursor,
    probe: &Probe<'_>,
) -> Option<(Cursor, Option<Row>)>
    requires { AreSorted shelves.old.items }
    ensures sorted { AreSorted shelves.new.items }
    ensures found { IfSome result (λ before. place_at (joined shelves.old.items) probe.now
        ≡ Some before.1) }
    ensures set { OnSome result (IsSetAt (joined shelves.old.items) (joined shelves.new.items)
        probe.now (Some None)) }
    ensures same { IfNone result (joined shelves.new.items ≡ joined shelves.old.items) }
{
    let (at, spot) = cursor;
    if at >= shelves.len() {
        return None;
    }
    match shelves[at].empty_behind(spot, probe) {
        Some((spot, before)) => Some(((at, spot), before)),
        None => None,
    }
}
