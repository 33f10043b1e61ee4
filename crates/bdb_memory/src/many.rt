// Rows that are put or taken away at once, with their changes.
ghost use Rattle.std.specs.Prelude.{◌≡◌, ◌≤◌, ◌∷◌, Some, None, IfOk, IfNone, OnSome, OnOk, IsSome, true, false};
ghost use Rattle.std.specs.FinMap as map;
ghost use Rattle.bdb_memory.specs.Entries.{place_at, rows_of, KeepsPlaces};
ghost use Rattle.bdb_memory.specs.Changes.{undone, HavePlaces};
ghost use Rattle.bdb_keep.specs.Spans.{with_rows, without_rows};
ghost use Rattle.bdb_keep.specs.Tables.{IsPlace};

use crate::changes::{PlaceChange, empty_place, put_row, take_row};
use crate::place::Place;
use crate::row::Row;
use crate::rows::PlacedRows;
use crate::words::Probe;
use bdb_keep::Span;
use std::alloc::{AllocError, Global};

/// Puts the rows of a span, and keeps in the list of changes what stood there. After a refusal some of them may have been put: the
/// changes tell of these.
pub fn put_rows(
    alloc: Global,
    rows: &mut PlacedRows,
    changes: &mut Vec<PlaceChange>,
    tab: u8,
    span: &Span,
) -> Result<(), AllocError>
    requires table { (1 ≤ tab) × (tab ≤ 15) }
    requires has { HavePlaces changes.old.items rows.old }
    ensures rows { OnOk result (rows_of rows.new ≡ with_rows tab (rows_of rows.old) span.now) }
    ensures last { undone changes.new.items (rows_of rows.new) ≡ undone changes.old.items
        (rows_of rows.old) }
    ensures has { HavePlaces changes.new.items rows.new }
{
    changes.reserve(span.len())?;
    for index in 0..span.len() {
        let (key, row) = span.entry(index);
        put_next(alloc, rows, changes, tab, key, row)?;
    }
    Ok(())
}

/// Empties the places of a span's keys, and keeps in the list of changes the rows that stood there. After a refusal some of them may
/// have been emptied: the changes tell of these.
pub fn take_rows(
    alloc: Global,
    rows: &mut PlacedRows,
    changes: &mut Vec<PlaceChange>,
    tab: u8,
    span: &Span,
) -> Result<(), AllocError>
    requires table { (1 ≤ tab) × (tab ≤ 15) }
    requires has { HavePlaces changes.old.items rows.old }
    ensures rows { OnOk result (rows_of rows.new ≡ without_rows tab (rows_of rows.old) span.now) }
    ensures last { undone changes.new.items (rows_of rows.new) ≡ undone changes.old.items
        (rows_of rows.old) }
    ensures has { HavePlaces changes.new.items rows.new }
{
    changes.reserve(span.len())?;
    for index in 0..span.len() {
        let (key, _) = span.entry(index);
        take_next(alloc, rows, changes, tab, key)?;
    }
    Ok(())
}

/// Puts a row, mostly right behind the one that was put before it.
#[inline(always)]
fn put_next(
    alloc: Global,
    rows: &mut PlacedRows,
    changes: &mut Vec<PlaceChange>,
    tab: u8,
    key: &[u8],
    row: &[u8],
) -> Result<(), AllocError>
    requires place { IsPlace (tab ∷ key.now) }
    requires has { HavePlaces changes.old.items rows.old }
    ensures rows { OnOk result (rows_of rows.new ≡ map.insert (rows_of rows.old) (tab ∷ key.now)
        row.now) }
    ensures last { undone changes.new.items (rows_of rows.new) ≡ undone changes.old.items
        (rows_of rows.old) }
    ensures has { HavePlaces changes.new.items rows.new }
{
    if put_behind(rows, changes, tab, key, row)? {
        return Ok(());
    }
    put_row(alloc, rows, changes, tab, key, row)?;
    Ok(())
}

/// Puts a row right behind the one that was put before it. The answer is false, and no row changes, where it may belong elsewhere, or
/// its place would take memory.
#[inline(always)]
fn put_behind(
    rows: &mut PlacedRows,
    changes: &mut Vec<PlaceChange>,
    tab: u8,
    key: &[u8],
    row: &[u8],
) -> Result<bool, AllocError>
    requires place { IsPlace (tab ∷ key.now) }
    requires has { HavePlaces changes.old.items rows.old }
    ensures rows { IfOk result (λ put. put ≡ true → rows_of rows.new
        ≡ map.insert (rows_of rows.old) (tab ∷ key.now) row.now) }
    ensures same { IfOk result (λ put. put ≡ false → rows_of rows.new ≡ rows_of rows.old) }
    ensures last { undone changes.new.items (rows_of rows.new) ≡ undone changes.old.items
        (rows_of rows.old) }
    ensures has { HavePlaces changes.new.items rows.new }
{
    let probe = Probe::of(tab, key);
    if probe.is_long() {
        return Ok(false);
    }
    changes.reserve(1)?;
    match rows.put_behind(&probe, row) {
        Some(before) => {
            changes.push_reserved(PlaceChange {
                place: Place::near(&probe),
                before,
            });
            Ok(true)
        }
        None => Ok(false),
    }
}

/// Takes a row away, mostly the one right behind the one that was taken before it.
#[inline(always)]
fn take_next(
    alloc: Global,
    rows: &mut PlacedRows,
    changes: &mut Vec<PlaceChange>,
    tab: u8,
    key: &[u8],
) -> Result<(), AllocError>
    requires place { IsPlace (tab ∷ key.now) }
    requires has { HavePlaces changes.old.items rows.old }
    ensures rows { OnOk result (rows_of rows.new ≡ map.remove (rows_of rows.old) (tab ∷ key.now)) }
    ensures last { undone changes.new.items (rows_of rows.new) ≡ undone changes.old.items
        (rows_of rows.old) }
    ensures has { HavePlaces changes.new.items rows.new }
{
    let probe = Probe::of(tab, key);
    if probe.is_long() {
        return take_far(alloc, rows, changes, tab, key);
    }
    changes.reserve(1)?;
    match empty_next(rows, &probe) {
        Some(row) => {
            changes.push_reserved(PlaceChange {
                place: Place::near(&probe),
                before: Some(row),
            });
            Ok(())
        }
        None => Ok(()),
    }
}

/// The same where the key has more than 32 bytes, so that its place takes memory.
fn take_far(
    alloc: Global,
    rows: &mut PlacedRows,
    changes: &mut Vec<PlaceChange>,
    tab: u8,
    key: &[u8],
) -> Result<(), AllocError>
    requires place { IsPlace (tab ∷ key.now) }
    requires has { HavePlaces changes.old.items rows.old }
    ensures rows { OnOk result (rows_of rows.new ≡ map.remove (rows_of rows.old) (tab ∷ key.now)) }
    ensures last { undone changes.new.items (rows_of rows.new) ≡ undone changes.old.items
        (rows_of rows.old) }
    ensures has { HavePlaces changes.new.items rows.new }
{
    let place = Place::far(alloc, tab, key)?;
    take_row(rows, changes, place)?;
    Ok(())
}

/// Empties a place, and answers the row that stood there. It looks first behind the one that was written last.
#[inline(always)]
fn empty_next(rows: &mut PlacedRows, probe: &Probe<'_>) -> Option<Row>
    ensures row { result ≡ map.get (rows_of rows.old) probe.now }
    ensures rows { rows_of rows.new ≡ map.remove (rows_of rows.old) probe.now }
    ensures here { OnSome result (IsSome (place_at rows.new probe.now)) }
    ensures keeps { KeepsPlaces rows.old rows.new }
    ensures same { IfNone result (rows_of rows.new ≡ rows_of rows.old) }
{
    match rows.empty_behind(probe) {
        Some(before) => return before,
        None => {}
    }
    let row = empty_place(rows, probe);
    row
}
