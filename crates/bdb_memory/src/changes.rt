// The changes that a transaction made to the rows.
ghost use Rattle.std.specs.Prelude.{◌≡◌, ◌++◌, ◌∷◌, [], Some, None, IfOk, IfErr, IfNone, OnSome, OnOk, OnErr, IsSome, is_some, if◌then◌else◌};
ghost use Rattle.std.specs.FinMap as map;
ghost use Rattle.bdb_memory.specs.Entries.{place_at, rows_of, row_of, KeepsPlaces};
ghost use Rattle.bdb_memory.specs.Changes.{undone, places_of, HavePlaces};
ghost use Rattle.bdb_keep.specs.Tables.{IsPlace, set_at};

use crate::place::Place;
use crate::row::Row;
use crate::rows::PlacedRows;
use crate::words::Probe;
use std::alloc::{AllocError, Global};

/// A change of a transaction: where it was made, and the row that stood there before.
#[derive(Drop)]
pub struct PlaceChange {
    pub place: Place,
    pub before: Option<Row>,
}

/// Puts what stands at a place, and answers what stood there. The answer is the new row where there is no such place.
pub fn swap_row(
    rows: &mut PlacedRows,
    probe: &Probe<'_>,
    row: Option<Row>,
) -> Result<Option<Row>, Option<Row>>
    ensures found { IfOk result (λ before. place_at rows.old probe.now ≡ Some before) }
    ensures rows { OnOk result (rows_of rows.new ≡ set_at (rows_of rows.old) probe.now row) }
    ensures keeps { KeepsPlaces rows.old rows.new }
    ensures absent { OnErr result (place_at rows.old probe.now ≡ None) }
    ensures back { IfErr result (λ back. back ≡ row) }
    ensures same { OnErr result (rows.new ≡ rows.old) }
{
    match rows.swap(probe, row) {
        Ok(before) => Ok(before),
        Err(row) => Err(row),
    }
}

/// Puts a row at a place, which may be new, and answers the row that stood there.
pub fn insert_row(
    rows: &mut PlacedRows,
    probe: &Probe<'_>,
    row: &[u8],
) -> Result<Option<Row>, AllocError>
    ensures before { IfOk result (λ before. row_of (place_at rows.old probe.now) ≡ before) }
    ensures rows { OnOk result
        (rows_of rows.new ≡ set_at (rows_of rows.old) probe.now (Some row.now)) }
    ensures here { OnOk result (IsSome (place_at rows.new probe.now)) }
    ensures keeps { OnOk result (KeepsPlaces rows.old rows.new) }
    ensures err { OnErr result (rows.new ≡ rows.old) }
{
    if rows.add_beside(probe, row) {
        return Ok(None);
    }
    match rows.insert(probe, row) {
        Ok(Some(before)) => Ok(before),
        Ok(None) => Ok(None),
        Err(error) => Err(error),
    }
}

/// Empties a place, and answers the row that stood there.
pub fn empty_place(rows: &mut PlacedRows, probe: &Probe<'_>) -> Option<Row>
    ensures row { result ≡ map.get (rows_of rows.old) probe.now }
    ensures rows { rows_of rows.new ≡ map.remove (rows_of rows.old) probe.now }
    ensures here { OnSome result (IsSome (place_at rows.new probe.now)) }
    ensures keeps { KeepsPlaces rows.old rows.new }
    ensures same { IfNone result (rows_of rows.new ≡ rows_of rows.old) }
{
    match swap_row(rows, probe, None) {
        Ok(before) => before,
        Err(_) => None,
    }
}

/// Puts a row at a place, and keeps in the list of changes what stood there. After a refusal nothing changed.
pub fn put_row(
    alloc: Global,
    rows: &mut PlacedRows,
    changes: &mut Vec<PlaceChange>,
    tab: u8,
    key: &[u8],
    row: &[u8],
) -> Result<(), AllocError>
    requires place { IsPlace (tab ∷ key.now) }
    requires has { HavePlaces changes.old.items rows.old }
    ensures rows { OnOk result (rows_of rows.new ≡ map.insert (rows_of rows.old) (tab ∷ key.now)
        row.now) }
    ensures last { undone changes.new.items (rows_of rows.new) ≡ undone changes.old.items
        (rows_of rows.old) }
    ensures places { OnOk result
        (places_of changes.new.items ≡ places_of changes.old.items ++ (tab ∷ key.now) ∷ []) }
    ensures has { HavePlaces changes.new.items rows.new }
    ensures same { OnErr result (rows.new ≡ rows.old) }
    ensures changes { OnErr result (changes.new.items ≡ changes.old.items) }
{
    let probe = Probe::of(tab, key);
    if probe.is_long() {
        return put_far(alloc, rows, changes, tab, key, row);
    }
    changes.reserve(1)?;
    let before = insert_row(rows, &probe, row)?;
    changes.push_reserved(PlaceChange {
        place: Place::near(&probe),
        before,
    });
    Ok(())
}

/// The same where the key has more than 32 bytes, so that its place takes memory.
fn put_far(
    alloc: Global,
    rows: &mut PlacedRows,
    changes: &mut Vec<PlaceChange>,
    tab: u8,
    key: &[u8],
    row: &[u8],
) -> Result<(), AllocError>
    requires place { IsPlace (tab ∷ key.now) }
    requires has { HavePlaces changes.old.items rows.old }
    ensures rows { OnOk result (rows_of rows.new ≡ map.insert (rows_of rows.old) (tab ∷ key.now)
        row.now) }
    ensures last { undone changes.new.items (rows_of rows.new) ≡ undone changes.old.items
        (rows_of rows.old) }
    ensures places { OnOk result
        (places_of changes.new.items ≡ places_of changes.old.items ++ (tab ∷ key.now) ∷ []) }
    ensures has { HavePlaces changes.new.items rows.new }
    ensures same { OnErr result (rows.new ≡ rows.old) }
    ensures changes { OnErr result (changes.new.items ≡ changes.old.items) }
{
    changes.reserve(1)?;
    let place = Place::far(alloc, tab, key)?;
    let probe = Probe::of(tab, key);
    let before = insert_row(rows, &probe, row)?;
    changes.push_reserved(PlaceChange { place, before });
    Ok(())
}

/// Empties a place, and keeps in the list of changes the row that stood there. The answer tells whether there was one.
/// After a refusal nothing changed.
pub fn take_row(
    rows: &mut PlacedRows,
    changes: &mut Vec<PlaceChange>,
    place: Place,
) -> Result<bool, AllocError>
    requires place { IsPlace place }
    requires has { HavePlaces changes.old.items rows.old }
    ensures found { IfOk result (λ found. found ≡ is_some (map.get (rows_of rows.old) place)) }
    ensures rows { OnOk result (rows_of rows.new ≡ map.remove (rows_of rows.old) place) }
    ensures last { undone changes.new.items (rows_of rows.new) ≡ undone changes.old.items
        (rows_of rows.old) }
    ensures places { IfOk result
        (λ found. places_of changes.new.items
        ≡ (if found then places_of changes.old.items ++ place ∷ [] else
        places_of changes.old.items)) }
    ensures has { HavePlaces changes.new.items rows.new }
    ensures same { OnErr result (rows.new ≡ rows.old) }
    ensures changes { OnErr result (changes.new.items ≡ changes.old.items) }
{
    changes.reserve(1)?;
    match empty_place(rows, &place.probe()) {
        Some(row) => {
            changes.push_reserved(PlaceChange {
                place,
                before: Some(row),
            });
            Ok(true)
        }
        None => Ok(false),
    }
}

/// Forgets the changes. The places that were left empty go where they are many.
pub fn forget(rows: &mut PlacedRows, changes: &mut Vec<PlaceChange>)
    ensures rows { rows_of rows.new ≡ rows_of rows.old }
    ensures none { changes.new.items ≡ [] }
{
    changes.clear();
    rows.drop_many_empty();
}

/// Undoes the changes, the newest first, and leaves their places.
pub fn roll_back(rows: &mut PlacedRows, changes: &mut Vec<PlaceChange>)
    requires { HavePlaces changes.old.items rows.old }
    ensures { rows_of rows.new ≡ undone changes.old.items (rows_of rows.old) }
{
    let mut at = changes.len();
    while at > 0 {
        at -= 1;
        put_back(rows, &mut changes[at]);
    }
}

/// Undoes a change. Its place is there.
pub fn put_back(rows: &mut PlacedRows, change: &mut PlaceChange)
    requires { IsSome (place_at rows.old change.old.place) }
    ensures rows { rows_of rows.new ≡ set_at (rows_of rows.old) change.old.place change.old.before }
    ensures keeps { KeepsPlaces rows.old rows.new }
{
    let before = change.before.take();
    let _ = swap_row(rows, &change.place.probe(), before);
}
