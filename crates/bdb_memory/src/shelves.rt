// Finding and changing places on sorted shelves.
ghost use Rattle.std.specs.Prelude.{◌≡◌, ◌<◌, ◌∷◌, ◌++◌, [], true, Some, None, IfOk, IfErr, IfSome, IfNone, OnOk, OnErr, MatchBool, if◌then◌else◌, length, slice_index_or, map as map_list, false};
ghost use Rattle.std.specs.Option.{option_copied};
ghost use Rattle.bdb_keep.specs.Tables.{IsLeastFrom, NoneFrom};
ghost use Rattle.bdb_memory.specs.Entries.{place_at, row_of, rows_of, IsSetAt};
ghost use Rattle.bdb_memory.specs.Blocks.{joined, after, starts_within, AreSorted, HaveEntries, IsBlockFor, without_empty};
ghost use Rattle.bdb_keep.specs.Spans.{AreRowsUnder};
ghost use Rattle.bdb_memory.specs.Under.{entries_under};
ghost use Rattle.bdb_memory.specs.Shelves.{NoRowFrom, IsFirstRow};

use crate::beside::{first_row_beside, row_beside, swap_beside};
use crate::cursors::{Cursor, CursorPair};
use crate::entry::Entry;
use crate::finding::Spot;
use crate::reading::{copy_row, give};
use crate::row::Row;
use crate::shelf::Shelf;
use crate::words::Probe;
use bdb_keep::Span;
use std::alloc::{AllocError, Global};

/// The most blocks of a shelf, unless there was no memory to cut it.
const CAPACITY: usize = 128;

/// So many shelves behind the one that is remembered are looked at before all are searched.
const LOOKED_AT: usize = 4;

/// Reads the row at a place, and answers where it stands or would stand, and whether there is one.
pub fn read(
    shelves: &[Shelf],
    near: CursorPair,
    probe: &Probe<'_>,
    row: &mut Vec<u8>,
) -> Result<(Cursor, bool), AllocError>
    requires { AreSorted shelves.now }
    ensures found { IfOk result (λ found. row_of (place_at (joined shelves.now) probe.now)
        ≡ (if found.1 then Some row.new.items else None)) }
    ensures empty { IfOk result (λ found. found.1 ≡ false → row.new.items ≡ []) }
{
    let (cursor, there) = row_at(shelves, near, probe);
    let found = copy_row(there, row)?;
    Ok((cursor, found))
}

/// Where a place stands or would stand, and the row there, if there is one.
#[inline(always)]
pub fn row_at<'a>(
    shelves: &'a [Shelf],
    near: CursorPair,
    probe: &Probe<'_>,
) -> (Cursor, Option<&'a [u8]>)
    requires { AreSorted shelves.now }
    ensures { option_copied result.1 ≡ row_of (place_at (joined shelves.now) probe.now) }
{
    match row_beside(shelves, near.0, probe) {
        Some(found) => found,
        None => row_searched(shelves, near, probe),
    }
}

/// The same by the shelf where the place belongs.
fn row_searched<'a>(
    shelves: &'a [Shelf],
    near: CursorPair,
    probe: &Probe<'_>,
) -> (Cursor, Option<&'a [u8]>)
    requires { AreSorted shelves.now }
    ensures { option_copied result.1 ≡ row_of (place_at (joined shelves.now) probe.now) }
{
    match shelf_for(shelves, near.1.0, probe) {
        Some(at) => {
            let (spot, row) = shelf_at(shelves, at).row_at(probe);
            ((at, spot), row)
        }
        None => (near.0, None),
    }
}

/// Reads the least key of a table that isn't below `low`, and its row, and answers where it stands and
/// whether there is one.
#[inline(always)]
pub fn read_first(
    shelves: &[Shelf],
    near: CursorPair,
    probe: &Probe<'_>,
    tab: u8,
    low: &[u8],
    key: &mut Vec<u8>,
    row: &mut Vec<u8>,
) -> Result<(Cursor, bool), AllocError>
    requires sorted { AreSorted shelves.now }
    requires place { probe.now ≡ tab ∷ low.now }
    ensures found { IfOk result (λ found. MatchBool found.1
        (IsLeastFrom (rows_of (joined shelves.now)) tab low.now key.new.items row.new.items)
        (NoneFrom (rows_of (joined shelves.now)) tab low.now)) }
    ensures empty { IfOk result (λ found. found.1 ≡ false → (key.new.items ≡ [])
        × (row.new.items ≡ [])) }
{
    match first_row(shelves, near, probe) {
        Some((cursor, entry)) => {
            let found = give(tab, entry, key, row)?;
            Ok((cursor, found))
        }
        None => {
            key.clear();
            row.clear();
            Ok((near.0, false))
        }
    }
}

/// Makes `span` the rows of a table whose keys begin with these bytes, and answers where the first of them stands or would stand.
pub fn read_under(
    shelves: &[Shelf],
    near: CursorPair,
    probe: &Probe<'_>,
    tab: u8,
    prefix: &[u8],
    span: &mut Span,
) -> Result<Cursor, AllocError>
    requires sorted { AreSorted shelves.now }
    requires place { probe.now ≡ tab ∷ prefix.now }
    ensures { OnOk result (AreRowsUnder (rows_of (joined shelves.now)) tab prefix.now span.new) }
{
    span.clear();
    match shelf_for(shelves, near.1.0, probe) {
        Some(at) => {
            let spot = read_under_from(shelves, at, probe, tab, prefix, span)?;
            Ok((at, spot))
        }
        None => Ok(near.0),
    }
}

/// Puts the rows whose places begin so behind the others of a span, from the shelf on where the bytes belong.
fn read_under_from(
    shelves: &[Shelf],
    start: usize,
    probe: &Probe<'_>,
    tab: u8,
    prefix: &[u8],
    span: &mut Span,
) -> Result<Spot, AllocError>
    requires sorted { AreSorted shelves.now }
    requires shelf { IsBlockFor shelves.now probe.now start }
    requires place { probe.now ≡ tab ∷ prefix.now }
    ensures { OnOk result (span.new ≡ span.old ++ entries_under probe.now (joined shelves.now)) }
{
    let shelf = shelf_at(shelves, start);
    let (first, goes_on) = shelf.read_under(probe, tab, prefix, span)?;
    if !goes_on {
        return Ok(first);
    }
    read_under_behind(shelves, start + 1, probe, tab, prefix, span)?;
    Ok(first)
}

/// The same of the shelves behind.
fn read_under_behind(
    shelves: &[Shelf],
    start: usize,
    probe: &Probe<'_>,
    tab: u8,
    prefix: &[u8],
    span: &mut Span,
) -> Result<(), AllocError>
    requires sorted { AreSorted shelves.now }
    requires place { probe.now ≡ tab ∷ prefix.now }
    ensures { OnOk result
        (span.new ≡ span.old ++ entries_under probe.now (after shelves.now start 0)) }
{
    let mut at = start;
    while at < shelves.len() {
        match shelf_at(shelves, at).read_under(probe, tab, prefix, span) {
            Ok((_, goes_on)) => {
                if !goes_on {
                    return Ok(());
                }
                at += 1;
            }
            Err(error) => return Err(error),
        }
    }
    Ok(())
}

/// Puts what stands at a place, and answers where, and what stood there. The answer is the new row where
/// there is no such place.
pub fn swap(
    shelves: &mut Vec<Shelf>,
    near: CursorPair,
    probe: &Probe<'_>,
    row: Option<Row>,
) -> Result<(Cursor, Option<Row>), Option<Row>>
    requires { AreSorted shelves.old.items }
    ensures sorted { AreSorted shelves.new.items }
    ensures found { IfOk result (λ before. place_at (joined shelves.old.items) probe.now
        ≡ Some before.1) }
    ensures set { OnOk result (IsSetAt (joined shelves.old.items) (joined shelves.new.items)
        probe.now (Some row)) }
    ensures absent { OnErr result (place_at (joined shelves.old.items) probe.now ≡ None) }
    ensures back { IfErr result (λ back. back ≡ row) }
    ensures same { OnErr result (joined shelves.new.items ≡ joined shelves.old.items) }
{
    match swap_beside(shelves, near.0, probe, row) {
        Ok(swapped) => Ok(swapped),
        Err(row) => swap_searched(shelves, near, probe, row),
    }
}

/// The same by the shelf where the place belongs.
fn swap_searched(
    shelves: &mut Vec<Shelf>,
    near: CursorPair,
    probe: &Probe<'_>,
    row: Option<Row>,
) -> Result<(Cursor, Option<Row>), Option<Row>>
    requires { AreSorted shelves.old.items }
    ensures sorted { AreSorted shelves.new.items }
    ensures found { IfOk result (λ before. place_at (joined shelves.old.items) probe.now
        ≡ Some before.1) }
    ensures set { OnOk result (IsSetAt (joined shelves.old.items) (joined shelves.new.items)
        probe.now (Some row)) }
    ensures absent { OnErr result (place_at (joined shelves.old.items) probe.now ≡ None) }
    ensures back { IfErr result (λ back. back ≡ row) }
    ensures same { OnErr result (joined shelves.new.items ≡ joined shelves.old.items) }
{
    match shelf_for(shelves, near.1.0, probe) {
        Some(at) => swap_on(shelves, at, probe, row),
        None => Err(row),
    }
}

/// The same on the shelf where the place belongs.
fn swap_on(
    shelves: &mut Vec<Shelf>,
    at: usize,
    probe: &Probe<'_>,
    row: Option<Row>,
) -> Result<(Cursor, Option<Row>), Option<Row>>
    requires sorted { AreSorted shelves.old.items }
    requires shelf { IsBlockFor shelves.old.items probe.now at }
    ensures sorted { AreSorted shelves.new.items }
    ensures found { IfOk result (λ before. place_at (joined shelves.old.items) probe.now
        ≡ Some before.1) }
    ensures set { OnOk result (IsSetAt (joined shelves.old.items) (joined shelves.new.items)
        probe.now (Some row)) }
    ensures absent { OnErr result (place_at (joined shelves.old.items) probe.now ≡ None) }
    ensures back { IfErr result (λ back. back ≡ row) }
    ensures same { OnErr result (joined shelves.new.items ≡ joined shelves.old.items) }
{
    match shelves[at].swap(probe, row) {
        Ok((spot, before)) => Ok(((at, spot), before)),
        Err(row) => Err(row),
    }
}

/// Puts a row at a place, which may be new, and answers where, and what stood there: at Some what the
/// place had, at None nothing.
pub fn insert(
    alloc: Global,
    shelves: &mut Vec<Shelf>,
    near: CursorPair,
    probe: &Probe<'_>,
    row: &[u8],
) -> Result<(Cursor, Option<Option<Row>>), AllocError>
    requires { AreSorted shelves.old.items }
    ensures sorted { AreSorted shelves.new.items }
    ensures found { IfOk result (λ before. place_at (joined shelves.old.items) probe.now
        ≡ before.1) }
    ensures set { OnOk result (IsSetAt (joined shelves.old.items) (joined shelves.new.items)
        probe.now (Some (Some row.now))) }
    ensures err { OnErr result (joined shelves.new.items ≡ joined shelves.old.items) }
{
    match shelf_for(shelves, near.1.0, probe) {
        Some(at) => {
            let (cursor, before) = insert_on(alloc, shelves, (at, near.1.1), probe, row)?;
            Ok((cut_full(shelves, cursor), before))
        }
        None => {
            let shelf = Shelf::of(alloc, probe, row)?;
            shelves.push(shelf)?;
            Ok(((0, (0, 0)), None))
        }
    }
}

/// The same on the shelf where the place belongs. It looks first beside a spot there.
fn insert_on(
    alloc: Global,
    shelves: &mut Vec<Shelf>,
    cursor: Cursor,
    probe: &Probe<'_>,
    row: &[u8],
) -> Result<(Cursor, Option<Option<Row>>), AllocError>
    requires sorted { AreSorted shelves.old.items }
    requires shelf { IsBlockFor shelves.old.items probe.now cursor.0 }
    ensures sorted { AreSorted shelves.new.items }
    ensures found { IfOk result (λ before. place_at (joined shelves.old.items) probe.now
        ≡ before.1) }
    ensures set { OnOk result (IsSetAt (joined shelves.old.items) (joined shelves.new.items)
        probe.now (Some (Some row.now))) }
    ensures err { OnErr result (joined shelves.new.items ≡ joined shelves.old.items) }
{
    let (at, spot) = cursor;
    match shelves[at].insert(alloc, spot, probe, row) {
        Ok((spot, before)) => Ok(((at, spot), before)),
        Err(error) => Err(error),
    }
}

/// Takes a place away, with what stands there, and answers where it stood or would stand.
pub fn remove(shelves: &mut Vec<Shelf>, near: CursorPair, probe: &Probe<'_>) -> Cursor
    requires { AreSorted shelves.old.items }
    ensures sorted { AreSorted shelves.new.items }
    ensures set { IsSetAt (joined shelves.old.items) (joined shelves.new.items) probe.now None }
{
    match shelf_for(shelves, near.1.0, probe) {
        Some(at) => (at, remove_on(shelves, at, probe)),
        None => near.0,
    }
}

/// The same on the shelf where the place belongs. A shelf that is then empty goes.
fn remove_on(shelves: &mut Vec<Shelf>, at: usize, probe: &Probe<'_>) -> Spot
    requires sorted { AreSorted shelves.old.items }
    requires shelf { IsBlockFor shelves.old.items probe.now at }
    ensures sorted { AreSorted shelves.new.items }
    ensures set { IsSetAt (joined shelves.old.items) (joined shelves.new.items) probe.now None }
{
    let spot = shelves[at].remove(probe);
    if shelves[at].is_empty() {
        shelves.remove(at);
    }
    spot
}

/// Takes the empty places out of each shelf.
pub fn drop_empty_places(shelves: &mut Vec<Shelf>)
    ensures { shelves.new.items ≡ map_list without_empty shelves.old.items }
{
    for shelf in shelves.iter_mut() {
        shelf.drop_empty();
    }
}

/// Takes the shelves with no entry out.
pub fn drop_empty_shelves(shelves: &mut Vec<Shelf>)
    ensures same { joined shelves.new.items ≡ joined shelves.old.items }
    ensures full { HaveEntries shelves.new.items }
{
    shelves.retain(|shelf| !shelf.is_empty());
}

/// Whether there is a shelf at an index, and it isn't full.
#[inline(always)]
pub fn has_room(shelves: &[Shelf], at: usize) -> bool {
    match shelves.get(at) {
        Some(shelf) => shelf.block_count() <= CAPACITY,
        None => false,
    }
}

/// Cuts a full shelf in two, and answers where a cursor is then. Where memory runs out the shelf stays whole.
pub fn cut_full(shelves: &mut Vec<Shelf>, cursor: Cursor) -> Cursor
    requires { AreSorted shelves.old.items }
    ensures sorted { AreSorted shelves.new.items }
    ensures same { joined shelves.new.items ≡ joined shelves.old.items }
{
    let (at, spot) = cursor;
    if at >= shelves.len() {
        return cursor;
    }
    let count = shelf_at(shelves, at).block_count();
    if count <= CAPACITY {
        return cursor;
    }
    let middle = middle_for(count, spot.0);
    match cut_shelf(shelves, at, middle) {
        Ok(true) => after_cut(cursor, middle),
        Ok(false) => cursor,
        Err(_) => cursor,
    }
}

/// Cuts a shelf in two, where blocks are on both sides. The answer tells whether there were.
fn cut_shelf(shelves: &mut Vec<Shelf>, at: usize, middle: usize) -> Result<bool, AllocError>
    requires sorted { AreSorted shelves.old.items }
    requires shelf { at < length shelves.old.items }
    ensures sorted { AreSorted shelves.new.items }
    ensures same { joined shelves.new.items ≡ joined shelves.old.items }
{
    shelves.reserve(1)?;
    match shelves[at].cut(middle)? {
        Some(back) => match shelves.insert(at + 1, back) {
            Ok(()) => Ok(true),
            Err(_) => unreachable!(),
        },
        None => Ok(false),
    }
}

/// Where a full shelf is cut: in the middle; but where places come in their order, before the last block, so that they leave
/// full shelves.
fn middle_for(count: usize, block: usize) -> usize {
    if block.saturating_add(1) >= count {
        block
    } else {
        count / 2
    }
}

/// Where a cursor is after its shelf was cut.
fn after_cut(cursor: Cursor, middle: usize) -> Cursor {
    let (at, (block, index)) = cursor;
    if block < middle {
        cursor
    } else {
        (at.saturating_add(1), (block - middle, index))
    }
}

/// Where the first place stands that has a row and isn't below the one that is looked for, and its entry.
#[inline(always)]
fn first_row<'a>(
    shelves: &'a [Shelf],
    near: CursorPair,
    probe: &Probe<'_>,
) -> Option<(Cursor, &'a Entry)>
    requires { AreSorted shelves.now }
    ensures found { IfSome result (λ first. IsFirstRow (joined shelves.now) probe.now first.1.now) }
    ensures none { IfNone result (NoRowFrom probe.now (joined shelves.now)) }
{
    match first_row_beside(shelves, near.0, probe) {
        Some(first) => Some(first),
        None => first_row_searched(shelves, near, probe),
    }
}

/// The same by the shelf where the place belongs.
fn first_row_searched<'a>(
    shelves: &'a [Shelf],
    near: CursorPair,
    probe: &Probe<'_>,
) -> Option<(Cursor, &'a Entry)>
    requires { AreSorted shelves.now }
    ensures found { IfSome result (λ first. IsFirstRow (joined shelves.now) probe.now first.1.now) }
    ensures none { IfNone result (NoRowFrom probe.now (joined shelves.now)) }
{
    match shelf_for(shelves, near.1.0, probe) {
        Some(at) => first_row_from(shelves, at, probe),
        None => None,
    }
}

/// The same from the shelf on where the place belongs.
fn first_row_from<'a>(
    shelves: &'a [Shelf],
    start: usize,
    probe: &Probe<'_>,
) -> Option<(Cursor, &'a Entry)>
    requires sorted { AreSorted shelves.now }
    requires shelf { IsBlockFor shelves.now probe.now start }
    ensures found { IfSome result (λ first. IsFirstRow (joined shelves.now) probe.now first.1.now) }
    ensures none { IfNone result (NoRowFrom probe.now (joined shelves.now)) }
{
    let mut at = start;
    while at < shelves.len() {
        match shelf_at(shelves, at).first_row(probe) {
            Some((spot, entry)) => return Some(((at, spot), entry)),
            None => at += 1,
        }
    }
    None
}

/// The shelf that a place belongs on. It looks first at the one that is remembered.
fn shelf_for(shelves: &[Shelf], used: usize, probe: &Probe<'_>) -> Option<usize>
    requires { AreSorted shelves.now }
    ensures shelf { IfSome result (λ at. IsBlockFor shelves.now probe.now at) }
    ensures none { IfNone result (joined shelves.now ≡ []) }
{
    if !is_from(shelves, used, probe) {
        return search(shelves, probe);
    }
    if !is_from(shelves, used + 1, probe) {
        return Some(used);
    }
    shelf_behind(shelves, used + 1, probe)
}

/// The same where the place isn't before a shelf. It looks first at that shelf and a few behind it, as shelves before it may have been
/// cut since it was remembered.
fn shelf_behind(shelves: &[Shelf], start: usize, probe: &Probe<'_>) -> Option<usize>
    requires sorted { AreSorted shelves.now }
    requires shelf { start < length shelves.now }
    requires starts { 0 < start → starts_within probe.now (slice_index_or shelves.now start [])
        ≡ true }
    ensures shelf { IfSome result (λ at. IsBlockFor shelves.now probe.now at) }
    ensures none { IfNone result (joined shelves.now ≡ []) }
{
    let mut at = start;
    for _ in 0..LOOKED_AT {
        if !is_from(shelves, at + 1, probe) {
            return Some(at);
        }
        at += 1;
    }
    search(shelves, probe)
}

/// Whether there is a shelf at an index, and a place isn't before it: it isn't below its first place, or it is the first shelf.
#[inline(always)]
pub fn is_from(shelves: &[Shelf], at: usize, probe: &Probe<'_>) -> bool
    ensures shelf { result ≡ true → at < length shelves.now }
    ensures starts { result ≡ true → 0 < at
        → starts_within probe.now (slice_index_or shelves.now at []) ≡ true }
    ensures ends { result ≡ false → at < length shelves.now
        → starts_within probe.now (slice_index_or shelves.now at []) ≡ false }
{
    if at >= shelves.len() {
        return false;
    }
    if at == 0 {
        return true;
    }
    shelf_at(shelves, at).starts_within(probe)
}

/// The shelf that a place belongs on, by binary search.
fn search(shelves: &[Shelf], probe: &Probe<'_>) -> Option<usize>
    requires { AreSorted shelves.now }
    ensures shelf { IfSome result (λ at. IsBlockFor shelves.now probe.now at) }
    ensures none { IfNone result (joined shelves.now ≡ []) }
{
    let above = shelves.partition_point(
        |shelf: &Shelf| -> bool
            ensures { result ≡ starts_within probe.entry.now shelf.now }
        { shelf.starts_within(probe) },
    );
    let at = above.saturating_sub(1);
    if at >= shelves.len() {
        return None;
    }
    Some(at)
}

/// A shelf.
#[inline(always)]
pub fn shelf_at(shelves: &[Shelf], at: usize) -> &Shelf
    requires { at < length shelves.now }
    ensures { result.now ≡ slice_index_or shelves.now at [] }
{
    &shelves[at]
}
