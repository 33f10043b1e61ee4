// Rows that are marked, and the numbers in their keys.
ghost use Rattle.std.specs.Prelude.{◌≡◌, ◌+◌, ◌<◌, ◌++◌, ◌∷◌, ◌^◌, ℕ, cond, drop, IfOk, Some, length, slice_index_or, []};
ghost use Rattle.std.specs.Int.{w32, to_be_bytes};
ghost use Rattle.bdb_memory.specs.Blocks.{joined};
ghost use Rattle.bdb_memory.specs.Entries.{row_of};
ghost use Rattle.bdb_keep.specs.Marked.{is_marked, has_word};
ghost use Rattle.bdb_memory.specs.Tallies.{is_in, is_marked_in, counts_at, is_number, count_among};

use crate::block::Block;
use crate::entry::Entry;
use crate::head::all_bytes;
use crate::row::Row;
use crate::shelf::Shelf;
use crate::words::Probe;
use bdb_keep::KeyEnd;
use std::alloc::AllocError;

/// Whether a row is marked: whether its last byte is odd.
#[inline(always)]
pub fn is_marked(row: &[u8]) -> bool
    ensures { result ≡ is_marked row.now }
{
    match row.last() {
        Some(byte) => *byte % 2 == 1,
        None => false,
    }
}

/// Whether a place is in a table.
#[inline(always)]
pub fn is_in(probe: &Probe<'_>, tab: u8) -> bool
    ensures { result ≡ is_in tab probe.now }
{
    let (head, _) = probe.parts();
    head.tab == tab
}

/// Whether a row that stands at a place, or is to stand there, is in a table and marked.
#[inline(always)]
pub fn is_marked_in(tab: u8, probe: &Probe<'_>, row: &[u8]) -> bool
    ensures { result ≡ is_marked_in tab probe.now (Some row.now) }
{
    is_in(probe, tab) && is_marked(row)
}

/// The same of a row that may be missing.
#[inline(always)]
pub fn has_marked_in(tab: u8, probe: &Probe<'_>, row: &Option<Row>) -> bool
    ensures { result ≡ is_marked_in tab probe.now row.now }
{
    match row {
        Some(row) => is_marked_in(tab, probe, row.as_slice()),
        None => false,
    }
}

/// The same of a row that stood at a place, if the place was there.
#[inline(always)]
pub fn had_marked_in(tab: u8, probe: &Probe<'_>, before: &Option<Option<Row>>) -> bool
    ensures { result ≡ is_marked_in tab probe.now (row_of before.now) }
{
    match before {
        Some(row) => has_marked_in(tab, probe, row),
        None => false,
    }
}

/// The number in four bytes of the key of a place. None where it has fewer.
#[tactic(auto, using(crate::proofs::NumberLemmas::number_first, crate::proofs::NumberLemmas::number_last, crate::proofs::NumberLemmas::number_none))]
pub fn number_in(probe: &Probe<'_>, end: KeyEnd) -> Option<u32>
    ensures { (number : ℕ) → number < 2 ^ 32 → has_word end number (drop 1 probe.now)
        ≡ is_number result number }
{
    let (head, rest) = probe.parts();
    let bytes = all_bytes(&head);
    let count = usize::from(head.count) + rest.len();
    if count < 4 {
        return None;
    }
    match end {
        KeyEnd::First => Some(number_at(&bytes, rest, 0)),
        KeyEnd::Last => Some(number_at(&bytes, rest, count - 4)),
    }
}

/// The number in four bytes that lie in two strings of bytes, the highest first.
fn number_at(bytes: &[u8], rest: &[u8], at: usize) -> u32
    requires { at + 4 < length bytes.now + length rest.now + 1 }
    ensures { to_be_bytes w32 result ≡ slice_index_or (bytes.now ++ rest.now) at 0
        ∷ slice_index_or (bytes.now ++ rest.now) (at + 1) 0
        ∷ slice_index_or (bytes.now ++ rest.now) (at + 2) 0
        ∷ slice_index_or (bytes.now ++ rest.now) (at + 3) 0 ∷ [] }
{
    u32::from_be_bytes([
        byte_at(bytes, rest, at),
        byte_at(bytes, rest, at + 1),
        byte_at(bytes, rest, at + 2),
        byte_at(bytes, rest, at + 3),
    ])
}

/// A byte that lies in two strings of bytes.
fn byte_at(bytes: &[u8], rest: &[u8], at: usize) -> u8
    requires { at < length bytes.now + length rest.now }
    ensures { result ≡ slice_index_or (bytes.now ++ rest.now) at 0 }
{
    if at < bytes.len() {
        return bytes[at];
    }
    rest[at - bytes.len()]
}

/// Whether the row of an entry is in a table and marked, at a number.
fn counts_at(entry: &Entry, tab: u8, end: KeyEnd, number: u32) -> bool
    ensures { result ≡ counts_at tab end number entry.now.0 entry.now.1 }
{
    let probe = entry.probe();
    match entry.row() {
        Some(row) => is_marked_in(tab, &probe, row) && has_number(&probe, end, number),
        None => false,
    }
}

/// Whether the key of a place has a number.
fn has_number(probe: &Probe<'_>, end: KeyEnd, number: u32) -> bool
    ensures { result ≡ has_word end number (drop 1 probe.now) }
{
    match number_in(probe, end) {
        Some(found) => number == found,
        None => false,
    }
}

/// How many rows on shelves are in a table and marked, at a number. It is refused where there are more than can be counted.
pub fn count_shelves(
    shelves: &[Shelf],
    tab: u8,
    end: KeyEnd,
    number: u32,
) -> Result<usize, AllocError>
    ensures { IfOk result (λ n. n ≡ count_among tab end number (joined shelves.now)) }
{
    let mut count = 0;
    for shelf in shelves {
        count = add(count, count_blocks(shelf.blocks(), tab, end, number)?)?;
    }
    Ok(count)
}

/// How many rows in blocks are.
fn count_blocks(blocks: &[Block], tab: u8, end: KeyEnd, number: u32) -> Result<usize, AllocError>
    ensures { IfOk result (λ n. n ≡ count_among tab end number (joined blocks.now)) }
{
    let mut count = 0;
    for block in blocks {
        count = add(count, count_entries(block.entries(), tab, end, number)?)?;
    }
    Ok(count)
}

/// How many rows of entries are.
fn count_entries(entries: &[Entry], tab: u8, end: KeyEnd, number: u32) -> Result<usize, AllocError>
    ensures { IfOk result (λ n. n ≡ count_among tab end number entries.now) }
{
    let mut count = 0;
    for entry in entries {
        count = add(count, one_if(counts_at(entry, tab, end, number)))?;
    }
    Ok(count)
}

/// One where a test holds.
fn one_if(holds: bool) -> usize
    ensures { result ≡ cond holds 1 0 }
{
    if holds { 1 } else { 0 }
}

/// The sum of two counts. It is refused where there is no such number.
fn add(count: usize, more: usize) -> Result<usize, AllocError>
    ensures { IfOk result (λ n. n ≡ count + more) }
{
    match count.checked_add(more) {
        Some(sum) => Ok(sum),
        None => Err(AllocError),
    }
}
