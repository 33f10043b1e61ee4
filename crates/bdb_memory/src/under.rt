// Reading all rows of a table whose keys begin with some bytes.
ghost use Rattle.std.specs.Prelude.{◌≡◌, ◌++◌, false, IfOk, OnOk, IsTrue};
ghost use Rattle.std.specs.Ordering.{is_le};
ghost use Rattle.bdb_base.specs.Segments.{is_prefix};
ghost use Rattle.bdb_memory.specs.Blocks.{joined, AreSorted, IsBoundary};
ghost use Rattle.bdb_keep.specs.Tables.{bytes_cmp};
ghost use Rattle.bdb_memory.specs.Entries.{IsAscending, NoneBelow};
ghost use Rattle.bdb_memory.specs.Under.{entries_under, row_under, HasPast};

use crate::block::Block;
use crate::entry::Entry;
use crate::finding::{Spot, block_at};
use crate::opening::Opening;
use bdb_keep::Span;
use std::alloc::AllocError;

/// Takes the rows of blocks from a spot on, none of whose places from there on is below these bytes, up to a place that doesn't begin
/// so. The answer is false where there is one.
pub fn take_blocks(
    blocks: &[Block],
    start: Spot,
    opening: &Opening<'_>,
    span: &mut Span,
) -> Result<bool, AllocError>
    requires sorted { AreSorted blocks.now }
    requires bound { IsBoundary blocks.now opening.now start.0 start.1 }
    ensures rows { OnOk result
        (span.new ≡ span.old ++ entries_under opening.now (joined blocks.now)) }
    ensures past { IfOk result
        (λ goes_on. goes_on ≡ false → HasPast opening.now (joined blocks.now)) }
{
    let (mut at, mut index) = start;
    while at < blocks.len() {
        match take_entries(block_at(blocks, at).entries_from(index), opening, span) {
            Ok(true) => {
                at += 1;
                index = 0;
            }
            Ok(false) => return Ok(false),
            Err(error) => return Err(error),
        }
    }
    Ok(true)
}

/// The same of entries.
fn take_entries(
    entries: &[Entry],
    opening: &Opening<'_>,
    span: &mut Span,
) -> Result<bool, AllocError>
    requires sorted { IsAscending entries.now }
    requires above { NoneBelow opening.now entries.now }
    ensures rows { OnOk result (span.new ≡ span.old ++ entries_under opening.now entries.now) }
    ensures past { IfOk result (λ goes_on. goes_on ≡ false → HasPast opening.now entries.now) }
{
    for entry in entries {
        match take_entry(entry, opening, span) {
            Ok(true) => {}
            Ok(false) => return Ok(false),
            Err(error) => return Err(error),
        }
    }
    Ok(true)
}

/// The same of an entry. Where it has no row, it is passed over.
#[inline(always)]
fn take_entry(entry: &Entry, opening: &Opening<'_>, span: &mut Span) -> Result<bool, AllocError>
    requires { IsTrue (is_le (bytes_cmp opening.now entry.now.0)) }
    ensures rows { OnOk result
        (span.new ≡ span.old ++ row_under opening.now entry.now.0 entry.now.1) }
    ensures other { IfOk result
        (λ goes_on. goes_on ≡ false → is_prefix opening.now entry.now.0 ≡ false) }
{
    if !entry.begins_so(opening) {
        return Ok(false);
    }
    match entry.row() {
        Some(row) => {
            span.make_room()?;
            span.push_entry(entry, row)?;
            Ok(true)
        }
        None => Ok(true),
    }
}
