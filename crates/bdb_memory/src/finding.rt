// Finding a place among sorted blocks.
ghost use Rattle.std.specs.Prelude.{◌≡◌, ◌<◌, ◌-◌, ◌^◌, [], true, IfOk, IfErr, IfSome, IfNone, is_some, length, slice_index_or};
ghost use Rattle.std.specs.declared.cmp.Ordering.TheVariants.{Less, Greater};
ghost use Rattle.bdb_keep.specs.Tables.{bytes_cmp};
ghost use Rattle.bdb_memory.specs.Entries.{NoneBelow};
ghost use Rattle.bdb_memory.specs.Blocks.{joined, before, after, entry_at, AreSorted, HaveEntries, IsBlockFor, IsBoundary, IsThere, StandsAt, BelongsHere};
ghost use Rattle.bdb_memory.specs.Shelves.{NoRowFrom, BelongsAmong};

use crate::block::{Block, shorter_step};
use crate::entry::Entry;
use crate::words::Probe;
use std::cmp::Ordering;

/// Where an entry stands, or would stand: a block, and an index in it.
pub type Spot = (usize, usize);

/// Where a place stands; at Err where it belongs.
pub fn find(blocks: &[Block], probe: &Probe<'_>) -> Result<Spot, Spot>
    requires { AreSorted blocks.now }
    ensures there { IfOk result (λ spot. StandsAt blocks.now probe.now spot.0 spot.1) }
    ensures gap { IfErr result (λ spot. BelongsHere blocks.now probe.now spot.0 spot.1) }
{
    let bound = seek(blocks, probe);
    match first_at(blocks, bound) {
        Some(spot) => {
            if entry_of(blocks, spot).compare(probe).is_eq() {
                Ok(spot)
            } else {
                Err(bound)
            }
        }
        None => Err(bound),
    }
}

/// The same. It looks first beside a spot.
#[inline(always)]
pub fn find_near(blocks: &[Block], near: Spot, probe: &Probe<'_>) -> Result<Spot, Spot>
    requires { AreSorted blocks.now }
    ensures there { IfOk result (λ spot. StandsAt blocks.now probe.now spot.0 spot.1) }
    ensures gap { IfErr result (λ spot. BelongsHere blocks.now probe.now spot.0 spot.1) }
{
    match find_beside(blocks, near, false, probe) {
        Some(found) => found,
        None => find(blocks, probe),
    }
}

/// Where the first place stands that isn't below the one that is looked for and has a row.
pub fn find_row(blocks: &[Block], probe: &Probe<'_>) -> Option<Spot>
    requires { AreSorted blocks.now }
    ensures there { IfSome result (λ spot. IsThere blocks.now spot.0 spot.1) }
    ensures row { IfSome result
        (λ spot. is_some (entry_at (slice_index_or blocks.now spot.0 []) spot.1).1 ≡ true) }
    ensures passed { IfSome result (λ spot. NoRowFrom probe.now (before blocks.now spot.0 spot.1)) }
    ensures reached { IfSome result (λ spot. NoneBelow probe.now (after blocks.now spot.0 spot.1)) }
    ensures none { IfNone result (NoRowFrom probe.now (joined blocks.now)) }
{
    let bound = seek(blocks, probe);
    row_from(blocks, bound, probe)
}

/// The same where it is known where the first place stands that isn't below.
#[inline(always)]
pub fn row_from(blocks: &[Block], start: Spot, probe: &Probe<'_>) -> Option<Spot>
    requires sorted { AreSorted blocks.now }
    requires bound { IsBoundary blocks.now probe.now start.0 start.1 }
    ensures there { IfSome result (λ spot. IsThere blocks.now spot.0 spot.1) }
    ensures row { IfSome result
        (λ spot. is_some (entry_at (slice_index_or blocks.now spot.0 []) spot.1).1 ≡ true) }
    ensures passed { IfSome result (λ spot. NoRowFrom probe.now (before blocks.now spot.0 spot.1)) }
    ensures reached { IfSome result (λ spot. NoneBelow probe.now (after blocks.now spot.0 spot.1)) }
    ensures none { IfNone result (NoRowFrom probe.now (joined blocks.now)) }
{
    let mut bound = start;
    while let Some(spot) = first_at(blocks, bound) {
        if entry_of(blocks, spot).has_row() {
            return Some(spot);
        }
        bound = (spot.0, spot.1 + 1);
    }
    None
}

/// Where a place stands, at Err where it belongs, if the one at a spot is this place, the last one below it, or the first one above
/// it. None also where it may belong behind these blocks; `is_last` tells that there is nothing behind them.
#[inline(always)]
pub fn find_beside(
    blocks: &[Block],
    spot: Spot,
    is_last: bool,
    probe: &Probe<'_>,
) -> Option<Result<Spot, Spot>>
    requires { AreSorted blocks.now }
    ensures there { IfSome result
        (λ found. IfOk found (λ at. StandsAt blocks.now probe.now at.0 at.1)) }
    ensures gap { IfSome result
        (λ found. IfErr found (λ at. BelongsHere blocks.now probe.now at.0 at.1)) }
    ensures belongs { IfSome result (λ found. BelongsAmong (joined blocks.now) probe.now is_last) }
{
    match first_at(blocks, spot) {
        Some(here) => match entry_of(blocks, here).compare(probe) {
            Ordering::Less => find_behind(blocks, here, is_last, probe),
            Ordering::Equal => Some(Ok(here)),
            Ordering::Greater => find_before(blocks, here, is_last, probe),
        },
        None => None,
    }
}

/// The same where the one at the spot is above it.
#[inline(always)]
fn find_before(
    blocks: &[Block],
    spot: Spot,
    is_last: bool,
    probe: &Probe<'_>,
) -> Option<Result<Spot, Spot>>
    requires sorted { AreSorted blocks.now }
    requires there { IsThere blocks.now spot.0 spot.1 }
    requires above { bytes_cmp (entry_at (slice_index_or blocks.now spot.0 []) spot.1).0 probe.now
        ≡ Greater }
    ensures there { IfSome result
        (λ found. IfOk found (λ at. StandsAt blocks.now probe.now at.0 at.1)) }
    ensures gap { IfSome result
        (λ found. IfErr found (λ at. BelongsHere blocks.now probe.now at.0 at.1)) }
    ensures belongs { IfSome result (λ found. BelongsAmong (joined blocks.now) probe.now is_last) }
{
    if spot.1 == 0 {
        return None;
    }
    let last = (spot.0, spot.1 - 1);
    match entry_of(blocks, last).compare(probe) {
        Ordering::Less => Some(Err(spot)),
        Ordering::Equal => Some(Ok(last)),
        Ordering::Greater => None,
    }
}

/// The same where the one at the spot is below it.
#[inline(always)]
pub fn find_behind(
    blocks: &[Block],
    spot: Spot,
    is_last: bool,
    probe: &Probe<'_>,
) -> Option<Result<Spot, Spot>>
    requires sorted { AreSorted blocks.now }
    requires there { IsThere blocks.now spot.0 spot.1 }
    requires small { spot.1 < 2 ^ 64 - 1 }
    requires below { bytes_cmp (entry_at (slice_index_or blocks.now spot.0 []) spot.1).0 probe.now
        ≡ Less }
    ensures there { IfSome result
        (λ found. IfOk found (λ at. StandsAt blocks.now probe.now at.0 at.1)) }
    ensures gap { IfSome result
        (λ found. IfErr found (λ at. BelongsHere blocks.now probe.now at.0 at.1)) }
    ensures belongs { IfSome result (λ found. BelongsAmong (joined blocks.now) probe.now is_last) }
{
    let behind = (spot.0, spot.1 + 1);
    match first_at(blocks, behind) {
        Some(next) => match entry_of(blocks, next).compare(probe) {
            Ordering::Less => None,
            Ordering::Equal => Some(Ok(next)),
            Ordering::Greater => Some(Err(behind)),
        },
        None => { if is_last { Some(Err(behind)) } else { None } }
    }
}

/// Where the first place stands, or would stand, that isn't below the one that is looked for: first the block, and then the index in
/// it.
#[inline(always)]
pub fn seek(blocks: &[Block], probe: &Probe<'_>) -> Spot
    requires { AreSorted blocks.now }
    ensures { IsBoundary blocks.now probe.now result.0 result.1 }
{
    if blocks.is_empty() {
        return (0, 0);
    }
    let at = block_for(blocks, probe);
    (at, block_at(blocks, at).lower_bound(probe))
}

/// The block that a place belongs in. It goes on by sixteen blocks, then by four, and then by one: of a hundred it looks at some
/// eight, and mostly it goes on as the processor expects.
#[inline(always)]
fn block_for(blocks: &[Block], probe: &Probe<'_>) -> usize
    requires full { HaveEntries blocks.now }
    requires some { 0 < length blocks.now }
    ensures { IsBlockFor blocks.now probe.now result }
{
    let mut at: usize = 0;
    let mut step: usize = 16;
    while step > 0 {
        if blocks.len() - at > step && block_at(blocks, at + step).begins_within(probe) {
            at += step;
        } else {
            step = shorter_step(step);
        }
    }
    at
}

/// A block.
#[inline(always)]
pub fn block_at(blocks: &[Block], at: usize) -> &Block
    requires { at < length blocks.now }
    ensures { result.now ≡ slice_index_or blocks.now at [] }
{
    &blocks[at]
}

/// The entry at a spot.
#[inline(always)]
pub fn entry_of(blocks: &[Block], spot: Spot) -> &Entry
    requires { IsThere blocks.now spot.0 spot.1 }
    ensures { result.now ≡ entry_at (slice_index_or blocks.now spot.0 []) spot.1 }
{
    block_at(blocks, spot.0).entry(spot.1)
}

/// Where the first entry from this spot on stands: here, or at the start of the next block.
#[inline(always)]
pub fn first_at(blocks: &[Block], spot: Spot) -> Option<Spot>
    requires { HaveEntries blocks.now }
    ensures there { IfSome result (λ at. IsThere blocks.now at.0 at.1) }
    ensures before { IfSome result
        (λ at. before blocks.now at.0 at.1 ≡ before blocks.now spot.0 spot.1) }
    ensures after { IfSome result
        (λ at. after blocks.now at.0 at.1 ≡ after blocks.now spot.0 spot.1) }
    ensures small { IfSome result (λ at. at.1 < 2 ^ 64 - 1) }
    ensures none { IfNone result (after blocks.now spot.0 spot.1 ≡ []) }
{
    if spot.0 >= blocks.len() {
        return None;
    }
    if spot.1 < block_at(blocks, spot.0).len() {
        return Some(spot);
    }
    if spot.0 + 1 >= blocks.len() {
        return None;
    }
    Some((spot.0 + 1, 0))
}
