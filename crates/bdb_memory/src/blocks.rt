// Changing entries in sorted blocks.
ghost use Rattle.std.specs.Prelude.{◌≡◌, ◌≤◌, ◌∷◌, ◌++◌, [], Some, IfOk, ◌<◌, OnOk, OnErr};
ghost use Prim.Native.Nat.{suc};
ghost use Rattle.std.specs.Prelude.{length, slice_index_or, map as map_list};
ghost use Rattle.bdb_memory.specs.Blocks.{joined, before, after, AreSorted, HaveEntries, BelongsHere, IsThere, without_empty, cut, entry_at};

use crate::block::{Block, CAPACITY};
use crate::entry::Entry;
use crate::finding::{Spot, block_at};
use crate::row::Row;
use crate::words::Probe;
use std::alloc::{AllocError, Global};

/// Puts another row where a place stands, and answers the one that stood there.
pub fn replace_at(blocks: &mut Vec<Block>, spot: Spot, row: Option<Row>) -> Option<Row>
    requires sorted { AreSorted blocks.old.items }
    requires there { IsThere blocks.old.items spot.0 spot.1 }
    ensures sorted { AreSorted blocks.new.items }
    ensures before { result ≡ (entry_at (slice_index_or blocks.old.items spot.0 []) spot.1).1 }
    ensures entries { joined blocks.new.items
        ≡ before blocks.old.items spot.0 spot.1
        ++ ((entry_at (slice_index_or blocks.old.items spot.0 []) spot.1).0, row)
        ∷ after blocks.old.items spot.0 (suc spot.1) }
{
    blocks[spot.0].replace(spot.1, row)
}

/// Adds a place that stands nowhere where it belongs, and answers where it stands. `rises` tells that it comes right behind the one
/// that was used last.
pub fn add(
    alloc: Global,
    blocks: &mut Vec<Block>,
    spot: Spot,
    rises: bool,
    probe: &Probe<'_>,
    row: &[u8],
) -> Result<Spot, AllocError>
    requires sorted { AreSorted blocks.old.items }
    requires gap { BelongsHere blocks.old.items probe.now spot.0 spot.1 }
    ensures sorted { AreSorted blocks.new.items }
    ensures ok { OnOk result
        (joined blocks.new.items ≡ before blocks.old.items spot.0 spot.1
        ++ (probe.now, Some row.now)
        ∷ after blocks.old.items spot.0 spot.1) }
    ensures err { OnErr result (joined blocks.new.items ≡ joined blocks.old.items) }
{
    let entry = Entry::of(alloc, probe, row)?;
    if blocks.is_empty() {
        let block = Block::of(alloc, entry)?;
        blocks.push(block)?;
        return Ok(spot);
    }
    let spot = make_room(blocks, spot, rises)?;
    blocks[spot.0].insert(spot.1, entry)?;
    Ok(spot)
}

/// Cuts a full block in two, and answers where the spot is then.
fn make_room(blocks: &mut Vec<Block>, spot: Spot, rises: bool) -> Result<Spot, AllocError>
    requires sorted { AreSorted blocks.old.items }
    requires block { spot.0 < length blocks.old.items }
    requires index { spot.1 ≤ length (slice_index_or blocks.old.items spot.0 []) }
    ensures sorted { AreSorted blocks.new.items }
    ensures same { joined blocks.new.items ≡ joined blocks.old.items }
    ensures block { IfOk result (λ at. at.0 < length blocks.new.items) }
    ensures index { IfOk result (λ at. at.1 ≤ length (slice_index_or blocks.new.items at.0 [])) }
    ensures before { IfOk result
        (λ at. before blocks.new.items at.0 at.1 ≡ before blocks.old.items spot.0 spot.1) }
    ensures after { IfOk result
        (λ at. after blocks.new.items at.0 at.1 ≡ after blocks.old.items spot.0 spot.1) }
{
    if block_at(blocks, spot.0).len() < CAPACITY {
        return Ok(spot);
    }
    let middle = middle_for(spot.1, rises);
    cut_block(blocks, spot.0, middle)?;
    if spot.1 <= middle {
        Ok(spot)
    } else {
        Ok((spot.0 + 1, spot.1 - middle))
    }
}

/// Cuts a block in two.
fn cut_block(blocks: &mut Vec<Block>, at: usize, middle: usize) -> Result<(), AllocError>
    requires block { at < length blocks.old.items }
    requires index { middle ≤ length (slice_index_or blocks.old.items at []) }
    ensures ok { OnOk result (blocks.new.items ≡ cut blocks.old.items at middle) }
    ensures err { OnErr result (blocks.new.items ≡ blocks.old.items) }
{
    blocks.reserve(1)?;
    let back = blocks[at].split_off(middle)?;
    match blocks.insert(at + 1, back) {
        Ok(()) => Ok(()),
        Err(_) => unreachable!(),
    }
}

/// Where a full block is cut: in the middle; but where places come in their order, right behind the new one, so that they leave full
/// blocks.
fn middle_for(index: usize, rises: bool) -> usize
    ensures { (1 ≤ result) × (result < 32) }
{
    if index >= CAPACITY {
        CAPACITY - 1
    } else if rises && index > 0 {
        index
    } else {
        CAPACITY / 2
    }
}

/// Whether a spot is the one right behind another in its block.
pub fn is_behind(last: Spot, spot: Spot) -> bool {
    spot.0 == last.0 && spot.1 == last.1.saturating_add(1)
}

/// Takes an entry out, and its block where that is then empty.
pub fn take_out(blocks: &mut Vec<Block>, spot: Spot)
    requires sorted { AreSorted blocks.old.items }
    requires there { IsThere blocks.old.items spot.0 spot.1 }
    ensures sorted { AreSorted blocks.new.items }
    ensures rest { joined blocks.new.items
        ≡ before blocks.old.items spot.0 spot.1 ++ after blocks.old.items spot.0 (suc spot.1) }
{
    if block_at(blocks, spot.0).len() == 1 {
        blocks.remove(spot.0);
    } else {
        blocks[spot.0].remove(spot.1);
    }
}

/// Takes the empty places out of each block.
pub fn drop_empty_places(blocks: &mut Vec<Block>)
    ensures { blocks.new.items ≡ map_list without_empty blocks.old.items }
{
    for block in blocks.iter_mut() {
        block.drop_empty();
    }
}

/// Takes the blocks with no entry out.
pub fn drop_empty_blocks(blocks: &mut Vec<Block>)
    ensures same { joined blocks.new.items ≡ joined blocks.old.items }
    ensures full { HaveEntries blocks.new.items }
{
    blocks.retain(|block| !block.is_empty());
}
