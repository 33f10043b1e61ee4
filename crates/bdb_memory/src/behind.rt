// What comes right behind a spot, where rows are put or taken away in the order of their places.
ghost use Rattle.std.specs.Prelude.{false, IfOk, IfErr, IfSome, OnSome};
ghost use Rattle.bdb_memory.specs.Blocks.{joined, AreSorted, StandsAt, BelongsHere};
ghost use Rattle.bdb_memory.specs.Shelves.{BelongsAmong};

use crate::block::Block;
use crate::finding::{Spot, entry_of, find_behind, first_at};
use crate::words::Probe;
use std::cmp::Ordering;

/// Where a place stands, at Err where it belongs, if that is right behind the one at a spot, which is below it. None also where it may
/// belong behind these blocks; `is_last` tells that there is nothing behind them.
#[inline(always)]
pub fn find_right_behind(
    blocks: &[Block],
    spot: Spot,
    is_last: bool,
    probe: &Probe<'_>,
) -> Option<Result<Spot, Spot>>
    requires { AreSorted blocks.now }
    ensures there { IfSome result
        (λ found. IfOk found (λ at. StandsAt blocks.now probe.now at.0 at.1)) }
    ensures gap { IfSome result
        (λ found. IfErr found (λ at. BelongsHere blocks.now probe.now at.0 at.1)) }
    ensures belongs { OnSome result (BelongsAmong (joined blocks.now) probe.now is_last) }
{
    match first_at(blocks, spot) {
        Some(here) => match entry_of(blocks, here).compare(probe) {
            Ordering::Less => find_behind(blocks, here, is_last, probe),
            Ordering::Equal => None,
            Ordering::Greater => None,
        },
        None => None,
    }
}

/// Where a place stands, if it is the first one behind a spot.
#[inline(always)]
pub fn stands_behind(blocks: &[Block], spot: Spot, probe: &Probe<'_>) -> Option<Spot>
    requires { AreSorted blocks.now }
    ensures there { IfSome result (λ at. StandsAt blocks.now probe.now at.0 at.1) }
    ensures belongs { OnSome result (BelongsAmong (joined blocks.now) probe.now false) }
{
    match first_at(blocks, (spot.0, spot.1.saturating_add(1))) {
        Some(at) => match entry_of(blocks, at).compare(probe) {
            Ordering::Less => None,
            Ordering::Equal => Some(at),
            Ordering::Greater => None,
        },
        None => None,
    }
}
