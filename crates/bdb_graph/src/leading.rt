// The worlds with those from which they come, whose edges lead to them.
ghost use Rattle.std.specs.Prelude.{◌≡◌, ◌&&◌, nat_le, length, IfOk, MatchOption};
ghost use Rattle.std.specs.Bool.{MatchBool};
ghost use Rattle.std.specs.List.{AllByRecursion};
ghost use Rattle.bdb_tables.specs.Grammar.{InGrammar};
ghost use Rattle.bdb_tables.specs.Names.{most_numbered};
ghost use Rattle.bdb_tables.specs.Reading.{OnlyReads};
ghost use Rattle.bdb_graph.specs.Leading.{AreLedUps, HasEdge, IsLedByEdge, has_root};
ghost use Rattle.bdb_graph.specs.Ups.{HoldNoStates};

use crate::ups::{Up, raw_ups};
use bdb_keep::Keeper;
use bdb_tables::{DepthTab, EdgeTab, TabError, get, rows_under};
use std::alloc::Global;

/// Most worlds that tables may number.
const MOST_NUMBERED: usize = 65_536;

/// The worlds by number, each with the world from which it comes, whose edge leads to it. None only where the tables hold
/// no states.
pub fn led_ups<K: Keeper>(alloc: Global, keeper: &mut K) -> Result<Option<Vec<Up>>, TabError>
    requires grammar { InGrammar (K.seen keeper.old).kept }
    ensures ups { IfOk result (λ r. MatchOption r (HoldNoStates (K.seen keeper.old).kept)
        (λ ups. AreLedUps (K.seen keeper.old).kept ups.items)) }
    ensures reading { OnlyReads (K.seen keeper.old) (K.seen keeper.new) result TabError.Fault }
{
    let depths = match rows_under::<DepthTab, K>(alloc, keeper, &[]) {
        Ok(depths) => depths,
        Err(error) => return Err(error),
    };
    let ups = match raw_ups(alloc, keeper, &depths) {
        Ok(Some(ups)) => ups,
        Ok(None) => return Ok(None),
        Err(error) => return Err(error),
    };
    if !may_be_tree(&ups) {
        return Ok(None);
    }
    match each_is_led(alloc, keeper, &ups) {
        Ok(true) => Ok(Some(ups)),
        Ok(false) => Ok(None),
        Err(error) => Err(error),
    }
}

// Whether these are not too many worlds, with world 0 at depth 0.
fn may_be_tree(ups: &[Up]) -> bool
    ensures { result ≡ (nat_le (length ups.now) most_numbered && has_root ups.now) }
{
    ups.len() <= MOST_NUMBERED && has_root(ups)
}

// Whether world 0 is at depth 0.
fn has_root(ups: &[Up]) -> bool
    ensures { result ≡ has_root ups.now }
{
    let mut rest = ups;
    while let [first, others @ ..] = rest {
        if first.wid == 0 {
            return first.depth == 0;
        }
        rest = others;
    }
    false
}

// Whether the edge of the world from which each of these comes leads to it. One read for each.
fn each_is_led<K: Keeper>(alloc: Global, keeper: &mut K, ups: &[Up]) -> Result<bool, TabError>
    requires grammar { InGrammar (K.seen keeper.old).kept }
    ensures led { IfOk result
        (λ b. MatchBool b (AllByRecursion (IsLedByEdge (K.seen keeper.old).kept) ups.now)
        (AllByRecursion (IsLedByEdge (K.seen keeper.old).kept) ups.now → ⊥)) }
    ensures reading { OnlyReads (K.seen keeper.old) (K.seen keeper.new) result TabError.Fault }
{
    for up in ups {
        let up = copy_of(up);
        match has_edge(alloc, keeper, up.from, up.uid, up.wid, up.depth) {
            Ok(true) => {}
            Ok(false) => return Ok(false),
            Err(error) => return Err(error),
        }
    }
    Ok(true)
}

// A copy of a world's row.
pub fn copy_of(up: &Up) -> Up
    ensures { result ≡ up.now }
{
    *up
}

// Whether the edge of a world for a user leads to another, unless that is at depth 0. One read at most.
fn has_edge<K: Keeper>(
    alloc: Global,
    keeper: &mut K,
    from: u32,
    uid: u32,
    wid: u32,
    depth: u32,
) -> Result<bool, TabError>
    requires grammar { InGrammar (K.seen keeper.old).kept }
    ensures edge { IfOk result
        (λ b. MatchBool b (HasEdge (K.seen keeper.old).kept from uid wid depth)
        (HasEdge (K.seen keeper.old).kept from uid wid depth → ⊥)) }
    ensures reading { OnlyReads (K.seen keeper.old) (K.seen keeper.new) result TabError.Fault }
{
    if depth == 0 {
        return Ok(true);
    }
    match get::<EdgeTab, K>(alloc, keeper, &(from, uid)) {
        Ok(Some(target)) => Ok(target == wid),
        Ok(None) => Ok(false),
        Err(error) => Err(error),
    }
}
