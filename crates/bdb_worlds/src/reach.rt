// The states along a path.
ghost use Rattle.std.specs.Prelude.{◌≡◌, ◌≤◌, true, IfOk, OnOk, MatchOption, length};
ghost use Rattle.bdb_base.specs.Alternation.{alternates};
ghost use Rattle.bdb_keep.specs.Seen.{NeverFall, Steps};
ghost use Rattle.bdb_tables.specs.Grammar.{InGrammar};
ghost use Rattle.bdb_worlds.specs.Holding.{HoldSome};
ghost use Rattle.bdb_worlds.specs.Reach.{HasDeepTarget, ReachesState};
ghost use Rattle.bdb_worlds.specs.Shrinking.{AreAlong, IsNoState};

use crate::staying::has_depth;
use bdb_keep::Keeper;
use bdb_tables::{DepthTab, EdgeTab, Room, TabError, get_in};
use std::alloc::Global;

/// The longest prefix of a path that is a state: how many users it has, and its number. The walk takes an edge for each
/// user, up to the first that doesn't lead to a world as deep as the prefix is long.
pub fn longest_state<K: Keeper>(
    alloc: Global,
    keeper: &mut K,
    path: &[u32],
) -> Result<(usize, u32), TabError>
    requires grammar { InGrammar (K.seen keeper.old).kept }
    requires states { HoldSome (K.seen keeper.old).kept path.now }
    requires apart { alternates path.now ≡ true }
    ensures found { IfOk result
        (λ found. ReachesState (K.seen keeper.old).kept path.now found.0 found.1) }
    ensures within { IfOk result (λ found. found.0 ≤ length path.now) }
    ensures kept { OnOk result ((K.seen keeper.new).kept ≡ (K.seen keeper.old).kept) }
    ensures writes { (K.seen keeper.new).writes ≡ (K.seen keeper.old).writes }
    ensures counts { NeverFall (K.seen keeper.old) (K.seen keeper.new) }
    ensures steps { Steps (K.seen keeper.old) (K.seen keeper.new) result TabError.Fault }
{
    let mut room = Room::new(alloc);
    let mut wid = 0;
    for (len, uid) in path.iter().enumerate() {
        let key = (wid, *uid);
        let target = match get_in::<EdgeTab, K>(alloc, keeper, &key, &mut room) {
            Ok(Some(target)) => target,
            Ok(None) => unreachable!(),
            Err(error) => return Err(error),
        };
        let depth = match get_in::<DepthTab, K>(alloc, keeper, &target, &mut room) {
            Ok(Some(depth)) => depth,
            Ok(None) => unreachable!(),
            Err(error) => return Err(error),
        };
        if depth as usize != len + 1 {
            return Ok((len, wid));
        }
        wid = target;
    }
    Ok((path.len(), wid))
}

/// The numbers of the prefixes of a path but the empty one, shortest first. None where the path is no state.
pub fn states_along<K: Keeper>(
    alloc: Global,
    keeper: &mut K,
    path: &[u32],
) -> Result<Option<Vec<u32>>, TabError>
    requires grammar { InGrammar (K.seen keeper.old).kept }
    requires apart { alternates path.now ≡ true }
    ensures found { IfOk result
        (λ found. MatchOption found (IsNoState (K.seen keeper.old).kept path.now)
        (λ numbers. AreAlong (K.seen keeper.old).kept path.now numbers.items)) }
    ensures kept { OnOk result ((K.seen keeper.new).kept ≡ (K.seen keeper.old).kept) }
    ensures writes { (K.seen keeper.new).writes ≡ (K.seen keeper.old).writes }
    ensures counts { NeverFall (K.seen keeper.old) (K.seen keeper.new) }
    ensures steps { Steps (K.seen keeper.old) (K.seen keeper.new) result TabError.Fault }
{
    let mut numbers = Vec::new(alloc);
    let mut wid = 0;
    for (len, uid) in path.iter().enumerate() {
        wid = match deep_target(alloc, keeper, wid, *uid, len + 1) {
            Ok(Some(target)) => target,
            Ok(None) => return Ok(None),
            Err(error) => return Err(error),
        };
        match numbers.push(wid) {
            Ok(()) => {}
            Err(_) => {
                keeper.undo();
                return Err(TabError::Memory);
            }
        }
    }
    Ok(Some(numbers))
}

/// The world to which the edge of a world for a user leads, where it has this depth. Two reads.
fn deep_target<K: Keeper>(
    alloc: Global,
    keeper: &mut K,
    wid: u32,
    uid: u32,
    depth: usize,
) -> Result<Option<u32>, TabError>
    requires grammar { InGrammar (K.seen keeper.old).kept }
    ensures found { IfOk result (HasDeepTarget (K.seen keeper.old).kept wid uid depth) }
    ensures kept { OnOk result ((K.seen keeper.new).kept ≡ (K.seen keeper.old).kept) }
    ensures writes { (K.seen keeper.new).writes ≡ (K.seen keeper.old).writes }
    ensures counts { NeverFall (K.seen keeper.old) (K.seen keeper.new) }
    ensures steps { Steps (K.seen keeper.old) (K.seen keeper.new) result TabError.Fault }
{
    let mut room = Room::new(alloc);
    let key = (wid, uid);
    let target = match get_in::<EdgeTab, K>(alloc, keeper, &key, &mut room) {
        Ok(Some(target)) => target,
        Ok(None) => return Ok(None),
        Err(error) => return Err(error),
    };
    match has_depth(alloc, keeper, target, depth, &mut room) {
        Ok(true) => Ok(Some(target)),
        Ok(false) => Ok(None),
        Err(error) => Err(error),
    }
}
