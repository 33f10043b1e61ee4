// Whether a state is needed: by an explicit row, or by a state one user longer.
ghost use Rattle.std.specs.Prelude.{◌≡◌, IfOk, OnOk};
ghost use Rattle.bdb_keep.specs.Seen.{NeverFall, Steps};
ghost use Rattle.bdb_tables.specs.Grammar.{InGrammar};
ghost use Rattle.bdb_worlds.specs.Staying.{TellsDepth, TellsLonger, TellsNeeded};

use crate::owning::next_edge;
use bdb_keep::Keeper;
use bdb_tables::{DepthTab, Room, TabError, get_in, has_explicit};
use std::alloc::Global;

/// Whether the path of a world has to stay a state: it has an explicit row, or a state is one user longer, and so as deep
/// as `deeper`.
pub fn is_needed<K: Keeper>(
    alloc: Global,
    keeper: &mut K,
    wid: u32,
    deeper: usize,
) -> Result<bool, TabError>
    requires grammar { InGrammar (K.seen keeper.old).kept }
    ensures needed { IfOk result (TellsNeeded (K.seen keeper.old).kept wid deeper) }
    ensures kept { OnOk result ((K.seen keeper.new).kept ≡ (K.seen keeper.old).kept) }
    ensures writes { (K.seen keeper.new).writes ≡ (K.seen keeper.old).writes }
    ensures counts { NeverFall (K.seen keeper.old) (K.seen keeper.new) }
    ensures steps { Steps (K.seen keeper.old) (K.seen keeper.new) result TabError.Fault }
{
    match has_explicit(keeper, wid) {
        Ok(true) => return Ok(true),
        Ok(false) => {}
        Err(error) => return Err(error),
    }
    match has_longer(alloc, keeper, wid, deeper) {
        Ok(found) => Ok(found),
        Err(error) => Err(error),
    }
}

/// Whether a state is one user longer than the path of a world: whether an edge of the world leads to one as deep as
/// `deeper`.
fn has_longer<K: Keeper>(
    alloc: Global,
    keeper: &mut K,
    wid: u32,
    deeper: usize,
) -> Result<bool, TabError>
    requires grammar { InGrammar (K.seen keeper.old).kept }
    ensures longer { IfOk result (TellsLonger (K.seen keeper.old).kept wid deeper) }
    ensures kept { OnOk result ((K.seen keeper.new).kept ≡ (K.seen keeper.old).kept) }
    ensures writes { (K.seen keeper.new).writes ≡ (K.seen keeper.old).writes }
    ensures counts { NeverFall (K.seen keeper.old) (K.seen keeper.new) }
    ensures steps { Steps (K.seen keeper.old) (K.seen keeper.new) result TabError.Fault }
{
    let mut room = Room::new(alloc);
    let mut low: u64 = 0;
    for _ in 0..u64::MAX {
        let edge = match next_edge(alloc, keeper, wid, low, &mut room) {
            Ok(Some(edge)) => edge,
            Ok(None) => return Ok(false),
            Err(error) => return Err(error),
        };
        match has_depth(alloc, keeper, edge.1, deeper, &mut room) {
            Ok(true) => return Ok(true),
            Ok(false) => {}
            Err(error) => return Err(error),
        }
        low = edge.0 as u64 + 1;
    }
    keeper.undo();
    Err(TabError::Memory)
}

/// Whether a world has this depth. One read. `room` is room for bytes.
pub fn has_depth<K: Keeper>(
    alloc: Global,
    keeper: &mut K,
    wid: u32,
    depth: usize,
    room: &mut Room,
) -> Result<bool, TabError>
    requires grammar { InGrammar (K.seen keeper.old).kept }
    ensures depth { IfOk result (TellsDepth (K.seen keeper.old).kept wid depth) }
    ensures kept { OnOk result ((K.seen keeper.new).kept ≡ (K.seen keeper.old).kept) }
    ensures writes { (K.seen keeper.new).writes ≡ (K.seen keeper.old).writes }
    ensures counts { NeverFall (K.seen keeper.old) (K.seen keeper.new) }
    ensures steps { Steps (K.seen keeper.old) (K.seen keeper.new) result TabError.Fault }
{
    match get_in::<DepthTab, K>(alloc, keeper, &wid, room) {
        Ok(Some(found)) => Ok(found as usize == depth),
        Ok(None) => Ok(false),
        Err(error) => Err(error),
    }
}
