// The edges of a user who comes, and of one who goes.
ghost use Rattle.std.specs.Prelude.{◌≡◌, true, IfOk, OnOk};
ghost use Rattle.bdb_base.specs.Causes.{Rises};
ghost use Rattle.bdb_keep.specs.Seen.{NeverFall, Steps};
ghost use Rattle.bdb_tables.specs.Grammar.{InGrammar};
ghost use Rattle.bdb_worlds.specs.Bounds.{EndsWithin};
ghost use Rattle.bdb_worlds.specs.Growth.{SameOutside};
ghost use Rattle.bdb_worlds.specs.UserEdges.{AddsUser, HasNextNumber, WritesEdges, DropsUser, DropsEdge, WritesDropped, ReadsWorlds};

use crate::leaving::drop_edge;
use crate::making::make_edge;
use bdb_keep::Keeper;
use bdb_tables::{DepthTab, EdgeTab, Room, TabError, get_in, next};
use std::alloc::Global;

/// Makes an edge from each world to the empty path for a new user, whom no path names yet. Two writes for each
/// world; no table but the two of edges changes.
pub fn add_user_edges<K: Keeper>(alloc: Global, keeper: &mut K, uid: u32) -> Result<(), TabError>
    requires running { (K.seen keeper.old).running ≡ true }
    requires grammar { InGrammar (K.seen keeper.old).kept }
    ensures added { OnOk result (AddsUser (K.seen keeper.old).kept (K.seen keeper.new).kept uid) }
    ensures others { OnOk result
        (SameOutside 9 10 (K.seen keeper.old).kept (K.seen keeper.new).kept) }
    ensures grammar { OnOk result (InGrammar (K.seen keeper.new).kept) }
    ensures writes { OnOk result (WritesEdges (K.seen keeper.old) (K.seen keeper.new) uid) }
    ensures counts { NeverFall (K.seen keeper.old) (K.seen keeper.new) }
    ensures steps { Steps (K.seen keeper.old) (K.seen keeper.new) result TabError.Fault }
{
    let mut room = Room::new(alloc);
    let mut low: u64 = 0;
    for _ in 0..u64::MAX {
        let wid = match next_number(alloc, keeper, low) {
            Ok(Some(wid)) => wid,
            Ok(None) => return Ok(()),
            Err(error) => return Err(error),
        };
        match make_edge(keeper, wid, uid, 0, &mut room) {
            Ok(()) => {}
            Err(error) => return Err(error),
        }
        low = wid as u64 + 1;
    }
    keeper.undo();
    Err(TabError::Memory)
}

/// Takes away the edge of each world for a user whom no path names. For each world two writes are made, and no more than
/// two reads, and one read at the end; no table but the two of edges changes.
pub fn drop_user_edges<K: Keeper>(alloc: Global, keeper: &mut K, uid: u32) -> Result<(), TabError>
    requires running { (K.seen keeper.old).running ≡ true }
    requires grammar { InGrammar (K.seen keeper.old).kept }
    ensures dropped { OnOk result
        (DropsUser (K.seen keeper.old).kept (K.seen keeper.new).kept uid) }
    ensures others { OnOk result
        (SameOutside 9 10 (K.seen keeper.old).kept (K.seen keeper.new).kept) }
    ensures grammar { OnOk result (InGrammar (K.seen keeper.new).kept) }
    ensures reads { OnOk result (ReadsWorlds (K.seen keeper.old) (K.seen keeper.new)) }
    ensures writes { OnOk result (WritesDropped (K.seen keeper.old) (K.seen keeper.new) uid) }
    ensures counts { NeverFall (K.seen keeper.old) (K.seen keeper.new) }
    ensures steps { Steps (K.seen keeper.old) (K.seen keeper.new) result TabError.Fault }
{
    let mut room = Room::new(alloc);
    let mut low: u64 = 0;
    for _ in 0..u64::MAX {
        let wid = match next_number(alloc, keeper, low) {
            Ok(Some(wid)) => wid,
            Ok(None) => return Ok(()),
            Err(error) => return Err(error),
        };
        match drop_user_edge(alloc, keeper, wid, uid, &mut room) {
            Ok(()) => {}
            Err(error) => return Err(error),
        }
        low = wid as u64 + 1;
    }
    keeper.undo();
    Err(TabError::Memory)
}

/// Takes away the edge of a world for a user, where it has one. One read, and two writes where it has.
fn drop_user_edge<K: Keeper>(
    alloc: Global,
    keeper: &mut K,
    wid: u32,
    uid: u32,
    room: &mut Room,
) -> Result<(), TabError>
    requires running { (K.seen keeper.old).running ≡ true }
    requires grammar { InGrammar (K.seen keeper.old).kept }
    ensures dropped { OnOk result (DropsEdge (K.seen keeper.old) (K.seen keeper.new) (wid, uid)) }
    ensures grammar { OnOk result (InGrammar (K.seen keeper.new).kept) }
    ensures reads { OnOk result (Rises 1 (K.seen keeper.old).reads (K.seen keeper.new).reads) }
    ensures counts { NeverFall (K.seen keeper.old) (K.seen keeper.new) }
    ensures steps { Steps (K.seen keeper.old) (K.seen keeper.new) result TabError.Fault }
{
    let key = (wid, uid);
    let target = match get_in::<EdgeTab, K>(alloc, keeper, &key, room) {
        Ok(Some(target)) => target,
        Ok(None) => return Ok(()),
        Err(error) => return Err(error),
    };
    match drop_edge(keeper, wid, uid, target, room) {
        Ok(()) => Ok(()),
        Err(error) => Err(error),
    }
}

/// The least number of a world from `low` on. One read, or none where `low` is beyond all numbers.
fn next_number<K: Keeper>(alloc: Global, keeper: &mut K, low: u64) -> Result<Option<u32>, TabError>
    requires grammar { InGrammar (K.seen keeper.old).kept }
    ensures number { IfOk result (HasNextNumber (K.seen keeper.old).kept low) }
    ensures kept { OnOk result ((K.seen keeper.new).kept ≡ (K.seen keeper.old).kept) }
    ensures reads { OnOk result
        (EndsWithin 1 (K.seen keeper.old).reads (K.seen keeper.new).reads) }
    ensures writes { (K.seen keeper.new).writes ≡ (K.seen keeper.old).writes }
    ensures counts { NeverFall (K.seen keeper.old) (K.seen keeper.new) }
    ensures steps { Steps (K.seen keeper.old) (K.seen keeper.new) result TabError.Fault }
{
    if low > u32::MAX as u64 {
        return Ok(None);
    }
    match next::<DepthTab, K>(alloc, keeper, &(low as u32)) {
        Ok(Some(entry)) => Ok(Some(entry.0)),
        Ok(None) => Ok(None),
        Err(error) => Err(error),
    }
}
