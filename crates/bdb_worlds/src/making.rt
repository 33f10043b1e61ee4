// The own rows of a world: its depth, its suffix link and its edges.
ghost use Rattle.std.specs.Prelude.{◌≡◌, ◌*◌, true, None, Some, OnOk, length};
ghost use Rattle.bdb_base.specs.Causes.{Rises};
ghost use Rattle.bdb_keep.specs.Seen.{NeverFall, Steps};
ghost use Rattle.bdb_tables.specs.Grammar.{InGrammar};
ghost use Rattle.bdb_names.specs.Turned.{edge_set, edges_made, state_made};

use bdb_keep::Keeper;
use bdb_tables::{DepthTab, EdgeIx, EdgeTab, Room, SuffixIx, SuffixTab, TabError, put, put_in};
use std::alloc::Global;

/// Makes edges of a world, each given by its user and the world to which it leads. Two writes each.
pub fn make_edges<K: Keeper>(
    alloc: Global,
    keeper: &mut K,
    wid: u32,
    edges: &[(u32, u32)],
) -> Result<(), TabError>
    requires running { (K.seen keeper.old).running ≡ true }
    ensures kept { OnOk result
        ((K.seen keeper.new).kept ≡ edges_made (K.seen keeper.old).kept wid edges.now) }
    ensures grammar { OnOk result (InGrammar (K.seen keeper.old).kept
        → InGrammar (K.seen keeper.new).kept) }
    ensures reads { (K.seen keeper.new).reads ≡ (K.seen keeper.old).reads }
    ensures writes { OnOk result (Rises (2 * length edges.now) (K.seen keeper.old).writes
        (K.seen keeper.new).writes) }
    ensures counts { NeverFall (K.seen keeper.old) (K.seen keeper.new) }
    ensures steps { Steps (K.seen keeper.old) (K.seen keeper.new) result TabError.Fault }
{
    let mut room = Room::new(alloc);
    for edge in edges {
        match make_edge(keeper, wid, edge.0, edge.1, &mut room) {
            Ok(()) => {}
            Err(error) => return Err(error),
        }
    }
    Ok(())
}

/// Makes the edge of a world for a user.
pub fn make_edge<K: Keeper>(
    keeper: &mut K,
    wid: u32,
    uid: u32,
    to: u32,
    room: &mut Room,
) -> Result<(), TabError>
    requires running { (K.seen keeper.old).running ≡ true }
    ensures kept { OnOk result ((K.seen keeper.new).kept ≡ edge_set (K.seen keeper.old).kept None
        (Some to) (wid, uid)) }
    ensures grammar { OnOk result (InGrammar (K.seen keeper.old).kept
        → InGrammar (K.seen keeper.new).kept) }
    ensures reads { (K.seen keeper.new).reads ≡ (K.seen keeper.old).reads }
    ensures writes { OnOk result (Rises 2 (K.seen keeper.old).writes (K.seen keeper.new).writes) }
    ensures counts { NeverFall (K.seen keeper.old) (K.seen keeper.new) }
    ensures steps { Steps (K.seen keeper.old) (K.seen keeper.new) result TabError.Fault }
{
    put_in::<EdgeTab, K>(keeper, &(wid, uid), &to, room)?;
    put_in::<EdgeIx, K>(keeper, &(to, wid, uid), &(), room)?;
    Ok(())
}

/// Makes the depth and the suffix link of a world. Three writes.
pub fn make_state<K: Keeper>(
    alloc: Global,
    keeper: &mut K,
    wid: u32,
    depth: u32,
    link: u32,
) -> Result<(), TabError>
    requires running { (K.seen keeper.old).running ≡ true }
    ensures kept { OnOk result
        ((K.seen keeper.new).kept ≡ state_made (K.seen keeper.old).kept wid depth link) }
    ensures grammar { OnOk result (InGrammar (K.seen keeper.old).kept
        → InGrammar (K.seen keeper.new).kept) }
    ensures reads { (K.seen keeper.new).reads ≡ (K.seen keeper.old).reads }
    ensures writes { OnOk result (Rises 3 (K.seen keeper.old).writes (K.seen keeper.new).writes) }
    ensures counts { NeverFall (K.seen keeper.old) (K.seen keeper.new) }
    ensures steps { Steps (K.seen keeper.old) (K.seen keeper.new) result TabError.Fault }
{
    put::<DepthTab, K>(alloc, keeper, &wid, &depth)?;
    put::<SuffixTab, K>(alloc, keeper, &wid, &link)?;
    put::<SuffixIx, K>(alloc, keeper, &(link, wid), &())?;
    Ok(())
}
