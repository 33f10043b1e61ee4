// Links and edges led to another world, with their turned rows.
ghost use Rattle.std.specs.Prelude.{◌≡◌, ◌*◌, true, Some, OnOk, length};
ghost use Rattle.bdb_base.specs.Causes.{Rises};
ghost use Rattle.bdb_keep.specs.Seen.{NeverFall, Steps};
ghost use Rattle.bdb_tables.specs.Grammar.{InGrammar};
ghost use Rattle.bdb_names.specs.Turned.{edge_set, edges_led, link_set, links_led};

use bdb_keep::Keeper;
use bdb_tables::{EdgeIx, EdgeTab, Room, SuffixIx, SuffixTab, TabError, drop_in, put_in};
use std::alloc::Global;

/// Leads the edges of worlds for a user to another world. Three writes each.
pub fn lead_edges<K: Keeper>(
    alloc: Global,
    keeper: &mut K,
    sources: &[u32],
    uid: u32,
    from: u32,
    to: u32,
) -> Result<(), TabError>
    requires running { (K.seen keeper.old).running ≡ true }
    ensures kept { OnOk result
        ((K.seen keeper.new).kept ≡ edges_led (K.seen keeper.old).kept uid from to sources.now) }
    ensures grammar { OnOk result (InGrammar (K.seen keeper.old).kept
        → InGrammar (K.seen keeper.new).kept) }
    ensures reads { (K.seen keeper.new).reads ≡ (K.seen keeper.old).reads }
    ensures writes { OnOk result (Rises (3 * length sources.now) (K.seen keeper.old).writes
        (K.seen keeper.new).writes) }
    ensures counts { NeverFall (K.seen keeper.old) (K.seen keeper.new) }
    ensures steps { Steps (K.seen keeper.old) (K.seen keeper.new) result TabError.Fault }
{
    let mut room = Room::new(alloc);
    for wid in sources {
        match lead_edge(keeper, *wid, uid, from, to, &mut room) {
            Ok(()) => {}
            Err(error) => return Err(error),
        }
    }
    Ok(())
}

/// Leads the suffix links of worlds to another world. Three writes each.
pub fn lead_links<K: Keeper>(
    alloc: Global,
    keeper: &mut K,
    sources: &[u32],
    from: u32,
    to: u32,
) -> Result<(), TabError>
    requires running { (K.seen keeper.old).running ≡ true }
    ensures kept { OnOk result
        ((K.seen keeper.new).kept ≡ links_led (K.seen keeper.old).kept from to sources.now) }
    ensures grammar { OnOk result (InGrammar (K.seen keeper.old).kept
        → InGrammar (K.seen keeper.new).kept) }
    ensures reads { (K.seen keeper.new).reads ≡ (K.seen keeper.old).reads }
    ensures writes { OnOk result (Rises (3 * length sources.now) (K.seen keeper.old).writes
        (K.seen keeper.new).writes) }
    ensures counts { NeverFall (K.seen keeper.old) (K.seen keeper.new) }
    ensures steps { Steps (K.seen keeper.old) (K.seen keeper.new) result TabError.Fault }
{
    let mut room = Room::new(alloc);
    for wid in sources {
        match lead_link(keeper, *wid, from, to, &mut room) {
            Ok(()) => {}
            Err(error) => return Err(error),
        }
    }
    Ok(())
}

/// Leads the edge of a world for a user to another world.
pub fn lead_edge<K: Keeper>(
    keeper: &mut K,
    wid: u32,
    uid: u32,
    from: u32,
    to: u32,
    room: &mut Room,
) -> Result<(), TabError>
    requires running { (K.seen keeper.old).running ≡ true }
    ensures kept { OnOk result ((K.seen keeper.new).kept ≡ edge_set (K.seen keeper.old).kept
        (Some from) (Some to) (wid, uid)) }
    ensures grammar { OnOk result (InGrammar (K.seen keeper.old).kept
        → InGrammar (K.seen keeper.new).kept) }
    ensures reads { (K.seen keeper.new).reads ≡ (K.seen keeper.old).reads }
    ensures writes { OnOk result (Rises 3 (K.seen keeper.old).writes (K.seen keeper.new).writes) }
    ensures counts { NeverFall (K.seen keeper.old) (K.seen keeper.new) }
    ensures steps { Steps (K.seen keeper.old) (K.seen keeper.new) result TabError.Fault }
{
    put_in::<EdgeTab, K>(keeper, &(wid, uid), &to, room)?;
    let _gone = drop_in::<EdgeIx, K>(keeper, &(from, wid, uid), room)?;
    put_in::<EdgeIx, K>(keeper, &(to, wid, uid), &(), room)?;
    Ok(())
}

/// Leads the suffix link of a world to another world.
pub fn lead_link<K: Keeper>(
    keeper: &mut K,
    wid: u32,
    from: u32,
    to: u32,
    room: &mut Room,
) -> Result<(), TabError>
    requires running { (K.seen keeper.old).running ≡ true }
    ensures kept { OnOk result ((K.seen keeper.new).kept ≡ link_set (K.seen keeper.old).kept
        (Some from) (Some to) wid) }
    ensures grammar { OnOk result (InGrammar (K.seen keeper.old).kept
        → InGrammar (K.seen keeper.new).kept) }
    ensures reads { (K.seen keeper.new).reads ≡ (K.seen keeper.old).reads }
    ensures writes { OnOk result (Rises 3 (K.seen keeper.old).writes (K.seen keeper.new).writes) }
    ensures counts { NeverFall (K.seen keeper.old) (K.seen keeper.new) }
    ensures steps { Steps (K.seen keeper.old) (K.seen keeper.new) result TabError.Fault }
{
    put_in::<SuffixTab, K>(keeper, &wid, &to, room)?;
    let _gone = drop_in::<SuffixIx, K>(keeper, &(from, wid), room)?;
    put_in::<SuffixIx, K>(keeper, &(to, wid), &(), room)?;
    Ok(())
}
