// A state that goes: what leads to it is read first, and then led past it.
ghost use Rattle.std.specs.Prelude.{◌≡◌, ◌*◌, true, IfOk, OnOk, is_some, length};
ghost use Rattle.std.specs.FinMap as map;
ghost use Rattle.bdb_base.specs.Causes.{Rises};
ghost use Rattle.bdb_keep.specs.Seen.{NeverFall, Steps};
ghost use Rattle.bdb_tables.specs.Codec.{place};
ghost use Rattle.bdb_tables.specs.Grammar.{InGrammar};
ghost use Rattle.bdb_tables.specs.InUse.{link_codec};
ghost use Rattle.bdb_names.specs.Turned.{edge_set, links_led};
ghost use Rattle.bdb_worlds.specs.Dropping.{AreWorldRows, IsDroppedWithin, pairs_led, pairs_of, kids_of, edges_in_rows, edges_dropped, state_dropped, without_state, dropped_writes};

use crate::leading::{lead_edge, lead_link};
use bdb_keep::Keeper;
use bdb_key::put_num;
use bdb_tables::{
    DepthTab, EdgeIx, EdgeTab, Room, SuffixIx, SuffixTab, TabError, drop_in, drop_row, get,
    rows_under,
};
use std::alloc::Global;

/// The rows of a world.
#[derive(Drop)]
struct OwnRows {
    /// The world to which its suffix link leads.
    link: u32,
    /// The edges that lead to it, turned round.
    led: Vec<((u32, u32, u32), ())>,
    /// The suffix links that lead to it, turned round.
    linked: Vec<((u32, u32), ())>,
    /// Its own edges.
    own: Vec<((u32, u32), u32)>,
}

/// Takes a state away: all that led to it leads where its suffix link led, and its own rows go.
pub fn drop_state<K: Keeper>(alloc: Global, keeper: &mut K, wid: u32) -> Result<(), TabError>
    requires running { (K.seen keeper.old).running ≡ true }
    requires grammar { InGrammar (K.seen keeper.old).kept }
    requires link { is_some (map.get (K.seen keeper.old).kept (place link_codec wid)) ≡ true }
    ensures dropped { OnOk result (IsDroppedWithin (K.seen keeper.old).kept (K.seen keeper.new).kept wid
        (K.seen keeper.old).writes (K.seen keeper.new).writes) }
    ensures grammar { OnOk result (InGrammar (K.seen keeper.new).kept) }
    ensures counts { NeverFall (K.seen keeper.old) (K.seen keeper.new) }
    ensures steps { Steps (K.seen keeper.old) (K.seen keeper.new) result TabError.Fault }
{
    let rows = match read_rows(alloc, keeper, wid) {
        Ok(rows) => rows,
        Err(error) => return Err(error),
    };
    match write_gone(alloc, keeper, &rows, wid) {
        Ok(()) => Ok(()),
        Err(error) => Err(error),
    }
}

/// The rows of a world that has a suffix link.
fn read_rows<K: Keeper>(alloc: Global, keeper: &mut K, wid: u32) -> Result<OwnRows, TabError>
    requires grammar { InGrammar (K.seen keeper.old).kept }
    requires link { is_some (map.get (K.seen keeper.old).kept (place link_codec wid)) ≡ true }
    ensures rows { IfOk result
        (λ rows.
        AreWorldRows
        (K.seen keeper.old).kept wid rows.link rows.led.items rows.linked.items rows.own.items) }
    ensures kept { OnOk result ((K.seen keeper.new).kept ≡ (K.seen keeper.old).kept) }
    ensures writes { (K.seen keeper.new).writes ≡ (K.seen keeper.old).writes }
    ensures counts { NeverFall (K.seen keeper.old) (K.seen keeper.new) }
    ensures steps { Steps (K.seen keeper.old) (K.seen keeper.new) result TabError.Fault }
{
    let mut prefix = Vec::new(alloc);
    if put_num(&mut prefix, wid).is_err() {
        keeper.undo();
        return Err(TabError::Memory);
    }
    let link = match get::<SuffixTab, K>(alloc, keeper, &wid) {
        Ok(Some(link)) => link,
        Ok(None) => unreachable!(),
        Err(error) => return Err(error),
    };
    let led = match rows_under::<EdgeIx, K>(alloc, keeper, &prefix) {
        Ok(led) => led,
        Err(error) => return Err(error),
    };
    let linked = match rows_under::<SuffixIx, K>(alloc, keeper, &prefix) {
        Ok(linked) => linked,
        Err(error) => return Err(error),
    };
    let own = match rows_under::<EdgeTab, K>(alloc, keeper, &prefix) {
        Ok(own) => own,
        Err(error) => return Err(error),
    };
    Ok(OwnRows {
        link,
        led,
        linked,
        own,
    })
}

/// Leads past a world what leads to it, and takes its own rows away.
fn write_gone<K: Keeper>(
    alloc: Global,
    keeper: &mut K,
    rows: &OwnRows,
    wid: u32,
) -> Result<(), TabError>
    requires running { (K.seen keeper.old).running ≡ true }
    ensures kept { OnOk result
        ((K.seen keeper.new).kept ≡ without_state (K.seen keeper.old).kept wid rows.now.link
        (pairs_of rows.now.led.items) (kids_of rows.now.linked.items)
        (edges_in_rows rows.now.own.items)) }
    ensures grammar { OnOk result (InGrammar (K.seen keeper.old).kept
        → InGrammar (K.seen keeper.new).kept) }
    ensures writes { OnOk result
        (Rises (dropped_writes rows.now.led.items rows.now.linked.items rows.now.own.items)
        (K.seen keeper.old).writes (K.seen keeper.new).writes) }
    ensures counts { NeverFall (K.seen keeper.old) (K.seen keeper.new) }
    ensures steps { Steps (K.seen keeper.old) (K.seen keeper.new) result TabError.Fault }
{
    let link = rows.link;
    lead_pairs(alloc, keeper, &rows.led, wid, link)?;
    lead_kids(alloc, keeper, &rows.linked, wid, link)?;
    drop_edges(alloc, keeper, &rows.own, wid)?;
    drop_own(alloc, keeper, wid, link)?;
    Ok(())
}

/// Leads the edges of these rows to another world. Three writes each.
fn lead_pairs<K: Keeper>(
    alloc: Global,
    keeper: &mut K,
    rows: &[((u32, u32, u32), ())],
    from: u32,
    to: u32,
) -> Result<(), TabError>
    requires running { (K.seen keeper.old).running ≡ true }
    ensures kept { OnOk result
        ((K.seen keeper.new).kept ≡ pairs_led (K.seen keeper.old).kept from to
        (pairs_of rows.now)) }
    ensures grammar { OnOk result (InGrammar (K.seen keeper.old).kept
        → InGrammar (K.seen keeper.new).kept) }
    ensures writes { OnOk result (Rises (3 * length rows.now) (K.seen keeper.old).writes
        (K.seen keeper.new).writes) }
    ensures counts { NeverFall (K.seen keeper.old) (K.seen keeper.new) }
    ensures steps { Steps (K.seen keeper.old) (K.seen keeper.new) result TabError.Fault }
{
    let mut room = Room::new(alloc);
    for row in rows {
        match lead_edge(keeper, row.0.1, row.0.2, from, to, &mut room) {
            Ok(()) => {}
            Err(error) => return Err(error),
        }
    }
    Ok(())
}

/// Leads the suffix links of these rows to another world. Three writes each.
fn lead_kids<K: Keeper>(
    alloc: Global,
    keeper: &mut K,
    rows: &[((u32, u32), ())],
    from: u32,
    to: u32,
) -> Result<(), TabError>
    requires running { (K.seen keeper.old).running ≡ true }
    ensures kept { OnOk result
        ((K.seen keeper.new).kept ≡ links_led (K.seen keeper.old).kept from to (kids_of rows.now)) }
    ensures grammar { OnOk result (InGrammar (K.seen keeper.old).kept
        → InGrammar (K.seen keeper.new).kept) }
    ensures writes { OnOk result (Rises (3 * length rows.now) (K.seen keeper.old).writes
        (K.seen keeper.new).writes) }
    ensures counts { NeverFall (K.seen keeper.old) (K.seen keeper.new) }
    ensures steps { Steps (K.seen keeper.old) (K.seen keeper.new) result TabError.Fault }
{
    let mut room = Room::new(alloc);
    for row in rows {
        match lead_link(keeper, row.0.1, from, to, &mut room) {
            Ok(()) => {}
            Err(error) => return Err(error),
        }
    }
    Ok(())
}

/// Takes these edges of a world away. Two writes each.
fn drop_edges<K: Keeper>(
    alloc: Global,
    keeper: &mut K,
    rows: &[((u32, u32), u32)],
    wid: u32,
) -> Result<(), TabError>
    requires running { (K.seen keeper.old).running ≡ true }
    ensures kept { OnOk result
        ((K.seen keeper.new).kept ≡ edges_dropped (K.seen keeper.old).kept wid
        (edges_in_rows rows.now)) }
    ensures grammar { OnOk result (InGrammar (K.seen keeper.old).kept
        → InGrammar (K.seen keeper.new).kept) }
    ensures writes { OnOk result (Rises (2 * length rows.now) (K.seen keeper.old).writes
        (K.seen keeper.new).writes) }
    ensures counts { NeverFall (K.seen keeper.old) (K.seen keeper.new) }
    ensures steps { Steps (K.seen keeper.old) (K.seen keeper.new) result TabError.Fault }
{
    let mut room = Room::new(alloc);
    for row in rows {
        match drop_edge(keeper, wid, row.0.1, row.1, &mut room) {
            Ok(()) => {}
            Err(error) => return Err(error),
        }
    }
    Ok(())
}

/// Takes the edge of a world for a user away. Two writes.
pub fn drop_edge<K: Keeper>(
    keeper: &mut K,
    wid: u32,
    uid: u32,
    from: u32,
    room: &mut Room,
) -> Result<(), TabError>
    requires running { (K.seen keeper.old).running ≡ true }
    ensures kept { OnOk result ((K.seen keeper.new).kept ≡ edge_set (K.seen keeper.old).kept
        (Some from) None (wid, uid)) }
    ensures grammar { OnOk result (InGrammar (K.seen keeper.old).kept
        → InGrammar (K.seen keeper.new).kept) }
    ensures reads { (K.seen keeper.new).reads ≡ (K.seen keeper.old).reads }
    ensures writes { OnOk result (Rises 2 (K.seen keeper.old).writes (K.seen keeper.new).writes) }
    ensures counts { NeverFall (K.seen keeper.old) (K.seen keeper.new) }
    ensures steps { Steps (K.seen keeper.old) (K.seen keeper.new) result TabError.Fault }
{
    let _edge = drop_in::<EdgeTab, K>(keeper, &(wid, uid), room)?;
    let _turned = drop_in::<EdgeIx, K>(keeper, &(from, wid, uid), room)?;
    Ok(())
}

/// Takes the depth and the suffix link of a world away. Three writes.
fn drop_own<K: Keeper>(alloc: Global, keeper: &mut K, wid: u32, link: u32) -> Result<(), TabError>
    requires running { (K.seen keeper.old).running ≡ true }
    ensures kept { OnOk result
        ((K.seen keeper.new).kept ≡ state_dropped (K.seen keeper.old).kept wid link) }
    ensures grammar { OnOk result (InGrammar (K.seen keeper.old).kept
        → InGrammar (K.seen keeper.new).kept) }
    ensures writes { OnOk result (Rises 3 (K.seen keeper.old).writes (K.seen keeper.new).writes) }
    ensures counts { NeverFall (K.seen keeper.old) (K.seen keeper.new) }
    ensures steps { Steps (K.seen keeper.old) (K.seen keeper.new) result TabError.Fault }
{
    let _link = drop_row::<SuffixTab, K>(alloc, keeper, &wid)?;
    let _turned = drop_row::<SuffixIx, K>(alloc, keeper, &(link, wid))?;
    let _depth = drop_row::<DepthTab, K>(alloc, keeper, &wid)?;
    Ok(())
}
