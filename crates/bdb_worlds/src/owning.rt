// The edges of one world.
ghost use Rattle.std.specs.Prelude.{◌≡◌, ◌++◌, nat_eq, cond, None, Some, IfOk, OnOk};
ghost use Rattle.bdb_keep.specs.Calls.{IsRead};
ghost use Rattle.bdb_keep.specs.Seen.{NeverFall, Steps};
ghost use Rattle.bdb_key.specs.Bytes.{num_bytes};
ghost use Rattle.bdb_tables.specs.Grammar.{InGrammar};
ghost use Rattle.bdb_tables.specs.InUse.{edge_codec};
ghost use Rattle.bdb_tables.specs.Spans.{AreUnder};
ghost use Rattle.bdb_worlds.specs.Owns.{HasNextEdge, FindsEdges, edge_beside, edges_beside};

use bdb_keep::Keeper;
use bdb_key::put_num;
use bdb_tables::{EdgeTab, Room, TabError, next_in, rows_under};
use std::alloc::{AllocError, Global};

/// The edges of a world but the one for `uid`, each by its user and the world to which it leads. They are read at once.
pub fn edges_but<K: Keeper>(
    alloc: Global,
    keeper: &mut K,
    wid: u32,
    uid: u32,
) -> Result<Vec<(u32, u32)>, TabError>
    requires grammar { InGrammar (K.seen keeper.old).kept }
    ensures edges { IfOk result (λ edges. FindsEdges (K.seen keeper.old).kept wid uid edges.items) }
    ensures kept { OnOk result ((K.seen keeper.new).kept ≡ (K.seen keeper.old).kept) }
    ensures writes { (K.seen keeper.new).writes ≡ (K.seen keeper.old).writes }
    ensures counts { NeverFall (K.seen keeper.old) (K.seen keeper.new) }
    ensures steps { Steps (K.seen keeper.old) (K.seen keeper.new) result TabError.Fault }
{
    let rows = match edge_rows(alloc, keeper, wid) {
        Ok(rows) => rows,
        Err(error) => return Err(error),
    };
    match edges_beside(alloc, &rows, uid) {
        Ok(edges) => Ok(edges),
        Err(_) => {
            keeper.undo();
            Err(TabError::Memory)
        }
    }
}

/// The rows of a world's edges, in the order of their users.
fn edge_rows<K: Keeper>(
    alloc: Global,
    keeper: &mut K,
    wid: u32,
) -> Result<Vec<((u32, u32), u32)>, TabError>
    requires grammar { InGrammar (K.seen keeper.old).kept }
    ensures rows { IfOk result
        (λ rows. AreUnder edge_codec (K.seen keeper.old).kept (num_bytes wid) rows.items) }
    ensures read { IsRead (K.seen keeper.old) (K.seen keeper.new) result TabError.Fault }
{
    let mut prefix = Vec::new(alloc);
    if put_num(&mut prefix, wid).is_err() {
        keeper.undo();
        return Err(TabError::Memory);
    }
    match rows_under::<EdgeTab, K>(alloc, keeper, &prefix) {
        Ok(rows) => Ok(rows),
        Err(error) => Err(error),
    }
}

/// The edges of rows but the one for `uid`, each by its user and the world to which it leads.
fn edges_beside(
    alloc: Global,
    rows: &[((u32, u32), u32)],
    uid: u32,
) -> Result<Vec<(u32, u32)>, AllocError>
    ensures { IfOk result (λ edges. edges.items ≡ edges_beside uid rows.now) }
{
    let mut edges = Vec::with_capacity(alloc, rows.len())?;
    for row in rows {
        push_beside(row, uid, &mut edges)?;
    }
    Ok(edges)
}

/// Puts the edge of a row on a list, unless it is the one for `uid`.
fn push_beside(
    row: &((u32, u32), u32),
    uid: u32,
    edges: &mut Vec<(u32, u32)>,
) -> Result<(), AllocError>
    ensures { OnOk result (edges.new.items ≡ edges.old.items ++ edge_beside uid row.now) }
{
    if row.0.1 == uid {
        return Ok(());
    }
    edges.push((row.0.1, row.1))?;
    Ok(())
}

/// The edge of a world for the least user from `low` on. One read, or none where `low` is beyond all numbers.
pub fn next_edge<K: Keeper>(
    alloc: Global,
    keeper: &mut K,
    wid: u32,
    low: u64,
    room: &mut Room,
) -> Result<Option<(u32, u32)>, TabError>
    requires grammar { InGrammar (K.seen keeper.old).kept }
    ensures edge { IfOk result (HasNextEdge (K.seen keeper.old).kept wid low) }
    ensures kept { OnOk result ((K.seen keeper.new).kept ≡ (K.seen keeper.old).kept) }
    ensures writes { (K.seen keeper.new).writes ≡ (K.seen keeper.old).writes }
    ensures counts { NeverFall (K.seen keeper.old) (K.seen keeper.new) }
    ensures steps { Steps (K.seen keeper.old) (K.seen keeper.new) result TabError.Fault }
{
    if low > u32::MAX as u64 {
        return Ok(None);
    }
    let key = (wid, low as u32);
    match next_in::<EdgeTab, K>(alloc, keeper, &key, room) {
        Ok(Some(entry)) => Ok(edge_in(wid, entry.0, entry.1)),
        Ok(None) => Ok(None),
        Err(error) => Err(error),
    }
}

/// The user of an edge's key and the world to which it leads, where the key is of this world.
fn edge_in(wid: u32, key: (u32, u32), target: u32) -> Option<(u32, u32)>
    ensures { result ≡ cond (nat_eq key.0 wid) (Some (key.1, target)) None }
{
    if key.0 == wid {
        Some((key.1, target))
    } else {
        None
    }
}
