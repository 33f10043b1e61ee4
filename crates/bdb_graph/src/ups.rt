// From which world each world comes, one user less deep.
ghost use Rattle.std.specs.Prelude.{◌≡◌, Some, IfOk, MatchOption};
ghost use Rattle.std.specs.Bool.{MatchBool};
ghost use Rattle.std.specs.List.{AllByRecursion};
ghost use Rattle.bdb_keep.specs.Calls.{IsRead};
ghost use Rattle.bdb_key.specs.Bytes.{num_bytes};
ghost use Rattle.bdb_tables.specs.Grammar.{InGrammar};
ghost use Rattle.bdb_tables.specs.Reading.{OnlyReads};
ghost use Rattle.bdb_graph.specs.Ups.{AreUps, EdgeLeadsTo, HasDepth, HoldNoStates, IsParent, IsUp, NoParent, StartsElsewhere, parent_in};

use crate::numbers::HasNumber;
use bdb_keep::Keeper;
use bdb_key::put_num;
use bdb_tables::{DepthTab, EdgeIx, TabError, get, rows_under};
use std::alloc::{AllocError, Global};

/// A world by its number and depth. Where it is not at depth 0, an edge for a user leads to it from a world one user less
/// deep.
#[derive(Clone, Copy, Debug, PartialEq, Eq, Drop)]
pub struct Up {
    pub wid: u32,
    pub depth: u32,
    pub from: u32,
    pub uid: u32,
}

impl HasNumber for Up {
    ghost number_of = { λ x. x.wid };

    fn number(&self) -> u32 {
        self.wid
    }
}

/// From which world each of these comes, by number and depth. None only where the tables hold no states. One read for each
/// edge that leads to a world, and one more for each that comes from another depth.
pub fn raw_ups<K: Keeper>(
    alloc: Global,
    keeper: &mut K,
    depths: &[(u32, u32)],
) -> Result<Option<Vec<Up>>, TabError>
    requires grammar { InGrammar (K.seen keeper.old).kept }
    requires depths { AllByRecursion (λ e. HasDepth (K.seen keeper.old).kept e.0 e.1) depths.now }
    ensures ups { IfOk result (λ r. MatchOption r (HoldNoStates (K.seen keeper.old).kept)
        (λ ups. AreUps (K.seen keeper.old).kept depths.now ups.items)) }
    ensures reading { OnlyReads (K.seen keeper.old) (K.seen keeper.new) result TabError.Fault }
{
    let mut ups = Vec::new(alloc);
    for row in depths {
        let world = pair_of(row);
        match up_of(alloc, keeper, world.0, world.1) {
            Ok(Some(up)) => {
                if ups.push(up).is_err() {
                    keeper.undo();
                    return Err(TabError::Memory);
                }
            }
            Ok(None) => return Ok(None),
            Err(error) => return Err(error),
        }
    }
    Ok(Some(ups))
}

// A row's number and depth.
fn pair_of(row: &(u32, u32)) -> (u32, u32)
    ensures { result ≡ row.now }
{
    (row.0, row.1)
}

// From which world one comes. None only where the tables hold no states.
fn up_of<K: Keeper>(
    alloc: Global,
    keeper: &mut K,
    wid: u32,
    depth: u32,
) -> Result<Option<Up>, TabError>
    requires grammar { InGrammar (K.seen keeper.old).kept }
    requires depth { HasDepth (K.seen keeper.old).kept wid depth }
    ensures up { IfOk result (λ r. MatchOption r (HoldNoStates (K.seen keeper.old).kept)
        (IsUp (K.seen keeper.old).kept (wid, depth))) }
    ensures reading { OnlyReads (K.seen keeper.old) (K.seen keeper.new) result TabError.Fault }
{
    if depth == 0 {
        return Ok(Some(Up {
            wid,
            depth: 0,
            from: 0,
            uid: 0,
        }));
    }
    match parent_of(alloc, keeper, wid, depth - 1) {
        Ok(Some(start)) => Ok(Some(Up {
            wid,
            depth,
            from: start.0,
            uid: start.1,
        })),
        Ok(None) => Ok(None),
        Err(error) => Err(error),
    }
}

// The first world at a depth whose edge leads to a world, and the user of the edge.
fn parent_of<K: Keeper>(
    alloc: Global,
    keeper: &mut K,
    wid: u32,
    depth: u32,
) -> Result<Option<(u32, u32)>, TabError>
    requires grammar { InGrammar (K.seen keeper.old).kept }
    ensures parent { IfOk result (λ r. MatchOption r (NoParent (K.seen keeper.old).kept wid depth)
        (IsParent (K.seen keeper.old).kept wid depth)) }
    ensures reading { OnlyReads (K.seen keeper.old) (K.seen keeper.new) result TabError.Fault }
{
    let prefix = match prefix_of(alloc, wid) {
        Ok(prefix) => prefix,
        Err(_) => {
            keeper.undo();
            return Err(TabError::Memory);
        }
    };
    let rows = match rows_under::<EdgeIx, K>(alloc, keeper, &prefix) {
        Ok(rows) => rows,
        Err(error) => return Err(error),
    };
    match first_from(alloc, keeper, wid, &rows, depth) {
        Ok(found) => Ok(found),
        Err(error) => Err(error),
    }
}

// The bytes with which the keys of edges begin that lead to a world.
fn prefix_of(alloc: Global, wid: u32) -> Result<Vec<u8>, AllocError>
    ensures { IfOk result (λ prefix. prefix.items ≡ num_bytes wid) }
{
    let mut prefix = Vec::new(alloc);
    put_num(&mut prefix, wid)?;
    Ok(prefix)
}

// Of the edges that lead to a world the first that comes from a depth.
fn first_from<K: Keeper>(
    alloc: Global,
    keeper: &mut K,
    wid: u32,
    rows: &[((u32, u32, u32), ())],
    depth: u32,
) -> Result<Option<(u32, u32)>, TabError>
    requires grammar { InGrammar (K.seen keeper.old).kept }
    requires rows { AllByRecursion (EdgeLeadsTo (K.seen keeper.old).kept wid) rows.now }
    ensures first { IfOk result
        (λ r. MatchOption r
        (AllByRecursion (StartsElsewhere (K.seen keeper.old).kept depth) rows.now)
        (IsParent (K.seen keeper.old).kept wid depth)) }
    ensures reading { OnlyReads (K.seen keeper.old) (K.seen keeper.new) result TabError.Fault }
{
    for row in rows {
        let start = start_of(row);
        match has_depth(alloc, keeper, start.0, depth) {
            Ok(true) => return Ok(Some(start)),
            Ok(false) => {}
            Err(error) => return Err(error),
        }
    }
    Ok(None)
}

// The world from which an edge comes, and its user.
fn start_of(row: &((u32, u32, u32), ())) -> (u32, u32)
    ensures { result ≡ parent_in row.now }
{
    (row.0.1, row.0.2)
}

// Whether a world has a depth. One read.
fn has_depth<K: Keeper>(
    alloc: Global,
    keeper: &mut K,
    wid: u32,
    depth: u32,
) -> Result<bool, TabError>
    requires grammar { InGrammar (K.seen keeper.old).kept }
    ensures has { IfOk result (λ has. MatchBool has (HasDepth (K.seen keeper.old).kept wid depth)
        (HasDepth (K.seen keeper.old).kept wid depth → ⊥)) }
    ensures read { IsRead (K.seen keeper.old) (K.seen keeper.new) result TabError.Fault }
{
    match get::<DepthTab, K>(alloc, keeper, &wid) {
        Ok(Some(found)) => Ok(found == depth),
        Ok(None) => Ok(false),
        Err(error) => Err(error),
    }
}
