// The edges of the states of a stored base.
ghost use Rattle.std.specs.Prelude.{◌<◌, ◌^◌, length, ◌≤◌, ◌+◌, ◌*◌, OnOk, IfOk};
ghost use Rattle.bdb_base.specs.Causes.{RoseBy};
ghost use Rattle.bdb_base.specs.Queries.{user_numbers};
ghost use Rattle.bdb_keep.specs.Calls.{IsRead};
ghost use Rattle.bdb_tables.specs.Grammar.{InGrammar};
ghost use Rattle.bdb_tables.specs.Reading.{OnlyReads};
ghost use Rattle.bdb_stored.specs.Structure.{TellsEdge, TellsEdges, edges_of};
ghost use Rattle.bdb_catalog.specs.Opening.{IsPartOf};
ghost use Rattle.bdb_stored.specs.Worlds.{TellsStates};

use crate::items::push_item;
use crate::named::place_of_number;
use bdb_base::List;
use bdb_canon::CanonEdge;
use bdb_keep::Keeper;
use bdb_names::NamedWorld;
use bdb_tables::{EdgeTab, TabError, get};
use std::alloc::Global;

/// The edges of the states, by place and user. One read for each state and user.
pub fn edges_of<K: Keeper>(
    alloc: Global,
    keeper: &mut K,
    worlds: &[NamedWorld],
    users: &[u32],
) -> Result<List<CanonEdge>, TabError>
    requires grammar { InGrammar (K.seen keeper.old).kept }
    requires worlds { TellsStates (K.seen keeper.old).kept worlds.now }
    requires users { IsPartOf (λ b. user_numbers b.catalog.users)
        (K.seen keeper.old).kept users.now }
    requires few { length worlds.now < 2 ^ 32 }
    ensures edges { IfOk result (IsPartOf edges_of (K.seen keeper.old).kept) }
    ensures reads { OnOk result
        ((K.seen keeper.new).reads
        ≤ (K.seen keeper.old).reads + length worlds.now * length users.now) }
    ensures reading { OnlyReads (K.seen keeper.old) (K.seen keeper.new) result TabError.Fault }
{
    let mut edges = Vec::new(alloc);
    for at in 0..worlds.len() {
        let mut more = match edges_from(alloc, keeper, worlds, &worlds[at], at as u32, users) {
            Ok(more) => more,
            Err(error) => return Err(error),
        };
        match edges.append(&mut more) {
            Ok(()) => {}
            Err(_) => {
                keeper.undo();
                return Err(TabError::Memory);
            }
        }
    }
    Ok(List::from_vec(edges))
}

// The edges of the state at a place, by user.
fn edges_from<K: Keeper>(
    alloc: Global,
    keeper: &mut K,
    worlds: &[NamedWorld],
    world: &NamedWorld,
    from: u32,
    users: &[u32],
) -> Result<Vec<CanonEdge>, TabError>
    requires grammar { InGrammar (K.seen keeper.old).kept }
    requires few { length worlds.now < 2 ^ 32 }
    ensures edges { IfOk result
        (λ edges.
        TellsEdges (K.seen keeper.old).kept worlds.now world.now from users.now edges.items) }
    ensures reads { OnOk result
        ((K.seen keeper.new).reads ≤ (K.seen keeper.old).reads + length users.now) }
    ensures reading { OnlyReads (K.seen keeper.old) (K.seen keeper.new) result TabError.Fault }
{
    let mut edges = Vec::new(alloc);
    for uid in users {
        let edge = match edge_for(alloc, keeper, worlds, world, from, *uid) {
            Ok(edge) => edge,
            Err(error) => return Err(error),
        };
        match push_item(&mut edges, edge) {
            Ok(()) => {}
            Err(_) => {
                keeper.undo();
                return Err(TabError::Memory);
            }
        }
    }
    Ok(edges)
}

// The edge of the state at a place for a user. A state has none for its own last user.
fn edge_for<K: Keeper>(
    alloc: Global,
    keeper: &mut K,
    worlds: &[NamedWorld],
    world: &NamedWorld,
    from: u32,
    uid: u32,
) -> Result<Option<CanonEdge>, TabError>
    requires grammar { InGrammar (K.seen keeper.old).kept }
    requires few { length worlds.now < 2 ^ 32 }
    ensures edge { IfOk result (TellsEdge (K.seen keeper.old).kept worlds.now world.now from uid) }
    ensures reads { OnOk result (RoseBy 1 (K.seen keeper.old).reads (K.seen keeper.new).reads) }
    ensures read { IsRead (K.seen keeper.old) (K.seen keeper.new) result TabError.Fault }
{
    match get::<EdgeTab, K>(alloc, keeper, &(world.wid, uid)) {
        Ok(Some(target)) => {
            let to = place_of_number(worlds, target) as u32;
            Ok(Some(CanonEdge { from, uid, to }))
        }
        Ok(None) => Ok(None),
        Err(error) => Err(error),
    }
}
