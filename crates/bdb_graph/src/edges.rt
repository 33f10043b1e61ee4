// Whether tables hold the edges of worlds.
ghost use Rattle.std.specs.Prelude.{◌≡◌, ◌≤◌, ◌++◌, [], ◌∷◌, true, length, map, IfOk};
ghost use Rattle.std.specs.Bool.{MatchBool};
ghost use Rattle.std.specs.List.{AllByRecursion};
ghost use Rattle.std.specs.Ordering.{nat_cmp};
ghost use Rattle.bdb_base.specs.Bases.{is_user};
ghost use Rattle.bdb_base.specs.Limits.{most_users};
ghost use Rattle.bdb_base.specs.SortedSet.{ascending};
ghost use Rattle.bdb_keep.specs.Calls.{IsRead};
ghost use Rattle.bdb_tables.specs.Grammar.{InGrammar};
ghost use Rattle.bdb_tables.specs.InUse.{edge_codec};
ghost use Rattle.bdb_tables.specs.Names.{edge_from, edge_of};
ghost use Rattle.bdb_tables.specs.Writes.{Gives};
ghost use Rattle.bdb_tables.specs.Reading.{OnlyReads};
ghost use Rattle.bdb_graph.specs.Naming.{names_of};
ghost use Rattle.bdb_graph.specs.States.{AllKeysPass, AreIndexed, HasEdgeFor, HasEdges, HasNextKey, IsAmongWorlds, is_edge_key, is_right, number_of_world};

use crate::finding::{is_world, leads_to};
use bdb_base::{Path, UserSlot, is_user, path_is_suffix};
use bdb_keep::Keeper;
use bdb_names::NamedWorld;
use bdb_tables::{EdgeTab, TabError, get, next_under};
use std::alloc::{AllocError, Global};

/// Whether the edges are those of the worlds' paths for these users, and none is there for one who is gone. A read for each world
/// and live user, and one for each edge.
pub fn are_edges_held<K: Keeper>(
    alloc: Global,
    keeper: &mut K,
    users: &[UserSlot],
    worlds: &[NamedWorld],
    paths: &[Path],
) -> Result<bool, TabError>
    requires grammar { InGrammar (K.seen keeper.old).kept }
    requires users { length users.now ≤ most_users }
    requires worlds { AreIndexed worlds.now paths.now }
    ensures held { IfOk result
        (λ held. MatchBool held
        (Gives edge_codec (K.seen keeper.old).kept
        (edge_of (is_user users.now) (names_of worlds.now)))
        (Gives edge_codec (K.seen keeper.old).kept
        (edge_of (is_user users.now) (names_of worlds.now)) → ⊥)) }
    ensures reading { OnlyReads (K.seen keeper.old) (K.seen keeper.new) result TabError.Fault }
{
    match each_has_edges(alloc, keeper, users, worlds, paths) {
        Ok(true) => {}
        Ok(false) => return Ok(false),
        Err(error) => return Err(error),
    }
    match are_edges_of_worlds(alloc, keeper, users, worlds) {
        Ok(are) => Ok(are),
        Err(error) => Err(error),
    }
}

// Whether the edges of each world are right.
fn each_has_edges<K: Keeper>(
    alloc: Global,
    keeper: &mut K,
    users: &[UserSlot],
    worlds: &[NamedWorld],
    paths: &[Path],
) -> Result<bool, TabError>
    requires grammar { InGrammar (K.seen keeper.old).kept }
    requires users { length users.now ≤ most_users }
    requires worlds { AreIndexed worlds.now paths.now }
    ensures edges { IfOk result
        (λ b. MatchBool b
        (AllByRecursion (HasEdges (K.seen keeper.old).kept (is_user users.now) worlds.now)
        worlds.now)
        (AllByRecursion (HasEdges (K.seen keeper.old).kept (is_user users.now) worlds.now)
        worlds.now → ⊥)) }
    ensures reading { OnlyReads (K.seen keeper.old) (K.seen keeper.new) result TabError.Fault }
{
    for world in worlds {
        match has_edges(alloc, keeper, users, worlds, paths, world) {
            Ok(true) => {}
            Ok(false) => return Ok(false),
            Err(error) => return Err(error),
        }
    }
    Ok(true)
}

// Whether the edges of a world are right. One read for each live user.
fn has_edges<K: Keeper>(
    alloc: Global,
    keeper: &mut K,
    users: &[UserSlot],
    worlds: &[NamedWorld],
    paths: &[Path],
    world: &NamedWorld,
) -> Result<bool, TabError>
    requires grammar { InGrammar (K.seen keeper.old).kept }
    requires users { length users.now ≤ most_users }
    requires worlds { AreIndexed worlds.now paths.now }
    requires world { IsAmongWorlds worlds.now world.now }
    ensures edges { IfOk result
        (λ has. MatchBool has
        (HasEdges (K.seen keeper.old).kept (is_user users.now) worlds.now world.now)
        (HasEdges (K.seen keeper.old).kept (is_user users.now) worlds.now world.now → ⊥)) }
    ensures reading { OnlyReads (K.seen keeper.old) (K.seen keeper.new) result TabError.Fault }
{
    for at in 0..users.len() {
        if !is_user(users, at as u32 + 1) {
            continue;
        }
        match has_edge(alloc, keeper, users, worlds, paths, world, at as u32 + 1) {
            Ok(true) => {}
            Ok(false) => return Ok(false),
            Err(error) => return Err(error),
        }
    }
    Ok(true)
}

// Whether the edge of a world for a user is right. One read.
fn has_edge<K: Keeper>(
    alloc: Global,
    keeper: &mut K,
    users: &[UserSlot],
    worlds: &[NamedWorld],
    paths: &[Path],
    world: &NamedWorld,
    uid: u32,
) -> Result<bool, TabError>
    requires grammar { InGrammar (K.seen keeper.old).kept }
    requires worlds { AreIndexed worlds.now paths.now }
    requires world { IsAmongWorlds worlds.now world.now }
    requires user { is_user users.now uid ≡ true }
    ensures edge { IfOk result
        (λ has. MatchBool has
        (HasEdgeFor (K.seen keeper.old).kept (is_user users.now) worlds.now world.now uid)
        (HasEdgeFor (K.seen keeper.old).kept (is_user users.now) worlds.now world.now uid → ⊥)) }
    ensures reading { OnlyReads (K.seen keeper.old) (K.seen keeper.new) result TabError.Fault }
{
    let found = match get::<EdgeTab, K>(alloc, keeper, &(world.wid, uid)) {
        Ok(found) => found,
        Err(error) => return Err(error),
    };
    match is_edge(
        alloc,
        users,
        worlds,
        paths,
        world.path.as_slice(),
        uid,
        found,
    ) {
        Ok(right) => Ok(right),
        Err(_) => {
            keeper.undo();
            Err(TabError::Memory)
        }
    }
}

// Whether this is the edge of a path for a user.
fn is_edge(
    alloc: Global,
    users: &[UserSlot],
    worlds: &[NamedWorld],
    paths: &[Path],
    path: &[u32],
    uid: u32,
    found: Option<u32>,
) -> Result<bool, AllocError>
    requires worlds { AreIndexed worlds.now paths.now }
    requires user { is_user users.now uid ≡ true }
    ensures { IfOk result
        (λ right. right ≡ is_right found
        (edge_from (is_user users.now) (names_of worlds.now) uid path.now)) }
{
    if path_is_suffix(&[uid], path) {
        return Ok(found.is_none());
    }
    match found {
        Some(wid) => {
            let path = longer(alloc, path, uid)?;
            Ok(leads_to(worlds, paths, &path, wid))
        }
        None => Ok(false),
    }
}

// A path with one more user.
fn longer(alloc: Global, path: &[u32], uid: u32) -> Result<Vec<u32>, AllocError>
    ensures { IfOk result (λ longer. longer.items ≡ path.now ++ uid ∷ []) }
{
    let mut longer = Vec::from_slice(alloc, path)?;
    longer.push(uid)?;
    Ok(longer)
}

// Whether each edge is that of a world for a user.
fn are_edges_of_worlds<K: Keeper>(
    alloc: Global,
    keeper: &mut K,
    users: &[UserSlot],
    worlds: &[NamedWorld],
) -> Result<bool, TabError>
    requires grammar { InGrammar (K.seen keeper.old).kept }
    requires sorted { ascending nat_cmp (map number_of_world worlds.now) ≡ true }
    ensures keys { IfOk result
        (λ b. MatchBool b
        (AllKeysPass edge_codec (K.seen keeper.old).kept (is_edge_key users.now worlds.now))
        (AllKeysPass edge_codec (K.seen keeper.old).kept (is_edge_key users.now worlds.now) → ⊥)) }
    ensures reading { OnlyReads (K.seen keeper.old) (K.seen keeper.new) result TabError.Fault }
{
    let mut low = Vec::new(alloc);
    for _ in 0..u64::MAX {
        match next_edge(alloc, keeper, users, worlds, &mut low) {
            Ok(Some(true)) => {}
            Ok(Some(false)) => return Ok(false),
            Ok(None) => return Ok(true),
            Err(error) => return Err(error),
        }
    }
    keeper.undo();
    Err(TabError::Memory)
}

// Whether the first edge from `low` on, if there is one, is that of a world for a user.
fn next_edge<K: Keeper>(
    alloc: Global,
    keeper: &mut K,
    users: &[UserSlot],
    worlds: &[NamedWorld],
    low: &mut Vec<u8>,
) -> Result<Option<bool>, TabError>
    requires grammar { InGrammar (K.seen keeper.old).kept }
    requires sorted { ascending nat_cmp (map number_of_world worlds.now) ≡ true }
    ensures found { IfOk result
        (HasNextKey edge_codec (K.seen keeper.old).kept (is_edge_key users.now worlds.now)
        low.old.items low.new.items) }
    ensures read { IsRead (K.seen keeper.old) (K.seen keeper.new) result TabError.Fault }
{
    let mut key = Vec::new(alloc);
    let mut row = Vec::new(alloc);
    match next_under::<EdgeTab, K>(alloc, keeper, &[], low, &mut key, &mut row) {
        Ok(Some(entry)) => Ok(Some(is_edge_key(users, worlds, &entry.0))),
        Ok(None) => Ok(None),
        Err(error) => Err(error),
    }
}

// Whether a key is that of an edge of a world for a user.
fn is_edge_key(users: &[UserSlot], worlds: &[NamedWorld], key: &(u32, u32)) -> bool
    requires { ascending nat_cmp (map number_of_world worlds.now) ≡ true }
    ensures { result ≡ is_edge_key users.now worlds.now key.now }
{
    is_world(worlds, key.0) && is_user(users, key.1)
}
