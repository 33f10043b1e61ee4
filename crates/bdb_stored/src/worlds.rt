// The worlds of a stored base, in the order of their paths.
ghost use Rattle.std.specs.Prelude.{◌≡◌, false, [], ◌∷◌, ◌++◌, length, IfOk, ◌≤◌, ◌+◌, ◌*◌, OnOk, IsErrOf};
ghost use Rattle.bdb_base.specs.Alternation.{alternates};
ghost use Rattle.bdb_base.specs.Queries.{user_numbers};
ghost use Rattle.bdb_base.specs.States.{states_of};
ghost use Rattle.bdb_keep.specs.Calls.{IsRead};
ghost use Rattle.bdb_tables.specs.Grammar.{InGrammar};
ghost use Rattle.bdb_tables.specs.Reading.{OnlyReads};
ghost use Rattle.bdb_catalog.specs.Bases.{StoresSome};
ghost use Rattle.bdb_catalog.specs.Opening.{IsPartOf};
ghost use Rattle.bdb_stored.specs.Worlds.{TellsChild, TellsChildren, TellsStates};

use crate::items::push_item;
use bdb_base::{Path, PathError};
use bdb_keep::Keeper;
use bdb_names::NamedWorld;
use bdb_tables::{DepthTab, EdgeTab, TabError, get, rows_under};
use std::alloc::Global;

/// The worlds, by path: world 0 first, then for each world those that are one user deeper. Two reads at most for each world
/// and user.
pub fn worlds_in_order<K: Keeper>(
    alloc: Global,
    keeper: &mut K,
    users: &[u32],
) -> Result<Vec<NamedWorld>, TabError>
    requires base { StoresSome (K.seen keeper.old).kept }
    requires users { IsPartOf (λ b. user_numbers b.catalog.users)
        (K.seen keeper.old).kept users.now }
    ensures worlds { IfOk result (λ worlds. TellsStates (K.seen keeper.old).kept worlds.items) }
    ensures reads { IfOk result
        (λ worlds. (K.seen keeper.new).reads
        ≤ (K.seen keeper.old).reads
        + (length worlds.items + 1 + length worlds.items * (2 * length users.now))) }
    ensures read { IsRead (K.seen keeper.old) (K.seen keeper.new) result TabError.Fault }
{
    let depths = match rows_under::<DepthTab, K>(alloc, keeper, &[]) {
        Ok(depths) => depths,
        Err(error) => return Err(error),
    };
    match grow(alloc, keeper, users, depths.len()) {
        Ok(worlds) => Ok(worlds),
        Err(error) => Err(error),
    }
}

// The worlds in order, of which there are so many.
fn grow<K: Keeper>(
    alloc: Global,
    keeper: &mut K,
    users: &[u32],
    count: usize,
) -> Result<Vec<NamedWorld>, TabError>
    requires base { StoresSome (K.seen keeper.old).kept }
    requires users { IsPartOf (λ b. user_numbers b.catalog.users)
        (K.seen keeper.old).kept users.now }
    requires count { IsPartOf (λ b. length (states_of b.stmts)) (K.seen keeper.old).kept count }
    ensures worlds { IfOk result (λ worlds. TellsStates (K.seen keeper.old).kept worlds.items) }
    ensures reads { OnOk result
        ((K.seen keeper.new).reads ≤ (K.seen keeper.old).reads + count * (2 * length users.now)) }
    ensures reading { OnlyReads (K.seen keeper.old) (K.seen keeper.new) result TabError.Fault }
{
    let mut worlds = match root_alone(alloc) {
        Ok(worlds) => worlds,
        Err(_) => {
            keeper.undo();
            return Err(TabError::Memory);
        }
    };
    for at in 0..count {
        let mut children = match children_of(alloc, keeper, &worlds[at], users) {
            Ok(children) => children,
            Err(error) => return Err(error),
        };
        match worlds.append(&mut children) {
            Ok(()) => {}
            Err(_) => {
                keeper.undo();
                return Err(TabError::Memory);
            }
        }
    }
    Ok(worlds)
}

// World 0, the empty path's, and no other.
fn root_alone(alloc: Global) -> Result<Vec<NamedWorld>, PathError>
    ensures { IfOk result (λ worlds. worlds.items ≡ record { wid = 0; path = [] } ∷ []) }
{
    let path = Path::try_new(alloc, &[])?;
    let mut worlds = Vec::new(alloc);
    match worlds.push(NamedWorld { wid: 0, path }) {
        Ok(()) => Ok(worlds),
        Err(_) => Err(PathError::Memory),
    }
}

// The worlds one user deeper than a world, by user.
fn children_of<K: Keeper>(
    alloc: Global,
    keeper: &mut K,
    world: &NamedWorld,
    users: &[u32],
) -> Result<Vec<NamedWorld>, TabError>
    requires grammar { InGrammar (K.seen keeper.old).kept }
    ensures children { IfOk result
        (λ children. TellsChildren (K.seen keeper.old).kept world.now users.now children.items) }
    ensures reads { OnOk result
        ((K.seen keeper.new).reads ≤ (K.seen keeper.old).reads + 2 * length users.now) }
    ensures reading { OnlyReads (K.seen keeper.old) (K.seen keeper.new) result TabError.Fault }
{
    let mut children = Vec::new(alloc);
    for uid in users {
        let child = match child_of(alloc, keeper, world, *uid) {
            Ok(child) => child,
            Err(error) => return Err(error),
        };
        match push_item(&mut children, child) {
            Ok(()) => {}
            Err(_) => {
                keeper.undo();
                return Err(TabError::Memory);
            }
        }
    }
    Ok(children)
}

// The world one user deeper than a world, if there is one: where the edge for the user leads, unless that is no deeper.
fn child_of<K: Keeper>(
    alloc: Global,
    keeper: &mut K,
    world: &NamedWorld,
    uid: u32,
) -> Result<Option<NamedWorld>, TabError>
    requires grammar { InGrammar (K.seen keeper.old).kept }
    ensures child { IfOk result (TellsChild (K.seen keeper.old).kept world.now uid) }
    ensures reads { OnOk result ((K.seen keeper.new).reads ≤ (K.seen keeper.old).reads + 2) }
    ensures read { IsRead (K.seen keeper.old) (K.seen keeper.new) result TabError.Fault }
{
    let target = match get::<EdgeTab, K>(alloc, keeper, &(world.wid, uid)) {
        Ok(Some(target)) => target,
        Ok(None) => return Ok(None),
        Err(error) => return Err(error),
    };
    let depth = match get::<DepthTab, K>(alloc, keeper, &target) {
        Ok(Some(depth)) => depth,
        Ok(None) => return Ok(None),
        Err(error) => return Err(error),
    };
    if depth as usize != world.path.as_slice().len() + 1 {
        return Ok(None);
    }
    match deeper(alloc, &world.path, uid) {
        Ok(path) => Ok(Some(NamedWorld { wid: target, path })),
        Err(PathError::Repeat) => Ok(None),
        Err(PathError::Memory) => {
            keeper.undo();
            Err(TabError::Memory)
        }
    }
}

// A path with a user at its end. `Repeat` comes exactly where that is no path.
fn deeper(alloc: Global, path: &Path, uid: u32) -> Result<Path, PathError>
    ensures path { IfOk result (λ longer. longer ≡ path.now ++ uid ∷ []) }
    ensures repeat { IsErrOf result PathError.Repeat → alternates (path.now ++ uid ∷ []) ≡ false }
{
    let mut users = match Vec::from_slice(alloc, path.as_slice()) {
        Ok(users) => users,
        Err(_) => return Err(PathError::Memory),
    };
    match users.push(uid) {
        Ok(()) => {}
        Err(_) => return Err(PathError::Memory),
    }
    match Path::try_new(alloc, &users) {
        Ok(longer) => Ok(longer),
        Err(error) => Err(error),
    }
}
