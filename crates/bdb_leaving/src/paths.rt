// The worlds of a stored base in the order of their paths. Tables tell the path of a world by the edges that lead to it.
ghost use Rattle.std.specs.Prelude.{◌≡◌, ◌+◌, ◌≤◌, IfOk, OnOk, length};
ghost use Rattle.std.specs.List.{AllByRecursion};
ghost use Rattle.bdb_base.specs.Causes.{RoseBy};
ghost use Rattle.bdb_base.specs.Order.{path_cmp};
ghost use Rattle.bdb_keep.specs.Calls.{IsRead};
ghost use Rattle.bdb_leaving.specs.Paths.{AreInOrder, HasPath, HavePaths, IsDeep, IsLed, IsLedBy, path_lengths};
ghost use Rattle.bdb_catalog.specs.Bases.{StoresSome};
ghost use Rattle.bdb_stored.specs.Worlds.{TellsStates};
ghost use Rattle.bdb_tables.specs.Grammar.{InGrammar};
ghost use Rattle.bdb_tables.specs.States.{IsNamed};
ghost use Rattle.bdb_tables.specs.Reading.{OnlyReads};

use bdb_base::{Path, PathError, cmp_path};
use bdb_keep::Keeper;
use bdb_names::NamedWorld;
use bdb_tables::{DepthTab, EdgeIx, Room, TabError, next_in, rows_under};
use std::alloc::{AllocError, Global};
use std::cmp::Ordering;

/// The worlds, by path. A read for each world, one for each user of each path, and one more, however many users there are.
pub(crate) fn worlds_by_edges<K: Keeper>(
    alloc: Global,
    keeper: &mut K,
) -> Result<Vec<NamedWorld>, TabError>
    requires base { StoresSome (K.seen keeper.old).kept }
    ensures worlds { IfOk result (λ worlds. TellsStates (K.seen keeper.old).kept worlds.items) }
    ensures reads { IfOk result
        (λ worlds. (K.seen keeper.new).reads
        ≤ (K.seen keeper.old).reads + (length worlds.items + 1 + path_lengths worlds.items)) }
    ensures read { IsRead (K.seen keeper.old) (K.seen keeper.new) result TabError.Fault }
{
    let rows = match rows_under::<DepthTab, K>(alloc, keeper, &[]) {
        Ok(rows) => rows,
        Err(error) => return Err(error),
    };
    let worlds = match with_paths(alloc, keeper, &rows) {
        Ok(worlds) => worlds,
        Err(error) => return Err(error),
    };
    match in_order(worlds) {
        Ok(worlds) => Ok(worlds),
        Err(_) => {
            keeper.undo();
            Err(TabError::Memory)
        }
    }
}

// The worlds of these numbers and depths, with their paths.
fn with_paths<K: Keeper>(
    alloc: Global,
    keeper: &mut K,
    rows: &[(u32, u32)],
) -> Result<Vec<NamedWorld>, TabError>
    requires base { StoresSome (K.seen keeper.old).kept }
    requires rows { AllByRecursion (IsDeep (K.seen keeper.old).kept) rows.now }
    ensures worlds { IfOk result
        (λ worlds. HavePaths (K.seen keeper.old).kept rows.now worlds.items) }
    ensures reads { IfOk result
        (λ worlds. (K.seen keeper.new).reads
        ≤ (K.seen keeper.old).reads + path_lengths worlds.items) }
    ensures reading { OnlyReads (K.seen keeper.old) (K.seen keeper.new) result TabError.Fault }
{
    let mut worlds = Vec::new(alloc);
    let mut room = Room::new(alloc);
    for row in rows {
        let world = match with_path(alloc, keeper, row, &mut room) {
            Ok(world) => world,
            Err(error) => return Err(error),
        };
        match worlds.push(world) {
            Ok(()) => {}
            Err(_) => {
                keeper.undo();
                return Err(TabError::Memory);
            }
        }
    }
    Ok(worlds)
}

// The world of a number and a depth, with its path.
fn with_path<K: Keeper>(
    alloc: Global,
    keeper: &mut K,
    row: &(u32, u32),
    room: &mut Room,
) -> Result<NamedWorld, TabError>
    requires base { StoresSome (K.seen keeper.old).kept }
    requires row { IsDeep (K.seen keeper.old).kept row.now }
    ensures number { IfOk result (λ world. world.wid ≡ row.now.0) }
    ensures path { IfOk result (HasPath (K.seen keeper.old).kept) }
    ensures reads { IfOk result
        (λ world. (K.seen keeper.new).reads ≤ (K.seen keeper.old).reads + length world.path) }
    ensures reading { OnlyReads (K.seen keeper.old) (K.seen keeper.new) result TabError.Fault }
{
    let wid = row.0;
    let users = match users_to(alloc, keeper, row, room) {
        Ok(users) => users,
        Err(error) => return Err(error),
    };
    match Path::try_new(alloc, &users) {
        Ok(path) => Ok(NamedWorld { wid, path }),
        Err(PathError::Repeat) => unreachable!(),
        Err(PathError::Memory) => {
            keeper.undo();
            Err(TabError::Memory)
        }
    }
}

// The users of a world's path, by the edges that lead to it, from the last user to the first. An edge may come from a world
// whose path has more in front.
fn users_to<K: Keeper>(
    alloc: Global,
    keeper: &mut K,
    row: &(u32, u32),
    room: &mut Room,
) -> Result<Vec<u32>, TabError>
    requires base { StoresSome (K.seen keeper.old).kept }
    requires row { IsDeep (K.seen keeper.old).kept row.now }
    ensures users { IfOk result (λ users. IsNamed (K.seen keeper.old).kept row.now.0 users.items) }
    ensures reads { IfOk result
        (λ users. (K.seen keeper.new).reads ≤ (K.seen keeper.old).reads + length users.items) }
    ensures reading { OnlyReads (K.seen keeper.old) (K.seen keeper.new) result TabError.Fault }
{
    let mut users = Vec::new(alloc);
    let mut at = row.0;
    let mut left = row.1;
    while left > 0 {
        let (from, user) = match edge_to(alloc, keeper, at, room) {
            Ok(edge) => edge,
            Err(error) => return Err(error),
        };
        match users.insert(0, user) {
            Ok(()) => {}
            Err(_) => {
                keeper.undo();
                return Err(TabError::Memory);
            }
        }
        at = from;
        left -= 1;
    }
    Ok(users)
}

// The first of the edges that lead to a world: the world that has it, and its user. One read.
fn edge_to<K: Keeper>(
    alloc: Global,
    keeper: &mut K,
    wid: u32,
    room: &mut Room,
) -> Result<(u32, u32), TabError>
    requires grammar { InGrammar (K.seen keeper.old).kept }
    requires led { IsLed (K.seen keeper.old).kept wid }
    ensures edge { IfOk result (λ edge. IsLedBy (K.seen keeper.old).kept wid edge.0 edge.1) }
    ensures reads { OnOk result (RoseBy 1 (K.seen keeper.old).reads (K.seen keeper.new).reads) }
    ensures read { IsRead (K.seen keeper.old) (K.seen keeper.new) result TabError.Fault }
{
    let low = (wid, 0, 0);
    match next_in::<EdgeIx, K>(alloc, keeper, &low, room) {
        Ok(Some(edge)) => Ok((edge.0.1, edge.0.2)),
        Ok(None) => unreachable!(),
        Err(error) => Err(error),
    }
}

// Worlds in the order of their paths.
fn in_order(mut worlds: Vec<NamedWorld>) -> Result<Vec<NamedWorld>, AllocError>
    ensures { IfOk result (λ ordered. AreInOrder worlds.items ordered.items) }
{
    worlds.sort_by(by_path)?;
    Ok(worlds)
}

// The order of two worlds by their paths.
fn by_path(a: &NamedWorld, b: &NamedWorld) -> Ordering
    ensures { result ≡ path_cmp a.now.path b.now.path }
{
    cmp_path(a.path.as_slice(), b.path.as_slice())
}
