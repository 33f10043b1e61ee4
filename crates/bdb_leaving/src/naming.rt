// The statements whose paths name a user, as they are read from tables.
ghost use Rattle.std.specs.Prelude.{◌≡◌, ◌++◌, IfOk, OnOk};
ghost use Rattle.bdb_base.specs.Changes.{statements_naming};
ghost use Rattle.bdb_leaving.specs.Naming.{AppendsNaming, ReadsAt, ReadsNaming, ReadsRows, said_by_world};
ghost use Rattle.bdb_catalog.specs.Bases.{StoresSome};
ghost use Rattle.bdb_catalog.specs.Opening.{IsPartOf};
ghost use Rattle.bdb_stored.specs.Worlds.{TellsStates};
ghost use Rattle.bdb_tables.specs.Grammar.{InGrammar};
ghost use Rattle.bdb_tables.specs.Reading.{OnlyReads};
ghost use Rattle.bdb_val.specs.Reads.{HaveTuples};
ghost use Rattle.bdb_val.specs.Steps.{IsChanging};

use crate::paths::worlds_by_edges;
use bdb_base::{Exact, Held, List, Path, Stmt, names_user};
use bdb_keep::Keeper;
use bdb_names::NamedWorld;
use bdb_tables::TabError;
use bdb_val::world_at;
use std::alloc::{AllocError, Global};

/// The statements whose paths name a user, in order: what the explicit rows say of the worlds whose paths name him. One read
/// for each world and one for each user of its path, whatever the number of users; two for each row of those that name him, and
/// one more for each of these worlds; and one more.
pub fn statements_naming<K: Keeper>(
    alloc: Global,
    keeper: &mut K,
    uid: u32,
) -> Result<List<Stmt>, TabError>
    requires base { StoresSome (K.seen keeper.old).kept }
    ensures naming { IfOk result
        (IsPartOf (λ b. statements_naming uid b.stmts) (K.seen keeper.old).kept) }
    ensures reads { OnOk result (ReadsNaming uid (K.seen keeper.old) (K.seen keeper.new)) }
    ensures kept { OnOk result ((K.seen keeper.new).kept ≡ (K.seen keeper.old).kept) }
    ensures writes { (K.seen keeper.new).writes ≡ (K.seen keeper.old).writes }
    ensures changing { IsChanging (K.seen keeper.old) (K.seen keeper.new) result TabError.Fault }
{
    let worlds = match worlds_by_edges(alloc, keeper) {
        Ok(worlds) => worlds,
        Err(error) => return Err(error),
    };
    match read_naming(alloc, keeper, &worlds, uid) {
        Ok(stmts) => Ok(stmts),
        Err(error) => Err(error),
    }
}

// The same, by the worlds in the order of their paths.
fn read_naming<K: Keeper>(
    alloc: Global,
    keeper: &mut K,
    worlds: &[NamedWorld],
    uid: u32,
) -> Result<List<Stmt>, TabError>
    requires grammar { InGrammar (K.seen keeper.old).kept }
    requires tuples { HaveTuples (K.seen keeper.old).kept }
    requires worlds { TellsStates (K.seen keeper.old).kept worlds.now }
    ensures naming { IfOk result
        (IsPartOf (λ b. statements_naming uid b.stmts) (K.seen keeper.old).kept) }
    ensures reads { OnOk result (ReadsRows uid (K.seen keeper.old) (K.seen keeper.new)) }
    ensures reading { OnlyReads (K.seen keeper.old) (K.seen keeper.new) result TabError.Fault }
{
    let mut stmts = List::new(alloc);
    for world in worlds {
        match push_naming(alloc, keeper, &mut stmts, world, uid) {
            Ok(()) => {}
            Err(error) => return Err(error),
        }
    }
    Ok(stmts)
}

// Appends the statements of a world, where its path names the user.
fn push_naming<K: Keeper>(
    alloc: Global,
    keeper: &mut K,
    stmts: &mut List<Stmt>,
    world: &NamedWorld,
    uid: u32,
) -> Result<(), TabError>
    requires grammar { InGrammar (K.seen keeper.old).kept }
    requires tuples { HaveTuples (K.seen keeper.old).kept }
    ensures appended { OnOk result
        (AppendsNaming (K.seen keeper.old).kept uid world.now stmts.old stmts.new) }
    ensures reads { OnOk result (ReadsAt uid world.now (K.seen keeper.old) (K.seen keeper.new)) }
    ensures reading { OnlyReads (K.seen keeper.old) (K.seen keeper.new) result TabError.Fault }
{
    let users = world.path.as_slice();
    if !names_user(uid, users) {
        return Ok(());
    }
    let rows = match world_at(alloc, keeper, world.wid) {
        Ok(world) => world.held,
        Err(error) => return Err(error),
    };
    match push_said(alloc, stmts, &world.path, rows) {
        Ok(()) => Ok(()),
        Err(_) => {
            keeper.undo();
            Err(TabError::Memory)
        }
    }
}

// Appends what the explicit rows of a path's world say, as statements of the path.
fn push_said(
    alloc: Global,
    stmts: &mut List<Stmt>,
    path: &Path,
    rows: List<Held>,
) -> Result<(), AllocError>
    ensures { OnOk result (stmts.new ≡ stmts.old ++ said_by_world path.now rows) }
{
    for row in rows.into_vec() {
        if !row.explicit {
            continue;
        }
        let path = path.try_clone(alloc)?;
        stmts.push(Stmt {
            path,
            sign: row.sign,
            tuple: row.tuple,
        })?;
    }
    Ok(())
}
