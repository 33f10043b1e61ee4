// Writing the tables of a whole base.
ghost use Rattle.std.specs.Prelude.{◌≡◌, true, [], OnOk};
ghost use Rattle.bdb_base.specs.Bases.{IsCatalog, empty_contents};
ghost use Rattle.bdb_keep.specs.Seen.{NeverFall, Steps};
ghost use Rattle.bdb_tables.specs.Stored.{Stores};
ghost use Rattle.bdb_catalog.specs.Bases.{StoresValid};
ghost use Rattle.bdb_stored.specs.Writing.{AddsNext, AddsPlace, SomeMayAddPlace, SomeMayFollow, base_of};
ghost use Rattle.bdb_update.specs.StoredLaws.{HaveNoRows};

use crate::clearing::clear_tables;
use bdb_base::{Base, Catalog, Stmt, UserSlot};
use bdb_canon::Counts;
use bdb_catalog::{add_gone_place, add_relation, add_user, write_empty};
use bdb_keep::Keeper;
use bdb_tables::TabError;
use bdb_update::{Added, UpdateError, add_statement};
use std::alloc::Global;

/// Makes the tables those of a base, whatever rows they had: all rows are taken away, and places of users, relations and
/// statements added one by one.
pub fn write_all_tables<K: Keeper>(
    alloc: Global,
    keeper: &mut K,
    base: &Base,
) -> Result<(), TabError>
    requires running { (K.seen keeper.old).running ≡ true }
    ensures stored { OnOk result (StoresValid (K.seen keeper.new).kept base.now) }
    ensures counts { NeverFall (K.seen keeper.old) (K.seen keeper.new) }
    ensures steps { Steps (K.seen keeper.old) (K.seen keeper.new) result TabError.Fault }
{
    match clear_tables(alloc, keeper) {
        Ok(()) => {}
        Err(error) => return Err(error),
    }
    match write_catalog(alloc, keeper, base.catalog()) {
        Ok(()) => {}
        Err(error) => return Err(error),
    }
    match write_statements(alloc, keeper, base) {
        Ok(()) => Ok(()),
        Err(error) => Err(error),
    }
}

// Makes tables without rows those of a base without statements.
fn write_catalog<K: Keeper>(
    alloc: Global,
    keeper: &mut K,
    catalog: &Catalog,
) -> Result<(), TabError>
    requires running { (K.seen keeper.old).running ≡ true }
    requires none { HaveNoRows (K.seen keeper.old).kept }
    requires catalog { IsCatalog catalog.now }
    ensures stored { OnOk result
        (StoresValid (K.seen keeper.new).kept (base_of catalog.now.users catalog.now.rels [])) }
    ensures counts { NeverFall (K.seen keeper.old) (K.seen keeper.new) }
    ensures steps { Steps (K.seen keeper.old) (K.seen keeper.new) result TabError.Fault }
{
    match write_empty(alloc, keeper) {
        Ok(()) => {}
        Err(error) => return Err(error),
    }
    match write_users(alloc, keeper, catalog) {
        Ok(()) => {}
        Err(error) => return Err(error),
    }
    match write_relations(alloc, keeper, catalog) {
        Ok(()) => Ok(()),
        Err(error) => Err(error),
    }
}

// Adds the places of users to the empty base.
fn write_users<K: Keeper>(alloc: Global, keeper: &mut K, catalog: &Catalog) -> Result<(), TabError>
    requires running { (K.seen keeper.old).running ≡ true }
    requires catalog { IsCatalog catalog.now }
    requires base { Stores (K.seen keeper.old).kept empty_contents }
    ensures stored { OnOk result
        (StoresValid (K.seen keeper.new).kept (base_of catalog.now.users [] [])) }
    ensures counts { NeverFall (K.seen keeper.old) (K.seen keeper.new) }
    ensures steps { Steps (K.seen keeper.old) (K.seen keeper.new) result TabError.Fault }
{
    let users = catalog.users.as_slice();
    for at in 0..users.len() {
        match write_place(alloc, keeper, at as u32 + 1, &users[at]) {
            Ok(()) => {}
            Err(error) => return Err(error),
        }
    }
    Ok(())
}

// Adds a place of the next number, that of a live user or of one who is gone.
fn write_place<K: Keeper>(
    alloc: Global,
    keeper: &mut K,
    uid: u32,
    slot: &UserSlot,
) -> Result<(), TabError>
    requires running { (K.seen keeper.old).running ≡ true }
    requires base { SomeMayAddPlace (K.seen keeper.old).kept uid slot.now }
    ensures added { OnOk result
        (AddsPlace (K.seen keeper.old).kept (K.seen keeper.new).kept uid slot.now) }
    ensures counts { NeverFall (K.seen keeper.old) (K.seen keeper.new) }
    ensures steps { Steps (K.seen keeper.old) (K.seen keeper.new) result TabError.Fault }
{
    match slot {
        UserSlot::Live(name) => match add_user(alloc, keeper, uid, name) {
            Ok(()) => Ok(()),
            Err(error) => Err(error),
        },
        UserSlot::Gone => match add_gone_place(alloc, keeper, uid) {
            Ok(()) => Ok(()),
            Err(error) => Err(error),
        },
    }
}

// Adds the relations to the base that has the users alone.
fn write_relations<K: Keeper>(
    alloc: Global,
    keeper: &mut K,
    catalog: &Catalog,
) -> Result<(), TabError>
    requires running { (K.seen keeper.old).running ≡ true }
    requires catalog { IsCatalog catalog.now }
    requires base { StoresValid (K.seen keeper.old).kept (base_of catalog.now.users [] []) }
    ensures stored { OnOk result
        (StoresValid (K.seen keeper.new).kept (base_of catalog.now.users catalog.now.rels [])) }
    ensures counts { NeverFall (K.seen keeper.old) (K.seen keeper.new) }
    ensures steps { Steps (K.seen keeper.old) (K.seen keeper.new) result TabError.Fault }
{
    let rels = catalog.rels.as_slice();
    for at in 0..rels.len() {
        match add_relation(alloc, keeper, at as u32, &rels[at]) {
            Ok(()) => {}
            Err(error) => return Err(error),
        }
    }
    Ok(())
}

// Adds the statements to the base that has the catalog alone.
fn write_statements<K: Keeper>(alloc: Global, keeper: &mut K, base: &Base) -> Result<(), TabError>
    requires running { (K.seen keeper.old).running ≡ true }
    requires base { StoresValid (K.seen keeper.old).kept
        (base_of base.now.catalog.users base.now.catalog.rels []) }
    ensures stored { OnOk result (StoresValid (K.seen keeper.new).kept base.now) }
    ensures counts { NeverFall (K.seen keeper.old) (K.seen keeper.new) }
    ensures steps { Steps (K.seen keeper.old) (K.seen keeper.new) result TabError.Fault }
{
    let mut counts = Counts {
        worlds: 1,
        tuples: 0,
        stmts: 0,
        rows: 0,
    };
    for stmt in base.stmts() {
        match add_next(alloc, keeper, &mut counts, stmt) {
            Ok(()) => {}
            Err(error) => return Err(error),
        }
    }
    Ok(())
}

// Adds a statement that the base may have.
fn add_next<K: Keeper>(
    alloc: Global,
    keeper: &mut K,
    counts: &mut Counts,
    stmt: &Stmt,
) -> Result<(), TabError>
    requires running { (K.seen keeper.old).running ≡ true }
    requires base { SomeMayFollow (K.seen keeper.old).kept counts.old stmt.now }
    ensures added { OnOk result
        (AddsNext (K.seen keeper.old).kept
        (K.seen keeper.new).kept counts.old counts.new stmt.now) }
    ensures counts { NeverFall (K.seen keeper.old) (K.seen keeper.new) }
    ensures steps { Steps (K.seen keeper.old) (K.seen keeper.new) result TabError.Fault }
{
    match add_statement(alloc, keeper, counts, stmt) {
        Ok(Added::New) => Ok(()),
        Ok(Added::Already) => unreachable!(),
        Err(UpdateError::Clash(_)) => unreachable!(),
        Err(UpdateError::Full(_)) => unreachable!(),
        Err(UpdateError::Fault) => Err(TabError::Fault),
        Err(UpdateError::Memory) => Err(TabError::Memory),
    }
}
