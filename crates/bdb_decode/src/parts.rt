// The parts of tables of any bytes: the catalog, the worlds and the tuples.
ghost use Rattle.std.specs.Prelude.{◌≡◌, ◌≤◌, length, map, IfOk, MatchOption};
ghost use Rattle.bdb_base.specs.Bases.{is_user};
ghost use Rattle.bdb_base.specs.Limits.{most_users};
ghost use Rattle.bdb_tables.specs.Grammar.{InGrammar};
ghost use Rattle.bdb_tables.specs.Reading.{OnlyReads};
ghost use Rattle.bdb_decode.specs.Parts.{AreParts, ArePaths, HoldNoneOver, StoreNone, path_row};

use crate::limits::worlds_are_within_limits;
use bdb_base::{Catalog, Path, Tuple, UserSlot};
use bdb_entries::{raw_catalog, raw_tuples};
use bdb_graph::{are_states_held, raw_worlds};
use bdb_keep::Keeper;
use bdb_names::NamedWorld;
use bdb_tables::TabError;
use std::alloc::{AllocError, Global};

/// The catalog of tables, the paths of their worlds and their tuples, both in order of their numbers.
#[derive(Drop)]
pub struct Parts {
    pub catalog: Catalog,
    pub paths: Vec<(u32, Path)>,
    pub tuples: Vec<(u32, Tuple)>,
}

/// The parts of the tables. None only where the tables store no valid base.
pub fn raw_parts<K: Keeper>(alloc: Global, keeper: &mut K) -> Result<Option<Parts>, TabError>
    requires grammar { InGrammar (K.seen keeper.old).kept }
    ensures parts { IfOk result (λ r. MatchOption r (StoreNone (K.seen keeper.old).kept)
        (λ parts. AreParts (K.seen keeper.old).kept parts.catalog parts.paths.items
        parts.tuples.items)) }
    ensures reading { OnlyReads (K.seen keeper.old) (K.seen keeper.new) result TabError.Fault }
{
    let catalog = match raw_catalog(alloc, keeper) {
        Ok(Some(catalog)) => catalog,
        Ok(None) => return Ok(None),
        Err(error) => return Err(error),
    };
    let tuples = match raw_tuples(alloc, keeper) {
        Ok(Some(tuples)) => tuples,
        Ok(None) => return Ok(None),
        Err(error) => return Err(error),
    };
    match worlds_are_within_limits(alloc, keeper) {
        Ok(true) => {}
        Ok(false) => return Ok(None),
        Err(error) => return Err(error),
    }
    let paths = match raw_paths(alloc, keeper, catalog.users.as_slice()) {
        Ok(Some(paths)) => paths,
        Ok(None) => return Ok(None),
        Err(error) => return Err(error),
    };
    Ok(Some(Parts {
        catalog,
        paths,
        tuples,
    }))
}

// The paths of the worlds whose states the tables hold over these users, in order of the worlds' numbers. None exactly where
// they hold no states over these users.
fn raw_paths<K: Keeper>(
    alloc: Global,
    keeper: &mut K,
    users: &[UserSlot],
) -> Result<Option<Vec<(u32, Path)>>, TabError>
    requires grammar { InGrammar (K.seen keeper.old).kept }
    requires users { length users.now ≤ most_users }
    ensures paths { IfOk result
        (λ r. MatchOption r (HoldNoneOver (is_user users.now) (K.seen keeper.old).kept)
        (λ paths. ArePaths (is_user users.now) (K.seen keeper.old).kept paths.items)) }
    ensures reading { OnlyReads (K.seen keeper.old) (K.seen keeper.new) result TabError.Fault }
{
    let worlds = match raw_worlds(alloc, keeper) {
        Ok(Some(worlds)) => worlds,
        Ok(None) => return Ok(None),
        Err(error) => return Err(error),
    };
    match are_states_held(alloc, keeper, users, &worlds) {
        Ok(true) => {}
        Ok(false) => return Ok(None),
        Err(error) => return Err(error),
    }
    match paths_of(alloc, worlds) {
        Ok(paths) => Ok(Some(paths)),
        Err(_) => {
            keeper.undo();
            Err(TabError::Memory)
        }
    }
}

// The numbers and paths of worlds.
fn paths_of(alloc: Global, worlds: Vec<NamedWorld>) -> Result<Vec<(u32, Path)>, AllocError>
    ensures { IfOk result (λ paths. paths.items ≡ map path_row worlds.items) }
{
    let mut paths = Vec::new(alloc);
    for world in worlds {
        paths.push((world.wid, world.path))?;
    }
    Ok(paths)
}
