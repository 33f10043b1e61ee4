// Where the suffix links of worlds lead in tables of any bytes, and whether the tables hold the rows of the worlds.
ghost use Rattle.std.specs.Prelude.{IfOk};
ghost use Rattle.bdb_base.specs.Bases.{key_lengths};
ghost use Rattle.bdb_keep.specs.Calls.{IsRead};
ghost use Rattle.bdb_tables.specs.Grammar.{InGrammar};
ghost use Rattle.bdb_tables.specs.Reading.{OnlyReads};
ghost use Rattle.bdb_decode.specs.Parts.{AreLinks, IsLink, TellsRowsOf};
ghost use Rattle.bdb_decode.specs.SettledRows.{AreKeyed};

use crate::held_rows::are_rows_held;
use bdb_base::{Catalog, Path};
use bdb_keep::Keeper;
use bdb_tables::{SuffixTab, TabError, get};
use std::alloc::Global;

/// Whether the tables hold the rows of the worlds, each linked as the tables say. The relations of the catalog tell how long
/// keys are.
pub fn hold_rows_of<K: Keeper>(
    alloc: Global,
    keeper: &mut K,
    catalog: &Catalog,
    worlds: &[(u32, Path)],
) -> Result<bool, TabError>
    requires grammar { InGrammar (K.seen keeper.old).kept }
    requires keyed { AreKeyed (key_lengths catalog.now.rels) (K.seen keeper.old).kept }
    ensures held { IfOk result
        (TellsRowsOf (key_lengths catalog.now.rels) (K.seen keeper.old).kept worlds.now) }
    ensures reading { OnlyReads (K.seen keeper.old) (K.seen keeper.new) result TabError.Fault }
{
    let links = match links_of(alloc, keeper, worlds) {
        Ok(links) => links,
        Err(error) => return Err(error),
    };
    match are_rows_held(alloc, keeper, catalog, &links) {
        Ok(held) => Ok(held),
        Err(error) => Err(error),
    }
}

// The numbers of the worlds, each with that to which its suffix link leads. One read for each.
fn links_of<K: Keeper>(
    alloc: Global,
    keeper: &mut K,
    worlds: &[(u32, Path)],
) -> Result<Vec<(u32, Option<u32>)>, TabError>
    requires grammar { InGrammar (K.seen keeper.old).kept }
    ensures links { IfOk result
        (λ links. AreLinks (K.seen keeper.old).kept worlds.now links.items) }
    ensures reading { OnlyReads (K.seen keeper.old) (K.seen keeper.new) result TabError.Fault }
{
    let mut links = Vec::new(alloc);
    for world in worlds {
        match link_of(alloc, keeper, world) {
            Ok(link) => {
                if links.push(link).is_err() {
                    keeper.undo();
                    return Err(TabError::Memory);
                }
            }
            Err(error) => return Err(error),
        }
    }
    Ok(links)
}

// The number of a world, with that to which its suffix link leads. One read.
fn link_of<K: Keeper>(
    alloc: Global,
    keeper: &mut K,
    world: &(u32, Path),
) -> Result<(u32, Option<u32>), TabError>
    requires grammar { InGrammar (K.seen keeper.old).kept }
    ensures link { IfOk result (IsLink (K.seen keeper.old).kept world.now) }
    ensures read { IsRead (K.seen keeper.old) (K.seen keeper.new) result TabError.Fault }
{
    match get::<SuffixTab, K>(alloc, keeper, &world.0) {
        Ok(link) => Ok((world.0, link)),
        Err(error) => Err(error),
    }
}
