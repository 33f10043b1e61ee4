// The states of a stored base with their suffix links.
ghost use Rattle.std.specs.Prelude.{◌≡◌, ◌<◌, ◌^◌, length, ◌≤◌, ◌+◌, OnOk, IfOk};
ghost use Rattle.std.specs.Option.{option_map};
ghost use Rattle.bdb_base.specs.Causes.{RoseBy};
ghost use Rattle.bdb_keep.specs.Calls.{IsRead};
ghost use Rattle.bdb_tables.specs.Grammar.{InGrammar};
ghost use Rattle.bdb_tables.specs.Reading.{OnlyReads};
ghost use Rattle.bdb_stored.specs.Structure.{TellsLink, worlds_with_links};
ghost use Rattle.bdb_catalog.specs.Opening.{IsPartOf};
ghost use Rattle.bdb_stored.specs.Worlds.{TellsStates, place_of_number};

use crate::named::place_of_number;
use bdb_base::{Exact, List};
use bdb_canon::CanonWorld;
use bdb_keep::Keeper;
use bdb_names::NamedWorld;
use bdb_tables::{SuffixTab, TabError, get};
use std::alloc::Global;

/// The states with the places to which their suffix links lead, in order. One read for each.
pub fn worlds_with_links<K: Keeper>(
    alloc: Global,
    keeper: &mut K,
    worlds: &[NamedWorld],
) -> Result<List<CanonWorld>, TabError>
    requires grammar { InGrammar (K.seen keeper.old).kept }
    requires worlds { TellsStates (K.seen keeper.old).kept worlds.now }
    requires few { length worlds.now < 2 ^ 32 }
    ensures linked { IfOk result (IsPartOf worlds_with_links (K.seen keeper.old).kept) }
    ensures reads { OnOk result
        ((K.seen keeper.new).reads ≤ (K.seen keeper.old).reads + length worlds.now) }
    ensures reading { OnlyReads (K.seen keeper.old) (K.seen keeper.new) result TabError.Fault }
{
    let mut linked = List::new(alloc);
    for world in worlds {
        let entry = match with_link(alloc, keeper, worlds, world) {
            Ok(entry) => entry,
            Err(error) => return Err(error),
        };
        match linked.push(entry) {
            Ok(()) => {}
            Err(_) => {
                keeper.undo();
                return Err(TabError::Memory);
            }
        }
    }
    Ok(linked)
}

// A state with the place to which its suffix link leads.
fn with_link<K: Keeper>(
    alloc: Global,
    keeper: &mut K,
    worlds: &[NamedWorld],
    world: &NamedWorld,
) -> Result<CanonWorld, TabError>
    requires grammar { InGrammar (K.seen keeper.old).kept }
    requires few { length worlds.now < 2 ^ 32 }
    ensures link { IfOk result (TellsLink (K.seen keeper.old).kept worlds.now world.now) }
    ensures reads { OnOk result (RoseBy 1 (K.seen keeper.old).reads (K.seen keeper.new).reads) }
    ensures read { IsRead (K.seen keeper.old) (K.seen keeper.new) result TabError.Fault }
{
    let link = match get::<SuffixTab, K>(alloc, keeper, &world.wid) {
        Ok(link) => link,
        Err(error) => return Err(error),
    };
    let suffix = place_of_link(worlds, link);
    match world.path.try_clone(alloc) {
        Ok(path) => Ok(CanonWorld { path, suffix }),
        Err(_) => {
            keeper.undo();
            Err(TabError::Memory)
        }
    }
}

// The place of the world to which a link leads, if there is a link.
fn place_of_link(worlds: &[NamedWorld], link: Option<u32>) -> Option<u32>
    requires few { length worlds.now < 2 ^ 32 }
    ensures { result ≡ option_map (place_of_number worlds.now) link }
{
    match link {
        Some(wid) => Some(place_of_number(worlds, wid) as u32),
        None => None,
    }
}
