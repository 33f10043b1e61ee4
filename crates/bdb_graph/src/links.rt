// Whether tables hold the suffix links of worlds.
ghost use Rattle.std.specs.Prelude.{◌≡◌, true, map, IfOk};
ghost use Rattle.std.specs.Bool.{MatchBool};
ghost use Rattle.std.specs.List.{AllByRecursion};
ghost use Rattle.std.specs.Ordering.{nat_cmp};
ghost use Rattle.bdb_base.specs.SortedSet.{ascending};
ghost use Rattle.bdb_keep.specs.Calls.{IsRead};
ghost use Rattle.bdb_tables.specs.Grammar.{InGrammar};
ghost use Rattle.bdb_tables.specs.InUse.{link_codec};
ghost use Rattle.bdb_tables.specs.Names.{link_of};
ghost use Rattle.bdb_tables.specs.Writes.{Gives};
ghost use Rattle.bdb_tables.specs.Reading.{OnlyReads};
ghost use Rattle.bdb_graph.specs.Naming.{names_of};
ghost use Rattle.bdb_graph.specs.States.{AllKeysPass, AreIndexed, HasLink, HasNextKey, IsAmongWorlds, is_right, is_world, link_from, number_of_world};

use crate::finding::{is_world, leads_to};
use bdb_base::Path;
use bdb_keep::Keeper;
use bdb_names::NamedWorld;
use bdb_tables::{SuffixTab, TabError, get, next_under};
use std::alloc::Global;

/// Whether the suffix links are those of the worlds' paths. A read for each world, and one for each link.
pub fn are_links_held<K: Keeper>(
    alloc: Global,
    keeper: &mut K,
    worlds: &[NamedWorld],
    paths: &[Path],
) -> Result<bool, TabError>
    requires grammar { InGrammar (K.seen keeper.old).kept }
    requires worlds { AreIndexed worlds.now paths.now }
    ensures held { IfOk result
        (λ held. MatchBool held
        (Gives link_codec (K.seen keeper.old).kept (link_of (names_of worlds.now)))
        (Gives link_codec (K.seen keeper.old).kept (link_of (names_of worlds.now)) → ⊥)) }
    ensures reading { OnlyReads (K.seen keeper.old) (K.seen keeper.new) result TabError.Fault }
{
    match each_has_link(alloc, keeper, worlds, paths) {
        Ok(true) => {}
        Ok(false) => return Ok(false),
        Err(error) => return Err(error),
    }
    match are_links_of_worlds(alloc, keeper, worlds) {
        Ok(are) => Ok(are),
        Err(error) => Err(error),
    }
}

// Whether the suffix link of each world is right.
fn each_has_link<K: Keeper>(
    alloc: Global,
    keeper: &mut K,
    worlds: &[NamedWorld],
    paths: &[Path],
) -> Result<bool, TabError>
    requires grammar { InGrammar (K.seen keeper.old).kept }
    requires worlds { AreIndexed worlds.now paths.now }
    ensures links { IfOk result
        (λ b. MatchBool b (AllByRecursion (HasLink (K.seen keeper.old).kept worlds.now) worlds.now)
        (AllByRecursion (HasLink (K.seen keeper.old).kept worlds.now) worlds.now → ⊥)) }
    ensures reading { OnlyReads (K.seen keeper.old) (K.seen keeper.new) result TabError.Fault }
{
    for world in worlds {
        match has_link(alloc, keeper, worlds, paths, world) {
            Ok(true) => {}
            Ok(false) => return Ok(false),
            Err(error) => return Err(error),
        }
    }
    Ok(true)
}

// Whether the suffix link of a world is right. One read.
fn has_link<K: Keeper>(
    alloc: Global,
    keeper: &mut K,
    worlds: &[NamedWorld],
    paths: &[Path],
    world: &NamedWorld,
) -> Result<bool, TabError>
    requires grammar { InGrammar (K.seen keeper.old).kept }
    requires worlds { AreIndexed worlds.now paths.now }
    requires world { IsAmongWorlds worlds.now world.now }
    ensures link { IfOk result
        (λ has. MatchBool has (HasLink (K.seen keeper.old).kept worlds.now world.now)
        (HasLink (K.seen keeper.old).kept worlds.now world.now → ⊥)) }
    ensures read { IsRead (K.seen keeper.old) (K.seen keeper.new) result TabError.Fault }
{
    match get::<SuffixTab, K>(alloc, keeper, &world.wid) {
        Ok(found) => Ok(is_link(worlds, paths, world.path.as_slice(), found)),
        Err(error) => Err(error),
    }
}

// Whether this is the suffix link of a path.
fn is_link(worlds: &[NamedWorld], paths: &[Path], path: &[u32], found: Option<u32>) -> bool
    requires { AreIndexed worlds.now paths.now }
    ensures { result ≡ is_right found (link_from (names_of worlds.now) path.now) }
{
    match path {
        [] => found.is_none(),
        [_, rest @ ..] => match found {
            Some(wid) => leads_to(worlds, paths, rest, wid),
            None => false,
        },
    }
}

// Whether each suffix link is that of a world.
fn are_links_of_worlds<K: Keeper>(
    alloc: Global,
    keeper: &mut K,
    worlds: &[NamedWorld],
) -> Result<bool, TabError>
    requires grammar { InGrammar (K.seen keeper.old).kept }
    requires sorted { ascending nat_cmp (map number_of_world worlds.now) ≡ true }
    ensures keys { IfOk result
        (λ b. MatchBool b (AllKeysPass link_codec (K.seen keeper.old).kept (is_world worlds.now))
        (AllKeysPass link_codec (K.seen keeper.old).kept (is_world worlds.now) → ⊥)) }
    ensures reading { OnlyReads (K.seen keeper.old) (K.seen keeper.new) result TabError.Fault }
{
    let mut low = Vec::new(alloc);
    for _ in 0..u64::MAX {
        match next_link(alloc, keeper, worlds, &mut low) {
            Ok(Some(true)) => {}
            Ok(Some(false)) => return Ok(false),
            Ok(None) => return Ok(true),
            Err(error) => return Err(error),
        }
    }
    keeper.undo();
    Err(TabError::Memory)
}

// Whether the first suffix link from `low` on, if there is one, is that of a world.
fn next_link<K: Keeper>(
    alloc: Global,
    keeper: &mut K,
    worlds: &[NamedWorld],
    low: &mut Vec<u8>,
) -> Result<Option<bool>, TabError>
    requires grammar { InGrammar (K.seen keeper.old).kept }
    requires sorted { ascending nat_cmp (map number_of_world worlds.now) ≡ true }
    ensures found { IfOk result
        (HasNextKey link_codec (K.seen keeper.old).kept (is_world worlds.now)
        low.old.items low.new.items) }
    ensures read { IsRead (K.seen keeper.old) (K.seen keeper.new) result TabError.Fault }
{
    let mut key = Vec::new(alloc);
    let mut row = Vec::new(alloc);
    match next_under::<SuffixTab, K>(alloc, keeper, &[], low, &mut key, &mut row) {
        Ok(Some(entry)) => Ok(Some(is_world(worlds, entry.0))),
        Ok(None) => Ok(None),
        Err(error) => Err(error),
    }
}
