// Whether tables hold the states of worlds.
ghost use Rattle.std.specs.Prelude.{◌≤◌, length, IfOk};
ghost use Rattle.std.specs.Bool.{MatchBool};
ghost use Rattle.bdb_base.specs.Bases.{is_user};
ghost use Rattle.bdb_base.specs.Limits.{most_users};
ghost use Rattle.bdb_tables.specs.Grammar.{InGrammar};
ghost use Rattle.bdb_tables.specs.States.{HoldsStates};
ghost use Rattle.bdb_tables.specs.Reading.{OnlyReads};
ghost use Rattle.bdb_graph.specs.Naming.{AreWorlds, names_of};
ghost use Rattle.bdb_graph.specs.States.{AreIndexed};

use crate::edges::are_edges_held;
use crate::finding::{have_own_paths, paths_of};
use crate::links::are_links_held;
use crate::turning::are_turned_round;
use bdb_base::{Path, UserSlot};
use bdb_keep::Keeper;
use bdb_names::NamedWorld;
use bdb_tables::TabError;
use std::alloc::Global;

/// Whether the tables hold the states of these worlds over these users: their suffix links and edges are those of the paths, and two
/// more tables have them turned round; a world that is named by one who is gone, or has an edge for him, is none of them. Beside
/// what the last takes, a read for each world and live user and one for each link and edge; where a path leads is found by
/// binary search among the paths in order.
pub fn are_states_held<K: Keeper>(
    alloc: Global,
    keeper: &mut K,
    users: &[UserSlot],
    worlds: &[NamedWorld],
) -> Result<bool, TabError>
    requires grammar { InGrammar (K.seen keeper.old).kept }
    requires worlds { AreWorlds (K.seen keeper.old).kept worlds.now }
    requires users { length users.now ≤ most_users }
    ensures held { IfOk result
        (λ held. MatchBool held
        (HoldsStates (is_user users.now) (names_of worlds.now) (K.seen keeper.old).kept)
        (HoldsStates (is_user users.now) (names_of worlds.now) (K.seen keeper.old).kept → ⊥)) }
    ensures reading { OnlyReads (K.seen keeper.old) (K.seen keeper.new) result TabError.Fault }
{
    let paths = match paths_of(alloc, worlds) {
        Ok(paths) => paths,
        Err(_) => {
            keeper.undo();
            return Err(TabError::Memory);
        }
    };
    match are_held(alloc, keeper, users, worlds, paths.as_slice()) {
        Ok(held) => Ok(held),
        Err(error) => Err(error),
    }
}

// Whether the tables hold the states of these worlds, which are found by number and by path.
fn are_held<K: Keeper>(
    alloc: Global,
    keeper: &mut K,
    users: &[UserSlot],
    worlds: &[NamedWorld],
    paths: &[Path],
) -> Result<bool, TabError>
    requires grammar { InGrammar (K.seen keeper.old).kept }
    requires worlds { AreWorlds (K.seen keeper.old).kept worlds.now }
    requires users { length users.now ≤ most_users }
    requires found { AreIndexed worlds.now paths.now }
    ensures held { IfOk result
        (λ held. MatchBool held
        (HoldsStates (is_user users.now) (names_of worlds.now) (K.seen keeper.old).kept)
        (HoldsStates (is_user users.now) (names_of worlds.now) (K.seen keeper.old).kept → ⊥)) }
    ensures reading { OnlyReads (K.seen keeper.old) (K.seen keeper.new) result TabError.Fault }
{
    if !have_own_paths(users, worlds) {
        return Ok(false);
    }
    match are_turned_round(alloc, keeper) {
        Ok(true) => {}
        Ok(false) => return Ok(false),
        Err(error) => return Err(error),
    }
    match are_links_held(alloc, keeper, worlds, paths) {
        Ok(true) => {}
        Ok(false) => return Ok(false),
        Err(error) => return Err(error),
    }
    match are_edges_held(alloc, keeper, users, worlds, paths) {
        Ok(held) => Ok(held),
        Err(error) => Err(error),
    }
}
