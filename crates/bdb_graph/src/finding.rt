// Worlds, to be found by number and by path.
ghost use Rattle.std.specs.Prelude.{◌≡◌, true, map, IfOk};
ghost use Rattle.std.specs.Ordering.{nat_cmp};
ghost use Rattle.bdb_base.specs.Bases.{is_user};
ghost use Rattle.bdb_base.specs.Same.{same_path};
ghost use Rattle.bdb_base.specs.SortedSet.{ascending};
ghost use Rattle.bdb_tables.specs.Names.{leads_to};
ghost use Rattle.bdb_graph.specs.Naming.{names_of};
ghost use Rattle.bdb_graph.specs.States.{AreIndexed, ArePathsOf, have_own_paths, is_world, number_of_world, target_of};

use crate::numbers::place_of_number;
use bdb_base::{List, Path, UserSlot, cmp_path, put_copy};
use bdb_entries::are_users;
use bdb_names::NamedWorld;
use bdb_paths::deepest_suffix_in_set;
use std::alloc::{AllocError, Global};

/// The paths of worlds, in order.
pub fn paths_of(alloc: Global, worlds: &[NamedWorld]) -> Result<List<Path>, AllocError>
    ensures { IfOk result (ArePathsOf worlds.now) }
{
    let mut paths = List::new(alloc);
    for world in worlds {
        let _added = put_copy(alloc, &mut paths, &world.path)?;
    }
    Ok(paths)
}

/// Whether each world's path is one of live users only.
pub fn have_own_paths(users: &[UserSlot], worlds: &[NamedWorld]) -> bool
    ensures { result ≡ have_own_paths (is_user users.now) worlds.now }
{
    worlds
        .iter()
        .all(|world| are_users(users, world.path.as_slice()))
}

/// Whether a number is that of a world. It is a binary search.
pub fn is_world(worlds: &[NamedWorld], wid: u32) -> bool
    requires { ascending nat_cmp (map number_of_world worlds.now) ≡ true }
    ensures { result ≡ is_world worlds.now wid }
{
    match place_of_number(worlds, wid) {
        Some(_) => true,
        None => false,
    }
}

/// Whether a path leads to a world: its deepest suffix that is the path of one is the path of this one. The searches are
/// binary.
pub fn leads_to(worlds: &[NamedWorld], paths: &[Path], users: &[u32], wid: u32) -> bool
    requires { AreIndexed worlds.now paths.now }
    ensures { result ≡ leads_to (target_of (names_of worlds.now) users.now) wid }
{
    let target = deepest_suffix_in_set(paths, users);
    match place_of_number(worlds, wid) {
        Some(at) => has_path(&worlds[at], &paths[target]),
        None => false,
    }
}

// Whether a world has a path.
fn has_path(world: &NamedWorld, path: &Path) -> bool
    ensures { result ≡ same_path world.now.path path.now }
{
    cmp_path(world.path.as_slice(), path.as_slice()).is_eq()
}
