// Places in lists of states and of tuples.
ghost use Rattle.std.specs.Prelude.{◌≡◌, true};
ghost use Rattle.bdb_base.specs.SortedSet.{ascending};
ghost use Rattle.bdb_paths.specs.Places.{place_in, target_place};
ghost use Rattle.bdb_canon.specs.Canonical.{AreStates, link_place};

use bdb_base::{Ordered, Path, place_of};
use bdb_paths::deepest_suffix_in_set;

/// The place of an item in a set; the length of the set where it is not there.
pub fn place_in<X: Ordered>(xs: &[X], x: &X) -> usize
    requires { ascending X.order xs.now ≡ true }
    ensures { result ≡ place_in X.order xs.now x.now }
{
    match place_of(xs, x) {
        Ok(at) => at,
        Err(_) => xs.len(),
    }
}

/// The place of the state to which a path leads: of its deepest suffix.
pub fn target_place(states: &[Path], path: &[u32]) -> u32
    requires { AreStates states.now }
    ensures { result ≡ target_place states.now path.now }
{
    deepest_suffix_in_set(states, path) as u32
}

/// The place to which the suffix link of a state leads. The empty path has no link.
pub fn link_place(states: &[Path], path: &[u32]) -> Option<u32>
    requires { AreStates states.now }
    ensures { result ≡ link_place states.now path.now }
{
    match path {
        [] => None,
        [_, rest @ ..] => Some(target_place(states, rest)),
    }
}
