// The deepest suffix of a path.
ghost use Rattle.std.specs.Prelude.{◌≡◌, true, [], slice_get, Some};
ghost use Rattle.bdb_base.specs.Order.{path_cmp};
ghost use Rattle.bdb_base.specs.SortedSet.{ascending, is_member};
ghost use Rattle.bdb_base.specs.States.{deepest_suffix};
ghost use Rattle.bdb_paths.specs.Places.{target_place};

use crate::places::{place_among, place_of_users};
use bdb_base::{List, Path};

/// The place of the longest suffix of a path that is in a list of paths; the first one, where it stands at several. The
/// list may be in any order. It has the empty path.
pub fn deepest_suffix(states: &List<Path>, path: &[u32]) -> usize
    requires { is_member path_cmp states.now [] ≡ true }
    ensures place { result ≡ target_place states.now path.now }
    ensures suffix { slice_get states.now result ≡ Some
        (deepest_suffix (is_member path_cmp states.now) path.now) }
{
    let mut rest = path;
    while let [_, others @ ..] = rest {
        if let Some(at) = place_among(states.as_slice(), rest) {
            return at;
        }
        rest = others;
    }
    match place_among(states.as_slice(), rest) {
        Some(at) => at,
        None => unreachable!(),
    }
}

/// The same in a set of paths, which is in order: it is a binary search.
pub fn deepest_suffix_in_set(states: &[Path], path: &[u32]) -> usize
    requires sorted { ascending path_cmp states.now ≡ true }
    requires root { is_member path_cmp states.now [] ≡ true }
    ensures place { result ≡ target_place states.now path.now }
    ensures suffix { slice_get states.now result ≡ Some
        (deepest_suffix (is_member path_cmp states.now) path.now) }
{
    let mut rest = path;
    while let [_, others @ ..] = rest {
        if let Ok(at) = place_of_users(states, rest) {
            return at;
        }
        rest = others;
    }
    0
}
