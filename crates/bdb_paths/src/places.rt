// Where a path stands among others.
ghost use Rattle.std.specs.Prelude.{◌≡◌, true, slice_get, Some, MatchResult};
ghost use Rattle.std.specs.List.{position};
ghost use Rattle.std.specs.Ordering.{is_eq};
ghost use Rattle.bdb_base.specs.Order.{path_cmp};
ghost use Rattle.bdb_base.specs.SortedSet.{BelongsAt, ascending};

use bdb_base::{Path, cmp_path};
use std::cmp::Ordering;

/// Where a path, given by its users, stands in a set of paths: `Ok` with its place, or `Err` with the place where it
/// belongs. It is a binary search.
pub fn place_of_users(paths: &[Path], users: &[u32]) -> Result<usize, usize>
    requires { ascending path_cmp paths.now ≡ true }
    ensures { MatchResult result (λ at. slice_get paths.now at ≡ Some users.now)
        (BelongsAt path_cmp paths.now users.now) }
{
    let mut low = 0;
    let mut high = paths.len();
    while low < high {
        let mid = low + (high - low) / 2;
        let order = cmp_path(paths[mid].as_slice(), users);
        match order {
            Ordering::Less => low = mid + 1,
            Ordering::Equal => return Ok(mid),
            Ordering::Greater => high = mid,
        }
    }
    Err(low)
}

/// The first place in a list of paths, in any order, where a path stands. None where it is not there.
pub fn place_among(paths: &[Path], users: &[u32]) -> Option<usize>
    ensures { result ≡ position (λ p. is_eq (path_cmp p users.now)) paths.now }
{
    paths
        .iter()
        .position(|path| cmp_path(path.as_slice(), users).is_eq())
}
