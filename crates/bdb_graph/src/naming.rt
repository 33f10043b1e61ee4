// The names of worlds, each from the world from which it comes.
ghost use Rattle.std.specs.Prelude.{◌≡◌, ◌-◌, [], true, None, Some, map, IfOk, MatchOption};
ghost use Rattle.std.specs.List.{AllByRecursion};
ghost use Rattle.std.specs.Ordering.{nat_cmp};
ghost use Rattle.bdb_base.specs.SortedSet.{ascending};
ghost use Rattle.bdb_graph.specs.Naming.{AreNamedUps, IsClimbed, IsNamedUp, climb, number_of_up, up_in};

use crate::leading::copy_of;
use crate::numbers::{HasNumber, place_of_number};
use crate::ups::Up;
use bdb_base::{Path, PathError};
use bdb_names::NamedWorld;
use std::alloc::{AllocError, Global};

impl HasNumber for NamedWorld {
    ghost number_of = { λ x. x.wid };

    fn number(&self) -> u32 {
        self.wid
    }
}

/// These worlds with their paths. None exactly where one does not come from world 0, or by way of no path.
pub fn named_ups(alloc: Global, ups: &[Up]) -> Result<Option<Vec<NamedWorld>>, AllocError>
    requires { ascending nat_cmp (map number_of_up ups.now) ≡ true }
    ensures { IfOk result (λ r. MatchOption r (AllByRecursion (IsClimbed ups.now) ups.now → ⊥)
        (λ worlds. AreNamedUps ups.now ups.now worlds.items)) }
{
    let mut worlds = Vec::new(alloc);
    for up in ups {
        let up = copy_of(up);
        match named_up(alloc, ups, up) {
            Ok(Some(world)) => worlds.push(world)?,
            Ok(None) => return Ok(None),
            Err(error) => return Err(error),
        }
    }
    Ok(Some(worlds))
}

// A world with its path.
fn named_up(alloc: Global, ups: &[Up], up: Up) -> Result<Option<NamedWorld>, AllocError>
    requires { ascending nat_cmp (map number_of_up ups.now) ≡ true }
    ensures { IfOk result (λ r. MatchOption r (IsClimbed ups.now up → ⊥) (IsNamedUp ups.now up)) }
{
    let users = match climb(alloc, ups, up.wid, up.depth) {
        Ok(Some(users)) => users,
        Ok(None) => return Ok(None),
        Err(error) => return Err(error),
    };
    match Path::try_new(alloc, &users) {
        Ok(path) => Ok(Some(NamedWorld { wid: up.wid, path })),
        Err(PathError::Repeat) => Ok(None),
        Err(PathError::Memory) => Err(AllocError),
    }
}

// The users from world 0 to a world, of which there are so many. None exactly where it does not come from world 0 so.
fn climb(alloc: Global, ups: &[Up], wid: u32, depth: u32) -> Result<Option<Vec<u32>>, AllocError>
    requires { ascending nat_cmp (map number_of_up ups.now) ≡ true }
    ensures { IfOk result
        (λ r. MatchOption r (climb ups.now depth wid [] ≡ None)
        (λ users. climb ups.now depth wid [] ≡ Some users.items)) }
{
    let mut users = Vec::new(alloc);
    let mut at = wid;
    let mut left = depth;
    while left > 0 {
        match up_at(ups, at) {
            Some(up) => {
                users.insert(0, up.uid)?;
                at = up.from;
                left -= 1;
            }
            None => return Ok(None),
        }
    }
    if at != 0 {
        return Ok(None);
    }
    Ok(Some(users))
}

// The world of a number.
fn up_at(ups: &[Up], wid: u32) -> Option<Up>
    requires { ascending nat_cmp (map number_of_up ups.now) ≡ true }
    ensures { result ≡ up_in ups.now wid }
{
    match place_of_number(ups, wid) {
        Some(at) => Some(ups[at]),
        None => None,
    }
}
