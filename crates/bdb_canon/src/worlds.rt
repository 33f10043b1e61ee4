// The states with their suffix links.
ghost use Rattle.std.specs.Prelude.{◌≡◌, map, IfOk};
ghost use Rattle.bdb_canon.specs.Canonical.{AreStates, world_entry};

use crate::places::link_place;
use crate::structure::CanonWorld;
use bdb_base::{Exact, List, Path};
use std::alloc::{AllocError, Global};

/// The states with their suffix links.
pub fn worlds_of(alloc: Global, states: &[Path]) -> Result<List<CanonWorld>, AllocError>
    requires { AreStates states.now }
    ensures { IfOk result (λ worlds. worlds ≡ map (world_entry states.now) states.now) }
{
    let mut worlds = List::new(alloc);
    for path in states {
        let suffix = link_place(states, path.as_slice());
        let path = path.try_clone(alloc)?;
        worlds.push(CanonWorld { path, suffix })?;
    }
    Ok(worlds)
}
