// The structure of a base.
ghost use Rattle.std.specs.Prelude.{◌≡◌, IfOk};
ghost use Rattle.bdb_canon.specs.Canonical.{canon_of};

use crate::edges::edges_of;
use crate::rows::rows_of;
use crate::structure::Canon;
use crate::users::user_numbers;
use crate::worlds::worlds_of;
use bdb_base::{Base, tuples_of};
use bdb_paths::states_of;
use std::alloc::{AllocError, Global};

/// The structure of a base, from scratch.
pub fn canon(alloc: Global, base: &Base) -> Result<Canon, AllocError>
    ensures { IfOk result (λ k. k ≡ canon_of base.now) }
{
    let catalog = base.catalog();
    let rels = catalog.rels.as_slice();
    let stmts = base.stmts();
    let users = user_numbers(alloc, catalog.users.as_slice())?;
    let states = states_of(alloc, stmts)?;
    let tuples = tuples_of(alloc, stmts)?;
    let worlds = worlds_of(alloc, states.as_slice())?;
    let edges = edges_of(alloc, users.as_slice(), states.as_slice())?;
    let rows = rows_of(alloc, rels, stmts, states.as_slice(), tuples.as_slice())?;
    Ok(Canon {
        worlds,
        tuples,
        edges,
        rows,
    })
}
