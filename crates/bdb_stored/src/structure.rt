// The structure that stands for all worlds of a stored base.
ghost use Rattle.std.specs.Prelude.{IfOk};
ghost use Rattle.bdb_canon.specs.Canonical.{canon_of};
ghost use Rattle.bdb_keep.specs.Calls.{IsRead};
ghost use Rattle.bdb_stored.specs.Structure.{ReadsAsCanon};
ghost use Rattle.bdb_catalog.specs.Bases.{StoresSome};
ghost use Rattle.bdb_catalog.specs.Opening.{IsPartOf};

use crate::edges::edges_of;
use crate::links::worlds_with_links;
use crate::rows::rows_of;
use crate::tuples::tuples_in_order;
use crate::users::user_numbers;
use crate::worlds::worlds_in_order;
use bdb_canon::Canon;
use bdb_keep::Keeper;
use bdb_tables::TabError;
use std::alloc::Global;

/// The structure of the stored base, read from its tables: the states with their suffix links, the tuples, the edges, and
/// the rows of the states' worlds. Worlds and tuples are named by their places, whatever numbers the tables give them.
pub fn canon_of<K: Keeper>(alloc: Global, keeper: &mut K) -> Result<Canon, TabError>
    requires base { StoresSome (K.seen keeper.old).kept }
    ensures canon { IfOk result (IsPartOf canon_of (K.seen keeper.old).kept) }
    ensures reads { IfOk result (ReadsAsCanon (K.seen keeper.old) (K.seen keeper.new)) }
    ensures read { IsRead (K.seen keeper.old) (K.seen keeper.new) result TabError.Fault }
{
    let users = match user_numbers(alloc, keeper) {
        Ok(users) => users,
        Err(error) => return Err(error),
    };
    let worlds = match worlds_in_order(alloc, keeper, &users) {
        Ok(worlds) => worlds,
        Err(error) => return Err(error),
    };
    let tuples = match tuples_in_order(alloc, keeper) {
        Ok(tuples) => tuples,
        Err(error) => return Err(error),
    };
    let linked = match worlds_with_links(alloc, keeper, &worlds) {
        Ok(linked) => linked,
        Err(error) => return Err(error),
    };
    let edges = match edges_of(alloc, keeper, &worlds, &users) {
        Ok(edges) => edges,
        Err(error) => return Err(error),
    };
    match rows_of(alloc, keeper, &worlds, tuples.as_slice()) {
        Ok(rows) => Ok(Canon {
            worlds: linked,
            tuples,
            edges,
            rows,
        }),
        Err(error) => Err(error),
    }
}
