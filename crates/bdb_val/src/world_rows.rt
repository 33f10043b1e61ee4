// The rows of a world as they are shown: by tuple, with their marks.
ghost use Rattle.std.specs.Prelude.{◌≡◌, ◌+◌, ◌*◌, ◌≤◌, map, length, IfOk};
ghost use Rattle.bdb_base.specs.Order.{tuple_cmp};
ghost use Rattle.bdb_keep.specs.Calls.{IsRead};
ghost use Rattle.bdb_tables.specs.Grammar.{InGrammar};
ghost use Rattle.bdb_val.specs.Reads.{HaveTuples};
ghost use Rattle.bdb_val.specs.WorldReads.{AreInTupleOrder, AreRowsAt, held_row};

use crate::reading::read_world;
use crate::stored::StoredRow;
use bdb_base::{Held, List, World, cmp_tuple};
use bdb_keep::Keeper;
use bdb_tables::TabError;
use std::alloc::{AllocError, Global};
use std::cmp::Ordering;

/// The rows of the world of a number, in the order of their tuples; each has its sign, and is explicit where it is a
/// statement at the world's own path. Two reads for each row at most, and one more.
pub fn world_at<K: Keeper>(alloc: Global, keeper: &mut K, wid: u32) -> Result<World, TabError>
    requires grammar { InGrammar (K.seen keeper.old).kept }
    requires tuples { HaveTuples (K.seen keeper.old).kept }
    ensures world { IfOk result (λ world. AreRowsAt (K.seen keeper.old).kept wid world.held) }
    ensures reads { IfOk result
        (λ world. (K.seen keeper.new).reads
        ≤ (K.seen keeper.old).reads + (2 * length world.held + 1)) }
    ensures read { IsRead (K.seen keeper.old) (K.seen keeper.new) result TabError.Fault }
{
    let rows = match read_world(alloc, keeper, wid) {
        Ok(rows) => rows,
        Err(error) => return Err(error),
    };
    match in_order(alloc, rows) {
        Ok(world) => Ok(world),
        Err(_) => {
            keeper.undo();
            Err(TabError::Memory)
        }
    }
}

// Rows as those of a world, in the order of their tuples.
fn in_order(alloc: Global, rows: Vec<StoredRow>) -> Result<World, AllocError>
    ensures { IfOk result (λ world. AreInTupleOrder rows.items world.held) }
{
    let mut held = held_rows(alloc, rows)?;
    held.sort_by(by_tuple)?;
    Ok(World {
        held: List::from_vec(held),
    })
}

// Rows as those of a world.
fn held_rows(alloc: Global, rows: Vec<StoredRow>) -> Result<Vec<Held>, AllocError>
    ensures { IfOk result (λ held. held.items ≡ map held_row rows.items) }
{
    let mut held = Vec::new(alloc);
    for row in rows {
        held.push(Held {
            tuple: row.tuple,
            sign: row.mark.0,
            explicit: row.mark.1,
        })?;
    }
    Ok(held)
}

// The order of two rows by their tuples.
fn by_tuple(a: &Held, b: &Held) -> Ordering
    ensures { result ≡ tuple_cmp a.now.tuple b.now.tuple }
{
    cmp_tuple(&a.tuple, &b.tuple)
}
