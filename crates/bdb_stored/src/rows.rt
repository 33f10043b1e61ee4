// The rows of the states' worlds of a stored base.
ghost use Rattle.std.specs.Prelude.{◌≡◌, ◌<◌, ◌^◌, ◌++◌, true, length, map, IfOk, ◌≤◌, ◌+◌, ◌*◌, OnOk};
ghost use Rattle.bdb_base.specs.Order.{tuple_cmp};
ghost use Rattle.bdb_base.specs.SortedSet.{ascending};
ghost use Rattle.bdb_base.specs.WorldRows.{tuples_of};
ghost use Rattle.bdb_tables.specs.Grammar.{InGrammar};
ghost use Rattle.bdb_tables.specs.Reading.{OnlyReads};
ghost use Rattle.bdb_paths.specs.Places.{place_in};
ghost use Rattle.bdb_val.specs.Reads.{HaveTuples};
ghost use Rattle.bdb_stored.specs.Structure.{row_placed, rows_of};
ghost use Rattle.bdb_catalog.specs.Opening.{IsPartOf};
ghost use Rattle.bdb_stored.specs.Worlds.{TellsStates};

use bdb_base::{Held, List, Tuple, place_of};
use bdb_canon::CanonRow;
use bdb_keep::Keeper;
use bdb_names::NamedWorld;
use bdb_tables::TabError;
use bdb_val::world_at;
use std::alloc::{AllocError, Global};

/// The rows of the states' worlds, by place and tuple. Two reads at most for each row, and one more for each state.
pub fn rows_of<K: Keeper>(
    alloc: Global,
    keeper: &mut K,
    worlds: &[NamedWorld],
    tuples: &[Tuple],
) -> Result<List<CanonRow>, TabError>
    requires grammar { InGrammar (K.seen keeper.old).kept }
    requires stored { HaveTuples (K.seen keeper.old).kept }
    requires worlds { TellsStates (K.seen keeper.old).kept worlds.now }
    requires tuples { IsPartOf (λ b. tuples_of b.stmts) (K.seen keeper.old).kept tuples.now }
    requires sorted { ascending tuple_cmp tuples.now ≡ true }
    requires few_worlds { length worlds.now < 2 ^ 32 }
    requires few_tuples { length tuples.now < 2 ^ 32 }
    ensures rows { IfOk result (IsPartOf rows_of (K.seen keeper.old).kept) }
    ensures reads { IfOk result
        (λ rows. (K.seen keeper.new).reads
        ≤ (K.seen keeper.old).reads + (length worlds.now + 2 * length rows)) }
    ensures reading { OnlyReads (K.seen keeper.old) (K.seen keeper.new) result TabError.Fault }
{
    let mut rows = List::new(alloc);
    for at in 0..worlds.len() {
        let world = match world_at(alloc, keeper, worlds[at].wid) {
            Ok(world) => world,
            Err(error) => return Err(error),
        };
        match push_rows(&mut rows, tuples, at as u32, world.held.as_slice()) {
            Ok(()) => {}
            Err(_) => {
                keeper.undo();
                return Err(TabError::Memory);
            }
        }
    }
    Ok(rows)
}

// Adds the rows of the world of the state at a place.
fn push_rows(
    rows: &mut List<CanonRow>,
    tuples: &[Tuple],
    world: u32,
    held: &[Held],
) -> Result<(), AllocError>
    requires sorted { ascending tuple_cmp tuples.now ≡ true }
    requires few { length tuples.now < 2 ^ 32 }
    ensures { OnOk result (rows.new ≡ rows.old ++ map (row_placed tuples.now world) held.now) }
{
    for row in held {
        let tuple = place_of_tuple(tuples, &row.tuple);
        rows.push(CanonRow {
            world,
            tuple,
            sign: row.sign,
            explicit: row.explicit,
        })?;
    }
    Ok(())
}

// The place of a tuple in a set; the length of the set where it is not there.
fn place_of_tuple(tuples: &[Tuple], tuple: &Tuple) -> u32
    requires sorted { ascending tuple_cmp tuples.now ≡ true }
    requires few { length tuples.now < 2 ^ 32 }
    ensures { result ≡ place_in tuple_cmp tuples.now tuple.now }
{
    match place_of(tuples, tuple) {
        Ok(at) => at as u32,
        Err(_) => tuples.len() as u32,
    }
}
