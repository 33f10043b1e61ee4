// The rows of the states' worlds.
ghost use Rattle.std.specs.Prelude.{◌≡◌, ◌++◌, true, IfOk, OnOk};
ghost use Rattle.std.specs.List.{flat_map};
ghost use Rattle.bdb_base.specs.Bases.{key_lengths};
ghost use Rattle.bdb_base.specs.Order.{path_cmp, statement_cmp};
ghost use Rattle.bdb_base.specs.SortedSet.{ascending};
ghost use Rattle.bdb_paths.specs.Places.{place_in};
ghost use Rattle.bdb_canon.specs.Canonical.{AreStates, AreTuplesInOrder, rows_from};

use crate::places::place_in;
use crate::structure::CanonRow;
use bdb_base::{List, Path, RelDef, Stmt, Tuple};
use bdb_model::world_among;
use std::alloc::{AllocError, Global};

/// The rows of the states' worlds, by world and tuple.
pub fn rows_of(
    alloc: Global,
    rels: &[RelDef],
    stmts: &[Stmt],
    states: &[Path],
    tuples: &[Tuple],
) -> Result<List<CanonRow>, AllocError>
    requires stmts { ascending statement_cmp stmts.now ≡ true }
    requires states { AreStates states.now }
    requires tuples { AreTuplesInOrder tuples.now }
    ensures { IfOk result
        (λ rows. rows ≡ flat_map (rows_from (key_lengths rels.now) stmts.now states.now tuples.now)
        states.now) }
{
    let mut rows = List::new(alloc);
    for (at, path) in states.iter().enumerate() {
        push_rows(
            alloc,
            &mut rows,
            rels,
            stmts,
            states,
            tuples,
            at as u32,
            path.as_slice(),
        )?;
    }
    Ok(rows)
}

/// Adds the rows of the world of the state at a place.
fn push_rows(
    alloc: Global,
    rows: &mut List<CanonRow>,
    rels: &[RelDef],
    stmts: &[Stmt],
    states: &[Path],
    tuples: &[Tuple],
    world: u32,
    path: &[u32],
) -> Result<(), AllocError>
    requires stmts { ascending statement_cmp stmts.now ≡ true }
    requires states { AreStates states.now }
    requires tuples { AreTuplesInOrder tuples.now }
    requires place { world ≡ place_in path_cmp states.now path.now }
    ensures { OnOk result
        (rows.new ≡ rows.old ++ rows_from (key_lengths rels.now)
        stmts.now states.now tuples.now path.now) }
{
    let found = world_among(alloc, rels, stmts, path)?;
    for held in found.held.as_slice() {
        let tuple = place_in(tuples, &held.tuple) as u32;
        rows.push(CanonRow {
            world,
            tuple,
            sign: held.sign,
            explicit: held.explicit,
        })?;
    }
    Ok(())
}
