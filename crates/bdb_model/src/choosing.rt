// Choosing a tuple from each of some pools.
ghost use Rattle.std.specs.Prelude.{◌≡◌, ◌<◌, ◌+◌, ◌^◌, length, OnOk};
ghost use Rattle.bdb_model.specs.Choosing.{chosen_rows};
ghost use Rattle.bdb_queries.specs.Collected.{with_rows};

use crate::allowed::may_all_hold_with;
use bdb_base::{Cond, List, Tuple};
use bdb_queries::{Found, with_chosen};
use std::alloc::{AllocError, Global};

/// What is done once a tuple is chosen from each pool.
pub trait Stage {
    ghost use Rattle.std.specs.Prelude.{◌≡◌, List, Option, OnOk};
    ghost use Rattle.bdb_base.specs.declared.kinds.Value.{Value};
    ghost use Rattle.bdb_base.specs.declared.tuple.Tuple.{Tuple};
    ghost use Rattle.bdb_queries.specs.Collected.{with_rows};

    ghost rows: { Self → List (Option Tuple) → List (List Value) };

    /// Takes the rows that come of what is chosen.
    fn add_rows(
        &self,
        alloc: Global,
        slots: &[Option<Tuple>],
        found: &mut Found,
    ) -> Result<(), AllocError>
        ensures { OnOk result (found.new ≡ with_rows found.old (rows self.now slots.now)) };
}

#[tactic(auto, using(bdb_queries::proofs::CollectedLemmas::with_rows_append, bdb_queries::proofs::CollectedLemmas::with_rows_full))]
/// Chooses a tuple from each pool, one place after the other, and takes the rows that come of it. It tries no choice
/// with which a comparison is known to fail, and stops where there are too many rows.
pub fn choose<S: Stage>(
    alloc: Global,
    stage: &S,
    conds: &[Cond],
    at: usize,
    pools: &[Option<List<Tuple>>],
    slots: &[Option<Tuple>],
    found: &mut Found,
) -> Result<(), AllocError>
    requires { at + length pools.now < 2 ^ 64 }
    ensures { OnOk result
        (found.new ≡ with_rows found.old
        (chosen_rows conds.now (S.rows stage.now) at pools.now slots.now)) }
{
    if !found.has_room() {
        return Ok(());
    }
    match pools {
        [] => {
            stage.add_rows(alloc, slots, found)?;
            Ok(())
        }
        [None, rest @ ..] => {
            choose(alloc, stage, conds, at + 1, rest, slots, found)?;
            Ok(())
        }
        [Some(pool), rest @ ..] => {
            for tuple in pool.as_slice() {
                if !may_all_hold_with(slots, at, tuple, conds) {
                    continue;
                }
                let next = with_chosen(alloc, slots, at, tuple)?;
                choose(alloc, stage, conds, at + 1, rest, next.as_slice(), found)?;
            }
            Ok(())
        }
    }
}
