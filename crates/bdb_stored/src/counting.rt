// The sizes of a stored base.
ghost use Rattle.std.specs.Prelude.{◌≡◌, ◌≤◌, ◌<◌, ◌+◌, ◌-◌, ◌*◌, ◌^◌, length, IfOk};
ghost use Rattle.bdb_keep.specs.Calls.{IsRead};
ghost use Rattle.bdb_tables.specs.Grammar.{InGrammar};
ghost use Rattle.bdb_tables.specs.Reading.{OnlyReads};
ghost use Rattle.bdb_val.specs.Reads.{HaveTuples};
ghost use Rattle.bdb_stored.specs.Counting.{CountsRows, TellsCounts, explicit_rows};
ghost use Rattle.bdb_catalog.specs.Bases.{StoresSome};

use bdb_base::Held;
use bdb_canon::Counts;
use bdb_keep::Keeper;
use bdb_tables::{DepthTab, TabError, TupleTab, rows_under};
use bdb_val::world_at;
use std::alloc::Global;

/// How large the stored base is: its worlds, different tuples and statements, and the rows of its worlds. The rows are read
/// world by world, two reads for each at most.
pub fn counts_of<K: Keeper>(alloc: Global, keeper: &mut K) -> Result<Counts, TabError>
    requires base { StoresSome (K.seen keeper.old).kept }
    ensures counts { IfOk result (TellsCounts (K.seen keeper.old).kept) }
    ensures reads { IfOk result
        (λ counts. (K.seen keeper.new).reads
        ≤ (K.seen keeper.old).reads + (2 * counts.worlds + counts.tuples + 2 * counts.rows + 2)) }
    ensures read { IsRead (K.seen keeper.old) (K.seen keeper.new) result TabError.Fault }
{
    let worlds = match rows_under::<DepthTab, K>(alloc, keeper, &[]) {
        Ok(worlds) => worlds,
        Err(error) => return Err(error),
    };
    let tuples = match rows_under::<TupleTab, K>(alloc, keeper, &[]) {
        Ok(tuples) => tuples,
        Err(error) => return Err(error),
    };
    match count_rows(alloc, keeper, &worlds) {
        Ok((stmts, rows)) => Ok(Counts {
            worlds: worlds.len() as u32,
            tuples: tuples.len() as u32,
            stmts: stmts as u32,
            rows: rows as u32,
        }),
        Err(error) => Err(error),
    }
}

// How many explicit rows these worlds have together, and how many rows.
fn count_rows<K: Keeper>(
    alloc: Global,
    keeper: &mut K,
    worlds: &[(u32, u32)],
) -> Result<(usize, usize), TabError>
    requires grammar { InGrammar (K.seen keeper.old).kept }
    requires tuples { HaveTuples (K.seen keeper.old).kept }
    ensures counts { IfOk result
        (λ counts. CountsRows (K.seen keeper.old).kept worlds.now counts.0 counts.1) }
    ensures reads { IfOk result (λ counts. counts.1 < 2 ^ 64 - 1 → (K.seen keeper.new).reads
        ≤ (K.seen keeper.old).reads + (length worlds.now + 2 * counts.1)) }
    ensures reading { OnlyReads (K.seen keeper.old) (K.seen keeper.new) result TabError.Fault }
{
    let mut stmts: usize = 0;
    let mut rows: usize = 0;
    for world in worlds {
        match world_at(alloc, keeper, world.0) {
            Ok(found) => {
                let held = found.held.as_slice();
                stmts = stmts.saturating_add(count_explicit(held));
                rows = rows.saturating_add(held.len());
            }
            Err(error) => return Err(error),
        }
    }
    Ok((stmts, rows))
}

// How many rows are explicit.
fn count_explicit(held: &[Held]) -> usize
    ensures { result ≡ explicit_rows held.now }
{
    held.iter().filter(|row| row.explicit).count()
}
