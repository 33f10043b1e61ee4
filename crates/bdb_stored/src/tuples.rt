// The tuples of the statements of a stored base.
ghost use Rattle.std.specs.Prelude.{◌≡◌, ℕ, IfOk, ◌≤◌, ◌+◌, length, map};
ghost use Rattle.bdb_base.specs.Order.{tuple_cmp};
ghost use Rattle.bdb_base.specs.SortedSet.{sorted_set};
ghost use Rattle.bdb_base.specs.WorldRows.{tuples_of};
ghost use Rattle.bdb_base.specs.declared.tuple.Tuple.{Tuple};
ghost use Rattle.bdb_keep.specs.Calls.{IsRead};
ghost use Rattle.bdb_catalog.specs.Bases.{StoresSome};
ghost use Rattle.bdb_catalog.specs.Opening.{IsPartOf};

use bdb_base::{List, Tuple, put_copy};
use bdb_keep::Keeper;
use bdb_tables::{TabError, TupleTab, rows_under};
use std::alloc::{AllocError, Global};

/// The tuples of the statements, in order. One read for each tuple, and one more.
pub fn tuples_in_order<K: Keeper>(alloc: Global, keeper: &mut K) -> Result<List<Tuple>, TabError>
    requires base { StoresSome (K.seen keeper.old).kept }
    ensures tuples { IfOk result (IsPartOf (λ b. tuples_of b.stmts) (K.seen keeper.old).kept) }
    ensures reads { IfOk result
        (λ tuples. (K.seen keeper.new).reads ≤ (K.seen keeper.old).reads + (length tuples + 1)) }
    ensures read { IsRead (K.seen keeper.old) (K.seen keeper.new) result TabError.Fault }
{
    let rows = match rows_under::<TupleTab, K>(alloc, keeper, &[]) {
        Ok(rows) => rows,
        Err(error) => return Err(error),
    };
    match set_of(alloc, &rows) {
        Ok(tuples) => Ok(tuples),
        Err(_) => {
            keeper.undo();
            Err(TabError::Memory)
        }
    }
}

// The set of the tuples of rows.
fn set_of(alloc: Global, rows: &[(u32, Tuple)]) -> Result<List<Tuple>, AllocError>
    ensures { IfOk result
        (λ tuples. tuples ≡ sorted_set tuple_cmp (map (λ (e : ℕ × Tuple). e.1) rows.now)) }
{
    let mut tuples = List::new(alloc);
    for row in rows {
        put_copy(alloc, &mut tuples, &row.1)?;
    }
    Ok(tuples)
}
