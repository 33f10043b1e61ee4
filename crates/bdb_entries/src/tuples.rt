// The tuples of tables of any bytes.
ghost use Rattle.std.specs.Prelude.{◌≡◌, ◌++◌, IfOk, OnOk, MatchOption};
ghost use Rattle.std.specs.Bool.{MatchBool};
ghost use Rattle.std.specs.List.{AllByRecursion};
ghost use Rattle.bdb_keep.specs.Calls.{IsRead};
ghost use Rattle.bdb_tables.specs.Reading.{OnlyReads};
ghost use Rattle.bdb_entries.specs.Tuples.{AreTuples, HaveNoTuples, IsTurned, MayBeTurned};

use crate::reading::raw_rows;
use bdb_base::Tuple;
use bdb_keep::Keeper;
use bdb_tables::{Tab, TabError, TupleIx, TupleTab, table_error};
use std::alloc::{AllocError, Global};

/// The tuples by number. None exactly where the two tables of tuples do not tell of one another.
pub fn raw_tuples<K: Keeper>(
    alloc: Global,
    keeper: &mut K,
) -> Result<Option<Vec<(u32, Tuple)>>, TabError>
    ensures tuples { IfOk result (λ r. MatchOption r (HaveNoTuples (K.seen keeper.old).kept)
        (λ rows. AreTuples (K.seen keeper.old).kept rows.items)) }
    ensures reading { OnlyReads (K.seen keeper.old) (K.seen keeper.new) result TabError.Fault }
{
    let rows = match raw_rows::<TupleTab, K>(alloc, keeper) {
        Ok(Some(rows)) => rows,
        Ok(None) => return Ok(None),
        Err(error) => return Err(error),
    };
    let turned = match raw_rows::<TupleIx, K>(alloc, keeper) {
        Ok(Some(turned)) => turned,
        Ok(None) => return Ok(None),
        Err(error) => return Err(error),
    };
    match are_turned::<TupleIx, K>(alloc, keeper, &rows) {
        Ok(true) => {}
        Ok(false) => return Ok(None),
        Err(error) => return Err(error),
    }
    match are_turned::<TupleTab, K>(alloc, keeper, &turned) {
        Ok(true) => Ok(Some(rows)),
        Ok(false) => Ok(None),
        Err(error) => Err(error),
    }
}

// Whether rows, turned round, are all in a table. One read for each.
fn are_turned<T: Tab, K: Keeper>(
    alloc: Global,
    keeper: &mut K,
    rows: &[(T::Row, T::Key)],
) -> Result<bool, TabError>
    requires { AllByRecursion (MayBeTurned T.codec) rows.now }
    ensures turned { IfOk result
        (λ all. MatchBool all (AllByRecursion (IsTurned T.codec (K.seen keeper.old).kept) rows.now)
        (AllByRecursion (IsTurned T.codec (K.seen keeper.old).kept) rows.now → ⊥)) }
    ensures reading { OnlyReads (K.seen keeper.old) (K.seen keeper.new) result TabError.Fault }
{
    for row in rows {
        match is_turned::<T, K>(alloc, keeper, row) {
            Ok(true) => {}
            Ok(false) => return Ok(false),
            Err(error) => return Err(error),
        }
    }
    Ok(true)
}

// Whether a row, turned round, is in a table. One read.
fn is_turned<T: Tab, K: Keeper>(
    alloc: Global,
    keeper: &mut K,
    row: &(T::Row, T::Key),
) -> Result<bool, TabError>
    requires { MayBeTurned T.codec row.now }
    ensures turned { IfOk result
        (λ is. MatchBool is (IsTurned T.codec (K.seen keeper.old).kept row.now)
        (IsTurned T.codec (K.seen keeper.old).kept row.now → ⊥)) }
    ensures read { IsRead (K.seen keeper.old) (K.seen keeper.new) result TabError.Fault }
{
    let mut key = Vec::new(alloc);
    let mut content = Vec::new(alloc);
    let mut found = Vec::new(alloc);
    if spell_turned::<T>(row, &mut key, &mut content).is_err() {
        keeper.undo();
        return Err(TabError::Memory);
    }
    match keeper.get(T::NUMBER, &key, &mut found) {
        Ok(true) => Ok(are_same(&found, &content)),
        Ok(false) => Ok(false),
        Err(error) => Err(table_error(error)),
    }
}

// Appends the bytes of the key and of the row that a row is, turned round.
fn spell_turned<T: Tab>(
    row: &(T::Row, T::Key),
    key: &mut Vec<u8>,
    content: &mut Vec<u8>,
) -> Result<(), AllocError>
    requires { MayBeTurned T.codec row.now }
    ensures key { OnOk result (key.new.items ≡ key.old.items ++ T.codec.key_bytes row.now.1) }
    ensures content { OnOk result
        (content.new.items ≡ content.old.items ++ T.codec.row_bytes row.now.0) }
{
    T::key_bytes(&row.1, key)?;
    T::row_bytes(&row.0, content)?;
    Ok(())
}

/// Whether two lists of bytes are one.
pub fn are_same(a: &[u8], b: &[u8]) -> bool
    ensures { MatchBool result (a.now ≡ b.now) (a.now ≡ b.now → ⊥) }
{
    a == b
}
