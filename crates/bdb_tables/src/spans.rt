// Reading the rows whose keys begin with some bytes.
ghost use Rattle.std.specs.Prelude.{◌≡◌, ◌+◌, ◌≤◌, true, IfOk, OnOk, length};
ghost use Rattle.std.specs.Ordering.{is_le};
ghost use Rattle.bdb_base.specs.Causes.{Rises, RoseBy};
ghost use Rattle.bdb_keep.specs.Calls.{IsRead};
ghost use Rattle.bdb_keep.specs.Tables.{bytes_cmp};
ghost use Rattle.bdb_tables.specs.Codec.{TableFits};
ghost use Rattle.bdb_tables.specs.Spans.{AreEntriesOf, AreUnder, HasNextUnder, Spell};

use crate::access::{entry_from, table_error};
use crate::tab::{Tab, TabError};
use bdb_keep::{Keeper, Span};
use std::alloc::{AllocError, Global};
use std::mem;

/// The rows whose keys begin with these bytes, in order. One read more than there are rows.
pub fn rows_under<T: Tab, K: Keeper>(
    alloc: Global,
    keeper: &mut K,
    prefix: &[u8],
) -> Result<Vec<(T::Key, T::Row)>, TabError>
    requires grammar { TableFits T.codec (K.seen keeper.old).kept }
    ensures rows { IfOk result
        (λ rows. AreUnder T.codec (K.seen keeper.old).kept prefix.now rows.items) }
    ensures reads { IfOk result
        (λ rows. (K.seen keeper.new).reads ≤ (K.seen keeper.old).reads + (length rows.items + 1)) }
    ensures each_read { IfOk result (λ rows. Rises (length rows.items + 1) (K.seen keeper.old).reads
        (K.seen keeper.new).reads) }
    ensures read { IsRead (K.seen keeper.old) (K.seen keeper.new) result TabError.Fault }
{
    let mut span = Span::new(alloc);
    match keeper.under(T::NUMBER, prefix, &mut span) {
        Ok(()) => {}
        Err(error) => return Err(table_error(error)),
    }
    match entries_from::<T>(alloc, &span) {
        Ok(rows) => Ok(rows),
        Err(_) => {
            keeper.undo();
            Err(TabError::Memory)
        }
    }
}

// The keys and the rows of a table's bytes.
fn entries_from<T: Tab>(alloc: Global, span: &Span) -> Result<Vec<(T::Key, T::Row)>, AllocError>
    requires { AreEntriesOf T.codec span.now }
    ensures { IfOk result (λ rows. Spell T.codec span.now rows.items) }
{
    let mut rows = Vec::with_capacity(alloc, span.len())?;
    for index in 0..span.len() {
        let (key, row) = span.entry(index);
        let entry = entry_from::<T>(alloc, key, row)?;
        rows.push(entry)?;
    }
    Ok(rows)
}

/// The first row from `low` on whose key begins with these bytes. Where there is one, `low` becomes what lies right behind
/// its key. `key` and `row` are room for bytes. One read.
pub fn next_under<T: Tab, K: Keeper>(
    alloc: Global,
    keeper: &mut K,
    prefix: &[u8],
    low: &mut Vec<u8>,
    key: &mut Vec<u8>,
    row: &mut Vec<u8>,
) -> Result<Option<(T::Key, T::Row)>, TabError>
    requires grammar { TableFits T.codec (K.seen keeper.old).kept }
    requires from { is_le (bytes_cmp prefix.now low.old.items) ≡ true }
    ensures found { IfOk result
        (HasNextUnder T.codec (K.seen keeper.old).kept prefix.now low.old.items low.new.items) }
    ensures reads { OnOk result (RoseBy 1 (K.seen keeper.old).reads (K.seen keeper.new).reads) }
    ensures read { IsRead (K.seen keeper.old) (K.seen keeper.new) result TabError.Fault }
{
    match keeper.next(T::NUMBER, low, key, row) {
        Ok(true) => {}
        Ok(false) => return Ok(None),
        Err(error) => return Err(table_error(error)),
    }
    if !key.starts_with(prefix) {
        return Ok(None);
    }
    match entry_from::<T>(alloc, key, row) {
        Ok(entry) => {
            if key.push(0).is_err() {
                keeper.undo();
                return Err(TabError::Memory);
            }
            mem::swap(low, key);
            Ok(Some(entry))
        }
        Err(_) => {
            keeper.undo();
            Err(TabError::Memory)
        }
    }
}
