// Reading the rows of tables of any bytes.
ghost use Rattle.std.specs.Prelude.{◌≡◌, [], true, false, is_some, IfOk, OnOk};
ghost use Rattle.std.specs.Result.{IsErrOf};
ghost use Rattle.bdb_base.specs.Causes.{RoseBy};
ghost use Rattle.bdb_key.specs.Reading.{Reads};
ghost use Rattle.bdb_tables.specs.Codec.{IsEntryOf};
ghost use Rattle.bdb_tables.specs.Raw.{IsForeignFrom, IsRawRead, stops};
ghost use Rattle.bdb_tables.specs.Spans.{HasNextUnder};

use crate::room::Room;
use crate::tab::Tab;
use bdb_keep::{KeepError, Keeper};
use bdb_key::{KeyError, RowError};
use std::alloc::Global;
use std::mem;
use thiserror::Error;

/// Why a row of a table of any bytes was not read. After `NotARow` the keeper is as it was; after the others no transaction
/// runs, and the rows are those last committed.
#[derive(Clone, Copy, Debug, PartialEq, Eq, Drop, Error)]
pub enum RawError {
    /// The key or the row is none of the table.
    #[error("the bytes are no row of the table")]
    NotARow,
    /// The store failed. The keeper's count of faults rose.
    #[error("the store failed")]
    Fault,
    /// There is no memory.
    #[error("out of memory")]
    Memory,
}

/// The first row of a table whose key isn't below the bytes `low`, over any bytes. None exactly where there is none, and
/// `NotARow` exactly where its key or its row is none of the table. Where there is one, `low` becomes what lies right
/// behind its key. One read.
pub fn read_raw<T: Tab, K: Keeper>(
    alloc: Global,
    keeper: &mut K,
    low: &mut Vec<u8>,
) -> Result<Option<(T::Key, T::Row)>, RawError>
    ensures found { IfOk result
        (HasNextUnder T.codec (K.seen keeper.old).kept [] low.old.items low.new.items) }
    ensures stays { IfOk result (λ found. is_some found ≡ false → low.new.items ≡ low.old.items) }
    ensures foreign { IsErrOf result RawError.NotARow
        → IsForeignFrom T.codec (K.seen keeper.old).kept low.old.items }
    ensures reads { OnOk result (RoseBy 1 (K.seen keeper.old).reads (K.seen keeper.new).reads) }
    ensures read { IsRawRead (K.seen keeper.old) (K.seen keeper.new) result }
{
    let mut room = Room::new(alloc);
    match read_raw_in::<T, K>(alloc, keeper, low, &mut room) {
        Ok(found) => Ok(found),
        Err(error) => Err(error),
    }
}

/// The same with room for bytes, which many calls may use.
pub fn read_raw_in<T: Tab, K: Keeper>(
    alloc: Global,
    keeper: &mut K,
    low: &mut Vec<u8>,
    room: &mut Room,
) -> Result<Option<(T::Key, T::Row)>, RawError>
    ensures found { IfOk result
        (HasNextUnder T.codec (K.seen keeper.old).kept [] low.old.items low.new.items) }
    ensures stays { IfOk result (λ found. is_some found ≡ false → low.new.items ≡ low.old.items) }
    ensures foreign { IsErrOf result RawError.NotARow
        → IsForeignFrom T.codec (K.seen keeper.old).kept low.old.items }
    ensures reads { OnOk result (RoseBy 1 (K.seen keeper.old).reads (K.seen keeper.new).reads) }
    ensures read { IsRawRead (K.seen keeper.old) (K.seen keeper.new) result }
{
    match keeper.next(T::NUMBER, low, &mut room.key, &mut room.row) {
        Ok(true) => {}
        Ok(false) => return Ok(None),
        Err(error) => return Err(raw_told(error)),
    }
    match raw_entry::<T>(alloc, &room.key, &room.row) {
        Ok(entry) => {
            if room.key.push(0).is_err() {
                keeper.undo();
                return Err(RawError::Memory);
            }
            mem::swap(low, &mut room.key);
            Ok(Some(entry))
        }
        Err(RowError::NotARow) => Err(RawError::NotARow),
        Err(RowError::Memory) => {
            keeper.undo();
            Err(RawError::Memory)
        }
    }
}

// The key and the row that bytes are. `NotARow` comes exactly where they are no key and row of the table.
fn raw_entry<T: Tab>(alloc: Global, key: &[u8], row: &[u8]) -> Result<(T::Key, T::Row), RowError>
    ensures key { IfOk result (λ e. Reads T.codec.IsKey T.codec.key_bytes key.now e.0) }
    ensures row { IfOk result (λ e. Reads T.codec.IsRow T.codec.row_bytes row.now e.1) }
    ensures foreign { IsErrOf result RowError.NotARow → IsEntryOf T.codec key.now row.now → ⊥ }
{
    let key = match T::key_back(alloc, key) {
        Ok(key) => key,
        Err(KeyError::NotAKey) => return Err(RowError::NotARow),
        Err(KeyError::Memory) => return Err(RowError::Memory),
    };
    match T::row_back(alloc, row) {
        Ok(row) => Ok((key, row)),
        Err(error) => Err(error),
    }
}

// A keeper's error as one of reading any bytes.
fn raw_told(error: KeepError) -> RawError
    ensures fault { result ≡ RawError.Fault → error ≡ KeepError.Fault }
    ensures stops { stops result ≡ true }
{
    match error {
        KeepError::Fault => RawError::Fault,
        KeepError::Memory => RawError::Memory,
    }
}
