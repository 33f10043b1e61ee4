// Reading whole tables of any bytes.
ghost use Rattle.std.specs.Prelude.{[], true, IfOk, MatchOption};
ghost use Rattle.std.specs.Bool.{MatchBool};
ghost use Rattle.bdb_keep.specs.Calls.{IsRead};
ghost use Rattle.bdb_tables.specs.Codec.{TableFits};
ghost use Rattle.bdb_tables.specs.Raw.{IsForeignFrom};
ghost use Rattle.bdb_tables.specs.Spans.{AreUnder, HasNextUnder};
ghost use Rattle.bdb_entries.specs.Reading.{Misfits};

use bdb_keep::Keeper;
use bdb_tables::{RawError, Room, Tab, TabError, read_raw_in};
use std::alloc::Global;

/// All rows of a table, in the order of their keys. None exactly where a key or a row is none of the table. One read more
/// than there are rows.
pub fn raw_rows<T: Tab, K: Keeper>(
    alloc: Global,
    keeper: &mut K,
) -> Result<Option<Vec<(T::Key, T::Row)>>, TabError>
    ensures rows { IfOk result (λ r. MatchOption r (Misfits T.codec (K.seen keeper.old).kept)
        (λ rows. AreUnder T.codec (K.seen keeper.old).kept [] rows.items)) }
    ensures read { IsRead (K.seen keeper.old) (K.seen keeper.new) result TabError.Fault }
{
    let mut rows = Vec::new(alloc);
    let mut low = Vec::new(alloc);
    let mut room = Room::new(alloc);
    for _ in 0..u64::MAX {
        match next_raw::<T, K>(alloc, keeper, &mut low, &mut room) {
            Ok(Some(Some(entry))) => {
                if rows.push(entry).is_err() {
                    keeper.undo();
                    return Err(TabError::Memory);
                }
            }
            Ok(Some(None)) => return Ok(Some(rows)),
            Ok(None) => return Ok(None),
            Err(error) => return Err(error),
        }
    }
    keeper.undo();
    Err(TabError::Memory)
}

/// Whether each key and each row of a table is one of the table. One read more than there are rows, of which none is kept.
pub fn fits<T: Tab, K: Keeper>(alloc: Global, keeper: &mut K) -> Result<bool, TabError>
    ensures fits { IfOk result (λ fits. MatchBool fits (TableFits T.codec (K.seen keeper.old).kept)
        (Misfits T.codec (K.seen keeper.old).kept)) }
    ensures read { IsRead (K.seen keeper.old) (K.seen keeper.new) result TabError.Fault }
{
    let mut low = Vec::new(alloc);
    let mut room = Room::new(alloc);
    for _ in 0..u64::MAX {
        match next_raw::<T, K>(alloc, keeper, &mut low, &mut room) {
            Ok(Some(Some(_))) => {}
            Ok(Some(None)) => return Ok(true),
            Ok(None) => return Ok(false),
            Err(error) => return Err(error),
        }
    }
    keeper.undo();
    Err(TabError::Memory)
}

/// The first row from `low` on, if there is one. None exactly where its key or the row is none of the table.
pub fn next_raw<T: Tab, K: Keeper>(
    alloc: Global,
    keeper: &mut K,
    low: &mut Vec<u8>,
    room: &mut Room,
) -> Result<Option<Option<(T::Key, T::Row)>>, TabError>
    ensures found { IfOk result
        (λ r. MatchOption r (IsForeignFrom T.codec (K.seen keeper.old).kept low.old.items)
        (HasNextUnder T.codec (K.seen keeper.old).kept [] low.old.items low.new.items)) }
    ensures read { IsRead (K.seen keeper.old) (K.seen keeper.new) result TabError.Fault }
{
    match read_raw_in::<T, K>(alloc, keeper, low, room) {
        Ok(found) => Ok(Some(found)),
        Err(RawError::NotARow) => Ok(None),
        Err(RawError::Fault) => Err(TabError::Fault),
        Err(RawError::Memory) => Err(TabError::Memory),
    }
}
