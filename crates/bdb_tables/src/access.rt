// Reads and writes of typed tables.
ghost use Rattle.std.specs.Prelude.{◌≡◌, ◌↔◌, true, [], ◌∷◌, ◌++◌, IfOk, OnOk, is_some};
ghost use Rattle.std.specs.Ordering.{is_le, is_lt};
ghost use Rattle.std.specs.FinMap as map;
ghost use Rattle.bdb_base.specs.Causes.{RoseBy};
ghost use Rattle.bdb_keep.specs.Calls.{IsRead, IsWrite};
ghost use Rattle.bdb_key.specs.Reading.{Reads};
ghost use Rattle.bdb_tables.specs.Codec.{HasAt, HasFirst, HasLeast, HasRow, IsKeyOf, IsRowOf, TableFits, place};
ghost use Rattle.bdb_tables.specs.Grammar.{InGrammar};
ghost use Rattle.bdb_tables.specs.InUse.{tuple_codec};

use crate::room::Room;
use crate::tab::{Tab, TabError};
use crate::world_tabs::TupleTab;
use bdb_base::Tuple;
use bdb_keep::{KeepError, Keeper};
use bdb_key::{KeyError, RowError};
use std::alloc::{AllocError, Global};

/// Most keys and rows have at most as many bytes.
pub const USUAL_LENGTH: usize = 64;

/// The row at a key. None exactly where there is no such row. One read.
pub fn get<T: Tab, K: Keeper>(
    alloc: Global,
    keeper: &mut K,
    key: &T::Key,
) -> Result<Option<T::Row>, TabError>
    requires grammar { TableFits T.codec (K.seen keeper.old).kept }
    requires key { T.codec.MayBeKey key.now }
    ensures found { IfOk result (HasAt T.codec (K.seen keeper.old).kept key.now) }
    ensures key_fits { OnOk result (T.codec.IsKey key.now) }
    ensures reads { OnOk result (RoseBy 1 (K.seen keeper.old).reads (K.seen keeper.new).reads) }
    ensures read { IsRead (K.seen keeper.old) (K.seen keeper.new) result TabError.Fault }
{
    let mut room = Room::new(alloc);
    match get_in::<T, K>(alloc, keeper, key, &mut room) {
        Ok(row) => Ok(row),
        Err(error) => Err(error),
    }
}

/// The same with room for bytes, which many calls may use.
pub fn get_in<T: Tab, K: Keeper>(
    alloc: Global,
    keeper: &mut K,
    key: &T::Key,
    room: &mut Room,
) -> Result<Option<T::Row>, TabError>
    requires grammar { TableFits T.codec (K.seen keeper.old).kept }
    requires key { T.codec.MayBeKey key.now }
    ensures found { IfOk result (HasAt T.codec (K.seen keeper.old).kept key.now) }
    ensures key_fits { OnOk result (T.codec.IsKey key.now) }
    ensures reads { OnOk result (RoseBy 1 (K.seen keeper.old).reads (K.seen keeper.new).reads) }
    ensures read { IsRead (K.seen keeper.old) (K.seen keeper.new) result TabError.Fault }
{
    if fill_key::<T>(key, &mut room.key).is_err() {
        keeper.undo();
        return Err(TabError::Memory);
    }
    match keeper.get(T::NUMBER, &room.key, &mut room.row) {
        Ok(true) => {}
        Ok(false) => return Ok(None),
        Err(error) => return Err(table_error(error)),
    }
    match row_from::<T>(alloc, &room.row) {
        Ok(row) => Ok(Some(row)),
        Err(_) => {
            keeper.undo();
            Err(TabError::Memory)
        }
    }
}

/// The tuple of a number that has one. One read.
pub fn read_tuple<K: Keeper>(alloc: Global, keeper: &mut K, tid: u32) -> Result<Tuple, TabError>
    requires grammar { InGrammar (K.seen keeper.old).kept }
    requires there { is_some (map.get (K.seen keeper.old).kept (place tuple_codec tid)) ≡ true }
    ensures tuple { IfOk result (λ tuple. HasRow tuple_codec (K.seen keeper.old).kept tid tuple) }
    ensures reads { OnOk result (RoseBy 1 (K.seen keeper.old).reads (K.seen keeper.new).reads) }
    ensures read { IsRead (K.seen keeper.old) (K.seen keeper.new) result TabError.Fault }
{
    match get::<TupleTab, K>(alloc, keeper, &tid) {
        Ok(Some(tuple)) => Ok(tuple),
        Ok(None) => unreachable!(),
        Err(error) => Err(error),
    }
}

/// The first row whose key isn't below `low`. None exactly where there is none. One read.
pub fn next<T: Tab, K: Keeper>(
    alloc: Global,
    keeper: &mut K,
    low: &T::Key,
) -> Result<Option<(T::Key, T::Row)>, TabError>
    requires grammar { TableFits T.codec (K.seen keeper.old).kept }
    requires low { T.codec.MayBeKey low.now }
    ensures found { IfOk result
        (HasFirst T.codec (K.seen keeper.old).kept (λ key. is_le (T.codec.key_cmp low.now key))) }
    ensures reads { OnOk result (RoseBy 1 (K.seen keeper.old).reads (K.seen keeper.new).reads) }
    ensures read { IsRead (K.seen keeper.old) (K.seen keeper.new) result TabError.Fault }
{
    let mut room = Room::new(alloc);
    match next_in::<T, K>(alloc, keeper, low, &mut room) {
        Ok(entry) => Ok(entry),
        Err(error) => Err(error),
    }
}

/// The same with room for bytes, which many calls may use.
pub fn next_in<T: Tab, K: Keeper>(
    alloc: Global,
    keeper: &mut K,
    low: &T::Key,
    room: &mut Room,
) -> Result<Option<(T::Key, T::Row)>, TabError>
    requires grammar { TableFits T.codec (K.seen keeper.old).kept }
    requires low { T.codec.MayBeKey low.now }
    ensures found { IfOk result
        (HasFirst T.codec (K.seen keeper.old).kept (λ key. is_le (T.codec.key_cmp low.now key))) }
    ensures reads { OnOk result (RoseBy 1 (K.seen keeper.old).reads (K.seen keeper.new).reads) }
    ensures read { IsRead (K.seen keeper.old) (K.seen keeper.new) result TabError.Fault }
{
    if fill_key::<T>(low, &mut room.low).is_err() {
        keeper.undo();
        return Err(TabError::Memory);
    }
    let Room { key, row, low, .. } = room;
    match first_from::<T, K>(alloc, keeper, low, key, row) {
        Ok(entry) => Ok(entry),
        Err(error) => Err(error),
    }
}

/// The first row whose key is above `key`. None exactly where there is none. One read.
pub fn after<T: Tab, K: Keeper>(
    alloc: Global,
    keeper: &mut K,
    key: &T::Key,
) -> Result<Option<(T::Key, T::Row)>, TabError>
    requires grammar { TableFits T.codec (K.seen keeper.old).kept }
    requires key { T.codec.MayBeKey key.now }
    ensures found { IfOk result
        (HasFirst T.codec (K.seen keeper.old).kept (λ q. is_lt (T.codec.key_cmp key.now q))) }
    ensures reads { OnOk result (RoseBy 1 (K.seen keeper.old).reads (K.seen keeper.new).reads) }
    ensures read { IsRead (K.seen keeper.old) (K.seen keeper.new) result TabError.Fault }
{
    let mut bytes = Vec::new(alloc);
    if behind::<T>(key, &mut bytes).is_err() {
        keeper.undo();
        return Err(TabError::Memory);
    }
    let mut key = Vec::new(alloc);
    let mut row = Vec::new(alloc);
    first_from::<T, K>(alloc, keeper, &bytes, &mut key, &mut row)
}

/// Puts a row at a key, in place of the row that stood there. One write.
pub fn put<T: Tab, K: Keeper>(
    alloc: Global,
    keeper: &mut K,
    key: &T::Key,
    row: &T::Row,
) -> Result<(), TabError>
    requires running { (K.seen keeper.old).running ≡ true }
    requires key { T.codec.MayBeKey key.now }
    requires row { T.codec.MayBeRow row.now }
    ensures kept { OnOk result ((K.seen keeper.new).kept ≡ map.insert (K.seen keeper.old).kept
        (place T.codec key.now) (T.codec.row_bytes row.now)) }
    ensures key_fits { OnOk result (T.codec.IsKey key.now) }
    ensures row_fits { OnOk result (T.codec.IsRow row.now) }
    ensures grammar { OnOk result (InGrammar (K.seen keeper.old).kept
        → InGrammar (K.seen keeper.new).kept) }
    ensures writes { OnOk result (RoseBy 1 (K.seen keeper.old).writes (K.seen keeper.new).writes) }
    ensures write { IsWrite (K.seen keeper.old) (K.seen keeper.new) result TabError.Fault }
{
    let mut room = Room::new(alloc);
    match put_in::<T, K>(keeper, key, row, &mut room) {
        Ok(()) => Ok(()),
        Err(error) => Err(error),
    }
}

/// The same with room for bytes, which many calls may use.
pub fn put_in<T: Tab, K: Keeper>(
    keeper: &mut K,
    key: &T::Key,
    row: &T::Row,
    room: &mut Room,
) -> Result<(), TabError>
    requires running { (K.seen keeper.old).running ≡ true }
    requires key { T.codec.MayBeKey key.now }
    requires row { T.codec.MayBeRow row.now }
    ensures kept { OnOk result ((K.seen keeper.new).kept ≡ map.insert (K.seen keeper.old).kept
        (place T.codec key.now) (T.codec.row_bytes row.now)) }
    ensures key_fits { OnOk result (T.codec.IsKey key.now) }
    ensures row_fits { OnOk result (T.codec.IsRow row.now) }
    ensures grammar { OnOk result (InGrammar (K.seen keeper.old).kept
        → InGrammar (K.seen keeper.new).kept) }
    ensures writes { OnOk result (RoseBy 1 (K.seen keeper.old).writes (K.seen keeper.new).writes) }
    ensures write { IsWrite (K.seen keeper.old) (K.seen keeper.new) result TabError.Fault }
{
    if fill_key::<T>(key, &mut room.key).is_err() || fill_row::<T>(row, &mut room.row).is_err() {
        keeper.undo();
        return Err(TabError::Memory);
    }
    match keeper.put(T::NUMBER, &room.key, &room.row) {
        Ok(()) => Ok(()),
        Err(error) => Err(table_error(error)),
    }
}

/// Takes the row at a key away. False exactly where there was no such row. One write.
pub fn drop_row<T: Tab, K: Keeper>(
    alloc: Global,
    keeper: &mut K,
    key: &T::Key,
) -> Result<bool, TabError>
    requires running { (K.seen keeper.old).running ≡ true }
    requires key { T.codec.MayBeKey key.now }
    ensures found { IfOk result
        (λ found. found ≡ is_some (map.get (K.seen keeper.old).kept (place T.codec key.now))) }
    ensures kept { OnOk result ((K.seen keeper.new).kept ≡ map.remove (K.seen keeper.old).kept
        (place T.codec key.now)) }
    ensures key_fits { OnOk result (T.codec.IsKey key.now) }
    ensures grammar { OnOk result (InGrammar (K.seen keeper.old).kept
        → InGrammar (K.seen keeper.new).kept) }
    ensures writes { OnOk result (RoseBy 1 (K.seen keeper.old).writes (K.seen keeper.new).writes) }
    ensures write { IsWrite (K.seen keeper.old) (K.seen keeper.new) result TabError.Fault }
{
    let mut room = Room::new(alloc);
    match drop_in::<T, K>(keeper, key, &mut room) {
        Ok(found) => Ok(found),
        Err(error) => Err(error),
    }
}

/// The same with room for bytes, which many calls may use.
pub fn drop_in<T: Tab, K: Keeper>(
    keeper: &mut K,
    key: &T::Key,
    room: &mut Room,
) -> Result<bool, TabError>
    requires running { (K.seen keeper.old).running ≡ true }
    requires key { T.codec.MayBeKey key.now }
    ensures found { IfOk result
        (λ found. found ≡ is_some (map.get (K.seen keeper.old).kept (place T.codec key.now))) }
    ensures kept { OnOk result ((K.seen keeper.new).kept ≡ map.remove (K.seen keeper.old).kept
        (place T.codec key.now)) }
    ensures key_fits { OnOk result (T.codec.IsKey key.now) }
    ensures grammar { OnOk result (InGrammar (K.seen keeper.old).kept
        → InGrammar (K.seen keeper.new).kept) }
    ensures writes { OnOk result (RoseBy 1 (K.seen keeper.old).writes (K.seen keeper.new).writes) }
    ensures write { IsWrite (K.seen keeper.old) (K.seen keeper.new) result TabError.Fault }
{
    if fill_key::<T>(key, &mut room.key).is_err() {
        keeper.undo();
        return Err(TabError::Memory);
    }
    match keeper.remove(T::NUMBER, &room.key) {
        Ok(found) => Ok(found),
        Err(error) => Err(table_error(error)),
    }
}

// The first row whose key isn't below these bytes. `key` and `row` are room for bytes.
fn first_from<T: Tab, K: Keeper>(
    alloc: Global,
    keeper: &mut K,
    low: &[u8],
    key: &mut Vec<u8>,
    row: &mut Vec<u8>,
) -> Result<Option<(T::Key, T::Row)>, TabError>
    requires grammar { TableFits T.codec (K.seen keeper.old).kept }
    ensures found { IfOk result (HasLeast T.codec (K.seen keeper.old).kept low.now) }
    ensures reads { OnOk result (RoseBy 1 (K.seen keeper.old).reads (K.seen keeper.new).reads) }
    ensures read { IsRead (K.seen keeper.old) (K.seen keeper.new) result TabError.Fault }
{
    match keeper.next(T::NUMBER, low, key, row) {
        Ok(true) => {}
        Ok(false) => return Ok(None),
        Err(error) => return Err(table_error(error)),
    }
    match entry_from::<T>(alloc, key, row) {
        Ok(entry) => Ok(Some(entry)),
        Err(_) => {
            keeper.undo();
            Err(TabError::Memory)
        }
    }
}

// The bytes that come right behind those of a key.
fn behind<T: Tab>(key: &T::Key, out: &mut Vec<u8>) -> Result<(), AllocError>
    requires { T.codec.MayBeKey key.now }
    ensures ok { OnOk result
        (out.new.items ≡ out.old.items ++ T.codec.key_bytes key.now ++ 0 ∷ []) }
    ensures fits { OnOk result (T.codec.IsKey key.now) }
{
    spell_key::<T>(key, out)?;
    out.push(0)?;
    Ok(())
}

// Appends the bytes of a key, with room made once.
pub fn spell_key<T: Tab>(key: &T::Key, out: &mut Vec<u8>) -> Result<(), AllocError>
    requires { T.codec.MayBeKey key.now }
    ensures ok { OnOk result (out.new.items ≡ out.old.items ++ T.codec.key_bytes key.now) }
    ensures fits { OnOk result (T.codec.IsKey key.now) }
{
    out.reserve(USUAL_LENGTH)?;
    T::key_bytes(key, out)?;
    Ok(())
}

// Appends the bytes of a row, with room made once.
pub fn spell_row<T: Tab>(row: &T::Row, out: &mut Vec<u8>) -> Result<(), AllocError>
    requires { T.codec.MayBeRow row.now }
    ensures ok { OnOk result (out.new.items ≡ out.old.items ++ T.codec.row_bytes row.now) }
    ensures fits { OnOk result (T.codec.IsRow row.now) }
{
    out.reserve(USUAL_LENGTH)?;
    T::row_bytes(row, out)?;
    Ok(())
}

// Makes room hold the bytes of a key.
pub fn fill_key<T: Tab>(key: &T::Key, room: &mut Vec<u8>) -> Result<(), AllocError>
    requires { T.codec.MayBeKey key.now }
    ensures ok { OnOk result (room.new.items ≡ T.codec.key_bytes key.now) }
    ensures fits { OnOk result (T.codec.IsKey key.now) }
{
    room.clear();
    spell_key::<T>(key, room)?;
    Ok(())
}

// Makes room hold the bytes of a row.
fn fill_row<T: Tab>(row: &T::Row, room: &mut Vec<u8>) -> Result<(), AllocError>
    requires { T.codec.MayBeRow row.now }
    ensures ok { OnOk result (room.new.items ≡ T.codec.row_bytes row.now) }
    ensures fits { OnOk result (T.codec.IsRow row.now) }
{
    room.clear();
    spell_row::<T>(row, room)?;
    Ok(())
}

// The key and the row of a table's bytes.
pub fn entry_from<T: Tab>(
    alloc: Global,
    key: &[u8],
    row: &[u8],
) -> Result<(T::Key, T::Row), AllocError>
    requires key { IsKeyOf T.codec key.now }
    requires row { IsRowOf T.codec row.now }
    ensures key { IfOk result (λ e. Reads T.codec.IsKey T.codec.key_bytes key.now e.0) }
    ensures row { IfOk result (λ e. Reads T.codec.IsRow T.codec.row_bytes row.now e.1) }
{
    let key = key_from::<T>(alloc, key)?;
    let row = row_from::<T>(alloc, row)?;
    Ok((key, row))
}

// The key of a table's bytes.
fn key_from<T: Tab>(alloc: Global, bytes: &[u8]) -> Result<T::Key, AllocError>
    requires { IsKeyOf T.codec bytes.now }
    ensures { IfOk result (Reads T.codec.IsKey T.codec.key_bytes bytes.now) }
{
    match T::key_back(alloc, bytes) {
        Ok(key) => Ok(key),
        Err(KeyError::Memory) => Err(AllocError),
        Err(KeyError::NotAKey) => unreachable!(),
    }
}

// The row of a table's bytes.
fn row_from<T: Tab>(alloc: Global, bytes: &[u8]) -> Result<T::Row, AllocError>
    requires { IsRowOf T.codec bytes.now }
    ensures { IfOk result (Reads T.codec.IsRow T.codec.row_bytes bytes.now) }
{
    match T::row_back(alloc, bytes) {
        Ok(row) => Ok(row),
        Err(RowError::Memory) => Err(AllocError),
        Err(RowError::NotARow) => unreachable!(),
    }
}

/// A keeper's error as a table's.
pub fn table_error(error: KeepError) -> TabError
    ensures { (result ≡ TabError.Fault) ↔ (error ≡ KeepError.Fault) }
{
    match error {
        KeepError::Fault => TabError::Fault,
        KeepError::Memory => TabError::Memory,
    }
}
