// The rows of table 11 by the numbers of their tuples: no value is decoded, and none is written anew.
ghost use Rattle.std.specs.Prelude.{◌≡◌, ◌+◌, ◌-◌, ◌≤◌, ◌++◌, ◌∷◌, true, IfOk, OnOk, length, drop};
ghost use Rattle.std.specs.List.{AllByRecursion};
ghost use Rattle.std.specs.Option.{option_map};
ghost use Rattle.bdb_base.specs.Causes.{Rises, RoseBy};
ghost use Rattle.bdb_keep.specs.Calls.{IsRead, IsWrite};
ghost use Rattle.bdb_keep.specs.Tables.{set_at};
ghost use Rattle.bdb_key.specs.Bytes.{num_bytes};
ghost use Rattle.bdb_key.specs.Grammar.{IsNum};
ghost use Rattle.bdb_key.specs.Reading.{Reads};
ghost use Rattle.bdb_key.specs.Rows.{IsAnyMark, mark_bytes};
ghost use Rattle.bdb_tables.specs.Codec.{HasAt, IsEntryOf, IsRowOf, TableFits};
ghost use Rattle.bdb_tables.specs.Grammar.{InGrammar};
ghost use Rattle.bdb_tables.specs.GroupMarks.{AreChanges, AreMarks, AreNumbered, HasMark, SpellNumbered, HaveMarks, IsGroup, AreNumberBytes, IsNumbered, marks_codec};
ghost use Rattle.bdb_tables.specs.InUse.{val_codec};
ghost use Rattle.bdb_tables.specs.Spans.{AreEntriesOf};
ghost use Rattle.bdb_tables.specs.Writes.{IsChange, with_change, with_changes};

use crate::access::{USUAL_LENGTH, table_error};
use crate::room::Room;
use crate::tab::TabError;
use bdb_base::Sign;
use bdb_keep::{Keeper, Span};
use bdb_key::{mark_of, only_num, put_num};
use std::alloc::{AllocError, Global};

/// The number of the table of worlds' rows.
pub const MARKS: u8 = 11;

/// The rows of worlds whose keys begin with these bytes, by the numbers of their tuples, in the order of the keys. One read more
/// than there are rows.
pub fn numbered_under<K: Keeper>(
    alloc: Global,
    keeper: &mut K,
    prefix: &[u8],
    room: &mut Room,
) -> Result<Vec<(u32, (Sign, bool))>, TabError>
    requires grammar { TableFits val_codec (K.seen keeper.old).kept }
    ensures rows { IfOk result
        (λ rows. AreNumbered (K.seen keeper.old).kept prefix.now rows.items) }
    ensures reads { IfOk result
        (λ rows. (K.seen keeper.new).reads ≤ (K.seen keeper.old).reads + (length rows.items + 1)) }
    ensures each_read { IfOk result (λ rows. Rises (length rows.items + 1) (K.seen keeper.old).reads
        (K.seen keeper.new).reads) }
    ensures read { IsRead (K.seen keeper.old) (K.seen keeper.new) result TabError.Fault }
{
    let mut rows = Vec::new(alloc);
    match read_numbered(keeper, prefix, &mut room.span, &mut rows) {
        Ok(()) => Ok(rows),
        Err(error) => Err(error),
    }
}

/// Makes `rows` the rows of the group whose keys begin with these bytes, by the numbers of their tuples, in order. One read more
/// than there are rows.
pub fn marks_under<K: Keeper>(
    keeper: &mut K,
    prefix: &[u8],
    room: &mut Room,
    rows: &mut Vec<(u32, (Sign, bool))>,
) -> Result<(), TabError>
    requires grammar { TableFits val_codec (K.seen keeper.old).kept }
    ensures rows { OnOk result (AreMarks (K.seen keeper.old).kept prefix.now rows.new.items) }
    ensures reads { OnOk result
        ((K.seen keeper.new).reads ≤ (K.seen keeper.old).reads + (length rows.new.items + 1)) }
    ensures each_read { OnOk result (Rises (length rows.new.items + 1) (K.seen keeper.old).reads
        (K.seen keeper.new).reads) }
    ensures read { IsRead (K.seen keeper.old) (K.seen keeper.new) result TabError.Fault }
{
    match read_numbered(keeper, prefix, &mut room.span, rows) {
        Ok(()) => Ok(()),
        Err(error) => Err(error),
    }
}

/// The row of a tuple's number in the group whose keys begin with these bytes. None exactly where there is no such row. One read.
pub fn mark_under<K: Keeper>(
    keeper: &mut K,
    prefix: &[u8],
    tid: u32,
    room: &mut Room,
) -> Result<Option<(Sign, bool)>, TabError>
    requires grammar { TableFits val_codec (K.seen keeper.old).kept }
    ensures found { IfOk result (HasMark (K.seen keeper.old).kept prefix.now tid) }
    ensures reads { OnOk result (RoseBy 1 (K.seen keeper.old).reads (K.seen keeper.new).reads) }
    ensures read { IsRead (K.seen keeper.old) (K.seen keeper.new) result TabError.Fault }
{
    match read_mark(keeper, prefix, tid, &mut room.key, &mut room.row) {
        Ok(mark) => Ok(mark),
        Err(error) => Err(error),
    }
}

/// Makes changes in the group whose keys begin with these bytes, one after the other: each puts a row at the number of a tuple, or
/// takes the row there away. One write each. Numbers come behind the bytes meanwhile; after an Ok they are the same again, and
/// after an error they may not be.
pub fn write_marks<K: Keeper>(
    keeper: &mut K,
    prefix: &mut Vec<u8>,
    changes: &[(u32, Option<(Sign, bool)>)],
) -> Result<(), TabError>
    requires running { (K.seen keeper.old).running ≡ true }
    requires group { IsGroup prefix.old.items }
    ensures kept { OnOk result
        (HaveMarks (K.seen keeper.old).kept (K.seen keeper.new).kept prefix.old.items changes.now) }
    ensures fits { OnOk result (AreChanges prefix.old.items changes.now) }
    ensures grammar { OnOk result (InGrammar (K.seen keeper.old).kept
        → InGrammar (K.seen keeper.new).kept) }
    ensures prefix { OnOk result (prefix.new.items ≡ prefix.old.items) }
    ensures writes { OnOk result (Rises (length changes.now) (K.seen keeper.old).writes
        (K.seen keeper.new).writes) }
    ensures write { IsWrite (K.seen keeper.old) (K.seen keeper.new) result TabError.Fault }
{
    match change_marks(keeper, prefix, changes) {
        Ok(()) => Ok(()),
        Err(error) => Err(error),
    }
}

// Makes `rows` the rows whose keys begin with these bytes. `span` is room for them.
fn read_numbered<K: Keeper>(
    keeper: &mut K,
    prefix: &[u8],
    span: &mut Span,
    rows: &mut Vec<(u32, (Sign, bool))>,
) -> Result<(), TabError>
    requires grammar { TableFits val_codec (K.seen keeper.old).kept }
    ensures rows { OnOk result (AreNumbered (K.seen keeper.old).kept prefix.now rows.new.items) }
    ensures reads { OnOk result
        ((K.seen keeper.new).reads ≤ (K.seen keeper.old).reads + (length rows.new.items + 1)) }
    ensures each_read { OnOk result (Rises (length rows.new.items + 1) (K.seen keeper.old).reads
        (K.seen keeper.new).reads) }
    ensures read { IsRead (K.seen keeper.old) (K.seen keeper.new) result TabError.Fault }
{
    match keeper.under(MARKS, prefix, span) {
        Ok(()) => {}
        Err(error) => return Err(table_error(error)),
    }
    if span.len() == 0 {
        rows.clear();
        return Ok(());
    }
    match fill_numbered(span, rows) {
        Ok(()) => Ok(()),
        Err(_) => {
            keeper.undo();
            Err(TabError::Memory)
        }
    }
}

// Makes `rows` the numbers of the tuples of entries of the table, and their rows.
fn fill_numbered(span: &Span, rows: &mut Vec<(u32, (Sign, bool))>) -> Result<(), AllocError>
    requires { AreEntriesOf val_codec span.now }
    ensures { OnOk result (SpellNumbered span.now rows.new.items) }
{
    rows.clear();
    rows.reserve(span.len())?;
    for index in 0..span.len() {
        let (key, row) = span.entry(index);
        rows.push(numbered_from(key, row))?;
    }
    Ok(())
}

// The row of a tuple's number in a group, as a table of its own. `key` and `row` are room for bytes.
fn read_mark<K: Keeper>(
    keeper: &mut K,
    prefix: &[u8],
    tid: u32,
    key: &mut Vec<u8>,
    row: &mut Vec<u8>,
) -> Result<Option<(Sign, bool)>, TabError>
    requires grammar { TableFits val_codec (K.seen keeper.old).kept }
    ensures found { IfOk result (HasAt (marks_codec prefix.now) (K.seen keeper.old).kept tid) }
    ensures reads { OnOk result (RoseBy 1 (K.seen keeper.old).reads (K.seen keeper.new).reads) }
    ensures read { IsRead (K.seen keeper.old) (K.seen keeper.new) result TabError.Fault }
{
    if fill_key(key, prefix, tid).is_err() {
        keeper.undo();
        return Err(TabError::Memory);
    }
    match keeper.get(MARKS, key, row) {
        Ok(true) => Ok(Some(mark_from(row))),
        Ok(false) => Ok(None),
        Err(error) => Err(table_error(error)),
    }
}

// Makes changes of a group, as a table of its own.
fn change_marks<K: Keeper>(
    keeper: &mut K,
    prefix: &mut Vec<u8>,
    changes: &[(u32, Option<(Sign, bool)>)],
) -> Result<(), TabError>
    requires running { (K.seen keeper.old).running ≡ true }
    requires group { IsGroup prefix.old.items }
    ensures kept { OnOk result
        ((K.seen keeper.new).kept ≡ with_changes (marks_codec prefix.old.items)
        (K.seen keeper.old).kept changes.now) }
    ensures fits { OnOk result
        (AllByRecursion (IsChange (marks_codec prefix.old.items)) changes.now) }
    ensures grammar { OnOk result (InGrammar (K.seen keeper.old).kept
        → InGrammar (K.seen keeper.new).kept) }
    ensures prefix { OnOk result (prefix.new.items ≡ prefix.old.items) }
    ensures writes { OnOk result (Rises (length changes.now) (K.seen keeper.old).writes
        (K.seen keeper.new).writes) }
    ensures write { IsWrite (K.seen keeper.old) (K.seen keeper.new) result TabError.Fault }
{
    for change in changes {
        match change_mark(keeper, prefix, change) {
            Ok(()) => {}
            Err(error) => return Err(error),
        }
    }
    Ok(())
}

// Makes a change of a group.
fn change_mark<K: Keeper>(
    keeper: &mut K,
    prefix: &mut Vec<u8>,
    change: &(u32, Option<(Sign, bool)>),
) -> Result<(), TabError>
    requires running { (K.seen keeper.old).running ≡ true }
    requires group { IsGroup prefix.old.items }
    ensures kept { OnOk result
        ((K.seen keeper.new).kept ≡ with_change (marks_codec prefix.old.items)
        (K.seen keeper.old).kept change.now) }
    ensures fits { OnOk result (IsChange (marks_codec prefix.old.items) change.now) }
    ensures grammar { OnOk result (InGrammar (K.seen keeper.old).kept
        → InGrammar (K.seen keeper.new).kept) }
    ensures prefix { OnOk result (prefix.new.items ≡ prefix.old.items) }
    ensures writes { OnOk result (RoseBy 1 (K.seen keeper.old).writes (K.seen keeper.new).writes) }
    ensures write { IsWrite (K.seen keeper.old) (K.seen keeper.new) result TabError.Fault }
{
    let length = prefix.len();
    if put_num(prefix, change.0).is_err() {
        keeper.undo();
        return Err(TabError::Memory);
    }
    match set_mark(keeper, prefix, &change.1) {
        Ok(()) => {
            prefix.truncate(length);
            Ok(())
        }
        Err(error) => Err(error),
    }
}

// Puts a row at a key, or takes the row there away.
fn set_mark<K: Keeper>(
    keeper: &mut K,
    key: &[u8],
    next: &Option<(Sign, bool)>,
) -> Result<(), TabError>
    requires running { (K.seen keeper.old).running ≡ true }
    ensures kept { OnOk result ((K.seen keeper.new).kept ≡ set_at (K.seen keeper.old).kept
        (11 ∷ key.now) (option_map mark_bytes next.now)) }
    ensures writes { OnOk result (RoseBy 1 (K.seen keeper.old).writes (K.seen keeper.new).writes) }
    ensures write { IsWrite (K.seen keeper.old) (K.seen keeper.new) result TabError.Fault }
{
    match next {
        Some(mark) => {
            let row = mark_number(mark).to_be_bytes();
            match keeper.put(MARKS, key, &row) {
                Ok(()) => Ok(()),
                Err(error) => Err(table_error(error)),
            }
        }
        None => match keeper.remove(MARKS, key) {
            Ok(_) => Ok(()),
            Err(error) => Err(table_error(error)),
        },
    }
}

// The number that a row is.
fn mark_number(mark: &(Sign, bool)) -> u32
    ensures { num_bytes result ≡ mark_bytes mark.now }
{
    match mark {
        (Sign::Plus, false) => 0,
        (Sign::Plus, true) => 1,
        (Sign::Minus, false) => 2,
        (Sign::Minus, true) => 3,
    }
}

// Makes room hold the key of a tuple's number in a group.
fn fill_key(key: &mut Vec<u8>, prefix: &[u8], tid: u32) -> Result<(), AllocError>
    ensures ok { OnOk result (key.new.items ≡ prefix.now ++ num_bytes tid) }
    ensures fits { OnOk result (IsNum tid) }
{
    key.clear();
    key.reserve(USUAL_LENGTH)?;
    key.extend_from_slice(prefix)?;
    put_num(key, tid)?;
    Ok(())
}

// The number of the tuple of an entry of the table, and its row.
fn numbered_from(key: &[u8], row: &[u8]) -> (u32, (Sign, bool))
    requires { IsEntryOf val_codec key.now row.now }
    ensures { IsNumbered key.now row.now result }
{
    (number_from(last_four(key)), mark_from(row))
}

// The last four bytes.
fn last_four(bytes: &[u8]) -> &[u8]
    requires { 4 ≤ length bytes.now }
    ensures { result.now ≡ drop (length bytes.now - 4) bytes.now }
{
    &bytes[bytes.len() - 4..]
}

// The number that these bytes are.
fn number_from(bytes: &[u8]) -> u32
    requires { AreNumberBytes bytes.now }
    ensures { Reads IsNum num_bytes bytes.now result }
{
    match only_num(bytes) {
        Some(number) => number,
        None => unreachable!(),
    }
}

// The row that these bytes are.
pub fn mark_from(bytes: &[u8]) -> (Sign, bool)
    requires { IsRowOf val_codec bytes.now }
    ensures { Reads IsAnyMark mark_bytes bytes.now result }
{
    match mark_of(bytes) {
        Some(mark) => mark,
        None => unreachable!(),
    }
}
