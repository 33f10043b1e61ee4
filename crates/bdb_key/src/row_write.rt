// Rows into bytes.
ghost use Rattle.std.specs.Prelude.{◌≡◌, ◌++◌, OnOk, OnErr};
ghost use Rattle.std.specs.List.{AllByRecursion};
ghost use Rattle.bdb_key.specs.Bytes.{Grows};
ghost use Rattle.bdb_key.specs.Grammar.{HasEightBytes, IsNum};
ghost use Rattle.bdb_key.specs.Rows.{kind_bytes, cols_bytes, rel_bytes, tuple_bytes, slot_bytes, sign_bytes, mark_bytes, row_bytes};

use crate::row::TabRow;
use crate::write::{put_num, put_text, put_value, put_values};
use bdb_base::{ColDef, Kind, RelDef, Sign, Tuple, UserSlot, Value};
use std::alloc::AllocError;

/// Appends a relation. After a refusal the bytes are unchanged.
pub fn put_rel(out: &mut Vec<u8>, def: &RelDef) -> Result<(), AllocError>
    ensures ok { OnOk result (out.new.items ≡ out.old.items ++ rel_bytes def.now) }
    ensures err { OnErr result (out.new.items ≡ out.old.items) }
{
    let before = out.len();
    match push_rel(out, def) {
        Ok(()) => Ok(()),
        Err(error) => {
            out.truncate(before);
            Err(error)
        }
    }
}

/// Appends a tuple. After a refusal the bytes are unchanged.
pub fn put_tuple(out: &mut Vec<u8>, tuple: &Tuple) -> Result<(), AllocError>
    ensures ok { OnOk result (out.new.items ≡ out.old.items ++ tuple_bytes tuple.now) }
    ensures rel { OnOk result (IsNum tuple.now.rel) }
    ensures whole { OnOk result (AllByRecursion HasEightBytes tuple.now.vals) }
    ensures err { OnErr result (out.new.items ≡ out.old.items) }
{
    let before = out.len();
    match push_tuple(out, tuple) {
        Ok(()) => Ok(()),
        Err(error) => {
            out.truncate(before);
            Err(error)
        }
    }
}

/// Appends a place of the list of users: the name of a live one, nothing for one who is gone. After a refusal the bytes are
/// unchanged.
pub fn put_user(out: &mut Vec<u8>, slot: &UserSlot) -> Result<(), AllocError>
    ensures ok { OnOk result (out.new.items ≡ out.old.items ++ slot_bytes slot.now) }
    ensures err { OnErr result (out.new.items ≡ out.old.items) }
{
    match slot {
        UserSlot::Live(name) => put_text(out, name),
        UserSlot::Gone => Ok(()),
    }
}

/// Appends a statement's sign. After a refusal the bytes are unchanged.
pub fn put_sign(out: &mut Vec<u8>, sign: Sign) -> Result<(), AllocError>
    ensures ok { OnOk result (out.new.items ≡ out.old.items ++ sign_bytes sign) }
    ensures err { OnErr result (out.new.items ≡ out.old.items) }
{
    match sign {
        Sign::Plus => put_num(out, 0),
        Sign::Minus => put_num(out, 1),
    }
}

/// Appends the sign of a tuple in a world, and whether it is explicit there. After a refusal the bytes are unchanged.
pub fn put_mark(out: &mut Vec<u8>, sign: Sign, explicit: bool) -> Result<(), AllocError>
    ensures ok { OnOk result (out.new.items ≡ out.old.items ++ mark_bytes (sign, explicit)) }
    ensures err { OnErr result (out.new.items ≡ out.old.items) }
{
    match (sign, explicit) {
        (Sign::Plus, false) => put_num(out, 0),
        (Sign::Plus, true) => put_num(out, 1),
        (Sign::Minus, false) => put_num(out, 2),
        (Sign::Minus, true) => put_num(out, 3),
    }
}

/// Appends a row. After a refusal the bytes are unchanged.
pub fn put_row(out: &mut Vec<u8>, row: &TabRow) -> Result<(), AllocError>
    ensures ok { OnOk result (out.new.items ≡ out.old.items ++ row_bytes row.now) }
    ensures err { OnErr result (out.new.items ≡ out.old.items) }
{
    match row {
        TabRow::Meta(format) => put_num(out, *format),
        TabRow::User(slot) => put_user(out, slot),
        TabRow::Rel(def) => put_rel(out, def),
        TabRow::Tuple(tuple) => put_tuple(out, tuple),
        TabRow::Tid(tid) => put_num(out, *tid),
        TabRow::Depth(depth) => put_num(out, *depth),
        TabRow::Link(wid) => put_num(out, *wid),
        TabRow::Empty => Ok(()),
        TabRow::Val { sign, explicit } => put_mark(out, *sign, *explicit),
        TabRow::Plain(sign) => put_sign(out, *sign),
    }
}

// As `put_rel`, but a refusal may leave a part behind.
fn push_rel(out: &mut Vec<u8>, def: &RelDef) -> Result<(), AllocError>
    ensures ok { OnOk result (out.new.items ≡ out.old.items ++ rel_bytes def.now) }
    ensures err { OnErr result (Grows out.old.items out.new.items) }
{
    put_text(out, &def.name)?;
    put_value(out, &Value::Int(i64::from(def.key)))?;
    push_cols(out, def.cols.as_slice())
}

// Appends columns. A refusal may leave a part behind.
fn push_cols(out: &mut Vec<u8>, cols: &[ColDef]) -> Result<(), AllocError>
    ensures ok { OnOk result (out.new.items ≡ out.old.items ++ cols_bytes cols.now) }
    ensures err { OnErr result (Grows out.old.items out.new.items) }
{
    for col in cols {
        put_text(out, &col.name)?;
        put_kind(out, col.kind)?;
    }
    Ok(())
}

// Appends a kind as an integer. After a refusal the bytes are unchanged.
fn put_kind(out: &mut Vec<u8>, kind: Kind) -> Result<(), AllocError>
    ensures ok { OnOk result (out.new.items ≡ out.old.items ++ kind_bytes kind) }
    ensures err { OnErr result (out.new.items ≡ out.old.items) }
{
    match kind {
        Kind::Int => put_value(out, &Value::Int(0)),
        Kind::Text => put_value(out, &Value::Int(1)),
    }
}

// As `put_tuple`, but a refusal may leave a part behind.
fn push_tuple(out: &mut Vec<u8>, tuple: &Tuple) -> Result<(), AllocError>
    ensures ok { OnOk result (out.new.items ≡ out.old.items ++ tuple_bytes tuple.now) }
    ensures rel { OnOk result (IsNum tuple.now.rel) }
    ensures whole { OnOk result (AllByRecursion HasEightBytes tuple.now.vals) }
    ensures err { OnErr result (Grows out.old.items out.new.items) }
{
    put_num(out, tuple.rel)?;
    put_values(out, tuple.vals.as_slice())?;
    Ok(())
}
