// Keys into bytes.
ghost use Rattle.std.specs.Prelude.{◌≡◌, ◌++◌, length, OnOk, OnErr};
ghost use Rattle.std.specs.List.{AllByRecursion};
ghost use Rattle.bdb_key.specs.Bytes.{num_bytes, int_bytes, text_bytes, value_bytes, values_bytes, vals_bytes, path_bytes, part_bytes, key_bytes, Grows};
ghost use Rattle.bdb_key.specs.Grammar.{IsNum, HasEightBytes, IsShortPart, IsWholePart};

use crate::part::Part;
use bdb_base::{Path, Txt, Value};
use std::alloc::AllocError;

/// Appends a number. After a refusal the bytes are unchanged.
pub fn put_num(out: &mut Vec<u8>, n: u32) -> Result<(), AllocError>
    ensures ok { OnOk result (out.new.items ≡ out.old.items ++ num_bytes n) }
    ensures err { OnErr result (out.new.items ≡ out.old.items) }
{
    out.extend_from_slice(&n.to_be_bytes())
}

/// Appends a text. After a refusal the bytes are unchanged.
pub fn put_text(out: &mut Vec<u8>, text: &Txt) -> Result<(), AllocError>
    ensures ok { OnOk result (out.new.items ≡ out.old.items ++ text_bytes text.now) }
    ensures err { OnErr result (out.new.items ≡ out.old.items) }
{
    let before = out.len();
    match push_text(out, text) {
        Ok(()) => Ok(()),
        Err(error) => {
            out.truncate(before);
            Err(error)
        }
    }
}

/// Appends a value. After a refusal the bytes are unchanged.
pub fn put_value(out: &mut Vec<u8>, value: &Value) -> Result<(), AllocError>
    ensures ok { OnOk result (out.new.items ≡ out.old.items ++ value_bytes value.now) }
    ensures whole { OnOk result (HasEightBytes value.now) }
    ensures err { OnErr result (out.new.items ≡ out.old.items) }
{
    match value {
        Value::Int(n) => put_int(out, *n),
        Value::Text(text) => put_text(out, text),
    }
}

/// Appends values up to the end of a key or row. After a refusal the bytes are unchanged.
pub fn put_values(out: &mut Vec<u8>, values: &[Value]) -> Result<(), AllocError>
    ensures ok { OnOk result (out.new.items ≡ out.old.items ++ values_bytes values.now) }
    ensures whole { OnOk result (AllByRecursion HasEightBytes values.now) }
    ensures err { OnErr result (out.new.items ≡ out.old.items) }
{
    let before = out.len();
    match push_values(out, values) {
        Ok(()) => Ok(()),
        Err(error) => {
            out.truncate(before);
            Err(error)
        }
    }
}

/// Appends a list of values: how many they are, then each of them. Other parts of a key may follow. After a refusal the
/// bytes are unchanged.
pub fn put_vals(out: &mut Vec<u8>, values: &[Value]) -> Result<(), AllocError>
    requires { IsNum (length values.now) }
    ensures ok { OnOk result (out.new.items ≡ out.old.items ++ vals_bytes values.now) }
    ensures whole { OnOk result (AllByRecursion HasEightBytes values.now) }
    ensures err { OnErr result (out.new.items ≡ out.old.items) }
{
    let before = out.len();
    match push_vals(out, values) {
        Ok(()) => Ok(()),
        Err(error) => {
            out.truncate(before);
            Err(error)
        }
    }
}

/// Appends a path. After a refusal the bytes are unchanged.
pub fn put_path(out: &mut Vec<u8>, path: &Path) -> Result<(), AllocError>
    requires { IsNum (length path.now) }
    ensures ok { OnOk result (out.new.items ≡ out.old.items ++ path_bytes path.now) }
    ensures whole { OnOk result (AllByRecursion IsNum path.now) }
    ensures err { OnErr result (out.new.items ≡ out.old.items) }
{
    let before = out.len();
    match push_path(out, path) {
        Ok(()) => Ok(()),
        Err(error) => {
            out.truncate(before);
            Err(error)
        }
    }
}

/// Appends a key of these parts. After a refusal the bytes are unchanged.
pub fn put_key(out: &mut Vec<u8>, parts: &[Part]) -> Result<(), AllocError>
    requires { AllByRecursion IsShortPart parts.now }
    ensures ok { OnOk result (out.new.items ≡ out.old.items ++ key_bytes parts.now) }
    ensures whole { OnOk result (AllByRecursion IsWholePart parts.now) }
    ensures err { OnErr result (out.new.items ≡ out.old.items) }
{
    let before = out.len();
    match push_key(out, parts) {
        Ok(()) => Ok(()),
        Err(error) => {
            out.truncate(before);
            Err(error)
        }
    }
}

// An integer: its two's complement with the top bit flipped, so that the bytes come in the order of the integers.
fn put_int(out: &mut Vec<u8>, n: i64) -> Result<(), AllocError>
    ensures ok { OnOk result (out.new.items ≡ out.old.items ++ int_bytes n) }
    ensures err { OnErr result (out.new.items ≡ out.old.items) }
{
    let raised = n.cast_unsigned().wrapping_add(1 << 63);
    let b = raised.to_be_bytes();
    out.extend_from_slice(&[1, b[0], b[1], b[2], b[3], b[4], b[5], b[6], b[7]])
}

// As `put_text`, but a refusal may leave a part behind.
fn push_text(out: &mut Vec<u8>, text: &Txt) -> Result<(), AllocError>
    ensures ok { OnOk result (out.new.items ≡ out.old.items ++ text_bytes text.now) }
    ensures err { OnErr result (Grows out.old.items out.new.items) }
{
    out.push(2)?;
    out.extend_from_slice(text.as_bytes())?;
    out.push(0)?;
    Ok(())
}

// As `put_values`, but a refusal may leave a part behind.
fn push_values(out: &mut Vec<u8>, values: &[Value]) -> Result<(), AllocError>
    ensures ok { OnOk result (out.new.items ≡ out.old.items ++ values_bytes values.now) }
    ensures whole { OnOk result (AllByRecursion HasEightBytes values.now) }
    ensures err { OnErr result (Grows out.old.items out.new.items) }
{
    for value in values {
        put_value(out, value)?;
    }
    Ok(())
}

// As `put_vals`, but a refusal may leave a part behind.
fn push_vals(out: &mut Vec<u8>, values: &[Value]) -> Result<(), AllocError>
    requires { IsNum (length values.now) }
    ensures ok { OnOk result (out.new.items ≡ out.old.items ++ vals_bytes values.now) }
    ensures whole { OnOk result (AllByRecursion HasEightBytes values.now) }
    ensures err { OnErr result (Grows out.old.items out.new.items) }
{
    put_num(out, values.len() as u32)?;
    put_values(out, values)?;
    Ok(())
}

// As `put_path`, but a refusal may leave a part behind.
fn push_path(out: &mut Vec<u8>, path: &Path) -> Result<(), AllocError>
    requires { IsNum (length path.now) }
    ensures ok { OnOk result (out.new.items ≡ out.old.items ++ path_bytes path.now) }
    ensures whole { OnOk result (AllByRecursion IsNum path.now) }
    ensures err { OnErr result (Grows out.old.items out.new.items) }
{
    put_num(out, path.len() as u32)?;
    for user in path.as_slice() {
        put_num(out, *user)?;
    }
    Ok(())
}

// As `put_key`, but a refusal may leave a part behind.
fn push_key(out: &mut Vec<u8>, parts: &[Part]) -> Result<(), AllocError>
    requires { AllByRecursion IsShortPart parts.now }
    ensures ok { OnOk result (out.new.items ≡ out.old.items ++ key_bytes parts.now) }
    ensures whole { OnOk result (AllByRecursion IsWholePart parts.now) }
    ensures err { OnErr result (Grows out.old.items out.new.items) }
{
    for part in parts {
        put_part(out, part)?;
    }
    Ok(())
}

// Appends a part. After a refusal the bytes are unchanged.
fn put_part(out: &mut Vec<u8>, part: &Part) -> Result<(), AllocError>
    requires { IsShortPart part.now }
    ensures ok { OnOk result (out.new.items ≡ out.old.items ++ part_bytes part.now) }
    ensures whole { OnOk result (IsWholePart part.now) }
    ensures err { OnErr result (out.new.items ≡ out.old.items) }
{
    match part {
        Part::Num(n) => put_num(out, *n),
        Part::Val(value) => put_value(out, value),
        Part::Vals(values) => put_vals(out, values.as_slice()),
        Part::Path(path) => put_path(out, path),
    }
}
