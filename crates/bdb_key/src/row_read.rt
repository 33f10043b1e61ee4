// Bytes back into rows.
ghost use Rattle.std.specs.Prelude.{◌≡◌, ◌≤◌, length, IfOk, MatchOption};
ghost use Rattle.std.specs.Bool.{MatchBool};
ghost use Rattle.std.specs.Result.{IsErrOf};
ghost use Rattle.std.specs.List.{AllByRecursion};
ghost use Rattle.bdb_key.specs.Grammar.{IsNum, IsPlain};
ghost use Rattle.bdb_key.specs.Bytes.{text_bytes};
ghost use Rattle.bdb_key.specs.Reading.{Leads, NoneLeads, Reads, NoneReads};
ghost use Rattle.bdb_key.specs.Rows.{IsAnyKind, kind_bytes, IsCol, col_bytes, cols_bytes, IsRelRow, length_bytes, rel_bytes, IsTupleRow, tuple_bytes, IsUserRow, slot_bytes, IsAnySign, sign_bytes, IsAnyMark, mark_bytes};

use crate::part::KeyError;
use crate::read::{int_of, num_of, only_num, plain_text_of, text_of, values_of};
use bdb_base::{ColDef, Kind, List, RelDef, Sign, Tuple, Txt, UserSlot};
use std::alloc::Global;

/// The relation that these bytes are. `NotAKey` comes exactly where they are no relation.
pub fn rel_of(alloc: Global, bytes: &[u8]) -> Result<RelDef, KeyError>
    ensures ok { IfOk result (Reads IsRelRow rel_bytes bytes.now) }
    ensures none { IsErrOf result KeyError.NotAKey → NoneReads IsRelRow rel_bytes bytes.now }
{
    let (name, rest) = text_of(alloc, bytes)?;
    let Some((key, rest)) = length_of(rest) else {
        return Err(KeyError::NotAKey);
    };
    let cols = cols_of(alloc, rest)?;
    if !is_key(key, cols.as_slice()) {
        return Err(KeyError::NotAKey);
    }
    Ok(RelDef { name, cols, key })
}

/// The length of the key of the relation that these bytes are. Its columns are not looked at.
pub fn key_length_of(bytes: &[u8]) -> Option<u32>
    ensures { MatchOption result (NoneReads IsRelRow rel_bytes bytes.now)
        (λ n. (def : RelDef) → Reads IsRelRow rel_bytes bytes.now def → n ≡ def.key) }
{
    let (_, rest) = plain_text_of(bytes)?;
    let (key, _) = length_of(rest)?;
    Some(key)
}

// The length of a key at the front of these bytes, and the bytes after it.
fn length_of(bytes: &[u8]) -> Option<(u32, &[u8])>
    ensures { MatchOption result (NoneLeads IsNum length_bytes bytes.now)
        (λ x. Leads IsNum length_bytes bytes.now x.0 x.1.now) }
{
    match int_of(bytes) {
        Some((key, rest)) => match u32::try_from(key) {
            Ok(key) => Some((key, rest)),
            Err(_) => None,
        },
        None => None,
    }
}

// Whether a key may be of so many of these columns.
fn is_key(key: u32, cols: &[ColDef]) -> bool
    ensures { MatchBool result ((1 ≤ key) × (key ≤ length cols.now))
        ((1 ≤ key) × (key ≤ length cols.now) → ⊥) }
{
    1 <= key && key as usize <= cols.len()
}

/// The tuple that these bytes are. `NotAKey` comes exactly where they are no tuple.
pub fn tuple_of(alloc: Global, bytes: &[u8]) -> Result<Tuple, KeyError>
    ensures ok { IfOk result (Reads IsTupleRow tuple_bytes bytes.now) }
    ensures none { IsErrOf result KeyError.NotAKey → NoneReads IsTupleRow tuple_bytes bytes.now }
{
    let Some((rel, rest)) = num_of(bytes) else {
        return Err(KeyError::NotAKey);
    };
    let vals = values_of(alloc, rest)?;
    if vals.is_empty() {
        return Err(KeyError::NotAKey);
    }
    Ok(Tuple { rel, vals })
}

/// The text that these bytes are. `NotAKey` comes exactly where they are no plain text.
pub fn only_text(alloc: Global, bytes: &[u8]) -> Result<Txt, KeyError>
    ensures ok { IfOk result (Reads IsPlain text_bytes bytes.now) }
    ensures none { IsErrOf result KeyError.NotAKey → NoneReads IsPlain text_bytes bytes.now }
{
    let (text, rest) = text_of(alloc, bytes)?;
    if !rest.is_empty() {
        return Err(KeyError::NotAKey);
    }
    Ok(text)
}

/// The place of the list of users that these bytes are: a name, or no bytes for one who is gone. `NotAKey` comes exactly
/// where they are neither.
pub fn user_of(alloc: Global, bytes: &[u8]) -> Result<UserSlot, KeyError>
    ensures ok { IfOk result (Reads IsUserRow slot_bytes bytes.now) }
    ensures none { IsErrOf result KeyError.NotAKey → NoneReads IsUserRow slot_bytes bytes.now }
{
    if bytes.is_empty() {
        return Ok(UserSlot::Gone);
    }
    match only_text(alloc, bytes) {
        Ok(name) => Ok(UserSlot::Live(name)),
        Err(KeyError::NotAKey) => Err(KeyError::NotAKey),
        Err(KeyError::Memory) => Err(KeyError::Memory),
    }
}

/// The sign that these bytes are. None exactly where they are no sign.
pub fn sign_of(bytes: &[u8]) -> Option<Sign>
    ensures { MatchOption result (NoneReads IsAnySign sign_bytes bytes.now)
        (Reads IsAnySign sign_bytes bytes.now) }
{
    match only_num(bytes) {
        Some(0) => Some(Sign::Plus),
        Some(1) => Some(Sign::Minus),
        Some(_) => None,
        None => None,
    }
}

/// The sign and the mark of a tuple in a world that these bytes are; true for explicit. None exactly where they are none.
pub fn mark_of(bytes: &[u8]) -> Option<(Sign, bool)>
    ensures { MatchOption result (NoneReads IsAnyMark mark_bytes bytes.now)
        (Reads IsAnyMark mark_bytes bytes.now) }
{
    match only_num(bytes) {
        Some(0) => Some((Sign::Plus, false)),
        Some(1) => Some((Sign::Plus, true)),
        Some(2) => Some((Sign::Minus, false)),
        Some(3) => Some((Sign::Minus, true)),
        Some(_) => None,
        None => None,
    }
}

// The columns that these bytes are.
fn cols_of(alloc: Global, bytes: &[u8]) -> Result<List<ColDef>, KeyError>
    ensures ok { IfOk result (Reads (AllByRecursion IsCol) cols_bytes bytes.now) }
    ensures none { IsErrOf result KeyError.NotAKey → NoneReads (AllByRecursion IsCol)
        cols_bytes bytes.now }
{
    let mut cols = Vec::new(alloc);
    let mut rest = bytes;
    while !rest.is_empty() {
        let (col, more) = col_of(alloc, rest)?;
        cols.push(col)?;
        rest = more;
    }
    Ok(List::from_vec(cols))
}

// The column at the front of these bytes, and the bytes after it.
fn col_of(alloc: Global, bytes: &[u8]) -> Result<(ColDef, &[u8]), KeyError>
    ensures ok { IfOk result (λ x. Leads IsCol col_bytes bytes.now x.0 x.1.now) }
    ensures none { IsErrOf result KeyError.NotAKey → NoneLeads IsCol col_bytes bytes.now }
{
    let (name, rest) = text_of(alloc, bytes)?;
    match kind_of(rest) {
        Some((kind, rest)) => Ok((ColDef { name, kind }, rest)),
        None => Err(KeyError::NotAKey),
    }
}

// The kind at the front of these bytes, and the bytes after it.
fn kind_of(bytes: &[u8]) -> Option<(Kind, &[u8])>
    ensures { MatchOption result (NoneLeads IsAnyKind kind_bytes bytes.now)
        (λ x. Leads IsAnyKind kind_bytes bytes.now x.0 x.1.now) }
{
    match int_of(bytes) {
        Some((0, rest)) => Some((Kind::Int, rest)),
        Some((1, rest)) => Some((Kind::Text, rest)),
        Some(_) => None,
        None => None,
    }
}
