// Keys and rows of the format before this one, spelled as this one spells them.
ghost use Rattle.std.specs.Prelude.{◌≡◌, ◌∷◌, ◌++◌, pos, IfOk, MatchOption};
ghost use Rattle.bdb_key.specs.Bytes.{int_bytes};
ghost use Rattle.bdb_former.specs.Respelled.{respelled_format, respelled_key, respelled_relation, respelled_row, respelled_user, with_count};

use bdb_base::Value;
use bdb_key::{put_num, put_value};
use bdb_tables::FORMAT;
use std::alloc::{AllocError, Global};

/// How many bytes the numbers of the world and of the relation take in a key of table 11.
const FRONT: usize = 8;

/// The row that tells the format before this one.
const FORMER: [u8; 4] = [0, 0, 0, 2];

/// A key of a table of the format before this one, as this one spells it.
#[tactic(auto, using(crate::proofs::SpellLemmas::key_as_it_is))]
pub fn respelled_key(alloc: Global, tab: u8, key: &[u8]) -> Result<Vec<u8>, AllocError>
    ensures { IfOk result (λ spelled. spelled.items ≡ respelled_key tab key.now) }
{
    match tab {
        11 => with_count(alloc, key),
        _ => copied(alloc, key),
    }
}

// A key of table 11, with the count of its values. One that is too short for a world and a relation is as it is.
#[tactic(auto, using(crate::proofs::SpellLemmas::short_as_it_is, crate::proofs::SpellLemmas::long_with_count))]
fn with_count(alloc: Global, key: &[u8]) -> Result<Vec<u8>, AllocError>
    ensures { IfOk result (λ spelled. spelled.items ≡ with_count 8 key.now) }
{
    if key.len() < FRONT {
        return copied(alloc, key);
    }
    let (front, values) = key.split_at(FRONT);
    let mut spelled = copied(alloc, front)?;
    put_num(&mut spelled, 1)?;
    spelled.extend_from_slice(values)?;
    Ok(spelled)
}

/// A row of a table of the format before this one, as this one spells it.
#[tactic(auto, using(crate::proofs::SpellLemmas::row_as_it_is))]
pub fn respelled_row(alloc: Global, tab: u8, row: &[u8]) -> Result<Vec<u8>, AllocError>
    ensures { IfOk result (λ spelled. spelled.items ≡ respelled_row tab row.now) }
{
    match tab {
        1 => respelled_format(alloc, row),
        2 => respelled_user(alloc, row),
        3 => respelled_relation(alloc, row),
        _ => copied(alloc, row),
    }
}

// The row of the format.
fn respelled_format(alloc: Global, row: &[u8]) -> Result<Vec<u8>, AllocError>
    ensures { IfOk result (λ spelled. spelled.items ≡ respelled_format row.now) }
{
    let former: &[u8] = &FORMER;
    if row.cmp(&former).is_eq() {
        let mut spelled = Vec::new(alloc);
        put_num(&mut spelled, FORMAT)?;
        return Ok(spelled);
    }
    copied(alloc, row)
}

// The row of a user. No bytes, which were no user's row, become bytes that are none.
#[tactic(auto, using(crate::proofs::SpellLemmas::no_user_there, crate::proofs::SpellLemmas::user_as_it_is))]
fn respelled_user(alloc: Global, row: &[u8]) -> Result<Vec<u8>, AllocError>
    ensures { IfOk result (λ spelled. spelled.items ≡ respelled_user row.now) }
{
    if row.is_empty() {
        return copied(alloc, &[0]);
    }
    copied(alloc, row)
}

// The row of a relation, with the length of its key. One that begins with no text is as it is.
fn respelled_relation(alloc: Global, row: &[u8]) -> Result<Vec<u8>, AllocError>
    ensures { IfOk result (λ spelled. spelled.items ≡ respelled_relation row.now) }
{
    match split_behind_name(row) {
        Some((name, columns)) => {
            let mut spelled = copied(alloc, name)?;
            put_value(&mut spelled, &Value::Int(1))?;
            spelled.extend_from_slice(columns)?;
            Ok(spelled)
        }
        None => copied(alloc, row),
    }
}

// A row's bytes up to the end of the text with which it begins, and those behind it.
fn split_behind_name(row: &[u8]) -> Option<(&[u8], &[u8])>
    ensures { MatchOption result (respelled_relation row.now ≡ row.now)
        (λ x. respelled_relation row.now ≡ x.0.now ++ (int_bytes (pos 1) ++ x.1.now)) }
{
    let bytes = behind_mark(row)?;
    for (at, byte) in bytes.iter().enumerate() {
        if *byte == 0 {
            return Some(row.split_at(at + 2));
        }
    }
    None
}

// The bytes behind the byte that marks a text.
fn behind_mark(row: &[u8]) -> Option<&[u8]>
    ensures { MatchOption result (respelled_relation row.now ≡ row.now)
        (λ bytes. row.now ≡ 2 ∷ bytes.now) }
{
    match row {
        [2, bytes @ ..] => Some(bytes),
        _ => None,
    }
}

// The same bytes.
fn copied(alloc: Global, bytes: &[u8]) -> Result<Vec<u8>, AllocError>
    ensures { IfOk result (λ copy. copy.items ≡ bytes.now) }
{
    let mut copy = Vec::new(alloc);
    copy.extend_from_slice(bytes)?;
    Ok(copy)
}
