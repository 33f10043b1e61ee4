// Bytes back into the parts of keys.
ghost use Rattle.std.specs.Prelude.{◌≡◌, ℕ, List, ◌∷◌, ◌<◌, ◌^◌, true, false, IfOk, MatchOption, FitsSigned};
ghost use Rattle.std.specs.Result.{IsErrOf};
ghost use Rattle.std.specs.Int.{w64, to_be_bytes};
ghost use Rattle.std.specs.Str.{is_utf8};
ghost use Rattle.bdb_base.specs.Bases.{is_plain};
ghost use Rattle.bdb_key.specs.Bytes.{num_bytes, int_bytes, text_bytes, value_bytes, values_bytes, vals_bytes, path_bytes};
ghost use Rattle.bdb_key.specs.Grammar.{IsNum, IsPlain, IsPlainValue, ArePlain, AreKeyVals, IsKeyPath};
ghost use Rattle.bdb_key.specs.Reading.{Leads, NoneLeads, Reads, NoneReads, AreMany, nums_bytes, HasNoEnd, SplitsAtZero};

use crate::part::KeyError;
use bdb_base::limits::LONGEST_TEXT;
use bdb_base::{List, Path, PathError, Txt, Value, are_printable};
use std::alloc::Global;

/// The number at the front of these bytes, and the bytes after it. None exactly where there are too few bytes.
pub fn num_of(bytes: &[u8]) -> Option<(u32, &[u8])>
    ensures { MatchOption result (NoneLeads IsNum num_bytes bytes.now)
        (λ x. Leads IsNum num_bytes bytes.now x.0 x.1.now) }
{
    if bytes.len() < 4 {
        return None;
    }
    let (front, rest) = bytes.split_at(4);
    let n = u32::from_be_bytes([front[0], front[1], front[2], front[3]]);
    Some((n, rest))
}

/// The number that these bytes are. None exactly where they are no number.
pub fn only_num(bytes: &[u8]) -> Option<u32>
    ensures { MatchOption result (NoneReads IsNum num_bytes bytes.now)
        (Reads IsNum num_bytes bytes.now) }
{
    match num_of(bytes) {
        Some((n, [])) => Some(n),
        Some((_, [_, ..])) => None,
        None => None,
    }
}

/// The text at the front of these bytes, and the bytes after it. `NotAKey` comes exactly where no plain text is there.
pub fn text_of(alloc: Global, bytes: &[u8]) -> Result<(Txt, &[u8]), KeyError>
    ensures ok { IfOk result (λ x. Leads IsPlain text_bytes bytes.now x.0 x.1.now) }
    ensures none { IsErrOf result KeyError.NotAKey → NoneLeads IsPlain text_bytes bytes.now }
{
    let Some((text, rest)) = plain_text_of(bytes) else {
        return Err(KeyError::NotAKey);
    };
    match Txt::try_new(alloc, text) {
        Ok(text) => Ok((text, rest)),
        Err(_) => Err(KeyError::Memory),
    }
}

/// The value at the front of these bytes, and the bytes after it. `NotAKey` comes exactly where no value is there.
pub fn value_of(alloc: Global, bytes: &[u8]) -> Result<(Value, &[u8]), KeyError>
    ensures ok { IfOk result (λ x. Leads IsPlainValue value_bytes bytes.now x.0 x.1.now) }
    ensures none { IsErrOf result KeyError.NotAKey → NoneLeads IsPlainValue value_bytes bytes.now }
{
    match int_of(bytes) {
        Some((n, rest)) => Ok((Value::Int(n), rest)),
        None => {
            let (text, rest) = text_of(alloc, bytes)?;
            Ok((Value::Text(text), rest))
        }
    }
}

/// The values that these bytes are. `NotAKey` comes exactly where they are no values.
pub fn values_of(alloc: Global, bytes: &[u8]) -> Result<List<Value>, KeyError>
    ensures ok { IfOk result (Reads ArePlain values_bytes bytes.now) }
    ensures none { IsErrOf result KeyError.NotAKey → NoneReads ArePlain values_bytes bytes.now }
{
    let mut values = Vec::new(alloc);
    let mut rest = bytes;
    while !rest.is_empty() {
        let (value, more) = value_of(alloc, rest)?;
        values.push(value)?;
        rest = more;
    }
    Ok(List::from_vec(values))
}

/// The list of values at the front of these bytes, and the bytes after it. `NotAKey` comes exactly where no such list is
/// there.
pub fn vals_of(alloc: Global, bytes: &[u8]) -> Result<(List<Value>, &[u8]), KeyError>
    ensures ok { IfOk result (λ x. Leads AreKeyVals vals_bytes bytes.now x.0 x.1.now) }
    ensures none { IsErrOf result KeyError.NotAKey → NoneLeads AreKeyVals vals_bytes bytes.now }
{
    let Some((len, rest)) = num_of(bytes) else {
        return Err(KeyError::NotAKey);
    };
    let (values, rest) = counted_values_of(alloc, len, rest)?;
    Ok((List::from_vec(values), rest))
}

// As many values as the count says, and the bytes after them.
fn counted_values_of(
    alloc: Global,
    count: u32,
    bytes: &[u8],
) -> Result<(Vec<Value>, &[u8]), KeyError>
    ensures ok { IfOk result
        (λ x. Leads (AreMany IsPlainValue count) values_bytes bytes.now x.0.items x.1.now) }
    ensures none { IsErrOf result KeyError.NotAKey → NoneLeads (AreMany IsPlainValue count)
        values_bytes bytes.now }
{
    let mut values = Vec::new(alloc);
    let mut rest = bytes;
    for _ in 0..count {
        let (value, more) = value_of(alloc, rest)?;
        values.push(value)?;
        rest = more;
    }
    Ok((values, rest))
}

/// The path at the front of these bytes, and the bytes after it. `NotAKey` comes exactly where no path is there.
pub fn path_of(alloc: Global, bytes: &[u8]) -> Result<(Path, &[u8]), KeyError>
    ensures ok { IfOk result (λ x. Leads IsKeyPath path_bytes bytes.now x.0 x.1.now) }
    ensures none { IsErrOf result KeyError.NotAKey → NoneLeads IsKeyPath path_bytes bytes.now }
{
    let Some((len, rest)) = num_of(bytes) else {
        return Err(KeyError::NotAKey);
    };
    let (users, rest) = users_of(alloc, len, rest)?;
    match Path::try_new(alloc, &users) {
        Ok(path) => Ok((path, rest)),
        Err(PathError::Repeat) => Err(KeyError::NotAKey),
        Err(PathError::Memory) => Err(KeyError::Memory),
    }
}

// As many numbers as the count says, and the bytes after them.
fn users_of(alloc: Global, count: u32, bytes: &[u8]) -> Result<(Vec<u32>, &[u8]), KeyError>
    ensures ok { IfOk result
        (λ x. Leads (AreMany IsNum count) nums_bytes bytes.now x.0.items x.1.now) }
    ensures none { IsErrOf result KeyError.NotAKey → NoneLeads (AreMany IsNum count)
        nums_bytes bytes.now }
{
    let mut users = Vec::new(alloc);
    let mut rest = bytes;
    for _ in 0..count {
        let (user, more) = match num_of(rest) {
            Some(found) => found,
            None => return Err(KeyError::NotAKey),
        };
        users.push(user)?;
        rest = more;
    }
    Ok((users, rest))
}

/// The integer at the front of these bytes, and the bytes after it.
pub fn int_of(bytes: &[u8]) -> Option<(i64, &[u8])>
    ensures { MatchOption result (NoneLeads (FitsSigned w64) int_bytes bytes.now)
        (λ x. Leads (FitsSigned w64) int_bytes bytes.now x.0 x.1.now) }
{
    let [1, rest @ ..] = bytes else {
        return None;
    };
    let (raised, rest) = u64_of(rest)?;
    Some((raised.wrapping_sub(1 << 63).cast_signed(), rest))
}

// The number of eight bytes at the front of these bytes, and the bytes after it.
fn u64_of(bytes: &[u8]) -> Option<(u64, &[u8])>
    ensures { MatchOption result (NoneLeads (λ n. n < 2 ^ 64) (to_be_bytes w64) bytes.now)
        (λ x. Leads (λ n. n < 2 ^ 64) (to_be_bytes w64) bytes.now x.0 x.1.now) }
{
    if bytes.len() < 8 {
        return None;
    }
    let (b, rest) = bytes.split_at(8);
    let n = u64::from_be_bytes([b[0], b[1], b[2], b[3], b[4], b[5], b[6], b[7]]);
    Some((n, rest))
}

/// The plain text at the front of these bytes, and the bytes after it.
pub fn plain_text_of(bytes: &[u8]) -> Option<(&str, &[u8])>
    ensures { MatchOption result (NoneLeads IsPlain text_bytes bytes.now)
        (λ x. Leads IsPlain text_bytes bytes.now x.0.now x.1.now) }
{
    let (front, rest) = split_at_end(after_mark(bytes)?)?;
    let text = plain_of(front)?;
    Some((text, rest))
}

// The bytes behind the byte that marks a text.
fn after_mark(bytes: &[u8]) -> Option<&[u8]>
    ensures { MatchOption result ((rest : List ℕ) → bytes.now ≡ 2 ∷ rest → ⊥)
        (λ rest. bytes.now ≡ 2 ∷ rest.now) }
{
    match bytes {
        [2, rest @ ..] => Some(rest),
        _ => None,
    }
}

// The bytes before the first 0, and those after it.
fn split_at_end(bytes: &[u8]) -> Option<(&[u8], &[u8])>
    ensures { MatchOption result (HasNoEnd bytes.now) (λ x. SplitsAtZero bytes.now x.0.now x.1.now) }
{
    for (at, byte) in bytes.iter().enumerate() {
        if *byte == 0 {
            return Some((&bytes[..at], &bytes[at + 1..]));
        }
    }
    None
}

// These bytes as a plain text.
fn plain_of(bytes: &[u8]) -> Option<&str>
    ensures { MatchOption result (is_plain bytes.now ≡ false)
        (λ text. (text.now ≡ bytes.now) × (is_plain bytes.now ≡ true)) }
{
    if bytes.len() > LONGEST_TEXT || !are_printable(bytes) {
        return None;
    }
    utf8_of(bytes)
}

// These bytes as a text.
#[tactic(auto, using(crate::proofs::Readings::utf8_true, crate::proofs::Readings::utf8_false))]
fn utf8_of(bytes: &[u8]) -> Option<&str>
    ensures { MatchOption result (is_utf8 bytes.now ≡ false)
        (λ text. (text.now ≡ bytes.now) × (is_utf8 bytes.now ≡ true)) }
{
    match std::str::from_utf8(bytes) {
        Ok(text) => Some(text),
        Err(_) => None,
    }
}
