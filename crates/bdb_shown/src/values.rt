// The texts of values, from their bytes.
ghost use Rattle.std.specs.Prelude.{◌≡◌, ◌-◌, ◌<◌, ◌≤◌, [], ◌∷◌, ◌++◌, ℕ, List, true, length, drop, take, IfOk, OnOk, MatchOption};
ghost use Rattle.std.specs.List.{flat_map, list_all};
ghost use Rattle.bdb_base.specs.Texts.{quoted, quoted_byte, value_text};
ghost use Rattle.bdb_base.specs.declared.kinds.Value.{Value};
ghost use Rattle.bdb_key.specs.Bytes.{value_bytes, values_bytes};
ghost use Rattle.bdb_key.specs.Grammar.{ArePlain, IsPlainValue};
ghost use Rattle.bdb_key.specs.Reading.{Leads, Reads, SplitsAtZero};
ghost use Rattle.bdb_render.specs.Replies.{row_text};
ghost use Rattle.bdb_shown.specs.Rows.{stands_alone};

use bdb_base::append_int;
use bdb_key::int_of;
use std::alloc::AllocError;

/// Appends the values that these bytes are, with a comma and a space between each two.
pub fn append_values(out: &mut Vec<u8>, bytes: &[u8]) -> Result<(), AllocError>
    ensures { OnOk result ((v : Value) (vals : List Value)
        → Reads ArePlain values_bytes bytes.now (v ∷ vals)
        → out.new.items ≡ out.old.items ++ row_text (v ∷ vals)) }
{
    let mut rest = append_value(out, bytes)?;
    while !rest.is_empty() {
        out.extend_from_slice(b", ")?;
        rest = append_value(out, rest)?;
    }
    Ok(())
}

// Appends the value at the front of these bytes, and gives the bytes behind it.
fn append_value<'a>(out: &mut Vec<u8>, bytes: &'a [u8]) -> Result<&'a [u8], AllocError>
    ensures written { OnOk result ((v : Value) (more : List ℕ)
        → Leads IsPlainValue value_bytes bytes.now v more
        → out.new.items ≡ out.old.items ++ value_text v) }
    ensures behind { IfOk result (λ rest. (v : Value) (more : List ℕ)
        → Leads IsPlainValue value_bytes bytes.now v more → rest.now ≡ more) }
    ensures shorter { IfOk result (λ rest. length rest.now ≤ length bytes.now - 1) }
{
    match int_of(bytes) {
        Some((n, rest)) => {
            append_int(out, n)?;
            Ok(rest)
        }
        None => {
            let rest = append_text(out, behind_mark(bytes))?;
            Ok(rest)
        }
    }
}

// The bytes behind the first one, which tells that a text comes.
fn behind_mark(bytes: &[u8]) -> &[u8]
    ensures { result.now ≡ drop 1 bytes.now }
{
    match bytes {
        [_, rest @ ..] => rest,
        [] => bytes,
    }
}

// Appends the text that ends at the first 0 of these bytes in quotes, and gives the bytes behind that.
fn append_text<'a>(out: &mut Vec<u8>, bytes: &'a [u8]) -> Result<&'a [u8], AllocError>
    ensures written { OnOk result ((text more : List ℕ) → SplitsAtZero bytes.now text more
        → out.new.items ≡ out.old.items ++ quoted text) }
    ensures behind { IfOk result (λ rest. (text more : List ℕ) → SplitsAtZero bytes.now text more
        → rest.now ≡ more) }
    ensures shorter { IfOk result (λ rest. length rest.now ≤ length bytes.now) }
{
    out.push(b'\'')?;
    let rest = append_doubled(out, bytes)?;
    out.push(b'\'')?;
    Ok(rest)
}

// Appends the bytes before the first 0, each quote among them doubled, and gives the bytes behind it.
fn append_doubled<'a>(out: &mut Vec<u8>, bytes: &'a [u8]) -> Result<&'a [u8], AllocError>
    ensures written { OnOk result ((text more : List ℕ) → SplitsAtZero bytes.now text more
        → out.new.items ≡ out.old.items ++ flat_map quoted_byte text) }
    ensures behind { IfOk result (λ rest. (text more : List ℕ) → SplitsAtZero bytes.now text more
        → rest.now ≡ more) }
    ensures shorter { IfOk result (λ rest. length rest.now ≤ length bytes.now) }
{
    let mut rest = bytes;
    loop {
        let (first, others) = match front(rest) {
            Some(found) => found,
            None => return Ok(rest),
        };
        if first == 0 {
            return Ok(others);
        }
        if first == b'\'' {
            out.extend_from_slice(b"''")?;
            rest = others;
        } else {
            let count = run_length(others);
            out.extend_from_slice(&rest[..count + 1])?;
            rest = &others[count..];
        }
    }
}

// The first byte, and those behind it.
fn front(bytes: &[u8]) -> Option<(u8, &[u8])>
    ensures { MatchOption result (bytes.now ≡ []) (λ x. bytes.now ≡ x.0 ∷ x.1.now) }
{
    match bytes {
        [] => None,
        [first, others @ ..] => Some((*first, others)),
    }
}

// How many bytes come before the first 0 or quote.
fn run_length(bytes: &[u8]) -> usize
    ensures within { result ≤ length bytes.now }
    ensures run { list_all stands_alone (take result bytes.now) ≡ true }
{
    for (count, byte) in bytes.iter().enumerate() {
        if *byte == 0 || *byte == b'\'' {
            return count;
        }
    }
    bytes.len()
}
