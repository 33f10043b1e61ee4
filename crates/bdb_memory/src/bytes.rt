// Bytes as numbers of eight bytes each, the highest first.
ghost use Rattle.std.specs.Prelude.{◌≡◌, ◌++◌, ◌-◌, ◌<◌, ◌≤◌, ◌^◌, IfSome, IfNone, length, drop};
ghost use Rattle.std.specs.Int.{w64, to_be_bytes};
ghost use Rattle.bdb_base.specs.Segments.{is_prefix};
ghost use Rattle.bdb_keep.specs.Tables.{bytes_cmp};
ghost use Rattle.bdb_memory.specs.Heads.{padded};
ghost use Rattle.bdb_memory.specs.Openings.{filled};

use std::cmp::Ordering;

/// The number of the first eight bytes, and the bytes after them.
#[inline(always)]
fn number_of(bytes: &[u8]) -> (u64, &[u8])
    requires { 8 ≤ length bytes.now }
    ensures front { bytes.now ≡ to_be_bytes w64 result.0 ++ result.1.now }
    ensures small { result.0 < 2 ^ 64 }
    ensures left { length result.1.now ≡ length bytes.now - 8 }
{
    let (b, rest) = bytes.split_at(8);
    let n = u64::from_be_bytes([b[0], b[1], b[2], b[3], b[4], b[5], b[6], b[7]]);
    (n, rest)
}

/// How two strings of bytes compare, eight bytes at a time as long as both have so many.
#[tactic(auto, using(crate::proofs::WordLemmas::words))]
pub fn compare_words(a: &[u8], b: &[u8]) -> Ordering
    ensures { result ≡ bytes_cmp a.now b.now }
{
    match (word_of(a), word_of(b)) {
        (Some((x, more)), Some((y, rest))) => {
            if x == y {
                compare_words(more, rest)
            } else {
                x.cmp(&y)
            }
        }
        _ => a.cmp(&b),
    }
}

/// Whether bytes begin with others, eight bytes at a time as long as both have so many.
pub fn begins_with(bytes: &[u8], prefix: &[u8]) -> bool
    ensures { result ≡ is_prefix prefix.now bytes.now }
{
    match (word_of(bytes), word_of(prefix)) {
        (Some((x, more)), Some((y, rest))) => {
            if x == y {
                begins_with(more, rest)
            } else {
                false
            }
        }
        _ => bytes.starts_with(prefix),
    }
}

/// The number of the first eight bytes, where there are so many.
#[inline(always)]
fn word_of(bytes: &[u8]) -> Option<(u64, &[u8])>
    ensures front { IfSome result (λ x. bytes.now ≡ to_be_bytes w64 x.0 ++ x.1.now) }
    ensures small { IfSome result (λ x. x.0 < 2 ^ 64) }
    ensures none { IfNone result (length bytes.now < 8) }
{
    if bytes.len() < 8 {
        return None;
    }
    Some(number_of(bytes))
}

/// The number of the first eight bytes, with zeros behind fewer.
#[inline(always)]
pub fn padded_word(bytes: &[u8]) -> u64
    ensures bytes { padded 8 bytes.now ≡ to_be_bytes w64 result }
    ensures small { result < 2 ^ 64 }
{
    match word_of(bytes) {
        Some((number, _)) => number,
        None => short_word(bytes),
    }
}

/// The numbers of the first sixteen bytes, eight each, with zeros behind fewer.
#[inline(always)]
fn two_words(bytes: &[u8]) -> (u64, u64)
    ensures bytes { padded 16 bytes.now ≡ to_be_bytes w64 result.0 ++ to_be_bytes w64 result.1 }
    ensures first { result.0 < 2 ^ 64 }
    ensures second { result.1 < 2 ^ 64 }
{
    match word_of(bytes) {
        Some((first, rest)) => (first, padded_word(rest)),
        None => (short_word(bytes), 0),
    }
}

/// Those of the first 24 bytes.
#[inline(always)]
fn three_words(bytes: &[u8]) -> (u64, u64, u64)
    ensures bytes { padded 24 bytes.now
        ≡ to_be_bytes w64 result.0 ++ to_be_bytes w64 result.1 ++ to_be_bytes w64 result.2 }
    ensures first { result.0 < 2 ^ 64 }
    ensures second { result.1 < 2 ^ 64 }
    ensures third { result.2 < 2 ^ 64 }
{
    match word_of(bytes) {
        Some((first, rest)) => {
            let (second, third) = two_words(rest);
            (first, second, third)
        }
        None => (short_word(bytes), 0, 0),
    }
}

/// Those of the first 32 bytes.
#[inline(always)]
pub fn four_words(bytes: &[u8]) -> (u64, u64, u64, u64)
    ensures bytes { padded 32 bytes.now
        ≡ to_be_bytes w64 result.0 ++ to_be_bytes w64 result.1 ++ to_be_bytes w64 result.2
        ++ to_be_bytes w64 result.3 }
    ensures first { result.0 < 2 ^ 64 }
    ensures second { result.1 < 2 ^ 64 }
    ensures third { result.2 < 2 ^ 64 }
    ensures fourth { result.3 < 2 ^ 64 }
{
    match word_of(bytes) {
        Some((first, rest)) => {
            let (second, third, fourth) = three_words(rest);
            (first, second, third, fourth)
        }
        None => (short_word(bytes), 0, 0, 0),
    }
}

/// The number of fewer than eight bytes, with zeros behind them.
fn short_word(bytes: &[u8]) -> u64
    ensures bytes { padded 8 bytes.now ≡ to_be_bytes w64 result }
    ensures small { result < 2 ^ 64 }
{
    match bytes {
        [a, b, c, d, e, f, g] => u64::from_be_bytes([*a, *b, *c, *d, *e, *f, *g, 0]),
        [a, b, c, d, e, f] => u64::from_be_bytes([*a, *b, *c, *d, *e, *f, 0, 0]),
        [a, b, c, d, e] => u64::from_be_bytes([*a, *b, *c, *d, *e, 0, 0, 0]),
        [a, b, c, d] => u64::from_be_bytes([*a, *b, *c, *d, 0, 0, 0, 0]),
        [a, b, c] => u64::from_be_bytes([*a, *b, *c, 0, 0, 0, 0, 0]),
        [a, b] => u64::from_be_bytes([*a, *b, 0, 0, 0, 0, 0, 0]),
        [a] => u64::from_be_bytes([*a, 0, 0, 0, 0, 0, 0, 0]),
        [] => 0,
        [_, _, _, _, _, _, _, _, ..] => {
            let (number, _) = number_of(bytes);
            number
        }
    }
}

/// The number of the first eight bytes, with 255 behind fewer.
#[inline(always)]
pub fn filled_word(bytes: &[u8]) -> u64
    ensures bytes { filled 8 bytes.now ≡ to_be_bytes w64 result }
    ensures small { result < 2 ^ 64 }
{
    match word_of(bytes) {
        Some((number, _)) => number,
        None => short_filled_word(bytes),
    }
}

/// The same of the bytes from an index on.
#[inline(always)]
pub fn filled_from(bytes: &[u8], index: usize) -> u64
    ensures bytes { filled 8 (drop index bytes.now) ≡ to_be_bytes w64 result }
    ensures small { result < 2 ^ 64 }
{
    if index >= bytes.len() {
        return filled_word(&[]);
    }
    filled_word(&bytes[index..])
}

/// The number of fewer than eight bytes, with 255 behind them.
fn short_filled_word(bytes: &[u8]) -> u64
    ensures bytes { filled 8 bytes.now ≡ to_be_bytes w64 result }
    ensures small { result < 2 ^ 64 }
{
    match bytes {
        [] => u64::from_be_bytes([255, 255, 255, 255, 255, 255, 255, 255]),
        [a] => u64::from_be_bytes([*a, 255, 255, 255, 255, 255, 255, 255]),
        [a, b] => u64::from_be_bytes([*a, *b, 255, 255, 255, 255, 255, 255]),
        [a, b, c] => u64::from_be_bytes([*a, *b, *c, 255, 255, 255, 255, 255]),
        [a, b, c, d] => u64::from_be_bytes([*a, *b, *c, *d, 255, 255, 255, 255]),
        [a, b, c, d, e] => u64::from_be_bytes([*a, *b, *c, *d, *e, 255, 255, 255]),
        [a, b, c, d, e, f] => u64::from_be_bytes([*a, *b, *c, *d, *e, *f, 255, 255]),
        [a, b, c, d, e, f, g] => u64::from_be_bytes([*a, *b, *c, *d, *e, *f, *g, 255]),
        [_, _, _, _, _, _, _, _, ..] => {
            let (number, _) = number_of(bytes);
            number
        }
    }
}

/// The bytes from an index on.
#[inline(always)]
pub fn from_index(bytes: &[u8], index: usize) -> &[u8]
    ensures { result.now ≡ drop index bytes.now }
{
    if index >= bytes.len() {
        return &[];
    }
    &bytes[index..]
}
