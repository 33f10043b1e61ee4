// Keys, equality of values and tuples, and when two signed tuples clash.
ghost use Rattle.std.specs.Prelude.{◌≡◌};
ghost use Rattle.bdb_base.specs.Bases.{key_lengths};
ghost use Rattle.bdb_base.specs.Same.{same_value, same_values, same_tuple};
ghost use Rattle.bdb_base.specs.Clash.{key_of, same_key, clash};

use crate::kinds::{RelDef, Sign, Value};
use crate::tuple::Tuple;

/// The length of a relation's key, in columns; 1 where there is no such relation.
pub fn key_length(rels: &[RelDef], rel: u32) -> u32
    ensures { result ≡ key_lengths rels.now rel }
{
    rels.get(rel as usize).map_or(1, |def| def.key)
}

/// The key of a tuple: its first `n` values, or all of them where it has fewer.
pub fn key_of(t: &Tuple, n: u32) -> &[Value]
    ensures { result.now ≡ key_of (λ _. n) t.now }
{
    let vals = t.vals.as_slice();
    &vals[..vals.len().min(n as usize)]
}

/// Whether two values are equal.
pub fn same_value(a: &Value, b: &Value) -> bool
    ensures { result ≡ same_value a.now b.now }
{
    match (a, b) {
        (Value::Int(m), Value::Int(n)) => *m == *n,
        (Value::Text(x), Value::Text(y)) => x.as_bytes() == y.as_bytes(),
        _ => false,
    }
}

/// Whether two rows are equal, value by value.
pub fn same_values(a: &[Value], b: &[Value]) -> bool
    ensures { result ≡ same_values a.now b.now }
{
    match (a, b) {
        ([], []) => true,
        ([x, xs @ ..], [y, ys @ ..]) => same_value(x, y) && same_values(xs, ys),
        _ => false,
    }
}

/// Whether two tuples are equal: of one relation, with the same values.
pub fn same_tuple(a: &Tuple, b: &Tuple) -> bool
    ensures { result ≡ same_tuple a.now b.now }
{
    a.rel == b.rel && same_values(a.vals.as_slice(), b.vals.as_slice())
}

/// Whether two tuples are of one relation and have the same key, which is of length `n`.
pub fn same_key(n: u32, a: &Tuple, b: &Tuple) -> bool
    ensures { result ≡ same_key (λ _. n) a.now b.now }
{
    a.rel == b.rel && same_values(key_of(a, n), key_of(b, n))
}

/// Whether two signed tuples clash, where keys have the length `n`: both are plus, with one key, and they differ; or they
/// are one tuple with different signs. A tuple with fewer values has all of them as its key.
pub fn clash(n: u32, a: &Tuple, s: Sign, b: &Tuple, t: Sign) -> bool
    ensures { result ≡ clash (λ _. n) a.now s b.now t }
{
    match (s, t) {
        (Sign::Plus, Sign::Plus) => same_key(n, a, b) && !same_tuple(a, b),
        (Sign::Minus, Sign::Minus) => false,
        _ => same_tuple(a, b),
    }
}
