// The orders of values, tuples, paths and statements.
ghost use Rattle.std.specs.Prelude.{◌≡◌, ◌↔◌};
ghost use Rattle.std.specs.declared.cmp.Ordering.TheVariants.{Equal};
ghost use Rattle.std.specs.Ordering.{is_eq};
ghost use Rattle.bdb_base.specs.Order.{value_cmp, row_cmp, tuple_cmp, path_cmp, sign_cmp, statement_cmp};
ghost use Rattle.bdb_base.specs.Same.{same_value, same_tuple, same_path, same_statement};

use crate::kinds::{Sign, Stmt, Value};
use crate::tuple::Tuple;
use std::cmp::Ordering;

/// The order of two values: integers by number, texts by their bytes, an integer before a text.
pub fn cmp_value(a: &Value, b: &Value) -> Ordering
    ensures order { result ≡ value_cmp a.now b.now }
    ensures same { is_eq result ≡ same_value a.now b.now }
    ensures equal { (result ≡ Equal) ↔ (a.now ≡ b.now) }
{
    value_order(a, b)
}

/// The order of two rows: value by value, a proper prefix first.
pub fn cmp_row(a: &[Value], b: &[Value]) -> Ordering
    ensures { result ≡ row_cmp a.now b.now }
{
    row_order(a, b)
}

/// The order of two tuples: by relation number, then value by value.
pub fn cmp_tuple(a: &Tuple, b: &Tuple) -> Ordering
    ensures order { result ≡ tuple_cmp a.now b.now }
    ensures same { is_eq result ≡ same_tuple a.now b.now }
    ensures equal { (result ≡ Equal) ↔ (a.now ≡ b.now) }
{
    tuple_order(a, b)
}

/// The order of two paths: a shorter one first, then user by user.
pub fn cmp_path(a: &[u32], b: &[u32]) -> Ordering
    ensures order { result ≡ path_cmp a.now b.now }
    ensures same { is_eq result ≡ same_path a.now b.now }
    ensures equal { (result ≡ Equal) ↔ (a.now ≡ b.now) }
{
    path_order(a, b)
}

/// The order of two statements: by path, then tuple, then sign, plus first.
pub fn cmp_stmt(a: &Stmt, b: &Stmt) -> Ordering
    ensures order { result ≡ statement_cmp a.now b.now }
    ensures same { is_eq result ≡ same_statement a.now b.now }
    ensures equal { (result ≡ Equal) ↔ (a.now ≡ b.now) }
{
    stmt_order(a, b)
}

fn value_order(a: &Value, b: &Value) -> Ordering
    ensures { result ≡ value_cmp a.now b.now }
{
    match (a, b) {
        (Value::Int(m), Value::Int(n)) => m.cmp(n),
        (Value::Int(_), Value::Text(_)) => Ordering::Less,
        (Value::Text(_), Value::Int(_)) => Ordering::Greater,
        (Value::Text(x), Value::Text(y)) => x.as_bytes().cmp(y.as_bytes()),
    }
}

fn row_order(a: &[Value], b: &[Value]) -> Ordering
    ensures { result ≡ row_cmp a.now b.now }
{
    match a {
        [] if b.is_empty() => Ordering::Equal,
        [] => Ordering::Less,
        [x, xs @ ..] => match b {
            [] => Ordering::Greater,
            [y, ys @ ..] => match value_order(x, y) {
                Ordering::Equal => row_order(xs, ys),
                other => other,
            },
        },
    }
}

fn tuple_order(a: &Tuple, b: &Tuple) -> Ordering
    ensures { result ≡ tuple_cmp a.now b.now }
{
    match a.rel.cmp(&b.rel) {
        Ordering::Equal => row_order(a.vals.as_slice(), b.vals.as_slice()),
        other => other,
    }
}

fn path_order(a: &[u32], b: &[u32]) -> Ordering
    ensures { result ≡ path_cmp a.now b.now }
{
    match a.len().cmp(&b.len()) {
        Ordering::Equal => a.cmp(b),
        other => other,
    }
}

fn sign_order(a: Sign, b: Sign) -> Ordering
    ensures { result ≡ sign_cmp a b }
{
    match (a, b) {
        (Sign::Plus, Sign::Minus) => Ordering::Less,
        (Sign::Minus, Sign::Plus) => Ordering::Greater,
        _ => Ordering::Equal,
    }
}

fn stmt_order(a: &Stmt, b: &Stmt) -> Ordering
    ensures { result ≡ statement_cmp a.now b.now }
{
    match path_order(a.path.as_slice(), b.path.as_slice()) {
        Ordering::Equal => match tuple_order(&a.tuple, &b.tuple) {
            Ordering::Equal => sign_order(a.sign, b.sign),
            other => other,
        },
        other => other,
    }
}
