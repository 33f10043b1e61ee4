// Which values the tests of a delete or an update ask for of the first columns of a key.
ghost use Rattle.std.specs.Prelude.{◌≡◌, IfOk};
ghost use Rattle.std.specs.Option.{option_copied};
ghost use Rattle.bdb_catalog.specs.Taking.{asks_for, literal_of, value_asked, value_of_test, values_asked};
ghost use Rattle.bdb_base.specs.Bases.{is_written};
ghost use Rattle.bdb_tables.specs.Prefixes.{HasPutValues};

use bdb_base::{Cmp, Cond, Operand, Value, is_written};
use bdb_key::put_value;
use std::alloc::AllocError;

/// Appends the values that tests ask for of the first `n` columns, up to the first of these of which none is asked for. False
/// where one of the values is one that no tuple has.
pub fn put_asked(prefix: &mut Vec<u8>, n: u32, conds: &[Cond]) -> Result<bool, AllocError>
    ensures { IfOk result
        (λ all. HasPutValues all prefix.old.items prefix.new.items (values_asked conds.now n)) }
{
    for col in 0..n {
        let value = match value_asked(conds, col) {
            Some(value) => value,
            None => return Ok(true),
        };
        if !is_written(value) {
            return Ok(false);
        }
        put_value(prefix, value)?;
    }
    Ok(true)
}

// The value that tests ask for of a column: that of the first test that compares it for equality with a literal.
fn value_asked(conds: &[Cond], col: u32) -> Option<&Value>
    ensures { option_copied result ≡ value_asked conds.now col }
{
    for cond in conds {
        match value_of_test(cond, col) {
            Some(value) => return Some(value),
            None => {}
        }
    }
    None
}

// The value that a test asks for of a column, where it is a literal.
fn value_of_test(cond: &Cond, col: u32) -> Option<&Value>
    ensures { option_copied result ≡ value_of_test cond.now col }
{
    if asks_for(cond, col) {
        literal_of(&cond.right)
    } else {
        None
    }
}

// Whether a test asks for equality of a column.
fn asks_for(cond: &Cond, col: u32) -> bool
    ensures { result ≡ asks_for cond.now col }
{
    match cond.cmp {
        Cmp::Eq => cond.left.item == 0 && cond.left.col == col,
        Cmp::Ne => false,
        Cmp::Lt => false,
        Cmp::Le => false,
        Cmp::Gt => false,
        Cmp::Ge => false,
    }
}

// The value of a literal.
fn literal_of(operand: &Operand) -> Option<&Value>
    ensures { option_copied result ≡ literal_of operand.now }
{
    match operand {
        Operand::Col(_) => None,
        Operand::Lit(value) => Some(value),
    }
}
