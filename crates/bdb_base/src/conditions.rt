// Tests of a tuple's columns.
ghost use Rattle.std.specs.Prelude.{◌≡◌};
ghost use Rattle.std.specs.Option.{option_copied};
ghost use Rattle.bdb_base.specs.Conditions.{compares, value_at, operand_at, meets_one, meets};

use crate::kinds::{Cmp, Cond, Operand, Ref, Value};
use crate::order::cmp_value;
use crate::tuple::Tuple;
use std::cmp::Ordering;

/// Whether a comparison's sign holds of two values that compare so.
pub fn compares(cmp: Cmp, order: Ordering) -> bool
    ensures { result ≡ compares cmp order }
{
    match cmp {
        Cmp::Eq => order.is_eq(),
        Cmp::Ne => order.is_ne(),
        Cmp::Lt => order.is_lt(),
        Cmp::Le => order.is_le(),
        Cmp::Gt => order.is_gt(),
        Cmp::Ge => order.is_ge(),
    }
}

/// Whether a tuple meets all tests, where item 0 is the tuple. It meets no test that names a column which it lacks.
pub fn meets(t: &Tuple, conds: &[Cond]) -> bool
    ensures { result ≡ meets conds.now t.now }
{
    conds.iter().all(|cond| meets_one(t, cond))
}

fn meets_one(t: &Tuple, cond: &Cond) -> bool
    ensures { result ≡ meets_one t.now cond.now }
{
    match (value_at(t, cond.left), operand_at(t, &cond.right)) {
        (Some(left), Some(right)) => compares(cond.cmp, cmp_value(left, right)),
        _ => false,
    }
}

fn value_at(t: &Tuple, place: Ref) -> Option<&Value>
    ensures { option_copied result ≡ value_at t.now place }
{
    if place.item == 0 {
        t.vals.get(place.col as usize)
    } else {
        None
    }
}

fn operand_at<'a>(t: &'a Tuple, operand: &'a Operand) -> Option<&'a Value>
    ensures { option_copied result ≡ operand_at t.now operand.now }
{
    match operand {
        Operand::Col(place) => value_at(t, *place),
        Operand::Lit(value) => Some(value),
    }
}
