// Comparisons that are not known to fail, while items are still to be chosen.
ghost use Rattle.std.specs.Prelude.{◌≡◌, slice_set, Some};
ghost use Rattle.std.specs.Option.{option_copied};
ghost use Rattle.bdb_queries.specs.Slots.{known, known_operand};
ghost use Rattle.bdb_model.specs.Allowed.{may_hold, may_all_hold};

use bdb_base::{Cond, Operand, Ref, Tuple, Value, cmp_value, compares};
use bdb_queries::known;

/// Whether no comparison is known to fail once a tuple is chosen for the item at a place.
pub fn may_all_hold_with(slots: &[Option<Tuple>], at: usize, tuple: &Tuple, conds: &[Cond]) -> bool
    ensures { result ≡ may_all_hold (slice_set slots.now at (Some tuple.now)) conds.now }
{
    conds
        .iter()
        .all(|cond| may_hold_with(slots, at, tuple, cond))
}

fn may_hold_with(slots: &[Option<Tuple>], at: usize, tuple: &Tuple, cond: &Cond) -> bool
    ensures { result ≡ may_hold (slice_set slots.now at (Some tuple.now)) cond.now }
{
    match (
        known_with(slots, at, tuple, cond.left),
        known_operand_with(slots, at, tuple, &cond.right),
    ) {
        (Some(left), Some(right)) => compares(cond.cmp, cmp_value(left, right)),
        _ => true,
    }
}

fn known_operand_with<'a>(
    slots: &'a [Option<Tuple>],
    at: usize,
    tuple: &'a Tuple,
    operand: &'a Operand,
) -> Option<&'a Value>
    ensures { option_copied result ≡ known_operand (slice_set slots.now at (Some tuple.now))
        operand.now }
{
    match operand {
        Operand::Col(r) => known_with(slots, at, tuple, *r),
        Operand::Lit(value) => Some(value),
    }
}

fn known_with<'a>(
    slots: &'a [Option<Tuple>],
    at: usize,
    tuple: &'a Tuple,
    r: Ref,
) -> Option<&'a Value>
    ensures { option_copied result ≡ known (slice_set slots.now at (Some tuple.now)) r }
{
    if at < slots.len() && r.item as usize == at {
        tuple.vals.get(r.col as usize)
    } else {
        known(slots, r)
    }
}
