// What is chosen so far for a query's items, as tuples that are shared: for each item a tuple, or nothing yet. A chosen user
// stands as a tuple of its number and name.
ghost use Rattle.std.specs.Prelude.{◌≡◌, Some, slice_set};
ghost use Rattle.std.specs.Option.{option_copied};
ghost use Rattle.bdb_queries.specs.Slots.{known, known_operand, must_hold};

use crate::shared::Shared;
use bdb_base::{Cond, Operand, Ref, Tuple, Value, cmp_value, compares};
use bdb_queries::{Chosen, known};

impl Chosen for Shared {
    ghost chosen = { λ slots. slots };

    fn slot_at(slots: &[Option<Shared>], at: usize) -> Option<&Tuple> {
        match slots.get(at) {
            Some(Some(shared)) => Some(shared.tuple()),
            Some(None) => None,
            None => None,
        }
    }
}

// The value of a column, once a tuple is chosen for an item.
fn known_with<'a>(
    slots: &'a [Option<Shared>],
    item: u32,
    tuple: &'a Tuple,
    r: Ref,
) -> Option<&'a Value>
    ensures { option_copied result ≡ known (slice_set slots.now item (Some tuple.now)) r }
{
    if r.item == item && (item as usize) < slots.len() {
        tuple.vals.get(r.col as usize)
    } else {
        known(slots, r)
    }
}

// The value of a comparison's right side, once a tuple is chosen for an item.
fn operand_with<'a>(
    slots: &'a [Option<Shared>],
    item: u32,
    tuple: &'a Tuple,
    operand: &'a Operand,
) -> Option<&'a Value>
    ensures { option_copied result ≡ known_operand (slice_set slots.now item (Some tuple.now))
        operand.now }
{
    match operand {
        Operand::Col(r) => known_with(slots, item, tuple, *r),
        Operand::Lit(value) => Some(value),
    }
}

/// Whether a comparison holds, once a tuple is chosen for an item.
pub fn holds_with(slots: &[Option<Shared>], item: u32, tuple: &Tuple, cond: &Cond) -> bool
    ensures { result ≡ must_hold (slice_set slots.now item (Some tuple.now)) cond.now }
{
    match (
        known_with(slots, item, tuple, cond.left),
        operand_with(slots, item, tuple, &cond.right),
    ) {
        (Some(left), Some(right)) => compares(cond.cmp, cmp_value(left, right)),
        _ => false,
    }
}
