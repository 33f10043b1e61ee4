// Which first values a choice's tuple has to have, by the tests right behind it.
ghost use Rattle.std.specs.Prelude.{◌≡◌};
ghost use Rattle.std.specs.Option.{option_copied};
ghost use Rattle.bdb_base.specs.Safety.{column, is_column, is_equality};
ghost use Rattle.bdb_exec.specs.Keys.{asks_for_key, asks_on_left, asks_on_right, names_another, value_behind, value_of_test};

use crate::shared::Shared;
use bdb_base::{Cmp, Cond, Operand, Value};
use bdb_plan::Step;
use bdb_queries::{known, known_operand};

/// Whether the tests right behind ask for a value of an item's first column.
pub fn asks_for_key(slots: &[Option<Shared>], item: u32, behind: &[Step]) -> bool
    ensures { result ≡ asks_for_key slots.now item behind.now }
{
    (item as usize) < slots.len() && value_behind(slots, item, behind, 0).is_some()
}

/// The value that the tests right behind ask for of an item's column.
pub fn value_behind<'a>(
    slots: &'a [Option<Shared>],
    item: u32,
    behind: &'a [Step],
    col: u32,
) -> Option<&'a Value>
    ensures { option_copied result ≡ value_behind slots.now item behind.now col }
{
    for step in behind {
        match step {
            Step::Test { cond } => match value_of_test(slots, item, col, cond) {
                Some(value) => return Some(value),
                None => {}
            },
            Step::User { .. } => return None,
            Step::Start { .. } => return None,
            Step::Edge { .. } => return None,
            Step::Differ { .. } => return None,
            Step::Pos { .. } => return None,
            Step::Bind { .. } => return None,
            Step::Neg { .. } => return None,
        }
    }
    None
}

/// The value that a test asks for of an item's column, where it is known.
pub fn value_of_test<'a>(
    slots: &'a [Option<Shared>],
    item: u32,
    col: u32,
    cond: &'a Cond,
) -> Option<&'a Value>
    ensures { option_copied result ≡ value_of_test slots.now item col cond.now }
{
    if asks_on_left(item, col, cond) {
        known_operand(slots, &cond.right)
    } else if asks_on_right(item, col, cond) {
        known(slots, cond.left)
    } else {
        None
    }
}

// Whether a comparison asks for the value of an item's column, which stands on its left.
fn asks_on_left(item: u32, col: u32, cond: &Cond) -> bool
    ensures { result ≡ asks_on_left item col cond.now }
{
    is_equality(cond.cmp)
        && item == cond.left.item
        && col == cond.left.col
        && names_another(item, &cond.right)
}

// Whether a comparison asks for the value of an item's column, which stands on its right.
fn asks_on_right(item: u32, col: u32, cond: &Cond) -> bool
    ensures { result ≡ asks_on_right item col cond.now }
{
    is_equality(cond.cmp) && is_column(item, col, &cond.right) && cond.left.item != item
}

// Whether a comparison is one for equality.
fn is_equality(cmp: Cmp) -> bool
    ensures { result ≡ is_equality cmp }
{
    match cmp {
        Cmp::Eq => true,
        Cmp::Ne => false,
        Cmp::Lt => false,
        Cmp::Le => false,
        Cmp::Gt => false,
        Cmp::Ge => false,
    }
}

// Whether an operand is an item's column.
fn is_column(item: u32, col: u32, operand: &Operand) -> bool
    ensures { result ≡ is_column (column item col) operand.now }
{
    match operand {
        Operand::Col(r) => item == r.item && col == r.col,
        Operand::Lit(_) => false,
    }
}

// Whether an operand is a column of another item or a literal.
fn names_another(item: u32, operand: &Operand) -> bool
    ensures { result ≡ names_another item operand.now }
{
    match operand {
        Operand::Col(r) => r.item != item,
        Operand::Lit(_) => true,
    }
}
