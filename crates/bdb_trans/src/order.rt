// The order in which a query's items are set.
ghost use Rattle.std.specs.Prelude.{◌≡◌, ◌+◌, ◌<◌, ◌^◌, ◌++◌, length, IfOk, OnOk};
ghost use Rattle.bdb_plan.specs.PlanOf.{places, order_of};
ghost use Rattle.bdb_trans.specs.Turns.{comes_in, turn_of};

use bdb_base::{Item, Sign};
use std::alloc::{AllocError, Global};

/// When an item is set: users first, then the tuples of plus items, then those of minus items.
#[derive(Clone, Copy, PartialEq, Eq, Drop)]
enum Turn {
    Users,
    Plus,
    Minus,
}

/// The places of the items in the order in which they are set.
pub fn order_of(alloc: Global, items: &[Item]) -> Result<Vec<u32>, AllocError>
    requires { length items.now < 2 ^ 32 }
    ensures { IfOk result (λ order. order.items ≡ order_of items.now) }
{
    let mut order = Vec::new(alloc);
    append_places(&mut order, Turn::Users, 0, items)?;
    append_places(&mut order, Turn::Plus, 0, items)?;
    append_places(&mut order, Turn::Minus, 0, items)?;
    Ok(order)
}

fn append_places(
    order: &mut Vec<u32>,
    turn: Turn,
    at: u32,
    items: &[Item],
) -> Result<(), AllocError>
    requires { at + length items.now < 2 ^ 32 }
    ensures { OnOk result
        (order.new.items ≡ order.old.items ++ places (comes_in turn) at items.now) }
{
    match items {
        [] => Ok(()),
        [item, rest @ ..] => {
            if turn_of(item) == turn {
                order.push(at)?;
                append_places(order, turn, at + 1, rest)?;
                Ok(())
            } else {
                append_places(order, turn, at + 1, rest)?;
                Ok(())
            }
        }
    }
}

fn turn_of(item: &Item) -> Turn
    ensures { result ≡ turn_of item.now }
{
    match item {
        Item::Users { .. } => Turn::Users,
        Item::Rel { sign, .. } => match sign {
            Sign::Plus => Turn::Plus,
            Sign::Minus => Turn::Minus,
        },
    }
}
