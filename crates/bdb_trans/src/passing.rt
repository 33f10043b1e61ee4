// Whether the items of a query can be set in an order.
ghost use Rattle.std.specs.Prelude.{◌≡◌, ◌+◌, ◌<◌, ◌^◌, length, IfOk, Some};
ghost use Rattle.std.specs.List.{list_all};
ghost use Rattle.bdb_base.specs.Safety.{is_given};
ghost use Rattle.bdb_trans.specs.Orders.{who_among};
ghost use Rattle.bdb_trans.specs.Passing.{comes_after, given_set, needs_set, order_passes};

use crate::items::is_among;
use bdb_base::{Item, Query, Sign, Who};
use std::alloc::AllocError;

/// Whether the items at these places can be set one after the other, where others are set.
pub fn order_passes(q: &Query, set: &mut Vec<u32>, order: &[u32]) -> Result<bool, AllocError>
    requires { length q.now.items < 2 ^ 32 }
    ensures { IfOk result (λ passes. passes ≡ order_passes q.now set.old.items order.now) }
{
    match order {
        [] => Ok(true),
        [at, rest @ ..] => {
            if !comes_after(q, set.as_slice(), *at) {
                return Ok(false);
            }
            set.insert(0, *at)?;
            let passes = order_passes(q, set, rest)?;
            Ok(passes)
        }
    }
}

/// Whether the item at a place can be set next.
pub fn comes_after(q: &Query, set: &[u32], at: u32) -> bool
    requires { length q.now.items < 2 ^ 32 }
    ensures { result ≡ comes_after q.now set.now at }
{
    if is_among(set, at) {
        return false;
    }
    match q.items.get(at as usize) {
        Some(item) => needs_set(q, set, item),
        None => false,
    }
}

// Whether what an item needs is set.
fn needs_set(q: &Query, set: &[u32], item: &Item) -> bool
    requires { length q.now.items < 2 ^ 32 }
    ensures { result ≡ needs_set q.now set.now (Some item.now) }
{
    match item {
        Item::Users { .. } => true,
        Item::Rel { sign, path, .. } => match sign {
            Sign::Plus => are_set(set, path.as_slice()),
            Sign::Minus => are_set(set, path.as_slice()) && given_set(set, 0, q.items.as_slice()),
        },
    }
}

// Whether the users of a path are set.
fn are_set(set: &[u32], path: &[Who]) -> bool
    ensures { result ≡ list_all (who_among set.now) path.now }
{
    path.iter().all(|who| is_set(set, *who))
}

// Whether a user of a path is fixed, or set.
fn is_set(set: &[u32], who: Who) -> bool
    ensures { result ≡ who_among set.now who }
{
    match who {
        Who::User(_) => true,
        Who::Of(item) => is_among(set, item),
    }
}

// Whether the `Users` items and plus items are set.
fn given_set(set: &[u32], at: u32, items: &[Item]) -> bool
    requires { at + length items.now < 2 ^ 32 }
    ensures { result ≡ given_set set.now at items.now }
{
    match items {
        [] => true,
        [item, rest @ ..] => {
            (!is_given(item) || is_among(set, at)) && given_set(set, at + 1, rest)
        }
    }
}

// Whether an item is a `Users` item or a plus item.
fn is_given(item: &Item) -> bool
    ensures { result ≡ is_given (Some item.now) }
{
    match item {
        Item::Users { .. } => true,
        Item::Rel { sign, .. } => match sign {
            Sign::Plus => true,
            Sign::Minus => false,
        },
    }
}
