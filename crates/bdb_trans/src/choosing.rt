// The order in which the items of a query are best set.
ghost use Rattle.std.specs.Prelude.{◌≡◌, ◌<◌, ◌^◌, length, IfOk, IsPermutation, true};
ghost use Rattle.bdb_base.specs.declared.kinds.Catalog.{Catalog};
ghost use Rattle.bdb_base.specs.Safety.{query_fits};
ghost use Rattle.bdb_plan.specs.PlanOf.{order_of};
ghost use Rattle.bdb_trans.specs.Orders.{IsOrder};

use crate::items::is_among;
use crate::order::order_of;
use crate::passing::{comes_after, order_passes};
use bdb_base::{Catalog, Cmp, Cond, Item, Operand, Query, Who};
use std::alloc::{AllocError, Global};

// What speaks for an item as the next one, from the most to the least.
const APART: u32 = 128;

const EQUAL: u32 = 64;

const EQUAL_TWICE: u32 = 32;

const COMPARED: u32 = 16;

const EQUAL_TO_LITERAL: u32 = 8;

const TESTED: u32 = 4;

const TAKEN: u32 = 2;

const READY: u32 = 1;

/// An order in which the items of a query are set when it is run. What nothing ties to the answer comes first; then, each time,
/// the item that equalities tie to what is set, else another comparison, else the one with tests of its own.
pub fn order_to_run(alloc: Global, catalog: &Catalog, q: &Query) -> Result<Vec<u32>, AllocError>
    requires fits { query_fits catalog.now q.now ≡ true }
    ensures { IfOk result (λ order. IsOrder q.now order.items) }
{
    let written = order_of(alloc, q.items.as_slice())?;
    if q.items.len() < 2 {
        return Ok(written);
    }
    let order = best_order(alloc, q, written.as_slice())?;
    let mut set = Vec::new(alloc);
    if order_passes(q, &mut set, order.as_slice())? {
        return Ok(order);
    }
    Ok(written)
}

// The same places, the best one first each time.
fn best_order(alloc: Global, q: &Query, written: &[u32]) -> Result<Vec<u32>, AllocError>
    requires { length q.now.items < 2 ^ 32 }
    ensures { IfOk result (λ order. IsPermutation written.now order.items) }
{
    let tied = tied_to_answer(alloc, q, written)?;
    let mut left = Vec::new(alloc);
    left.extend_from_slice(written)?;
    let mut order = Vec::new(alloc);
    while !left.is_empty() {
        let best = best_of(q, tied.as_slice(), order.as_slice(), left.as_slice());
        let place = left.remove(best);
        order.push(place)?;
    }
    Ok(order)
}

// Which of these places is the best one to set next.
fn best_of(q: &Query, tied: &[u32], set: &[u32], left: &[u32]) -> usize
    requires few { length q.now.items < 2 ^ 32 }
    requires some { 0 < length left.now }
    ensures { result < length left.now }
{
    let mut best = 0;
    let mut most = 0;
    for at in 0..left.len() {
        let weight = weight_of(q, tied, set, left[at]);
        if weight > most {
            best = at;
            most = weight;
        }
    }
    best
}

// How much speaks for setting an item next; 0 where it can't be set yet.
fn weight_of(q: &Query, tied: &[u32], set: &[u32], place: u32) -> u32
    requires { length q.now.items < 2 ^ 32 }
{
    if !comes_after(q, set, place) {
        return 0;
    }
    let taken = q.take.as_slice().iter().any(|r| r.item == place);
    let mut weight = READY | points(!is_among(tied, place), APART) | points(taken, TAKEN);
    for cond in q.conds.as_slice() {
        weight = with_comparison(weight, set, place, cond);
    }
    weight
}

// With what one comparison adds.
fn with_comparison(weight: u32, set: &[u32], place: u32, cond: &Cond) -> u32 {
    match other_side(place, cond) {
        Side::Literal => weight | points(is_equality(cond.cmp), EQUAL_TO_LITERAL) | TESTED,
        Side::Own => weight | TESTED,
        Side::Item(item) => {
            if !is_among(set, item) {
                weight
            } else if is_equality(cond.cmp) {
                weight | points(weight & EQUAL != 0, EQUAL_TWICE) | EQUAL
            } else {
                weight | COMPARED
            }
        }
        Side::None => weight,
    }
}

// What an item's column is compared with.
#[derive(Clone, Copy, Drop)]
enum Side {
    Literal,
    Own,
    Item(u32),
    None,
}

// What a comparison compares a column of an item with.
fn other_side(place: u32, cond: &Cond) -> Side {
    match &cond.right {
        Operand::Lit(_) => {
            if cond.left.item == place {
                Side::Literal
            } else {
                Side::None
            }
        }
        Operand::Col(right) => column_side(place, cond.left.item, right.item),
    }
}

// The same, of two columns of these items.
fn column_side(place: u32, left: u32, right: u32) -> Side {
    if left == place {
        if right == place {
            Side::Own
        } else {
            Side::Item(right)
        }
    } else if right == place {
        Side::Item(left)
    } else {
        Side::None
    }
}

fn is_equality(cmp: Cmp) -> bool {
    match cmp {
        Cmp::Eq => true,
        Cmp::Ne => false,
        Cmp::Lt => false,
        Cmp::Le => false,
        Cmp::Gt => false,
        Cmp::Ge => false,
    }
}

fn points(test: bool, points: u32) -> u32 {
    if test { points } else { 0 }
}

// The places of the items that comparisons and paths tie to the columns taken.
fn tied_to_answer(alloc: Global, q: &Query, places: &[u32]) -> Result<Vec<u32>, AllocError> {
    let mut tied = Vec::new(alloc);
    for r in q.take.as_slice() {
        tied.push(r.item)?;
    }
    for _round in places {
        for place in places {
            if !is_among(tied.as_slice(), *place) && is_tied(q, tied.as_slice(), *place) {
                tied.push(*place)?;
            }
        }
    }
    Ok(tied)
}

// Whether a comparison or a path ties an item to one of these.
fn is_tied(q: &Query, tied: &[u32], place: u32) -> bool {
    for cond in q.conds.as_slice() {
        if ties(tied, place, cond) {
            return true;
        }
    }
    for other in tied {
        if names_user(q, place, *other) || names_user(q, *other, place) {
            return true;
        }
    }
    false
}

// Whether a comparison ties an item to one of these.
fn ties(tied: &[u32], place: u32, cond: &Cond) -> bool {
    match other_side(place, cond) {
        Side::Item(item) => is_among(tied, item),
        Side::Literal => false,
        Side::Own => false,
        Side::None => false,
    }
}

// Whether an item's path names the user of another item.
fn names_user(q: &Query, place: u32, user: u32) -> bool {
    match q.items.get(place as usize) {
        Some(Item::Rel { path, .. }) => path.as_slice().iter().any(|who| is_user_of(*who, user)),
        Some(Item::Users { .. }) => false,
        None => false,
    }
}

fn is_user_of(who: Who, user: u32) -> bool {
    match who {
        Who::User(_) => false,
        Who::Of(item) => item == user,
    }
}
