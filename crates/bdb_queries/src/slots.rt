// What is chosen so far for a query's items: for each item a tuple, or nothing yet. A chosen user stands as a tuple of
// its number and name, with its number in place of a relation's.
ghost use Rattle.std.specs.Prelude.{◌≡◌, ◌<◌, ◌≤◌, ◌+◌, length, slice_set, Some, IfOk};
ghost use Rattle.std.specs.Option.{option_copied, option_map};
ghost use Rattle.bdb_base.specs.Limits.{most_users};
ghost use Rattle.bdb_queries.specs.Slots.{slot_at, known, known_operand, must_hold, must_all_hold, known_row, uid_of, path_of, user_tuple, user_tuples};

use bdb_base::{
    Cond, Exact, List, Operand, Ref, Tuple, Txt, UserSlot, Value, Who, cmp_value, compares,
};
use std::alloc::{AllocError, Global};

/// What stands in a slot: a tuple, by itself or shared.
pub trait Chosen {
    ghost use Rattle.std.specs.Prelude.{◌≡◌, List, Option};
    ghost use Rattle.std.specs.Option.{option_copied};
    ghost use Rattle.bdb_base.specs.declared.tuple.Tuple.{Tuple};
    ghost use Rattle.bdb_queries.specs.Slots.{slot_at};

    // the tuples that are chosen
    ghost chosen: { List (Option Self) → List (Option Tuple) };

    /// What is chosen for the item at a place.
    fn slot_at(slots: &[Option<Self>], at: usize) -> Option<&Tuple>
        ensures { option_copied result ≡ slot_at (chosen slots.now) at };
}

impl Chosen for Tuple {
    ghost chosen = { λ slots. slots };

    fn slot_at(slots: &[Option<Tuple>], at: usize) -> Option<&Tuple> {
        match slots.get(at) {
            Some(Some(tuple)) => Some(tuple),
            Some(None) => None,
            None => None,
        }
    }
}

/// The value of a column, where its item is chosen.
pub fn known<S: Chosen>(slots: &[Option<S>], r: Ref) -> Option<&Value>
    ensures { option_copied result ≡ known (S.chosen slots.now) r }
{
    match S::slot_at(slots, r.item as usize) {
        Some(tuple) => tuple.vals.get(r.col as usize),
        None => None,
    }
}

/// The value of a comparison's right side, where it is known.
pub fn known_operand<'a, S: Chosen>(
    slots: &'a [Option<S>],
    operand: &'a Operand,
) -> Option<&'a Value>
    ensures { option_copied result ≡ known_operand (S.chosen slots.now) operand.now }
{
    match operand {
        Operand::Col(r) => known(slots, *r),
        Operand::Lit(value) => Some(value),
    }
}

/// Slots with a tuple chosen for the item at a place, where there is one.
pub fn with_chosen(
    alloc: Global,
    slots: &[Option<Tuple>],
    at: usize,
    tuple: &Tuple,
) -> Result<Vec<Option<Tuple>>, AllocError>
    ensures { IfOk result (λ next. next.items ≡ slice_set slots.now at (Some tuple.now)) }
{
    let mut next = Vec::new(alloc);
    for slot in slots {
        next.push(copied(alloc, slot)?)?;
    }
    if at >= next.len() {
        return Ok(next);
    }
    next[at] = Some(tuple.try_clone(alloc)?);
    Ok(next)
}

fn copied(alloc: Global, slot: &Option<Tuple>) -> Result<Option<Tuple>, AllocError>
    ensures { IfOk result (λ copy. copy ≡ slot.now) }
{
    match slot {
        Some(tuple) => {
            let copy = tuple.try_clone(alloc)?;
            Ok(Some(copy))
        }
        None => Ok(None),
    }
}

/// Whether all comparisons are known to hold.
pub fn must_all_hold(slots: &[Option<Tuple>], conds: &[Cond]) -> bool
    ensures { result ≡ must_all_hold slots.now conds.now }
{
    conds.iter().all(|cond| must_hold(slots, cond))
}

/// Whether a comparison is known to hold.
pub fn must_hold<S: Chosen>(slots: &[Option<S>], cond: &Cond) -> bool
    ensures { result ≡ must_hold (S.chosen slots.now) cond.now }
{
    match (known(slots, cond.left), known_operand(slots, &cond.right)) {
        (Some(left), Some(right)) => compares(cond.cmp, cmp_value(left, right)),
        _ => false,
    }
}

/// The values of columns, where all are known.
pub fn known_row<S: Chosen>(
    alloc: Global,
    slots: &[Option<S>],
    take: &[Ref],
) -> Result<Option<List<Value>>, AllocError>
    ensures { IfOk result (λ row. row ≡ known_row (S.chosen slots.now) take.now) }
{
    let mut row = List::new(alloc);
    for r in take {
        match known(slots, *r) {
            Some(value) => row.push(value.try_clone(alloc)?)?,
            None => return Ok(None),
        }
    }
    Ok(Some(row))
}

/// A path with the chosen users put in, where all are chosen.
pub fn path_of(
    alloc: Global,
    slots: &[Option<Tuple>],
    path: &[Who],
) -> Result<Option<Vec<u32>>, AllocError>
    ensures { IfOk result (λ users. option_map (λ v. v.items) users ≡ path_of slots.now path.now) }
{
    let mut users = Vec::new(alloc);
    for who in path {
        match uid_of(slots, *who) {
            Some(uid) => users.push(uid)?,
            None => return Ok(None),
        }
    }
    Ok(Some(users))
}

/// A user of a path: a fixed one, or the one chosen for a `Users` item.
pub fn uid_of<S: Chosen>(slots: &[Option<S>], who: Who) -> Option<u32>
    ensures { result ≡ uid_of (S.chosen slots.now) who }
{
    match who {
        Who::User(uid) => Some(uid),
        Who::Of(item) => match S::slot_at(slots, item as usize) {
            Some(tuple) => Some(tuple.rel),
            None => None,
        },
    }
}

/// The live users as tuples.
pub fn user_tuples(alloc: Global, users: &[UserSlot]) -> Result<List<Tuple>, AllocError>
    requires { length users.now ≤ most_users }
    ensures { IfOk result (λ tuples. tuples ≡ user_tuples 1 users.now) }
{
    let mut tuples = List::new(alloc);
    let mut uid = 1;
    for slot in users {
        match slot {
            UserSlot::Live(name) => tuples.push(user_tuple(alloc, uid, name.try_clone(alloc)?)?)?,
            UserSlot::Gone => {}
        }
        uid += 1;
    }
    Ok(tuples)
}

/// A user as a tuple.
pub fn user_tuple(alloc: Global, uid: u32, name: Txt) -> Result<Tuple, AllocError>
    ensures { IfOk result (λ tuple. tuple ≡ user_tuple uid name) }
{
    let mut vals = List::new(alloc);
    vals.push(Value::Int(i64::from(uid)))?;
    vals.push(Value::Text(name))?;
    Ok(Tuple { rel: uid, vals })
}
