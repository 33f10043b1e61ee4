// Finite sets as lists in strict order.
ghost use Rattle.std.specs.Prelude.{◌≡◌, ◌<◌, true, not, slice_get, Some, IfOk, OnOk, OnErr, MatchResult};
ghost use Rattle.bdb_base.specs.SortedSet.{BelongsAt, is_member, ascending, put_in, taken_out};
ghost use Rattle.bdb_base.specs.SetLaws.{MembersMakeSet, PutKeepsOrder, TakeKeepsOrder, PutAddsMember, TakeDropsMember, SetIsAscending, SetKeepsMembers, LoopMakesSet};

use crate::kinds::{Stmt, Value};
use crate::list::{Exact, List};
use crate::order::{cmp_path, cmp_stmt, cmp_tuple, cmp_value};
use crate::path::Path;
use crate::tuple::Tuple;
use std::alloc::{AllocError, Global};
use std::cmp::Ordering;

/// A type whose values stand in one order, in which two are equal only where they are the same.
pub trait Ordered: Exact {
    ghost use Rattle.std.specs.declared.cmp.Ordering.{Ordering};
    ghost use Rattle.std.specs.Prelude.{◌≡◌};
    ghost use Rattle.bdb_base.specs.SortedSet.{IsExactOrder};

    ghost order: { Self → Self → Ordering };

    /// The order of two values.
    fn compare(&self, other: &Self) -> Ordering
        ensures { result ≡ order self.now other.now };

    ghost exact: { IsExactOrder order };
}

impl Ordered for Value {
    ghost use Rattle.bdb_base.specs.Order.{value_cmp};
    ghost use Rattle.bdb_base.specs.OrderLemmas.{value_exact};

    ghost order = { value_cmp };

    ghost exact = { value_exact };

    fn compare(&self, other: &Self) -> Ordering {
        cmp_value(self, other)
    }
}

impl Ordered for Tuple {
    ghost use Rattle.bdb_base.specs.Order.{tuple_cmp};
    ghost use Rattle.bdb_base.specs.OrderLemmas.{tuple_exact};

    ghost order = { tuple_cmp };

    ghost exact = { tuple_exact };

    fn compare(&self, other: &Self) -> Ordering {
        cmp_tuple(self, other)
    }
}

impl Ordered for Path {
    ghost use Rattle.bdb_base.specs.Order.{path_cmp};
    ghost use Rattle.bdb_base.specs.OrderLemmas.{path_exact};

    ghost order = { path_cmp };

    ghost exact = { path_exact };

    fn compare(&self, other: &Self) -> Ordering {
        cmp_path(self.as_slice(), other.as_slice())
    }
}

impl Ordered for Stmt {
    ghost use Rattle.bdb_base.specs.Order.{statement_cmp};
    ghost use Rattle.bdb_base.specs.OrderLemmas.{statement_exact};

    ghost order = { statement_cmp };

    ghost exact = { statement_exact };

    fn compare(&self, other: &Self) -> Ordering {
        cmp_stmt(self, other)
    }
}

/// Where an item stands in a set: `Ok` with its place, or `Err` with the place where it belongs. It is a
/// binary search.
pub fn place_of<X: Ordered>(xs: &[X], x: &X) -> Result<usize, usize>
    requires { ascending X.order xs.now ≡ true }
    ensures { MatchResult result (λ at. slice_get xs.now at ≡ Some x.now)
        (BelongsAt X.order xs.now x.now) }
{
    let mut low = 0;
    let mut high = xs.len();
    while low < high {
        let mid = low + (high - low) / 2;
        let order = xs[mid].compare(x);
        match order {
            Ordering::Less => low = mid + 1,
            Ordering::Equal => return Ok(mid),
            Ordering::Greater => high = mid,
        }
    }
    Err(low)
}

/// Whether an item is in a set.
pub fn contains<X: Ordered>(xs: &[X], x: &X) -> bool
    requires { ascending X.order xs.now ≡ true }
    ensures { result ≡ is_member X.order xs.now x.now }
{
    match place_of(xs, x) {
        Ok(_) => true,
        Err(_) => false,
    }
}

/// Puts an item into a set. True where it was added, false where it stood. After a refusal the set is unchanged.
pub fn put<X: Ordered>(list: &mut List<X>, x: X) -> Result<bool, AllocError>
    requires { ascending X.order list.old ≡ true }
    ensures added { IfOk result (λ added. added ≡ not (is_member X.order list.old x)) }
    ensures ok { OnOk result (list.new ≡ put_in X.order list.old x) }
    ensures err { OnErr result (list.new ≡ list.old) }
{
    match place_of(list.as_slice(), &x) {
        Ok(_) => Ok(false),
        Err(at) => {
            list.insert(at, x)?;
            Ok(true)
        }
    }
}

/// Puts a copy of an item into a set, and copies it only where it is added. True where it was added, false where it
/// stood. After a refusal the set is unchanged.
pub fn put_copy<X: Ordered>(alloc: Global, list: &mut List<X>, x: &X) -> Result<bool, AllocError>
    requires { ascending X.order list.old ≡ true }
    ensures added { IfOk result (λ added. added ≡ not (is_member X.order list.old x.now)) }
    ensures ok { OnOk result (list.new ≡ put_in X.order list.old x.now) }
    ensures err { OnErr result (list.new ≡ list.old) }
{
    match place_of(list.as_slice(), x) {
        Ok(_) => Ok(false),
        Err(at) => {
            let copy = x.try_clone(alloc)?;
            list.insert(at, copy)?;
            Ok(true)
        }
    }
}

/// Takes an item out of a set. True where it stood.
pub fn take<X: Ordered>(list: &mut List<X>, x: &X) -> bool
    requires { ascending X.order list.old ≡ true }
    ensures stood { result ≡ is_member X.order list.old x.now }
    ensures taken { list.new ≡ taken_out X.order list.old x.now }
{
    match place_of(list.as_slice(), x) {
        Ok(at) => {
            let _item = list.remove(at);
            true
        }
        Err(_) => false,
    }
}

/// Two ascending lists with the same members are one list.
pub fn members_make_set<X: Ordered>()
    ensures { MembersMakeSet X.order }
{}

/// A list stays ascending where an item is put in.
pub fn put_keeps_order<X: Ordered>()
    ensures { PutKeepsOrder X.order }
{}

/// A list stays ascending where an item is taken out.
pub fn take_keeps_order<X: Ordered>()
    ensures { TakeKeepsOrder X.order }
{}

/// After a put the members are the item and those before.
pub fn put_adds_member<X: Ordered>()
    ensures { PutAddsMember X.order }
{}

/// After a take the members are those before without the item.
pub fn take_drops_member<X: Ordered>()
    ensures { TakeDropsMember X.order }
{}

/// The set of a list is ascending.
pub fn set_is_ascending<X: Ordered>()
    ensures { SetIsAscending X.order }
{}

/// The set of a list has the list's members.
pub fn set_keeps_members<X: Ordered>()
    ensures { SetKeepsMembers X.order }
{}

/// A loop that puts each item of a list in, the first one first, makes the set of the list.
pub fn loop_makes_set<X: Ordered>()
    ensures { LoopMakesSet X.order }
{}
