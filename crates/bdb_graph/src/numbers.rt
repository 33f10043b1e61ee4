// Looking up by number what stands in the order of its numbers.
ghost use Rattle.std.specs.Prelude.{◌≡◌, ℕ, true, false, map, slice_get, Some, MatchOption};
ghost use Rattle.std.specs.Ordering.{nat_cmp};
ghost use Rattle.bdb_base.specs.SortedSet.{ascending, is_member};

use std::cmp::Ordering;

/// What has a number.
pub trait HasNumber {
    // the number
    ghost number_of: { Self → ℕ };

    fn number(&self) -> u32
        ensures { result ≡ number_of self.now };
}

// An item beside its number.
impl<X> HasNumber for (u32, X) {
    ghost number_of = { λ e. e.0 };

    fn number(&self) -> u32 {
        self.0
    }
}

/// The place of a number among those of items, which are in order. It is a binary search.
pub fn place_of_number<X: HasNumber>(items: &[X], number: u32) -> Option<usize>
    requires { ascending nat_cmp (map X.number_of items.now) ≡ true }
    ensures { MatchOption result (is_member nat_cmp (map X.number_of items.now) number ≡ false)
        (λ at. slice_get (map X.number_of items.now) at ≡ Some number) }
{
    let mut low = 0;
    let mut high = items.len();
    while low < high {
        let mid = low + (high - low) / 2;
        let order = number_order(&items[mid], number);
        match order {
            Ordering::Less => low = mid + 1,
            Ordering::Equal => return Some(mid),
            Ordering::Greater => high = mid,
        }
    }
    None
}

// The order of an item's number and another one.
fn number_order<X: HasNumber>(item: &X, number: u32) -> Ordering
    ensures { result ≡ nat_cmp (X.number_of item.now) number }
{
    item.number().cmp(&number)
}
