// Items in the order of their numbers.
ghost use Rattle.std.specs.Prelude.{◌≡◌, true};
ghost use Rattle.std.specs.Option.{option_copied};
ghost use Rattle.bdb_base.specs.SortedSet.{ascending};
ghost use Rattle.bdb_decode.specs.Items.{item_of, number_cmp};

use bdb_graph::place_of_number;

/// The item of a number, if there is one. It is a binary search.
pub fn item_of<X>(items: &[(u32, X)], number: u32) -> Option<&X>
    requires { ascending number_cmp items.now ≡ true }
    ensures { option_copied result ≡ item_of items.now number }
{
    match place_of_number(items, number) {
        Some(at) => Some(&items[at].1),
        None => None,
    }
}
