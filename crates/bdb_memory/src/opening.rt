// The bytes with which the keys of a table begin that are looked for.
ghost use Rattle.std.specs.Prelude.{◌≡◌, ◌∷◌, ℕ, List, IsTrue, drop};
ghost use Rattle.std.specs.Option.{option_map};
ghost use Rattle.std.specs.Ordering.{is_le};
ghost use Rattle.bdb_base.specs.Segments.{is_prefix};
ghost use Rattle.bdb_keep.specs.Tables.{bytes_cmp};
ghost use Rattle.bdb_memory.specs.Heads.{IsHeadOfPlace};
ghost use Rattle.bdb_memory.specs.Openings.{IsLastHead, goes_on};

use crate::bytes::{filled_from, filled_word, from_index};
use crate::head::Head;
use std::marker::Model;

/// The table and the bytes with which places begin, in a form in which a few numbers tell of a place that isn't below them whether it
/// begins so.
#[derive(Drop)]
pub struct Opening<'a> {
    /// The greatest head of such a place.
    last: Head,
    prefix: &'a [u8],
}

impl<'a> Model for Opening<'a> {
    ghost use Rattle.std.specs.Prelude.{ℕ, List, ◌∷◌};
    ghost use Rattle.bdb_memory.specs.Openings.{IsLastHead};

    ghost Value = { List ℕ };

    ghost view = { λ o. o.last.tab ∷ o.prefix.now };

    ghost invariant = { λ o. IsLastHead o.last o.prefix.now };
}

impl<'a> Opening<'a> {
    /// Of the places of a table whose keys begin with these bytes.
    #[inline(always)]
    pub fn of(tab: u8, prefix: &'a [u8]) -> Self
        ensures { result ≡ tab ∷ prefix.now }
    {
        Opening {
            last: last_head(tab, prefix),
            prefix,
        }
    }

    /// With what the bytes behind the head of a place have to begin for the place to begin so, where it isn't below. None where no
    /// place with this head begins so.
    #[inline(always)]
    pub fn behind(&self, head: &Head) -> Option<&[u8]>
        ensures { (place : List ℕ) → IsHeadOfPlace head.now place
            → IsTrue (is_le (bytes_cmp self.now place))
            → goes_on (option_map (λ b. b.now) result) (drop 33 place) ≡ is_prefix self.now place }
    {
        if head.compare(&self.last).is_le() {
            return Some(from_index(self.prefix, 32));
        }
        None
    }
}

/// The greatest head of a key that begins so.
#[inline(always)]
fn last_head(tab: u8, prefix: &[u8]) -> Head
    ensures tab { result.tab ≡ tab }
    ensures last { IsLastHead result prefix.now }
{
    Head {
        tab,
        count: 32,
        first: filled_word(prefix),
        second: filled_from(prefix, 8),
        third: filled_from(prefix, 16),
        fourth: filled_from(prefix, 24),
    }
}
