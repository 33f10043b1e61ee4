// Places as numbers.
ghost use Rattle.std.specs.Prelude.{◌≡◌, ◌≤◌, ◌∷◌, ℕ, List, false, length};
ghost use Rattle.std.specs.declared.cmp.Ordering.TheVariants.{Equal};
ghost use Rattle.bdb_keep.specs.Tables.{bytes_cmp};
ghost use Rattle.bdb_memory.specs.Heads.{IsHeadOf, IsHeadOfPlace, key_of};

use crate::bytes::from_index;
use crate::head::Head;
use std::cmp::Ordering;
use std::marker::Model;

/// A place that is looked for, in the form in which it is compared.
#[derive(Drop)]
pub struct Probe<'a> {
    head: Head,
    rest: &'a [u8],
}

impl<'a> Model for Probe<'a> {
    ghost use Rattle.std.specs.Prelude.{ℕ, List, ◌∷◌};
    ghost use Rattle.bdb_memory.specs.Heads.{IsHeadOf, key_of};

    ghost Value = { List ℕ };

    ghost view = { λ p. p.head.tab ∷ key_of p.head p.rest.now };

    ghost invariant = { λ p. IsHeadOf (key_of p.head p.rest.now) p.head p.rest.now };
}

impl<'a> Probe<'a> {
    /// The place of a key in a table.
    pub fn of(tab: u8, key: &'a [u8]) -> Self
        ensures { result ≡ tab ∷ key.now }
    {
        Probe {
            head: Head::of(tab, key),
            rest: from_index(key, 32),
        }
    }

    /// The place with this head and these bytes of the key behind it.
    #[inline(always)]
    pub fn from_parts(head: Head, rest: &'a [u8]) -> Self
        requires { IsHeadOf (key_of head rest.now) head rest.now }
        ensures { result ≡ head.tab ∷ key_of head rest.now }
    {
        Probe { head, rest }
    }

    /// The head, and the bytes of the key behind it.
    #[inline(always)]
    pub fn parts(&self) -> (Head, &[u8])
        ensures place { result.0.tab ∷ key_of result.0 result.1.now ≡ self.now }
        ensures head { IsHeadOf (key_of result.0 result.1.now) result.0 result.1.now }
    {
        (self.head, self.rest)
    }

    /// Whether the key has more bytes than those of the head.
    #[inline(always)]
    pub fn is_long(&self) -> bool
        ensures { result ≡ false → length self.now ≤ 33 }
    {
        !self.rest.is_empty()
    }

    /// The number of the table.
    #[inline(always)]
    pub fn tab(&self) -> u8 {
        self.head.tab
    }

    /// A number by which places of one table whose keys begin with the same four bytes are remembered together.
    #[inline(always)]
    pub fn prefix(&self) -> u64 {
        (self.head.first >> 32 << 3) ^ u64::from(self.head.tab % 8)
    }

    /// How a place with this head compares with the one that is looked for; at Equal the head doesn't tell.
    #[inline(always)]
    pub fn compare_head(&self, head: &Head) -> Ordering
        ensures { (place : List ℕ) → IsHeadOfPlace head.now place → (result ≡ Equal → ⊥)
            → result ≡ bytes_cmp place self.now }
    {
        head.compare(&self.head)
    }
}
