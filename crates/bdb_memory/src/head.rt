// The table and the first bytes of a place, as numbers.
ghost use Rattle.std.specs.Prelude.{◌≡◌, ◌≤◌, ◌++◌, [], OnOk, OnErr, drop, take};
ghost use Rattle.std.specs.Int.{to_be_bytes};
ghost use Rattle.bdb_memory.specs.Heads.{IsHeadOf, bytes_of, heads_cmp, numbers_cmp, padded};

use crate::bytes::four_words;
use std::alloc::AllocError;
use std::cmp::Ordering;

/// The table of a place, and the first 32 bytes of its key as four numbers, the highest byte first, with zeros behind the
/// bytes of a shorter key.
#[derive(Clone, Copy)]
pub struct Head {
    pub tab: u8,
    /// How many bytes these are.
    pub count: u8,
    pub first: u64,
    pub second: u64,
    pub third: u64,
    pub fourth: u64,
}

impl Head {
    /// The head of the place of a key in a table.
    #[inline(always)]
    pub fn of(tab: u8, key: &[u8]) -> Self
        ensures tab { result.tab ≡ tab }
        ensures head { IsHeadOf key.now result (drop 32 key.now) }
    {
        let (first, second, third, fourth) = four_words(key);
        Head {
            tab,
            count: key.len().min(32) as u8,
            first,
            second,
            third,
            fourth,
        }
    }

    /// The head of the place of a key of so many of these bytes, behind which there are zeros.
    #[inline(always)]
    pub fn of_padded(tab: u8, count: u8, bytes: &[u8]) -> Self
        requires count { count ≤ 32 }
        requires zeros { padded 32 (take count bytes.now) ≡ bytes.now }
        ensures tab { result.tab ≡ tab }
        ensures head { IsHeadOf (take count bytes.now) result [] }
    {
        let (first, second, third, fourth) = four_words(bytes);
        Head {
            tab,
            count,
            first,
            second,
            third,
            fourth,
        }
    }

    /// How two heads compare.
    #[inline(always)]
    pub fn compare(&self, other: &Head) -> Ordering
        ensures { result ≡ heads_cmp self.now other.now }
    {
        if self.tab != other.tab {
            return self.tab.cmp(&other.tab);
        }
        self.compare_numbers(other)
    }

    /// How they compare in the same table.
    #[inline(always)]
    fn compare_numbers(&self, other: &Head) -> Ordering
        ensures { result ≡ numbers_cmp self.now other.now }
    {
        if self.first != other.first {
            return self.first.cmp(&other.first);
        }
        if self.second != other.second {
            return self.second.cmp(&other.second);
        }
        if self.third != other.third {
            return self.third.cmp(&other.third);
        }
        if self.fourth != other.fourth {
            return self.fourth.cmp(&other.fourth);
        }
        self.count.cmp(&other.count)
    }

    /// Appends the bytes of the key.
    #[inline(always)]
    pub fn append_to(&self, key: &mut Vec<u8>) -> Result<(), AllocError>
        requires { self.now.count ≤ 32 }
        ensures ok { OnOk result
            (key.new.items ≡ key.old.items ++ take self.now.count (bytes_of self.now)) }
        ensures err { OnErr result (key.new.items ≡ key.old.items) }
    {
        key.extend_from_slice(&all_bytes(self))?;
        key.truncate(key.len() - (32 - usize::from(self.count)));
        Ok(())
    }

    /// Writes the bytes of the key.
    #[inline(always)]
    pub fn write(&self, key: &mut Vec<u8>) -> Result<(), AllocError>
        ensures { OnOk result (key.new.items ≡ take self.now.count (bytes_of self.now)) }
    {
        key.clear();
        key.extend_from_slice(&all_bytes(self))?;
        key.truncate(usize::from(self.count));
        Ok(())
    }
}

/// The bytes of the four numbers, the highest first.
#[inline(always)]
pub fn all_bytes(head: &Head) -> [u8; 32]
    ensures { result ≡ bytes_of head.now }
{
    let [a, b, c, d, e, f, g, h] = head.first.to_be_bytes();
    let [i, j, k, l, m, n, o, p] = head.second.to_be_bytes();
    let [q, r, s, t, u, v, w, x] = head.third.to_be_bytes();
    let [y, z, aa, ab, ac, ad, ae, af] = head.fourth.to_be_bytes();
    [
        a, b, c, d, e, f, g, h, i, j, k, l, m, n, o, p, q, r, s, t, u, v, w, x, y, z, aa, ab, ac,
        ad, ae, af,
    ]
}
