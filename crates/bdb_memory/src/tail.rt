// What lies behind the first two numbers of an entry's key.
ghost use Rattle.std.specs.Prelude.{◌≡◌, ◌++◌, [], false, Some, IfOk, IfSome, OnOk, OnErr, is_some};
ghost use Rattle.std.specs.Option.{option_copied};
ghost use Rattle.std.specs.Ordering.{is_lt};
ghost use Rattle.bdb_base.specs.Segments.{is_prefix};
ghost use Rattle.bdb_keep.specs.Tables.{bytes_cmp};
ghost use Rattle.bdb_memory.specs.RowBytes.{row_bytes};
ghost use Rattle.bdb_memory.specs.Tails.{table_in, count_in, third_in, fourth_in, highest, rest_in, row_in};

use crate::bytes::{begins_with, compare_words};
use crate::head::Head;
use crate::row::{Bytes, Long, Row};
use std::alloc::{AllocError, Global};
use std::cmp::Ordering;
use std::mem::replace;

/// The number of the table of an entry, how many bytes of its key are numbers, the third and the fourth of these numbers, and what
/// else there is. Nearly all keys have up to 25 bytes and nearly all rows four, so that an entry takes no memory of its own: of the
/// fourth number only the highest byte, the 25th of the key, lies here. Where more of it isn't zero, or the key has more bytes than
/// its numbers, all that is behind the second number lies elsewhere.
#[derive(Drop)]
pub enum Tail {
    /// No row.
    Bare {
        tab: u8,
        count: u8,
        byte: u8,
        third: u64,
    },
    /// A row without bytes.
    Empty {
        tab: u8,
        count: u8,
        byte: u8,
        third: u64,
    },
    /// A row of four bytes.
    Four {
        tab: u8,
        count: u8,
        byte: u8,
        bytes: [u8; 4],
        third: u64,
    },
    /// Any other row, with the third number beside it.
    Long {
        tab: u8,
        count: u8,
        byte: u8,
        long: Box<Long>,
    },
    /// More bytes of the key.
    Far {
        tab: u8,
        count: u8,
        more: Box<More>,
    },
}

/// The third and the fourth number of a key, its bytes behind these, and the row, if there is one.
#[derive(Drop)]
pub struct More {
    pub third: u64,
    pub fourth: u64,
    pub rest: Vec<u8>,
    pub row: Option<Row>,
}

impl Tail {
    /// The tail of a place with this head, these bytes of the key behind it, and a copy of these bytes as its row.
    #[inline(always)]
    pub fn of(alloc: Global, head: &Head, rest: &[u8], row: &[u8]) -> Result<Self, AllocError>
        ensures tab { IfOk result (λ tail. table_in tail ≡ head.now.tab) }
        ensures count { IfOk result (λ tail. count_in tail ≡ head.now.count) }
        ensures third { IfOk result (λ tail. third_in tail ≡ head.now.third) }
        ensures fourth { IfOk result (λ tail. fourth_in tail ≡ head.now.fourth) }
        ensures rest { IfOk result (λ tail. rest_in tail ≡ rest.now) }
        ensures row { IfOk result (λ tail. row_in tail ≡ Some row.now) }
    {
        match byte_alone(head.fourth, rest) {
            Some(byte) => Tail::near(alloc, head, byte, row),
            None => Tail::far(alloc, head, rest, row),
        }
    }

    /// The same where there is no more of the key than this byte behind the third number.
    #[inline(always)]
    fn near(alloc: Global, head: &Head, byte: u8, row: &[u8]) -> Result<Self, AllocError>
        ensures tab { IfOk result (λ tail. table_in tail ≡ head.now.tab) }
        ensures count { IfOk result (λ tail. count_in tail ≡ head.now.count) }
        ensures third { IfOk result (λ tail. third_in tail ≡ head.now.third) }
        ensures fourth { IfOk result (λ tail. fourth_in tail ≡ highest byte) }
        ensures rest { IfOk result (λ tail. rest_in tail ≡ []) }
        ensures row { IfOk result (λ tail. row_in tail ≡ Some row.now) }
    {
        match row {
            // Nearly all rows have four bytes.
            [a, b, c, d] => Ok(Tail::Four {
                tab: head.tab,
                count: head.count,
                byte,
                bytes: [*a, *b, *c, *d],
                third: head.third,
            }),
            _ => {
                let row = Bytes::of(alloc, row)?;
                Ok(Tail::with(head.tab, head.count, byte, head.third, row))
            }
        }
    }

    /// The same where there may be more.
    #[inline(never)]
    fn far(alloc: Global, head: &Head, rest: &[u8], row: &[u8]) -> Result<Self, AllocError>
        ensures tab { IfOk result (λ tail. table_in tail ≡ head.now.tab) }
        ensures count { IfOk result (λ tail. count_in tail ≡ head.now.count) }
        ensures third { IfOk result (λ tail. third_in tail ≡ head.now.third) }
        ensures fourth { IfOk result (λ tail. fourth_in tail ≡ head.now.fourth) }
        ensures rest { IfOk result (λ tail. rest_in tail ≡ rest.now) }
        ensures row { IfOk result (λ tail. row_in tail ≡ Some row.now) }
    {
        let rest = Vec::from_slice(alloc, rest)?;
        let row = Row::of(alloc, row)?;
        let more = Box::new(
            alloc,
            More {
                third: head.third,
                fourth: head.fourth,
                rest,
                row: Some(row),
            },
        )?;
        Ok(Tail::Far {
            tab: head.tab,
            count: head.count,
            more,
        })
    }

    /// The tail of a place with this row, and no more of its key than this byte behind the third number.
    #[inline(always)]
    fn with(tab: u8, count: u8, byte: u8, third: u64, row: Bytes) -> Self
        ensures tab { table_in result ≡ tab }
        ensures count { count_in result ≡ count }
        ensures third { third_in result ≡ third }
        ensures fourth { fourth_in result ≡ highest byte }
        ensures rest { rest_in result ≡ [] }
        ensures row { row_in result ≡ Some (row_bytes row) }
    {
        match row {
            Bytes::Empty => Tail::Empty {
                tab,
                count,
                byte,
                third,
            },
            Bytes::Four(bytes) => Tail::Four {
                tab,
                count,
                byte,
                bytes,
                third,
            },
            Bytes::Long(mut long) => {
                long.third = third;
                Tail::Long {
                    tab,
                    count,
                    byte,
                    long,
                }
            }
        }
    }

    /// The same where there may be no row.
    fn with_any(tab: u8, count: u8, byte: u8, third: u64, row: Option<Row>) -> Self
        ensures tab { table_in result ≡ tab }
        ensures count { count_in result ≡ count }
        ensures third { third_in result ≡ third }
        ensures fourth { fourth_in result ≡ highest byte }
        ensures rest { rest_in result ≡ [] }
        ensures row { row_in result ≡ row }
    {
        match row {
            Some(row) => Tail::with(tab, count, byte, third, row.into_bytes()),
            None => Tail::Bare {
                tab,
                count,
                byte,
                third,
            },
        }
    }

    /// What stands in the place of a tail while its row changes.
    #[inline(always)]
    fn nothing() -> Self {
        Tail::Bare {
            tab: 0,
            count: 0,
            byte: 0,
            third: 0,
        }
    }

    /// The number of the table.
    #[inline(always)]
    pub fn tab(&self) -> u8
        ensures { result ≡ table_in self.now }
    {
        match self {
            Tail::Bare { tab, .. } => *tab,
            Tail::Empty { tab, .. } => *tab,
            Tail::Four { tab, .. } => *tab,
            Tail::Long { tab, .. } => *tab,
            Tail::Far { tab, .. } => *tab,
        }
    }

    /// How many bytes of the key are numbers.
    #[inline(always)]
    pub fn count(&self) -> u8
        ensures { result ≡ count_in self.now }
    {
        match self {
            Tail::Bare { count, .. } => *count,
            Tail::Empty { count, .. } => *count,
            Tail::Four { count, .. } => *count,
            Tail::Long { count, .. } => *count,
            Tail::Far { count, .. } => *count,
        }
    }

    /// The third of the numbers.
    #[inline(always)]
    pub fn third(&self) -> u64
        ensures { result ≡ third_in self.now }
    {
        match self {
            Tail::Bare { third, .. } => *third,
            Tail::Empty { third, .. } => *third,
            Tail::Four { third, .. } => *third,
            Tail::Long { long, .. } => long.third,
            Tail::Far { more, .. } => more.third,
        }
    }

    /// The fourth of the numbers.
    #[inline(always)]
    pub fn fourth(&self) -> u64
        ensures { result ≡ fourth_in self.now }
    {
        match self {
            Tail::Bare { byte, .. } => with_zeros(*byte),
            Tail::Empty { byte, .. } => with_zeros(*byte),
            Tail::Four { byte, .. } => with_zeros(*byte),
            Tail::Long { byte, .. } => with_zeros(*byte),
            Tail::Far { more, .. } => more.fourth,
        }
    }

    /// The bytes of the key behind the numbers.
    #[inline(always)]
    pub fn rest(&self) -> &[u8]
        ensures { result.now ≡ rest_in self.now }
    {
        match self {
            Tail::Far { more, .. } => more.rest.as_slice(),
            Tail::Bare { .. } => &[],
            Tail::Empty { .. } => &[],
            Tail::Four { .. } => &[],
            Tail::Long { .. } => &[],
        }
    }

    /// Whether there may be any.
    #[inline(always)]
    pub fn has_rest(&self) -> bool
        ensures { result ≡ false → rest_in self.now ≡ [] }
    {
        match self {
            Tail::Far { .. } => true,
            Tail::Bare { .. } => false,
            Tail::Empty { .. } => false,
            Tail::Four { .. } => false,
            Tail::Long { .. } => false,
        }
    }

    /// Appends them to a key.
    #[inline(always)]
    pub fn append_rest(&self, key: &mut Vec<u8>) -> Result<(), AllocError>
        ensures ok { OnOk result (key.new.items ≡ key.old.items ++ rest_in self.now) }
        ensures err { OnErr result (key.new.items ≡ key.old.items) }
    {
        match self {
            Tail::Far { more, .. } => {
                key.extend_from_slice(more.rest.as_slice())?;
                Ok(())
            }
            Tail::Bare { .. } => Ok(()),
            Tail::Empty { .. } => Ok(()),
            Tail::Four { .. } => Ok(()),
            Tail::Long { .. } => Ok(()),
        }
    }

    /// How they compare with other bytes. Mostly there are none on both sides.
    #[inline(always)]
    pub fn compare_rest(&self, other: &[u8]) -> Ordering
        ensures { result ≡ bytes_cmp (rest_in self.now) other.now }
    {
        let rest = self.rest();
        if rest.is_empty() && other.is_empty() {
            return Ordering::Equal;
        }
        compare_words(rest, other)
    }

    /// Whether they are below others.
    #[inline(never)]
    pub fn rest_is_below(&self, other: &[u8]) -> bool
        ensures { result ≡ is_lt (bytes_cmp (rest_in self.now) other.now) }
    {
        self.compare_rest(other).is_lt()
    }

    /// Whether they begin so. Mostly no bytes are asked for.
    #[inline(always)]
    pub fn rest_begins_with(&self, prefix: &[u8]) -> bool
        ensures { result ≡ is_prefix prefix.now (rest_in self.now) }
    {
        if prefix.is_empty() {
            return true;
        }
        begins_with(self.rest(), prefix)
    }

    /// Whether there is a row.
    #[inline(always)]
    pub fn has_row(&self) -> bool
        ensures { result ≡ is_some (row_in self.now) }
    {
        match self {
            Tail::Bare { .. } => false,
            Tail::Empty { .. } => true,
            Tail::Four { .. } => true,
            Tail::Long { .. } => true,
            Tail::Far { more, .. } => more.row.is_some(),
        }
    }

    /// The row, if there is one.
    #[inline(always)]
    pub fn row(&self) -> Option<&[u8]>
        ensures { option_copied result ≡ row_in self.now }
    {
        match self {
            Tail::Bare { .. } => None,
            Tail::Empty { .. } => Some(&[]),
            Tail::Four { bytes, .. } => Some(bytes.as_slice()),
            Tail::Long { long, .. } => Some(long.bytes.as_slice()),
            Tail::Far { more, .. } => match &more.row {
                Some(row) => Some(row.as_slice()),
                None => None,
            },
        }
    }
}

/// Puts another row into a tail, or none, and answers what was there. It takes no memory.
pub fn swap_row(tail: &mut Tail, row: Option<Row>) -> Option<Row>
    ensures before { result ≡ row_in tail.old }
    ensures tab { table_in tail.new ≡ table_in tail.old }
    ensures count { count_in tail.new ≡ count_in tail.old }
    ensures third { third_in tail.new ≡ third_in tail.old }
    ensures fourth { fourth_in tail.new ≡ fourth_in tail.old }
    ensures rest { rest_in tail.new ≡ rest_in tail.old }
    ensures row { row_in tail.new ≡ row }
{
    let (tab, count, third) = (tail.tab(), tail.count(), tail.third());
    match replace(tail, Tail::nothing()) {
        Tail::Bare { byte, .. } => {
            *tail = Tail::with_any(tab, count, byte, third, row);
            None
        }
        Tail::Empty { byte, .. } => {
            *tail = Tail::with_any(tab, count, byte, third, row);
            Some(Row::from_bytes(Bytes::Empty))
        }
        Tail::Four { byte, bytes, .. } => {
            *tail = Tail::with_any(tab, count, byte, third, row);
            Some(Row::from_bytes(Bytes::Four(bytes)))
        }
        Tail::Long { byte, long, .. } => {
            *tail = Tail::with_any(tab, count, byte, third, row);
            Some(Row::from_bytes(Bytes::Long(long)))
        }
        Tail::Far { mut more, .. } => {
            let before = replace(&mut more.row, row);
            *tail = Tail::Far { tab, count, more };
            before
        }
    }
}

/// The number of eight bytes of which this is the highest and the others are zero.
#[inline(always)]
fn with_zeros(byte: u8) -> u64
    ensures { result ≡ highest byte }
{
    u64::from(byte) << 56
}

/// The highest byte of the fourth number of a key. None where another of its bytes isn't zero, or there is more of the key.
#[inline(always)]
fn byte_alone(fourth: u64, rest: &[u8]) -> Option<u8>
    ensures fourth { IfSome result (λ byte. highest byte ≡ fourth) }
    ensures rest { IfSome result (λ byte. rest.now ≡ []) }
{
    let byte = (fourth >> 56) as u8;
    if rest.is_empty() && with_zeros(byte) == fourth {
        Some(byte)
    } else {
        None
    }
}
