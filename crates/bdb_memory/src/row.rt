// The bytes of a row, of which a few lie in the value itself.
ghost use Rattle.std.specs.Prelude.{◌≡◌, IfOk};
ghost use Rattle.bdb_memory.specs.RowBytes.{row_bytes};

use std::alloc::{AllocError, Global};
use std::marker::Model;

/// Where the bytes of a row lie.
#[derive(Drop)]
pub enum Bytes {
    /// There are none.
    Empty,
    /// In the value itself: nearly all rows have four.
    Four([u8; 4]),
    /// In memory of their own.
    Long(Box<Long>),
}

/// The bytes of any other row, with room for a number of the key behind which they come to lie, so that putting the row there takes
/// no memory. It means nothing before.
#[derive(Drop)]
pub struct Long {
    pub third: u64,
    pub bytes: Vec<u8>,
}

/// The bytes of a row. Nearly all rows have four, so that a row takes little room.
#[derive(Drop)]
pub struct Row {
    bytes: Bytes,
}

impl Model for Row {
    ghost use Rattle.std.specs.Prelude.{ℕ, List};
    ghost use Rattle.bdb_memory.specs.RowBytes.{row_bytes};

    ghost Value = { List ℕ };

    ghost view = { λ r. row_bytes r.bytes };
}

impl Row {
    /// A row with a copy of these bytes.
    pub fn of(alloc: Global, bytes: &[u8]) -> Result<Self, AllocError>
        ensures { IfOk result (λ row. row ≡ bytes.now) }
    {
        let bytes = Bytes::of(alloc, bytes)?;
        Ok(Row { bytes })
    }

    /// A row of bytes where they lie.
    #[inline(always)]
    pub fn from_bytes(bytes: Bytes) -> Self
        ensures { result ≡ row_bytes bytes }
    {
        Row { bytes }
    }

    /// The bytes where they lie.
    #[inline(always)]
    pub fn into_bytes(self) -> Bytes
        ensures { row_bytes result ≡ self }
    {
        self.bytes
    }

    /// The bytes.
    pub fn as_slice(&self) -> &[u8]
        ensures { result.now ≡ self.now }
    {
        match &self.bytes {
            Bytes::Empty => &[],
            Bytes::Four(four) => four.as_slice(),
            Bytes::Long(long) => long.bytes.as_slice(),
        }
    }
}

impl Bytes {
    /// A copy of these bytes.
    #[inline(always)]
    pub fn of(alloc: Global, bytes: &[u8]) -> Result<Self, AllocError>
        ensures { IfOk result (λ copy. row_bytes copy ≡ bytes.now) }
    {
        match bytes {
            [] => Ok(Bytes::Empty),
            [a, b, c, d] => Ok(Bytes::Four([*a, *b, *c, *d])),
            _ => {
                let bytes = Vec::from_slice(alloc, bytes)?;
                let long = Box::new(alloc, Long { third: 0, bytes })?;
                Ok(Bytes::Long(long))
            }
        }
    }
}
