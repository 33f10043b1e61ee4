// The bytes of a piece.
ghost use Rattle.std.specs.Prelude.{◌≡◌};

use bdb_base::Exact;
use std::alloc::{AllocError, Global};
use std::borrow::CowSlice;
use std::marker::Model;

/// The bytes of a piece, which contracts see as these alone. They are borrowed from the block that they stand in, and owned
/// where the piece began in an earlier one.
#[derive(Drop)]
pub struct PieceBytes<'a> {
    bytes: CowSlice<'a, u8>,
}

impl<'a> Model for PieceBytes<'a> {
    ghost use Rattle.std.specs.Prelude.{List, ℕ};
    ghost use Rattle.std.specs.Cow.{cow_slice_items};

    ghost Value = { List ℕ };

    ghost view = { λ p. cow_slice_items p.bytes };
}

impl<'a> PieceBytes<'a> {
    /// Bytes that are borrowed.
    pub fn borrowed(bytes: &'a [u8]) -> Self
        ensures { result ≡ bytes.now }
    {
        PieceBytes {
            bytes: CowSlice::Borrowed(bytes),
        }
    }

    /// Bytes that are owned.
    pub fn owned(bytes: Vec<u8>) -> Self
        ensures { result ≡ bytes.items }
    {
        PieceBytes {
            bytes: CowSlice::Owned(bytes),
        }
    }

    /// The bytes.
    pub fn as_slice(&self) -> &[u8]
        ensures { result.now ≡ self.now }
    {
        self.bytes.as_slice()
    }
}

impl<'a> Exact for PieceBytes<'a> {
    fn try_clone(&self, alloc: Global) -> Result<Self, AllocError> {
        match &self.bytes {
            CowSlice::Borrowed(bytes) => Ok(PieceBytes::borrowed(bytes)),
            CowSlice::Owned(bytes) => Ok(PieceBytes::owned(bytes.as_slice().to_vec(alloc)?)),
        }
    }
}
