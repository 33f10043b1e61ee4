// Rows with their keys, which were read at once or are to be written at once.
ghost use Rattle.std.specs.Prelude.{◌≡◌, ◌+◌, ◌<◌, ◌≤◌, ◌∷◌, ◌++◌, [], OnOk, length, slice_index_or};
ghost use Rattle.std.specs.List.{slice_range};
ghost use Rattle.bdb_keep.specs.Spans.{IsWithin, with_ends, with_four};

use std::alloc::{AllocError, Global};
use std::marker::Model;

/// For so many bytes memory is taken at first where rows are read.
const FIRST_BYTES: usize = 512;

/// For so many rows.
const FIRST_ROWS: usize = 16;

/// Where a key and its row lie among the bytes of a span: the key from `start` up to `middle`, and the row from there up to `end`.
#[derive(Clone, Copy)]
pub struct Cut {
    pub start: usize,
    pub middle: usize,
    pub end: usize,
}

impl Cut {
    /// The key among these bytes.
    #[inline(always)]
    fn key<'a>(&self, bytes: &'a [u8]) -> &'a [u8]
        requires { IsWithin (length bytes.now) self.now }
        ensures { result.now ≡ slice_range bytes.now self.now.start self.now.middle }
    {
        &bytes[self.start..self.middle]
    }

    /// The row among these bytes.
    #[inline(always)]
    fn row<'a>(&self, bytes: &'a [u8]) -> &'a [u8]
        requires { IsWithin (length bytes.now) self.now }
        ensures { result.now ≡ slice_range bytes.now self.now.middle self.now.end }
    {
        &bytes[self.middle..self.end]
    }
}

/// Rows with their keys, in the order in which they were read, or are to be written. They lie in one string of bytes, so that no row
/// takes memory of its own, and what was taken serves all reads into the same span.
#[derive(Drop)]
pub struct Span {
    bytes: Vec<u8>,
    cuts: Vec<Cut>,
}

impl Model for Span {
    ghost use Rattle.std.specs.Prelude.{length};
    ghost use Rattle.bdb_keep.specs.Spans.{AreCuts, Listed, listed};

    ghost Value = { Listed };

    ghost view = { λ s. listed s.bytes.items s.cuts.items };

    ghost invariant = { λ s. AreCuts 0 (length s.bytes.items) s.cuts.items };
}

/// What has a key that it can append to bytes.
pub trait AppendKey {
    ghost use Rattle.std.specs.Prelude.{◌≡◌, ℕ, List, ◌++◌, OnOk, length, take};

    // the key
    ghost key: { Self → List ℕ };

    /// Appends the key. What stood there before stays, also where memory runs out.
    fn append_key(&self, bytes: &mut Vec<u8>) -> Result<(), AllocError>
        ensures ok { OnOk result (bytes.new.items ≡ bytes.old.items ++ key self.now) }
        ensures front { take (length bytes.old.items) bytes.new.items ≡ bytes.old.items };
}

impl Span {
    /// No rows. It takes no memory.
    pub fn new(alloc: Global) -> Self
        ensures { result ≡ [] }
    {
        Span {
            bytes: Vec::new(alloc),
            cuts: Vec::new(alloc),
        }
    }

    /// Takes all rows out.
    pub fn clear(&mut self)
        ensures { self.new ≡ [] }
    {
        self.cuts.clear();
        self.bytes.clear();
    }

    /// How many rows there are.
    #[inline(always)]
    pub fn len(&self) -> usize
        ensures { result ≡ length self.now }
    {
        self.cuts.len()
    }

    /// The key and the row at an index.
    #[inline(always)]
    pub fn entry(&self, index: usize) -> (&[u8], &[u8])
        requires { index < length self.now }
        ensures { (result.0.now, result.1.now) ≡ slice_index_or self.now index ([], []) }
    {
        let cut = &self.cuts[index];
        (cut.key(&self.bytes), cut.row(&self.bytes))
    }

    /// Puts a row behind the others. Where memory runs out, no clause says which rows there are.
    pub fn push(&mut self, key: &[u8], row: &[u8]) -> Result<(), AllocError>
        ensures { OnOk result (self.new ≡ self.old ++ (key.now, row.now) ∷ []) }
    {
        let start = self.bytes.len();
        self.bytes.extend_from_slice(key)?;
        let middle = self.bytes.len();
        self.bytes.extend_from_slice(row)?;
        let end = self.bytes.len();
        self.cuts.push(Cut { start, middle, end })?;
        Ok(())
    }

    /// Puts other bytes in the place of the first four of the key at an index, and of its row.
    #[inline(always)]
    pub fn replace_ends(&mut self, index: usize, front: &[u8; 4], row: &[u8; 4])
        requires index { index < length self.old }
        requires key { 4 ≤ length (slice_index_or self.old index ([], [])).0 }
        requires row { length (slice_index_or self.old index ([], [])).1 ≡ 4 }
        ensures { self.new ≡ with_ends front.now row.now self.old index }
    {
        let Cut { start, middle, .. } = self.cuts[index];
        put_four(&mut self.bytes, start, front);
        put_four(&mut self.bytes, middle, row);
    }

    /// Takes memory for a few rows where there are none.
    #[inline(always)]
    pub fn make_room(&mut self) -> Result<(), AllocError>
        ensures { self.new ≡ self.old }
    {
        if !self.cuts.is_empty() {
            return Ok(());
        }
        self.bytes.reserve(FIRST_BYTES)?;
        self.cuts.reserve(FIRST_ROWS)?;
        Ok(())
    }

    /// Puts the key of an entry behind the others, with a row. Where memory runs out, no clause says which rows there are.
    #[inline(always)]
    pub fn push_entry<K: AppendKey>(&mut self, entry: &K, row: &[u8]) -> Result<(), AllocError>
        ensures { OnOk result (self.new ≡ self.old ++ (K.key entry.now, row.now) ∷ []) }
    {
        let start = self.bytes.len();
        entry.append_key(&mut self.bytes)?;
        let middle = self.bytes.len();
        self.bytes.extend_from_slice(row)?;
        let end = self.bytes.len();
        self.cuts.push(Cut { start, middle, end })?;
        Ok(())
    }
}

/// Puts four bytes in the place of those that begin at an index.
#[inline(always)]
fn put_four(bytes: &mut [u8], at: usize, four: &[u8; 4])
    requires { at + 4 ≤ length bytes.old }
    ensures { bytes.new ≡ with_four at four.now bytes.old }
{
    bytes[at..at + 4].copy_from_slice(four);
}
