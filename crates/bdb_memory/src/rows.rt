// The rows by place, on sorted shelves, where a removed row leaves an empty place.
ghost use Rattle.std.specs.Prelude.{◌≡◌, [], Some, None, IfOk, IfErr, IfSome, IfNone, ◌↔◌, OnSome, OnOk, OnErr, IsTrue, MatchBool, true, false, if◌then◌else◌};
ghost use Rattle.std.specs.Option.{option_map};
ghost use Rattle.std.specs.FinMap as map;
ghost use Rattle.bdb_memory.specs.Entries.{place_at, row_of, rows_of, IsSetAt, IsAmong, AreAmong};
ghost use Rattle.bdb_memory.specs.Blocks.{joined};
ghost use Rattle.bdb_keep.specs.Marked.{IsMarkedCount};
ghost use Rattle.bdb_keep.specs.Spans.{AreRowsUnder};
ghost use Rattle.bdb_keep.specs.Tables.{IsLeastFrom, NoneFrom, LieWithin};
ghost use Rattle.bdb_memory.specs.Tallies.{tallied_table, is_marked_in};

use crate::block::Block;
use crate::census::Census;
use crate::cursors::Cursors;
use crate::entry::Entry;
use crate::marked::{count_shelves, had_marked_in, has_marked_in, is_marked_in};
use crate::row::Row;
use crate::shelf::Shelf;
use crate::tally::{TABLE, Tally};
use crate::words::Probe;
use crate::{runs, shelves};
use bdb_keep::{KeyEnd, Span};
use std::alloc::{AllocError, Global};
use std::marker::Model;

/// The rows by place. A place with no row is one whose row was removed; such places are taken away once they are many. What was used
/// last is remembered, so that what comes next in the order of the places of a table is found at once.
#[derive(Drop)]
pub struct PlacedRows {
    alloc: Global,
    shelves: Vec<Shelf>,
    cursors: Cursors,
    census: Census,
    tally: Tally,
}

impl Model for PlacedRows {
    ghost use Rattle.bdb_memory.specs.Entries.{Entries};
    ghost use Rattle.bdb_memory.specs.Blocks.{joined};
    ghost use Rattle.bdb_memory.specs.Tallies.{AreTallied};

    ghost Value = { Entries };

    ghost view = { λ r. joined r.shelves.items };

    ghost invariant = { λ r. AreTallied r.shelves.items r.tally };
}

impl PlacedRows {
    /// No rows. It takes no memory.
    pub fn new(alloc: Global) -> Self
        ensures { result ≡ [] }
    {
        PlacedRows {
            alloc,
            shelves: Vec::new(alloc),
            cursors: Cursors::new(alloc),
            census: Census::none(),
            tally: Tally::new(alloc),
        }
    }

    /// Puts what stands at a place, and answers what stood there. The answer is the new row where there
    /// is no such place.
    pub fn swap(&mut self, probe: &Probe<'_>, row: Option<Row>) -> Result<Option<Row>, Option<Row>>
        ensures found { IfOk result (λ before. place_at self.old probe.now ≡ Some before) }
        ensures set { OnOk result (IsSetAt self.old self.new probe.now (Some row)) }
        ensures absent { OnErr result (place_at self.old probe.now ≡ None) }
        ensures back { IfErr result (λ back. back ≡ row) }
        ensures same { OnErr result (self.new ≡ self.old) }
    {
        let near = self.cursors.to_write(probe);
        let has_row = row.is_some();
        let is = has_marked_in(TABLE, probe, &row);
        match shelves::swap(&mut self.shelves, near, probe, row) {
            Ok((cursor, before)) => {
                self.tally
                    .note(probe, has_marked_in(TABLE, probe, &before), is);
                self.cursors.remember_written(probe, cursor);
                self.census.swapped(before.is_some(), has_row);
                Ok(before)
            }
            Err(row) => Err(row),
        }
    }

    /// Puts a row at a place, which may be new, and answers what stood there: at Some what the place
    /// had, at None nothing.
    pub fn insert(
        &mut self,
        probe: &Probe<'_>,
        row: &[u8],
    ) -> Result<Option<Option<Row>>, AllocError>
        ensures found { IfOk result (λ before. place_at self.old probe.now ≡ before) }
        ensures set { OnOk result (IsSetAt self.old self.new probe.now (Some (Some row.now))) }
        ensures err { OnErr result (self.new ≡ self.old) }
    {
        self.cursors.make_room();
        let near = self.cursors.to_write(probe);
        let (cursor, before) = shelves::insert(self.alloc, &mut self.shelves, near, probe, row)?;
        let was = had_marked_in(TABLE, probe, &before);
        self.tally.note(probe, was, is_marked_in(TABLE, probe, row));
        self.cursors.remember_written(probe, cursor);
        self.census.inserted(&before);
        Ok(before)
    }

    /// Puts a row at a place that is new, and answers whether it did. Where the place was there, or isn't beside the one that was written
    /// or read last in its table, or memory runs out, the answer is false, and nothing changes.
    #[inline(always)]
    pub fn add_beside(&mut self, probe: &Probe<'_>, row: &[u8]) -> bool
        ensures absent { result ≡ true → place_at self.old probe.now ≡ None }
        ensures set { result ≡ true → IsSetAt self.old self.new probe.now (Some (Some row.now)) }
        ensures same { result ≡ false → self.new ≡ self.old }
    {
        let (last, _) = self.cursors.to_write(probe);
        match runs::add_beside(self.alloc, &mut self.shelves, last, probe, row) {
            Some(cursor) => {
                self.tally
                    .note(probe, false, is_marked_in(TABLE, probe, row));
                self.cursors.remember_written(probe, cursor);
                self.census.put(true, false);
                true
            }
            None => false,
        }
    }

    /// Puts a row at a place, and answers the row that stood there. None, and nothing changes, where the place doesn't come right behind
    /// the one that was written last in its table, or memory runs out.
    #[inline(always)]
    pub fn put_behind(&mut self, probe: &Probe<'_>, row: &[u8]) -> Option<Option<Row>>
        ensures found { IfSome result
            (λ before. row_of (place_at self.old probe.now) ≡ before) }
        ensures set { OnSome result (IsSetAt self.old self.new probe.now (Some (Some row.now))) }
        ensures same { IfNone result (self.new ≡ self.old) }
    {
        let last = self.cursors.last_written(probe);
        match runs::put_behind(self.alloc, &mut self.shelves, last, probe, row) {
            Some((cursor, is_new, before)) => {
                let was = has_marked_in(TABLE, probe, &before);
                self.tally.note(probe, was, is_marked_in(TABLE, probe, row));
                self.cursors.remember_written(probe, cursor);
                self.census.put(is_new, before.is_some());
                Some(before)
            }
            None => None,
        }
    }

    /// Empties a place, and answers the row that stood there. None, and nothing changes, where the place isn't the first one behind the
    /// one that was written last in its table.
    #[inline(always)]
    pub fn empty_behind(&mut self, probe: &Probe<'_>) -> Option<Option<Row>>
        ensures found { IfSome result (λ before. place_at self.old probe.now ≡ Some before) }
        ensures set { OnSome result (IsSetAt self.old self.new probe.now (Some None)) }
        ensures same { IfNone result (self.new ≡ self.old) }
    {
        let last = self.cursors.last_written(probe);
        match runs::empty_behind(&mut self.shelves, last, probe) {
            Some((cursor, before)) => {
                self.tally
                    .note(probe, has_marked_in(TABLE, probe, &before), false);
                self.cursors.remember_written(probe, cursor);
                self.census.swapped(before.is_some(), false);
                Some(before)
            }
            None => None,
        }
    }

    /// Takes the empty places away where they are many.
    pub fn drop_many_empty(&mut self)
        ensures { rows_of self.new ≡ rows_of self.old }
    {
        if self.census.has_many_empty() {
            self.drop_all_empty();
        }
    }

    /// Takes all empty places away, in one walk over the rows.
    fn drop_all_empty(&mut self)
        ensures { rows_of self.new ≡ rows_of self.old }
    {
        shelves::drop_empty_places(&mut self.shelves);
        shelves::drop_empty_shelves(&mut self.shelves);
        self.census.swept();
    }

    /// Takes a place away, with what stands there.
    pub fn remove(&mut self, probe: &Probe<'_>)
        ensures set { IsSetAt self.old self.new probe.now None }
        ensures rows { rows_of self.new ≡ map.remove (rows_of self.old) probe.now }
    {
        let was = self.has_marked(probe);
        let near = self.cursors.to_write(probe);
        let cursor = shelves::remove(&mut self.shelves, near, probe);
        self.tally.note(probe, was, false);
        self.cursors.remember_written(probe, cursor);
    }
}

impl PlacedRows {
    /// Reads the row at a place.
    pub fn read(&mut self, probe: &Probe<'_>, row: &mut Vec<u8>) -> Result<bool, AllocError>
        ensures found { IfOk result
            (λ found. map.get (rows_of self.old) probe.now
            ≡ (if found then Some row.new.items else None)) }
        ensures empty { IfOk result (λ found. found ≡ false → row.new.items ≡ []) }
        ensures same { self.new ≡ self.old }
    {
        let near = self.cursors.to_read(probe);
        let (cursor, found) = shelves::read(&self.shelves, near, probe, row)?;
        self.cursors.remember_read(probe, cursor);
        Ok(found)
    }

    /// Reads the least key of a table that isn't below `low`, and its row.
    pub fn first_from(
        &mut self,
        tab: u8,
        low: &[u8],
        key: &mut Vec<u8>,
        row: &mut Vec<u8>,
    ) -> Result<bool, AllocError>
        ensures found { IfOk result (λ found. MatchBool found
            (IsLeastFrom (rows_of self.old) tab low.now key.new.items row.new.items)
            (NoneFrom (rows_of self.old) tab low.now)) }
        ensures empty { IfOk result (λ found. found ≡ false → (key.new.items ≡ [])
            × (row.new.items ≡ [])) }
        ensures same { self.new ≡ self.old }
    {
        let probe = Probe::of(tab, low);
        let near = self.cursors.to_read(&probe);
        let (cursor, found) = shelves::read_first(&self.shelves, near, &probe, tab, low, key, row)?;
        self.cursors.remember_read(&probe, cursor);
        Ok(found)
    }

    /// Reads the rows of a table whose keys begin with these bytes.
    pub fn read_under(&mut self, tab: u8, prefix: &[u8], span: &mut Span) -> Result<(), AllocError>
        ensures rows { OnOk result (AreRowsUnder (rows_of self.old) tab prefix.now span.new) }
        ensures same { self.new ≡ self.old }
    {
        let probe = Probe::of(tab, prefix);
        let near = self.cursors.to_read(&probe);
        let cursor = shelves::read_under(&self.shelves, near, &probe, tab, prefix, span)?;
        self.cursors.remember_read(&probe, cursor);
        Ok(())
    }

    /// Whether the row at a place is one of the marked rows that are counted as they come and go.
    fn has_marked(&self, probe: &Probe<'_>) -> bool
        ensures { result ≡ is_marked_in tallied_table probe.now
            (map.get (rows_of self.now) probe.now) }
    {
        match self.row_at(probe) {
            Some(row) => is_marked_in(TABLE, probe, row),
            None => false,
        }
    }

    /// How many rows of a table are marked, of those whose keys begin, or end, with the four bytes of a number. It looks at each row
    /// where these aren't counted as they come and go, and is refused where there are then more than can be counted.
    pub fn count_marked(&self, tab: u8, end: KeyEnd, number: u32) -> Result<usize, AllocError>
        ensures { IfOk result (λ n. IsMarkedCount (rows_of self.now) tab end number n) }
    {
        match self.tally.count(tab, end, number) {
            Some(count) => Ok(count),
            None => {
                let count = count_shelves(self.shelves.as_slice(), tab, end, number)?;
                Ok(count)
            }
        }
    }

    /// The row at a place, if there is one.
    #[tactic(auto, using(crate::proofs::StoreLemmas::get_rows_of))]
    pub fn row_at(&self, probe: &Probe<'_>) -> Option<&[u8]>
        ensures { option_map (λ row. row.now) result ≡ map.get (rows_of self.now) probe.now }
    {
        let (_, row) = shelves::row_at(&self.shelves, self.cursors.to_read(probe), probe);
        row
    }

    /// Whether each row is in others too.
    pub fn lies_within(&self, others: &PlacedRows) -> bool
        ensures { IsTrue result ↔ LieWithin (rows_of self.now) (rows_of others.now) }
    {
        for shelf in &self.shelves {
            if !has_blocks(others, shelf.blocks()) {
                return false;
            }
        }
        true
    }
}

/// Whether each row of some blocks is in others.
fn has_blocks(others: &PlacedRows, blocks: &[Block]) -> bool
    ensures { IsTrue result ↔ AreAmong (rows_of others.now) (joined blocks.now) }
{
    for block in blocks {
        if !has_all(others, block.entries()) {
            return false;
        }
    }
    true
}

/// Whether each row of some entries is in others.
fn has_all(others: &PlacedRows, entries: &[Entry]) -> bool
    ensures { IsTrue result ↔ AreAmong (rows_of others.now) entries.now }
{
    for entry in entries {
        if !has_same(others, entry) {
            return false;
        }
    }
    true
}

/// Whether others have the row of an entry. No row is had everywhere.
fn has_same(others: &PlacedRows, entry: &Entry) -> bool
    ensures { IsTrue result ↔ IsAmong (rows_of others.now) entry.now }
{
    match entry.row() {
        None => true,
        Some(bytes) => match others.row_at(&entry.probe()) {
            Some(other) => *bytes == *other,
            None => false,
        },
    }
}
