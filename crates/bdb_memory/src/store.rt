// The rows in memory with an undo list.
ghost use Rattle.std.specs.Prelude.{◌≡◌, ◌≤◌, ◌++◌, ◌∷◌, ◌<◌, [], Some, None, IfOk, OnOk, OnErr, IfSome, MatchBool, IsTrue, ◌↔◌, is_some, false, length, slice_get, if◌then◌else◌};
ghost use Rattle.std.specs.Option.{option_map};
ghost use Rattle.std.specs.FinMap as map;
ghost use Rattle.bdb_memory.specs.StoreContents.{written};
ghost use Rattle.bdb_keep.specs.Marked.{IsMarkedCount};
ghost use Rattle.bdb_keep.specs.Spans.{AreRowsUnder, with_rows, without_rows};
ghost use Rattle.bdb_keep.specs.Tables.{IsLeastFrom, NoneFrom};

use crate::changes::{PlaceChange, forget, insert_row, put_row, roll_back, take_row};
use crate::many::{put_rows, take_rows};
use crate::place::Place;
use crate::rows::PlacedRows;
use crate::words::Probe;
use bdb_keep::{KeyEnd, Span};
use std::alloc::{AllocError, Global};
use std::marker::Model;

/// Rows in memory that remember how they were when they were last committed. The room to undo a change is taken before
/// the change, so neither to commit the changes nor to undo them takes memory. A keeper is made of one.
#[derive(Drop)]
pub struct Store {
    alloc: Global,
    rows: PlacedRows,
    changes: Vec<PlaceChange>,
}

impl Model for Store {
    ghost use Rattle.bdb_memory.specs.StoreContents.{StoreContents, coded_contents};

    ghost Value = { StoreContents };

    ghost coded = { coded_contents };

    ghost use Rattle.bdb_memory.specs.Entries.{rows_of};
    ghost use Rattle.bdb_memory.specs.Changes.{undone, places_of, HavePlaces};

    ghost view = { λ s. record {
      kept = rows_of s.rows;
      last = undone s.changes.items (rows_of s.rows);
      changes = places_of s.changes.items;
    } };

    ghost invariant = { λ s. HavePlaces s.changes.items s.rows };
}

impl Store {
    /// A store with no rows. It takes no memory.
    pub fn new(alloc: Global) -> Self
        ensures { result ≡ record { kept = map.empty; last = map.empty; changes = [] } }
    {
        Store {
            alloc,
            rows: PlacedRows::new(alloc),
            changes: Vec::new(alloc),
        }
    }

    /// Reads the row at a key into `row`.
    pub fn get(&mut self, tab: u8, key: &[u8], row: &mut Vec<u8>) -> Result<bool, AllocError>
        ensures found { IfOk result (λ found. map.get self.old.kept (tab ∷ key.now)
            ≡ (if found then Some row.new.items else None)) }
        ensures empty { IfOk result (λ found. found ≡ false → row.new.items ≡ []) }
        ensures same { self.new ≡ self.old }
    {
        self.rows.read(&Probe::of(tab, key), row)
    }

    /// Reads the least key that isn't below `low`, and its row.
    pub fn next(
        &mut self,
        tab: u8,
        low: &[u8],
        key: &mut Vec<u8>,
        row: &mut Vec<u8>,
    ) -> Result<bool, AllocError>
        ensures found { IfOk result (λ found. MatchBool found
            (IsLeastFrom self.old.kept tab low.now key.new.items row.new.items)
            (NoneFrom self.old.kept tab low.now)) }
        ensures empty { IfOk result (λ found. found ≡ false → (key.new.items ≡ [])
            × (row.new.items ≡ [])) }
        ensures same { self.new ≡ self.old }
    {
        self.rows.first_from(tab, low, key, row)
    }

    /// Reads the rows of a table whose keys begin with these bytes.
    pub fn under(&mut self, tab: u8, prefix: &[u8], span: &mut Span) -> Result<(), AllocError>
        ensures rows { OnOk result (AreRowsUnder self.old.kept tab prefix.now span.new) }
        ensures same { self.new ≡ self.old }
    {
        self.rows.read_under(tab, prefix, span)
    }

    /// How many rows of a table are marked, of those whose keys begin, or end, with the four bytes of a number.
    pub fn count_marked(&self, tab: u8, end: KeyEnd, word: u32) -> Result<usize, AllocError>
        ensures { IfOk result (λ n. IsMarkedCount self.now.kept tab end word n) }
    {
        self.rows.count_marked(tab, end, word)
    }

    /// Puts a row at a key.
    pub fn put(&mut self, tab: u8, key: &[u8], row: &[u8]) -> Result<(), AllocError>
        requires table { (1 ≤ tab) × (tab ≤ 15) }
        ensures kept { OnOk result (self.new.kept ≡ map.insert self.old.kept (tab ∷ key.now)
            row.now) }
        ensures last { self.new.last ≡ self.old.last }
        ensures changes { OnOk result (self.new.changes ≡ self.old.changes ++ (tab ∷ key.now)
            ∷ []) }
        ensures err { OnErr result (self.new ≡ self.old) }
    {
        put_row(self.alloc, &mut self.rows, &mut self.changes, tab, key, row)
    }

    /// Takes the row at a key away. The answer tells whether it was there.
    pub fn remove(&mut self, tab: u8, key: &[u8]) -> Result<bool, AllocError>
        requires table { (1 ≤ tab) × (tab ≤ 15) }
        ensures found { IfOk result
            (λ found. found ≡ is_some (map.get self.old.kept (tab ∷ key.now))) }
        ensures kept { OnOk result (self.new.kept ≡ map.remove self.old.kept (tab ∷ key.now)) }
        ensures last { self.new.last ≡ self.old.last }
        ensures changes { IfOk result
            (λ found. self.new.changes
            ≡ (if found then self.old.changes ++ (tab ∷ key.now) ∷ [] else self.old.changes)) }
        ensures err { OnErr result (self.new ≡ self.old) }
    {
        let place = Place::of(self.alloc, tab, key)?;
        take_row(&mut self.rows, &mut self.changes, place)
    }

    /// Puts the rows of a span at their keys, one after the other. After a refusal some of them may be there.
    pub fn put_all(&mut self, tab: u8, span: &Span) -> Result<(), AllocError>
        requires table { (1 ≤ tab) × (tab ≤ 15) }
        ensures kept { OnOk result (self.new.kept ≡ with_rows tab self.old.kept span.now) }
        ensures last { self.new.last ≡ self.old.last }
    {
        put_rows(self.alloc, &mut self.rows, &mut self.changes, tab, span)
    }

    /// Takes the rows at the keys of a span away, one after the other. After a refusal some of them may be gone.
    pub fn remove_all(&mut self, tab: u8, span: &Span) -> Result<(), AllocError>
        requires table { (1 ≤ tab) × (tab ≤ 15) }
        ensures kept { OnOk result (self.new.kept ≡ without_rows tab self.old.kept span.now) }
        ensures last { self.new.last ≡ self.old.last }
    {
        take_rows(self.alloc, &mut self.rows, &mut self.changes, tab, span)
    }

    /// Commits the changes: the rows are now those last committed. It takes no memory.
    pub fn commit(&mut self)
        ensures { self.new ≡ record { kept = self.old.kept; last = self.old.kept; changes = [] } }
    {
        forget(&mut self.rows, &mut self.changes);
    }

    /// Undoes the changes: the rows are those last committed. It takes no memory.
    pub fn undo(&mut self)
        ensures { self.new ≡ record { kept = self.old.last; last = self.old.last; changes = [] } }
    {
        roll_back(&mut self.rows, &mut self.changes);
        forget(&mut self.rows, &mut self.changes);
    }

    /// Commits the changes, and puts a row as if that had been committed with them. Where memory runs out, the changes
    /// are committed all the same.
    pub fn preset(&mut self, tab: u8, key: &[u8], row: &[u8]) -> Result<(), AllocError>
        ensures ok { OnOk result (let t = map.insert self.old.kept (tab ∷ key.now) row.now in
            self.new ≡ record { kept = t; last = t; changes = [] }) }
        ensures err { OnErr result
            (self.new ≡ record { kept = self.old.kept; last = self.old.kept; changes = [] }) }
    {
        forget(&mut self.rows, &mut self.changes);
        insert_row(&mut self.rows, &Probe::of(tab, key), row)?;
        Ok(())
    }

    /// Commits the changes, and takes a row away as if that had been committed with them. It takes no memory.
    pub fn unset(&mut self, tab: u8, key: &[u8])
        ensures { let t = map.remove self.old.kept (tab ∷ key.now) in self.new
            ≡ record { kept = t; last = t; changes = [] } }
    {
        forget(&mut self.rows, &mut self.changes);
        self.rows.remove(&Probe::of(tab, key));
    }

    /// Whether both stores have the same rows. It takes no memory.
    pub fn same_rows(&self, other: &Self) -> bool
        ensures { IsTrue result ↔ (self.now.kept ≡ other.now.kept) }
    {
        self.rows.lies_within(&other.rows) && other.rows.lies_within(&self.rows)
    }

    /// How many changes are not committed. To write the rows that are now at their places over the rows last committed
    /// gives the rows.
    pub fn change_count(&self) -> usize
        ensures count { result ≡ length self.now.changes }
        ensures written { written self.now.changes self.now.kept self.now.last ≡ self.now.kept }
    {
        self.changes.len()
    }

    /// Where a change was made: a table and a key.
    pub fn changed_place(&self, at: usize) -> (u8, &[u8])
        requires { at < length self.now.changes }
        ensures place { slice_get self.now.changes at ≡ Some (result.0 ∷ result.1.now) }
        ensures table { (1 ≤ result.0) × (result.0 ≤ 15) }
    {
        self.changes[at].place.parts()
    }

    /// The row that is now at the place of a change; none where it was taken away.
    pub fn changed_row(&self, at: usize) -> Option<&[u8]>
        requires { at < length self.now.changes }
        ensures { IfSome (slice_get self.now.changes at)
            (λ place. option_map (λ row. row.now) result ≡ map.get self.now.kept place) }
    {
        let probe = self.changes[at].place.probe();
        self.rows.row_at(&probe)
    }
}
