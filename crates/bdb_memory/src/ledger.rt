// The rows in memory with their transaction and their counts, of which each keeper is made.
ghost use Rattle.std.specs.Prelude.{◌≡◌, ◌+◌, ◌-◌, ◌^◌, ◌≤◌, min, length, [], ◌∷◌, true, false, IfOk, OnOk, OnErr, MatchBool, is_some, IsTrue, ◌↔◌, if◌then◌else◌};
ghost use Rattle.std.specs.FinMap as map;
ghost use Rattle.bdb_base.specs.Causes.{Rose, RoseBy};
ghost use Rattle.bdb_keep.specs.Calls.{IsRead, IsWrite, IsUndo};
ghost use Rattle.bdb_keep.specs.Marked.{IsMarkedCount};
ghost use Rattle.bdb_keep.specs.Seen.{NeverFall, IsAtRest, IsDropped};
ghost use Rattle.bdb_keep.specs.Spans.{AreRowsUnder, with_rows, without_rows};
ghost use Rattle.bdb_keep.specs.Tables.{IsLeastFrom, LieInTables, NoneFrom};
ghost use Rattle.bdb_memory.specs.Told.{HasNoFault};

use crate::store::Store;
use bdb_keep::{KeepError, KeyEnd, Span};
use std::alloc::{AllocError, Global};
use std::marker::Model;

/// The rows of a keeper, whether a transaction runs, and the four counts. Its calls are refused only where memory runs out,
/// and then undo the transaction. A keeper that can be refused for another reason asks for that itself, by `refuse`.
#[derive(Drop)]
pub struct Ledger {
    store: Store,
    running: bool,
    faults: u64,
    reads: u64,
    writes: u64,
    commits: u64,
}

impl Model for Ledger {
    ghost use Rattle.std.specs.Prelude.{◌≡◌, false};
    ghost use Rattle.bdb_memory.specs.Told.{Told, coded_told};

    ghost Value = { Told };

    ghost coded = { coded_told };

    ghost view = { λ l. record {
      seen = record {
        kept = l.store.kept;
        last = l.store.last;
        running = l.running;
        faults = l.faults;
        reads = l.reads;
        writes = l.writes;
        commits = l.commits;
      };
      changes = l.store.changes;
    } };

    ghost use Rattle.bdb_memory.specs.Told.{IsSound};

    ghost invariant = { λ l. IsSound
        (record {
          kept = l.store.kept;
          last = l.store.last;
          running = l.running;
          faults = l.faults;
          reads = l.reads;
          writes = l.writes;
          commits = l.commits;
        }) };
}

impl Ledger {
    /// A ledger with no rows. It takes no memory.
    pub fn new(alloc: Global) -> Self
        ensures { result ≡ record {
          seen = record {
            kept = map.empty;
            last = map.empty;
            running = false;
            faults = 0;
            reads = 0;
            writes = 0;
            commits = 0;
          };
          changes = [];
        } }
    {
        Ledger::over(Store::new(alloc), 0)
    }

    /// A ledger over committed rows, where nothing runs and nothing was counted but these faults.
    pub fn over(store: Store, faults: u64) -> Self
        requires committed { store.kept ≡ store.last }
        requires tables { LieInTables store.kept }
        ensures { result ≡ record {
          seen = record {
            kept = store.kept;
            last = store.last;
            running = false;
            faults = faults;
            reads = 0;
            writes = 0;
            commits = 0;
          };
          changes = store.changes;
        } }
    {
        Ledger {
            store,
            running: false,
            faults,
            reads: 0,
            writes: 0,
            commits: 0,
        }
    }

    /// Begins a transaction.
    pub fn begin(&mut self)
        requires { self.old.seen.running ≡ false }
        ensures rest { self.old.seen.kept ≡ self.old.seen.last }
        ensures running { self.new
            ≡ record self.old { seen = record self.old.seen { running = true } } }
    {
        self.running = true;
    }

    /// Reads the row at a key into `row`. The answer is false, and `row` empty, where there is none.
    pub fn get(&mut self, tab: u8, key: &[u8], row: &mut Vec<u8>) -> Result<bool, KeepError>
        requires table { (1 ≤ tab) × (tab ≤ 15) }
        ensures found { IfOk result (λ found. map.get self.old.seen.kept (tab ∷ key.now)
            ≡ (if found then Some row.new.items else None)) }
        ensures empty { IfOk result (λ found. found ≡ false → row.new.items ≡ []) }
        ensures reads { RoseBy 1 self.old.seen.reads self.new.seen.reads }
        ensures read { IsRead self.old.seen self.new.seen result KeepError.Fault }
        ensures calm { HasNoFault self.old.seen self.new.seen result }
    {
        self.reads = self.reads.saturating_add(1);
        match self.store.get(tab, key, row) {
            Ok(found) => Ok(found),
            Err(_) => {
                self.undo();
                Err(KeepError::Memory)
            }
        }
    }

    /// Reads the least key that isn't below `low`, and its row. The answer is false, and both are empty, where there
    /// is none.
    pub fn next(
        &mut self,
        tab: u8,
        low: &[u8],
        key: &mut Vec<u8>,
        row: &mut Vec<u8>,
    ) -> Result<bool, KeepError>
        requires table { (1 ≤ tab) × (tab ≤ 15) }
        ensures found { IfOk result (λ found. MatchBool found
            (IsLeastFrom self.old.seen.kept tab low.now key.new.items row.new.items)
            (NoneFrom self.old.seen.kept tab low.now)) }
        ensures tables { LieInTables self.old.seen.kept }
        ensures empty { IfOk result (λ found. found ≡ false → (key.new.items ≡ [])
            × (row.new.items ≡ [])) }
        ensures reads { RoseBy 1 self.old.seen.reads self.new.seen.reads }
        ensures read { IsRead self.old.seen self.new.seen result KeepError.Fault }
        ensures calm { HasNoFault self.old.seen self.new.seen result }
    {
        self.reads = self.reads.saturating_add(1);
        match self.store.next(tab, low, key, row) {
            Ok(found) => Ok(found),
            Err(_) => {
                self.undo();
                Err(KeepError::Memory)
            }
        }
    }

    /// Makes `span` the rows of a table whose keys begin with these bytes, in order. It counts as one read more than there are rows.
    pub fn under(&mut self, tab: u8, prefix: &[u8], span: &mut Span) -> Result<(), KeepError>
        requires table { (1 ≤ tab) × (tab ≤ 15) }
        ensures rows { OnOk result (AreRowsUnder self.old.seen.kept tab prefix.now span.new) }
        ensures reads { OnOk result
            (RoseBy (length span.new + 1) self.old.seen.reads self.new.seen.reads) }
        ensures read { IsRead self.old.seen self.new.seen result KeepError.Fault }
        ensures calm { HasNoFault self.old.seen self.new.seen result }
    {
        match self.store.under(tab, prefix, span) {
            Ok(()) => {
                self.reads = reads_after(self.reads, span.len());
                Ok(())
            }
            Err(_) => {
                self.reads = reads_after(self.reads, 0);
                self.undo();
                Err(KeepError::Memory)
            }
        }
    }

    /// How many rows of a table are marked, of those whose keys begin, or end, with the four bytes of a number. It counts as one read.
    pub fn count_marked(&mut self, tab: u8, end: KeyEnd, word: u32) -> Result<usize, KeepError>
        requires table { (1 ≤ tab) × (tab ≤ 15) }
        ensures counted { IfOk result (λ n. IsMarkedCount self.old.seen.kept tab end word n) }
        ensures reads { RoseBy 1 self.old.seen.reads self.new.seen.reads }
        ensures read { IsRead self.old.seen self.new.seen result KeepError.Fault }
        ensures calm { HasNoFault self.old.seen self.new.seen result }
    {
        self.reads = self.reads.saturating_add(1);
        match self.store.count_marked(tab, end, word) {
            Ok(count) => Ok(count),
            Err(_) => {
                self.undo();
                Err(KeepError::Memory)
            }
        }
    }

    /// Puts a row at a key, in place of the row that stood there.
    pub fn put(&mut self, tab: u8, key: &[u8], row: &[u8]) -> Result<(), KeepError>
        requires table { (1 ≤ tab) × (tab ≤ 15) }
        requires running { self.old.seen.running ≡ true }
        ensures kept { OnOk result
            (self.new.seen.kept ≡ map.insert self.old.seen.kept (tab ∷ key.now) row.now) }
        ensures writes { RoseBy 1 self.old.seen.writes self.new.seen.writes }
        ensures write { IsWrite self.old.seen self.new.seen result KeepError.Fault }
        ensures calm { HasNoFault self.old.seen self.new.seen result }
    {
        self.writes = self.writes.saturating_add(1);
        match self.store.put(tab, key, row) {
            Ok(()) => Ok(()),
            Err(_) => {
                self.undo();
                Err(KeepError::Memory)
            }
        }
    }

    /// Takes the row at a key away. The answer tells whether it was there.
    pub fn remove(&mut self, tab: u8, key: &[u8]) -> Result<bool, KeepError>
        requires table { (1 ≤ tab) × (tab ≤ 15) }
        requires running { self.old.seen.running ≡ true }
        ensures found { IfOk result
            (λ found. found ≡ is_some (map.get self.old.seen.kept (tab ∷ key.now))) }
        ensures kept { OnOk result
            (self.new.seen.kept ≡ map.remove self.old.seen.kept (tab ∷ key.now)) }
        ensures writes { RoseBy 1 self.old.seen.writes self.new.seen.writes }
        ensures write { IsWrite self.old.seen self.new.seen result KeepError.Fault }
        ensures calm { HasNoFault self.old.seen self.new.seen result }
    {
        self.writes = self.writes.saturating_add(1);
        match self.store.remove(tab, key) {
            Ok(found) => Ok(found),
            Err(_) => {
                self.undo();
                Err(KeepError::Memory)
            }
        }
    }

    /// Puts the rows of a span at their keys, one after the other. Where it is Ok it counts as so many writes.
    pub fn put_all(&mut self, tab: u8, span: &Span) -> Result<(), KeepError>
        requires table { (1 ≤ tab) × (tab ≤ 15) }
        requires running { self.old.seen.running ≡ true }
        ensures kept { OnOk result
            (self.new.seen.kept ≡ with_rows tab self.old.seen.kept span.now) }
        ensures writes { OnOk result
            (RoseBy (length span.now) self.old.seen.writes self.new.seen.writes) }
        ensures write { IsWrite self.old.seen self.new.seen result KeepError.Fault }
        ensures calm { HasNoFault self.old.seen self.new.seen result }
    {
        self.writes = writes_after(self.writes, span.len());
        match self.store.put_all(tab, span) {
            Ok(()) => Ok(()),
            Err(_) => {
                self.store.undo();
                self.running = false;
                Err(KeepError::Memory)
            }
        }
    }

    /// Takes the rows at the keys of a span away, one after the other, where they are there. Where it is Ok it counts as so many
    /// writes.
    pub fn remove_all(&mut self, tab: u8, span: &Span) -> Result<(), KeepError>
        requires table { (1 ≤ tab) × (tab ≤ 15) }
        requires running { self.old.seen.running ≡ true }
        ensures kept { OnOk result
            (self.new.seen.kept ≡ without_rows tab self.old.seen.kept span.now) }
        ensures writes { OnOk result
            (RoseBy (length span.now) self.old.seen.writes self.new.seen.writes) }
        ensures write { IsWrite self.old.seen self.new.seen result KeepError.Fault }
        ensures calm { HasNoFault self.old.seen self.new.seen result }
    {
        self.writes = writes_after(self.writes, span.len());
        match self.store.remove_all(tab, span) {
            Ok(()) => Ok(()),
            Err(_) => {
                self.store.undo();
                self.running = false;
                Err(KeepError::Memory)
            }
        }
    }

    /// Makes the rows those last committed, and ends the transaction. It takes no memory.
    pub fn commit(&mut self)
        ensures committed { self.new ≡ record {
          seen = record self.old.seen {
            last = self.old.seen.kept;
            running = false;
            commits = min (self.old.seen.commits + 1) (2 ^ 64 - 1);
          };
          changes = [];
        } }
        ensures counts { NeverFall self.old.seen self.new.seen }
    {
        self.store.commit();
        self.running = false;
        self.commits = self.commits.saturating_add(1);
    }

    /// Ends the transaction, if one runs, and goes back to the rows last committed. It takes no memory.
    pub fn undo(&mut self)
        ensures undone { IsUndo self.old.seen self.new.seen }
        ensures changes { self.new.changes ≡ [] }
    {
        self.store.undo();
        self.running = false;
    }

    /// Undoes the transaction, if one runs, because a call is refused, and counts a fault where that is the reason.
    pub fn refuse(&mut self, error: KeepError)
        ensures rest { IsAtRest self.old.seen }
        ensures dropped { IsDropped self.old.seen self.new.seen }
        ensures rose { error ≡ KeepError.Fault → Rose self.old.seen.faults self.new.seen.faults }
        ensures fault { error ≡ KeepError.Fault
            → RoseBy 1 self.old.seen.faults self.new.seen.faults }
        ensures memory { error ≡ KeepError.Memory
            → self.new.seen.faults ≡ self.old.seen.faults }
        ensures counts { NeverFall self.old.seen self.new.seen }
        ensures reads { self.new.seen.reads ≡ self.old.seen.reads }
        ensures writes { self.new.seen.writes ≡ self.old.seen.writes }
    {
        if error == KeepError::Fault {
            self.faults = self.faults.saturating_add(1);
        }
        self.undo();
    }

    /// The same of a read, which is counted.
    pub fn refuse_read(&mut self, error: KeepError)
        ensures tables { LieInTables self.old.seen.kept }
        ensures rest { IsAtRest self.old.seen }
        ensures dropped { IsDropped self.old.seen self.new.seen }
        ensures rose { error ≡ KeepError.Fault → Rose self.old.seen.faults self.new.seen.faults }
        ensures fault { error ≡ KeepError.Fault
            → RoseBy 1 self.old.seen.faults self.new.seen.faults }
        ensures memory { error ≡ KeepError.Memory
            → self.new.seen.faults ≡ self.old.seen.faults }
        ensures counts { NeverFall self.old.seen self.new.seen }
        ensures reads { RoseBy 1 self.old.seen.reads self.new.seen.reads }
        ensures writes { self.new.seen.writes ≡ self.old.seen.writes }
    {
        self.reads = self.reads.saturating_add(1);
        self.refuse(error);
    }

    /// The same of a write, which is counted.
    pub fn refuse_write(&mut self, error: KeepError)
        ensures rest { IsAtRest self.old.seen }
        ensures dropped { IsDropped self.old.seen self.new.seen }
        ensures rose { error ≡ KeepError.Fault → Rose self.old.seen.faults self.new.seen.faults }
        ensures fault { error ≡ KeepError.Fault
            → RoseBy 1 self.old.seen.faults self.new.seen.faults }
        ensures memory { error ≡ KeepError.Memory
            → self.new.seen.faults ≡ self.old.seen.faults }
        ensures counts { NeverFall self.old.seen self.new.seen }
        ensures reads { self.new.seen.reads ≡ self.old.seen.reads }
        ensures writes { RoseBy 1 self.old.seen.writes self.new.seen.writes }
    {
        self.writes = self.writes.saturating_add(1);
        self.refuse(error);
    }

    /// Sets a row as if it had been committed.
    pub fn preset(&mut self, tab: u8, key: &[u8], row: &[u8]) -> Result<(), AllocError>
        requires table { (1 ≤ tab) × (tab ≤ 15) }
        requires still { self.old.seen.running ≡ false }
        ensures ok { OnOk result (let t = map.insert self.old.seen.kept (tab ∷ key.now) row.now in
            self.new.seen ≡ record self.old.seen { kept = t; last = t }) }
        ensures err { OnErr result (self.new.seen ≡ self.old.seen) }
    {
        match self.store.preset(tab, key, row) {
            Ok(()) => Ok(()),
            Err(error) => Err(error),
        }
    }

    /// Takes a row away as if that had been committed. It takes no memory.
    pub fn unset(&mut self, tab: u8, key: &[u8])
        requires table { (1 ≤ tab) × (tab ≤ 15) }
        requires still { self.old.seen.running ≡ false }
        ensures { let t = map.remove self.old.seen.kept (tab ∷ key.now) in self.new.seen
            ≡ record self.old.seen { kept = t; last = t } }
    {
        self.store.unset(tab, key);
    }

    /// Whether both have the same rows. It takes no memory.
    pub fn same_rows(&self, other: &Self) -> bool
        ensures { IsTrue result ↔ (self.now.seen.kept ≡ other.now.seen.kept) }
    {
        self.store.same_rows(&other.store)
    }

    /// How many transactions were committed.
    pub fn commits(&self) -> u64
        ensures { result ≡ self.now.seen.commits }
    {
        self.commits
    }

    /// The rows, and the changes that aren't committed.
    pub fn store(&self) -> &Store
        ensures { result.now ≡ record {
          kept = self.now.seen.kept;
          last = self.now.seen.last;
          changes = self.now.changes;
        } }
    {
        &self.store
    }
}

/// How many reads there are after one that found so many rows.
fn reads_after(reads: u64, rows: usize) -> u64
    ensures count { RoseBy (rows + 1) reads result }
    ensures later { reads ≤ result }
{
    reads.saturating_add(rows as u64).saturating_add(1)
}

/// How many writes there are after so many more.
fn writes_after(writes: u64, rows: usize) -> u64
    ensures count { RoseBy rows writes result }
    ensures later { writes ≤ result }
{
    writes.saturating_add(rows as u64)
}
