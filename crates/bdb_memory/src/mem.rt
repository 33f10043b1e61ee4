// The keeper in memory that fails where it is told to.
ghost use Rattle.std.specs.Prelude.{◌≡◌, ◌+◌, ◌≤◌, length, [], ◌∷◌, true, false, IfOk, OnOk, OnErr, IfErr, MatchBool, is_some, IsTrue, ◌↔◌, if◌then◌else◌};
ghost use Rattle.std.specs.FinMap as map;
ghost use Rattle.bdb_base.specs.Causes.{RoseBy, number_of_next, is_listed};
ghost use Rattle.bdb_keep.specs.Calls.{IsBegin, IsRead, IsWrite, IsCommit, IsUndo};
ghost use Rattle.bdb_keep.specs.Marked.{IsMarkedCount};
ghost use Rattle.bdb_keep.specs.Spans.{AreRowsUnder, with_rows, without_rows};
ghost use Rattle.bdb_keep.specs.Tables.{IsLeastFrom, LieInTables, NoneFrom};
ghost use Rattle.bdb_memory.specs.Struck.{Counted};

use crate::ledger::Ledger;
use bdb_base::{List, is_listed};
use bdb_keep::{KeepError, Keeper, KeyEnd, Span};
use std::alloc::{AllocError, Global};
use std::marker::Model;

/// A keeper in memory that fails exactly the calls whose numbers, from 1, are listed. Each call of the trait but `undo`
/// has a number. Neither to begin nor to commit nor to undo a transaction takes memory.
#[derive(Drop)]
pub struct MemKeeper {
    ledger: Ledger,
    calls: u64,
    fails: List<u32>,
}

impl Model for MemKeeper {
    ghost use Rattle.bdb_memory.specs.Struck.{Struck, coded_struck};

    ghost Value = { Struck };

    ghost coded = { coded_struck };

    ghost view = { λ k. record { seen = k.ledger.seen; calls = k.calls; fails = k.fails } };
}

impl MemKeeper {
    /// A keeper with no rows that fails the calls with these numbers. It takes no memory.
    pub fn new(alloc: Global, fails: List<u32>) -> Self
        ensures { result ≡ record {
          seen = record {
            kept = map.empty;
            last = map.empty;
            running = false;
            faults = 0;
            reads = 0;
            writes = 0;
            commits = 0;
          };
          calls = 0;
          fails = fails;
        } }
    {
        MemKeeper {
            ledger: Ledger::new(alloc),
            calls: 0,
            fails,
        }
    }

    /// Sets a row as if it had been committed. It is no call of the trait, and has no number.
    pub fn preset(&mut self, tab: u8, key: &[u8], row: &[u8]) -> Result<(), AllocError>
        requires table { (1 ≤ tab) × (tab ≤ 15) }
        requires still { self.old.seen.running ≡ false }
        ensures ok { OnOk result (let t = map.insert self.old.seen.kept (tab ∷ key.now) row.now in
            self.new ≡ record self.old { seen = record self.old.seen { kept = t; last = t } }) }
        ensures err { OnErr result (self.new ≡ self.old) }
    {
        self.ledger.preset(tab, key, row)
    }

    /// Takes a row away as if that had been committed. It is no call of the trait, and takes no memory.
    pub fn unset(&mut self, tab: u8, key: &[u8])
        requires table { (1 ≤ tab) × (tab ≤ 15) }
        requires still { self.old.seen.running ≡ false }
        ensures { let t = map.remove self.old.seen.kept (tab ∷ key.now) in
            self.new ≡ record self.old { seen = record self.old.seen { kept = t; last = t } } }
    {
        self.ledger.unset(tab, key);
    }

    /// Whether both keepers have the same rows. It takes no memory.
    pub fn same_rows(&self, other: &Self) -> bool
        ensures { IsTrue result ↔ (self.now.seen.kept ≡ other.now.seen.kept) }
    {
        self.ledger.same_rows(&other.ledger)
    }

    /// How many transactions were committed.
    pub fn commits(&self) -> u64
        ensures { result ≡ self.now.seen.commits }
    {
        self.ledger.commits()
    }

    /// Counts a call, and tells whether it fails.
    fn fails_now(&mut self) -> bool
        ensures calls { self.new ≡ record self.old { calls = number_of_next self.old.calls } }
        ensures listed { result ≡ is_listed (number_of_next self.old.calls) self.old.fails }
    {
        self.calls = self.calls.saturating_add(1);
        is_listed(self.fails.as_slice(), self.calls)
    }
}

impl Keeper for MemKeeper {
    ghost seen = { λ k. k.seen };

    fn begin(&mut self) -> Result<(), KeepError>
        requires { self.old.seen.running ≡ false }
        ensures begins { IsBegin self.old.seen self.new.seen result KeepError.Fault }

        ensures exact { Counted self.old self.new result }
        ensures only { IfErr result (λ error. error ≡ KeepError.Fault) }
    {
        if self.fails_now() {
            self.ledger.refuse(KeepError::Fault);
            return Err(KeepError::Fault);
        }
        self.ledger.begin();
        Ok(())
    }

    fn get(&mut self, tab: u8, key: &[u8], row: &mut Vec<u8>) -> Result<bool, KeepError>
        requires table { (1 ≤ tab) × (tab ≤ 15) }
        ensures found { IfOk result (λ found. map.get self.old.seen.kept (tab ∷ key.now)
            ≡ (if found then Some row.new.items else None)) }
        ensures empty { IfOk result (λ found. found ≡ false → row.new.items ≡ []) }
        ensures reads { RoseBy 1 self.old.seen.reads self.new.seen.reads }
        ensures read { IsRead self.old.seen self.new.seen result KeepError.Fault }

        ensures exact { Counted self.old self.new result }
    {
        if self.fails_now() {
            self.ledger.refuse_read(KeepError::Fault);
            return Err(KeepError::Fault);
        }
        match self.ledger.get(tab, key, row) {
            Ok(found) => Ok(found),
            Err(error) => Err(error),
        }
    }

    fn next(
        &mut self,
        tab: u8,
        low: &[u8],
        key: &mut Vec<u8>,
        row: &mut Vec<u8>,
    ) -> Result<bool, KeepError>
        requires table { (1 ≤ tab) × (tab ≤ 15) }
        ensures found { IfOk result (λ found. MatchBool found
            (IsLeastFrom self.old.seen.kept tab low.now key.new.items row.new.items)
            (NoneFrom self.old.seen.kept tab low.now)) }
        ensures tables { LieInTables self.old.seen.kept }
        ensures empty { IfOk result (λ found. found ≡ false → (key.new.items ≡ [])
            × (row.new.items ≡ [])) }
        ensures reads { RoseBy 1 self.old.seen.reads self.new.seen.reads }
        ensures read { IsRead self.old.seen self.new.seen result KeepError.Fault }

        ensures exact { Counted self.old self.new result }
    {
        if self.fails_now() {
            self.ledger.refuse_read(KeepError::Fault);
            return Err(KeepError::Fault);
        }
        match self.ledger.next(tab, low, key, row) {
            Ok(found) => Ok(found),
            Err(error) => Err(error),
        }
    }

    fn under(&mut self, tab: u8, prefix: &[u8], span: &mut Span) -> Result<(), KeepError>
        requires table { (1 ≤ tab) × (tab ≤ 15) }
        ensures rows { OnOk result (AreRowsUnder self.old.seen.kept tab prefix.now span.new) }
        ensures reads { OnOk result
            (RoseBy (length span.new + 1) self.old.seen.reads self.new.seen.reads) }
        ensures read { IsRead self.old.seen self.new.seen result KeepError.Fault }

        ensures exact { Counted self.old self.new result }
    {
        if self.fails_now() {
            self.ledger.refuse_read(KeepError::Fault);
            return Err(KeepError::Fault);
        }
        match self.ledger.under(tab, prefix, span) {
            Ok(()) => Ok(()),
            Err(error) => Err(error),
        }
    }

    fn count_marked(&mut self, tab: u8, end: KeyEnd, word: u32) -> Result<usize, KeepError>
        requires table { (1 ≤ tab) × (tab ≤ 15) }
        ensures counted { IfOk result (λ n. IsMarkedCount self.old.seen.kept tab end word n) }
        ensures reads { RoseBy 1 self.old.seen.reads self.new.seen.reads }
        ensures read { IsRead self.old.seen self.new.seen result KeepError.Fault }

        ensures exact { Counted self.old self.new result }
    {
        if self.fails_now() {
            self.ledger.refuse_read(KeepError::Fault);
            return Err(KeepError::Fault);
        }
        match self.ledger.count_marked(tab, end, word) {
            Ok(count) => Ok(count),
            Err(error) => Err(error),
        }
    }

    fn put(&mut self, tab: u8, key: &[u8], row: &[u8]) -> Result<(), KeepError>
        requires table { (1 ≤ tab) × (tab ≤ 15) }
        requires running { self.old.seen.running ≡ true }
        ensures kept { OnOk result
            (self.new.seen.kept ≡ map.insert self.old.seen.kept (tab ∷ key.now) row.now) }
        ensures writes { RoseBy 1 self.old.seen.writes self.new.seen.writes }
        ensures write { IsWrite self.old.seen self.new.seen result KeepError.Fault }

        ensures exact { Counted self.old self.new result }
    {
        if self.fails_now() {
            self.ledger.refuse_write(KeepError::Fault);
            return Err(KeepError::Fault);
        }
        match self.ledger.put(tab, key, row) {
            Ok(()) => Ok(()),
            Err(error) => Err(error),
        }
    }

    fn remove(&mut self, tab: u8, key: &[u8]) -> Result<bool, KeepError>
        requires table { (1 ≤ tab) × (tab ≤ 15) }
        requires running { self.old.seen.running ≡ true }
        ensures found { IfOk result
            (λ found. found ≡ is_some (map.get self.old.seen.kept (tab ∷ key.now))) }
        ensures kept { OnOk result
            (self.new.seen.kept ≡ map.remove self.old.seen.kept (tab ∷ key.now)) }
        ensures writes { RoseBy 1 self.old.seen.writes self.new.seen.writes }
        ensures write { IsWrite self.old.seen self.new.seen result KeepError.Fault }

        ensures exact { Counted self.old self.new result }
    {
        if self.fails_now() {
            self.ledger.refuse_write(KeepError::Fault);
            return Err(KeepError::Fault);
        }
        match self.ledger.remove(tab, key) {
            Ok(found) => Ok(found),
            Err(error) => Err(error),
        }
    }

    fn put_all(&mut self, tab: u8, span: &Span) -> Result<(), KeepError>
        requires table { (1 ≤ tab) × (tab ≤ 15) }
        requires running { self.old.seen.running ≡ true }
        ensures kept { OnOk result
            (self.new.seen.kept ≡ with_rows tab self.old.seen.kept span.now) }
        ensures writes { OnOk result
            (RoseBy (length span.now) self.old.seen.writes self.new.seen.writes) }
        ensures write { IsWrite self.old.seen self.new.seen result KeepError.Fault }

        ensures exact { Counted self.old self.new result }
    {
        if self.fails_now() {
            self.ledger.refuse_write(KeepError::Fault);
            return Err(KeepError::Fault);
        }
        match self.ledger.put_all(tab, span) {
            Ok(()) => Ok(()),
            Err(error) => Err(error),
        }
    }

    fn remove_all(&mut self, tab: u8, span: &Span) -> Result<(), KeepError>
        requires table { (1 ≤ tab) × (tab ≤ 15) }
        requires running { self.old.seen.running ≡ true }
        ensures kept { OnOk result
            (self.new.seen.kept ≡ without_rows tab self.old.seen.kept span.now) }
        ensures writes { OnOk result
            (RoseBy (length span.now) self.old.seen.writes self.new.seen.writes) }
        ensures write { IsWrite self.old.seen self.new.seen result KeepError.Fault }

        ensures exact { Counted self.old self.new result }
    {
        if self.fails_now() {
            self.ledger.refuse_write(KeepError::Fault);
            return Err(KeepError::Fault);
        }
        match self.ledger.remove_all(tab, span) {
            Ok(()) => Ok(()),
            Err(error) => Err(error),
        }
    }

    fn commit(&mut self) -> Result<(), KeepError>
        requires { self.old.seen.running ≡ true }
        ensures commit { IsCommit self.old.seen self.new.seen result KeepError.Fault }

        ensures exact { Counted self.old self.new result }
        ensures only { IfErr result (λ error. error ≡ KeepError.Fault) }
    {
        if self.fails_now() {
            self.ledger.refuse(KeepError::Fault);
            return Err(KeepError::Fault);
        }
        self.ledger.commit();
        Ok(())
    }

    fn undo(&mut self)
        ensures undone { IsUndo self.old.seen self.new.seen }

        ensures exact { (self.new.calls ≡ self.old.calls) × (self.new.fails ≡ self.old.fails) }
    {
        self.ledger.undo();
    }
}
