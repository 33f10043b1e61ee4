// The keeper in memory that never fails.
ghost use Rattle.std.specs.Prelude.{◌≡◌, ◌≤◌, ◌∷◌, OnOk, OnErr, IsOk, IsTrue, ◌↔◌, true, false};
ghost use Rattle.std.specs.FinMap as map;
ghost use Rattle.bdb_keep.specs.Calls.{IsBegin, IsCommit};
ghost use Rattle.bdb_memory.specs.Calm.{seen_of};

use crate::ledger::Ledger;
use bdb_keep::{KeepError, Keeper, KeyEnd, Span};
use std::alloc::{AllocError, Global};
use std::marker::Model;

/// A keeper in memory that has no faults. It is refused only where memory runs out, and neither to begin nor to commit nor to
/// undo a transaction takes memory.
#[derive(Drop)]
pub struct QuietKeeper {
    ledger: Ledger,
}

impl Model for QuietKeeper {
    ghost use Rattle.std.specs.Prelude.{◌≡◌};
    ghost use Rattle.bdb_memory.specs.Calm.{Calm, coded_calm, calm_of};

    ghost Value = { Calm };

    ghost coded = { coded_calm };

    ghost view = { λ k. calm_of k.ledger.seen };

    ghost invariant = { λ k. k.ledger.seen.faults ≡ 0 };
}

impl QuietKeeper {
    /// A keeper with no rows. It takes no memory.
    pub fn new(alloc: Global) -> Self
        ensures { result ≡ record {
          kept = map.empty;
          last = map.empty;
          running = false;
          reads = 0;
          writes = 0;
          commits = 0;
        } }
    {
        QuietKeeper {
            ledger: Ledger::new(alloc),
        }
    }

    /// Sets a row as if it had been committed. It is no call of the trait.
    pub fn preset(&mut self, tab: u8, key: &[u8], row: &[u8]) -> Result<(), AllocError>
        requires table { (1 ≤ tab) × (tab ≤ 15) }
        requires still { self.old.running ≡ false }
        ensures ok { OnOk result (let t = map.insert self.old.kept (tab ∷ key.now) row.now in
            self.new ≡ record self.old { kept = t; last = t }) }
        ensures err { OnErr result (self.new ≡ self.old) }
    {
        self.ledger.preset(tab, key, row)
    }

    /// Takes a row away as if that had been committed. It is no call of the trait, and takes no memory.
    pub fn unset(&mut self, tab: u8, key: &[u8])
        requires table { (1 ≤ tab) × (tab ≤ 15) }
        requires still { self.old.running ≡ false }
        ensures { let t = map.remove self.old.kept (tab ∷ key.now) in self.new
            ≡ record self.old { kept = t; last = t } }
    {
        self.ledger.unset(tab, key);
    }

    /// Whether both keepers have the same rows. It takes no memory.
    pub fn same_rows(&self, other: &Self) -> bool
        ensures { IsTrue result ↔ (self.now.kept ≡ other.now.kept) }
    {
        self.ledger.same_rows(&other.ledger)
    }

    /// How many transactions were committed.
    pub fn commits(&self) -> u64
        ensures { result ≡ self.now.commits }
    {
        self.ledger.commits()
    }
}

impl Keeper for QuietKeeper {
    ghost seen = { seen_of };

    /// It is never refused.
    fn begin(&mut self) -> Result<(), KeepError>
        requires { (seen_of self.old).running ≡ false }
        ensures begins { IsBegin (seen_of self.old) (seen_of self.new) result KeepError.Fault }
        ensures accepted { IsOk result }
    {
        self.ledger.begin();
        Ok(())
    }

    fn get(&mut self, tab: u8, key: &[u8], row: &mut Vec<u8>) -> Result<bool, KeepError> {
        match self.ledger.get(tab, key, row) {
            Ok(found) => Ok(found),
            Err(error) => Err(error),
        }
    }

    fn next(
        &mut self,
        tab: u8,
        low: &[u8],
        key: &mut Vec<u8>,
        row: &mut Vec<u8>,
    ) -> Result<bool, KeepError> {
        match self.ledger.next(tab, low, key, row) {
            Ok(found) => Ok(found),
            Err(error) => Err(error),
        }
    }

    fn under(&mut self, tab: u8, prefix: &[u8], span: &mut Span) -> Result<(), KeepError> {
        match self.ledger.under(tab, prefix, span) {
            Ok(()) => Ok(()),
            Err(error) => Err(error),
        }
    }

    fn count_marked(&mut self, tab: u8, end: KeyEnd, word: u32) -> Result<usize, KeepError> {
        match self.ledger.count_marked(tab, end, word) {
            Ok(count) => Ok(count),
            Err(error) => Err(error),
        }
    }

    fn put(&mut self, tab: u8, key: &[u8], row: &[u8]) -> Result<(), KeepError> {
        match self.ledger.put(tab, key, row) {
            Ok(()) => Ok(()),
            Err(error) => Err(error),
        }
    }

    fn remove(&mut self, tab: u8, key: &[u8]) -> Result<bool, KeepError> {
        match self.ledger.remove(tab, key) {
            Ok(found) => Ok(found),
            Err(error) => Err(error),
        }
    }

    fn put_all(&mut self, tab: u8, span: &Span) -> Result<(), KeepError> {
        match self.ledger.put_all(tab, span) {
            Ok(()) => Ok(()),
            Err(error) => Err(error),
        }
    }

    fn remove_all(&mut self, tab: u8, span: &Span) -> Result<(), KeepError> {
        match self.ledger.remove_all(tab, span) {
            Ok(()) => Ok(()),
            Err(error) => Err(error),
        }
    }

    /// It is never refused.
    fn commit(&mut self) -> Result<(), KeepError>
        requires { (seen_of self.old).running ≡ true }
        ensures commit { IsCommit (seen_of self.old) (seen_of self.new) result KeepError.Fault }
        ensures accepted { IsOk result }
    {
        self.ledger.commit();
        Ok(())
    }

    fn undo(&mut self) {
        self.ledger.undo();
    }
}
