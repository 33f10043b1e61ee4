// A keeper that begins to fail at some reads, and queries over it.
ghost use Rattle.std.specs.Prelude.{◌≡◌, ◌≤◌, false};
ghost use Rattle.bdb_base.specs.Causes.{Rose};
ghost use Rattle.bdb_keep.specs.Calls.{IsUndo};

use crate::tests::{SETUP, ran, sink};
use bdb_base::List;
use bdb_io::MemSink;
use bdb_keep::{KeepError, Keeper, KeyEnd, Span};
use bdb_memory::MemKeeper;
use std::alloc::Global;
use std::test::Fail;

/// The table of the edges between worlds.
const EDGES: u8 = 9;

/// The table of the rows of worlds.
const ROWS: u8 = 11;

/// The number of the world of the first path that is believed at, as keys begin with it.
const FIRST_WORLD: [u8; 4] = [0, 0, 0, 1];

/// How many commits there are before reads begin to fail: that of opening, and those of five commands.
const COMMITS_BEFORE: u64 = 6;

/// Which reads fail.
#[derive(Clone, Copy, Drop)]
enum FailingReads {
    /// Those of edges.
    Edges,
    /// Those of the rows of other worlds than the first that is believed at.
    OtherWorlds,
}

impl FailingReads {
    /// Whether the read in a table at a key, or from it on, is one of these.
    fn has(self, tab: u8, key: &[u8]) -> bool {
        match self {
            FailingReads::Edges => tab == EDGES,
            FailingReads::OtherWorlds => tab == ROWS && !key.starts_with(&FIRST_WORLD),
        }
    }
}

/// A keeper in memory of which some reads fail once it has committed six times.
#[derive(Drop)]
struct FailingKeeper {
    inner: MemKeeper,
    fails: FailingReads,
    faults: u64,
}

impl FailingKeeper {
    /// A keeper without rows.
    fn new(alloc: Global, fails: FailingReads) -> Self
        ensures idle { result.inner.seen.running ≡ false }
    {
        FailingKeeper {
            inner: MemKeeper::new(alloc, List::new(alloc)),
            fails,
            faults: 0,
        }
    }

    /// Whether the read in a table at a key, or from it on, fails.
    fn fails_at(&self, tab: u8, key: &[u8]) -> bool {
        COMMITS_BEFORE <= self.inner.commits() && self.fails.has(tab, key)
    }

    /// Undoes the transaction, if one runs, and counts a fault.
    fn fail(&mut self)
        ensures undone { IsUndo self.old.inner.seen self.new.inner.seen }
        ensures later { self.old.faults ≤ self.new.faults }
        ensures rose { Rose self.old.faults self.new.faults }
    {
        self.inner.undo();
        self.faults = self.faults.saturating_add(1);
    }
}

impl Keeper for FailingKeeper {
    ghost use Rattle.bdb_top_tests.specs.Failing.{with_faults};

    ghost seen = { λ k. with_faults k.inner.seen k.faults };

    fn begin(&mut self) -> Result<(), KeepError> {
        match self.inner.begin() {
            Ok(()) => Ok(()),
            Err(error) => Err(error),
        }
    }

    fn get(&mut self, tab: u8, key: &[u8], row: &mut Vec<u8>) -> Result<bool, KeepError> {
        let found = match self.inner.get(tab, key, row) {
            Ok(found) => found,
            Err(error) => return Err(error),
        };
        if self.fails_at(tab, key) {
            self.fail();
            return Err(KeepError::Fault);
        }
        Ok(found)
    }

    fn next(
        &mut self,
        tab: u8,
        low: &[u8],
        key: &mut Vec<u8>,
        row: &mut Vec<u8>,
    ) -> Result<bool, KeepError> {
        let found = match self.inner.next(tab, low, key, row) {
            Ok(found) => found,
            Err(error) => return Err(error),
        };
        if self.fails_at(tab, low) {
            self.fail();
            return Err(KeepError::Fault);
        }
        Ok(found)
    }

    fn under(&mut self, tab: u8, prefix: &[u8], span: &mut Span) -> Result<(), KeepError> {
        match self.inner.under(tab, prefix, span) {
            Ok(()) => {}
            Err(error) => return Err(error),
        }
        if self.fails_at(tab, prefix) {
            self.fail();
            return Err(KeepError::Fault);
        }
        Ok(())
    }

    fn count_marked(&mut self, tab: u8, end: KeyEnd, word: u32) -> Result<usize, KeepError> {
        let count = match self.inner.count_marked(tab, end, word) {
            Ok(count) => count,
            Err(error) => return Err(error),
        };
        let fails = match end {
            KeyEnd::First => self.fails_at(tab, &word.to_be_bytes()),
            KeyEnd::Last => self.fails_at(tab, &[]),
        };
        if fails {
            self.fail();
            return Err(KeepError::Fault);
        }
        Ok(count)
    }

    fn put(&mut self, tab: u8, key: &[u8], row: &[u8]) -> Result<(), KeepError> {
        match self.inner.put(tab, key, row) {
            Ok(()) => Ok(()),
            Err(error) => Err(error),
        }
    }

    fn remove(&mut self, tab: u8, key: &[u8]) -> Result<bool, KeepError> {
        match self.inner.remove(tab, key) {
            Ok(found) => Ok(found),
            Err(error) => Err(error),
        }
    }

    fn put_all(&mut self, tab: u8, span: &Span) -> Result<(), KeepError> {
        match self.inner.put_all(tab, span) {
            Ok(()) => Ok(()),
            Err(error) => Err(error),
        }
    }

    fn remove_all(&mut self, tab: u8, span: &Span) -> Result<(), KeepError> {
        match self.inner.remove_all(tab, span) {
            Ok(()) => Ok(()),
            Err(error) => Err(error),
        }
    }

    fn commit(&mut self) -> Result<(), KeepError> {
        match self.inner.commit() {
            Ok(()) => Ok(()),
            Err(error) => Err(error),
        }
    }

    fn undo(&mut self) {
        self.inner.undo();
    }
}

/// The status and the replies of a query on what Bob believes, where he alone believes something, over a keeper of which
/// these reads fail from the query on.
fn ran_failing_at(alloc: Global, fails: FailingReads) -> Result<(u8, MemSink), Fail> {
    let script = [
        SETUP,
        "insert into S values('s1','eagle'); insert into BELIEF 'Bob' not S values('s1','eagle');",
        "select X.k from BELIEF 'Bob' S X;",
    ];
    let mut keeper = FailingKeeper::new(alloc, fails);
    let mut out = sink(alloc)?;
    let status = ran(alloc, &script, &mut out, &mut keeper)?;
    Ok((status, out))
}

#[test]
fn queries_read_edges(rt: HostRuntime) -> Result<(), Fail> {
    let (status, out) = ran_failing_at(rt.alloc(), FailingReads::Edges)?;
    assert_eq!(rt; status, 5);
    assert_eq!(rt; out.bytes(), b"ok\nok\nok\nok 1\nok 1\n".as_slice());
    Ok(())
}

#[test]
fn queries_read_no_rows_of_other_worlds(rt: HostRuntime) -> Result<(), Fail> {
    let (status, out) = ran_failing_at(rt.alloc(), FailingReads::OtherWorlds)?;
    assert_eq!(rt; status, 0);
    assert_eq!(rt; out.bytes(), b"ok\nok\nok\nok 1\nok 1\nok 0\n".as_slice());
    Ok(())
}
