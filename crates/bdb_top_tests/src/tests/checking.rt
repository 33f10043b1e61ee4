// Checking tables, and runs over tables that hold no base.
ghost use Rattle.std.specs.Prelude.{◌≡◌, false};

use crate::tests::{Left, SETUP, listed, ran, ran_words, sink};
use bdb_io::{MemSink, MemSource};
use bdb_keep::Keeper;
use bdb_memory::{MemKeeper, QuietKeeper};
use std::alloc::Global;
use std::test::Fail;

/// How many bytes a sink of these tests takes.
const ROOM: usize = 100;

/// The key of the row of the format.
const FORMAT_KEY: [u8; 4] = [0, 0, 0, 0];

/// The status of checking a keeper's rows, over a source that fails at its first read.
pub(crate) fn checked<K: Keeper>(
    alloc: Global,
    out: &mut MemSink,
    keeper: &mut K,
) -> Result<u8, Fail>
    requires idle { (K.seen keeper.old).running ≡ false }
    ensures idle { (K.seen keeper.new).running ≡ false }
{
    let mut source = MemSource::new(Vec::new(alloc), 1, listed(alloc, &[1])?);
    ran_words(alloc, "check --db a", &mut source, out, keeper)
}

/// Whether a check of a row in a table tells this line, and a run over it nothing, each with status 7.
fn holds_no_base(alloc: Global, tab: u8, row: [u8; 4], line: &str) -> Result<bool, Fail> {
    if tab == 0 || 15 < tab {
        return Ok(false);
    }
    let mut keeper = QuietKeeper::new(alloc);
    keeper.preset(tab, &FORMAT_KEY, &row)?;
    let mut out = sink(alloc)?;
    let told = checked(alloc, &mut out, &mut keeper)?;
    let ended = ran(alloc, &[SETUP], &mut out, &mut keeper)?;
    Ok(told == 7 && ended == 7 && out.bytes() == line.as_bytes() && keeper.commits() == 0)
}

#[test]
fn rows_of_no_base_are_told(rt: HostRuntime) -> Result<(), Fail> {
    let cases = [
        (1, [0, 0, 0, 4], "error format 4\n"),
        (1, [255, 255, 255, 255], "error format 4294967295\n"),
        (1, [0, 0, 0, 3], "error damaged\n"),
        (6, [0, 0, 0, 0], "error damaged\n"),
    ];
    for (tab, row, line) in cases {
        assert!(rt; holds_no_base(rt.alloc(), tab, row, line)?, "{line}");
    }
    Ok(())
}

/// What a check of a keeper without rows leaves, where these calls of the keeper and these writes fail.
fn checked_failing(alloc: Global, calls: &[u32], writes: &[u32]) -> Result<Left, Fail> {
    let mut left = Left {
        keeper: MemKeeper::new(alloc, listed(alloc, calls)?),
        out: MemSink::new(alloc, listed(alloc, writes)?, 2, ROOM)?,
        status: 0,
    };
    left.status = checked(alloc, &mut left.out, &mut left.keeper)?;
    Ok(left)
}

#[test]
fn a_check_that_fails_tells_no_verdict(rt: HostRuntime) -> Result<(), Fail> {
    assert!(rt; checked_failing(rt.alloc(), &[], &[1])?.is_told("ok", 4));
    assert!(rt; checked_failing(rt.alloc(), &[1], &[])?.is_told("", 5));
    Ok(())
}
