// Keepers that fail while their tables are opened or checked: the rows stay, and nothing is told.

use crate::tests::copying::copy_rows;
use crate::tests::{SCRIPT, only, quiet_keeper, quiet_sink, quiet_source, ran, told};
use bdb_memory::MemKeeper;
use std::alloc::Global;
use std::test::Fail;

/// The status of a line's words over a keeper with these rows of which this call fails; an error where the rows don't stay, or
/// a fault tells anything.
fn opened(alloc: Global, line: &str, call: u32, rows: &mut MemKeeper) -> Result<u8, Fail> {
    let mut keeper = MemKeeper::new(alloc, only(alloc, call)?);
    copy_rows(alloc, rows, &mut keeper)?;
    let mut out = quiet_sink(alloc)?;
    let status = ran(
        alloc,
        line,
        quiet_source(alloc, b"")?,
        &mut out,
        &mut keeper,
    )?;
    if keeper.commits() != 0 || !keeper.same_rows(rows) {
        return Err(Fail::new("the rows don't stay"));
    }
    if status == 5 && !out.bytes().is_empty() {
        return Err(Fail::new("something is told"));
    }
    Ok(status)
}

/// The status of a line's words over what the script leaves, where no call fails any more, and how many calls failed before.
fn opened_at_last(alloc: Global, line: &str) -> Result<(u8, u32), Fail> {
    let mut rows = quiet_keeper(alloc);
    told(alloc, SCRIPT, &mut rows)?;
    for call in 1..100_000 {
        let status = opened(alloc, line, call, &mut rows)?;
        if status != 5 {
            return Ok((status, call - 1));
        }
    }
    Err(Fail::new("each call fails"))
}

#[test]
fn each_call_of_opening_fails_once(rt: HostRuntime) -> Result<(), Fail> {
    for line in ["run", "check --db a"] {
        let (status, calls) = opened_at_last(rt.alloc(), line)?;
        assert_eq!(rt; status, 0, "{line}");
        assert!(rt; 20 < calls, "{line}");
    }
    Ok(())
}
