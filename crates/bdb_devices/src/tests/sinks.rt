// Sinks that fail at a write: the command of the last reply stands, though its reply wasn't written.
use crate::tests::{COMMANDS, End, REPLIES, SCRIPT, ended, first_replies, left_by_write};
use std::alloc::Global;
use std::test::Fail;

/// How a run ends of which this write fails.
fn end_of(write: usize) -> End<'static> {
    if write <= COMMANDS {
        End {
            status: 4,
            replies: first_replies(REPLIES, write.saturating_sub(1)),
            commits: write.saturating_add(1),
        }
    } else {
        End {
            status: 0,
            replies: REPLIES,
            commits: COMMANDS + 1,
        }
    }
}

/// Whether a run ends so where this write fails, and takes no byte.
fn ends_at(alloc: Global, write: u32) -> Result<bool, Fail> {
    let left = left_by_write(alloc, SCRIPT, write)?;
    ended(alloc, SCRIPT, &left, end_of(write as usize))
}

#[test]
fn each_write_fails_once(rt: HostRuntime) -> Result<(), Fail> {
    for write in 1..15 {
        assert!(rt; ends_at(rt.alloc(), write)?, "write {write}");
    }
    Ok(())
}
