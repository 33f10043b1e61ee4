// Sources that fail at a read: the commands stand that end in the bytes given before.
use crate::tests::{
    COMMANDS, End, REPLIES, SCRIPT, commands_in, ended, first_replies, left_by_read,
};
use std::test::Fail;

/// How many bytes a read gives.
const STEP: usize = 64;

/// The bytes that were given before this read.
fn given_before(read: u32) -> &'static [u8] {
    let count = STEP.saturating_mul((read as usize).saturating_sub(1));
    SCRIPT.get(..count).unwrap_or(SCRIPT)
}

/// How a run ends of which this read fails, if it is made.
fn end_of(read: u32, fails: bool) -> End<'static> {
    let done = commands_in(given_before(read));
    End {
        status: if fails { 3 } else { 0 },
        replies: first_replies(REPLIES, done),
        commits: done.saturating_add(1),
    }
}

#[test]
fn each_read_fails_once(rt: HostRuntime) -> Result<(), Fail> {
    let alloc = rt.alloc();
    for read in 1..1_000 {
        let left = left_by_read(alloc, SCRIPT, STEP, read)?;
        let fails = left.status != 0;
        assert!(rt;
            ended(alloc, SCRIPT, &left, end_of(read, fails))?,
            "read {read}"
        );
        if !fails {
            assert_eq!(rt; given_before(read).len(), SCRIPT.len());
            assert_eq!(rt; commands_in(given_before(read)), COMMANDS);
            return Ok(());
        }
    }
    assert!(rt; false, "each read fails");
    Ok(())
}
