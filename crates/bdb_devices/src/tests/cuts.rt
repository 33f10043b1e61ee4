// Scripts that end early: the commands stand that are whole, and the rest is told of where it holds something.
use crate::tests::{
    End, REPLIES, SCRIPT, UNFINISHED, commands_in, ended, first_replies, left_by_none, parted,
};
use std::alloc::Global;
use std::test::Fail;

/// Whether something stands in a line, outside blanks and comments.
fn holds(line: &[u8]) -> bool {
    let line = line.trim_ascii();
    !line.is_empty() && !line.starts_with(b"--")
}

/// Whether something stands behind the last command of a script.
fn has_rest(script: &[u8]) -> bool {
    let (_, rest) = parted(script, commands_in(script));
    rest.split(|byte| *byte == b'\n').any(|line| holds(line))
}

/// Whether a run of this front of the script does its commands, and tells of its rest.
fn ends_at(alloc: Global, front: &[u8]) -> Result<bool, Fail> {
    let left = left_by_none(alloc, front)?;
    let done = commands_in(front);
    let mut replies = Vec::from_slice(alloc, first_replies(REPLIES, done))?;
    let is_unfinished = has_rest(front);
    if is_unfinished {
        replies.extend_from_slice(UNFINISHED)?;
    }
    let end = End {
        status: if is_unfinished { 1 } else { 0 },
        replies: replies.as_slice(),
        commits: done.saturating_add(1),
    };
    ended(alloc, SCRIPT, &left, end)
}

#[test]
fn the_script_ends_anywhere(rt: HostRuntime) -> Result<(), Fail> {
    for count in 0..SCRIPT.len() + 1 {
        let front = SCRIPT.get(..count).unwrap_or(SCRIPT);
        assert!(rt; ends_at(rt.alloc(), front)?, "{count} bytes");
    }
    Ok(())
}
