// A script with undo and redo of which a device fails: the base stands that the commands left which were done, also where the next
// one was to take a change back.
use crate::tests::{
    End, Left, commands_in, ended, first_replies, is_carried_out, left_by_call, left_by_read,
    left_by_write,
};
use std::alloc::Global;
use std::test::Fail;

/// Each kind of change is taken back and made again.
const SCRIPT: &[u8] = b"create user 'Alice'; create relation S(k text, v text); create user 'Bob';
undo; undo; redo; redo;
insert into BELIEF 'Alice' BELIEF 'Bob' S values('a','x');
update BELIEF 'Alice' BELIEF 'Bob' S set v = 'y' where k = 'a';
drop user 'Bob'; undo; undo; redo; redo; undo;
show world BELIEF 'Alice' BELIEF 'Bob';
";

/// The replies to these commands.
const REPLIES: &[u8] = b"ok\nok\nok\nok\nok\nok\nok\nok 1\nok 1\nok 1\nok\nok\nok\nok\nok\n\
+ S('a', 'y') explicit\nok 1\n";

/// How many commands there are.
const COMMANDS: usize = 16;

/// How many bytes a read gives.
const STEP: usize = 16;

/// How a run ends with this status that did so many of the commands, and committed so often.
fn end_of(status: u8, done: usize, commits: usize) -> End<'static> {
    End {
        status,
        replies: first_replies(REPLIES, done),
        commits,
    }
}

/// Whether a run of which a call of the keeper failed, if it was made, ended as it has to.
fn ended_by_call(alloc: Global, left: &Left) -> Result<bool, Fail> {
    let commits = left.keeper.commits() as usize;
    let status = if left.status == 0 { 0 } else { 5 };
    let is_whole = commits == COMMANDS + 1;
    let end = end_of(status, commits.saturating_sub(1), commits);
    Ok((left.status != 0 || is_whole) && ended(alloc, SCRIPT, left, end)?)
}

#[test]
fn each_call_fails_once(rt: HostRuntime) -> Result<(), Fail> {
    let alloc = rt.alloc();
    for call in 1..100_000 {
        let left = left_by_call(alloc, SCRIPT, call)?;
        assert!(rt; ended_by_call(alloc, &left)?, "call {call}");
        if left.status == 0 {
            assert!(rt; 200 < call);
            return Ok(());
        }
    }
    assert!(rt; false, "each call fails");
    Ok(())
}

/// Whether a run ends as it has to where this write fails, and takes no byte. The command stands whose reply it was to write.
fn ends_at_write(alloc: Global, write: u32) -> Result<bool, Fail> {
    let left = left_by_write(alloc, SCRIPT, write)?;
    let write = write as usize;
    let end = if write <= COMMANDS {
        end_of(4, write.saturating_sub(1), write.saturating_add(1))
    } else {
        end_of(0, COMMANDS, COMMANDS + 1)
    };
    ended(alloc, SCRIPT, &left, end)
}

#[test]
fn each_write_fails_once(rt: HostRuntime) -> Result<(), Fail> {
    for write in 1..18 {
        assert!(rt; ends_at_write(rt.alloc(), write)?, "write {write}");
    }
    Ok(())
}

/// Whether a run of which this read failed, if it was made, ended as it has to: the commands stand that end in the bytes given
/// before.
fn ended_by_read(alloc: Global, read: u32, left: &Left) -> Result<bool, Fail> {
    let count = STEP.saturating_mul((read as usize).saturating_sub(1));
    let given = SCRIPT.get(..count).unwrap_or(SCRIPT);
    let done = commands_in(given);
    let status = if left.status == 0 { 0 } else { 3 };
    let end = end_of(status, done, done.saturating_add(1));
    ended(alloc, SCRIPT, left, end)
}

#[test]
fn each_read_fails_once(rt: HostRuntime) -> Result<(), Fail> {
    let alloc = rt.alloc();
    for read in 1..1_000 {
        let left = left_by_read(alloc, SCRIPT, STEP, read)?;
        assert!(rt; ended_by_read(alloc, read, &left)?, "read {read}");
        if left.status == 0 {
            assert!(rt; 20 < read);
            return Ok(());
        }
    }
    assert!(rt; false, "each read fails");
    Ok(())
}

#[test]
fn the_script_is_carried_out(rt: HostRuntime) -> Result<(), Fail> {
    assert!(rt; is_carried_out(rt.alloc(), SCRIPT, REPLIES, COMMANDS)?);
    Ok(())
}
