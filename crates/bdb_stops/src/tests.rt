// Each call of the two files of a database fails in turn, and all behind it.
mod files;
mod rows;
mod script;
mod sql;

use crate::tests::files::{Ending, Failing, after_a_stop, as_they_were_left, ended, opened};
use crate::tests::rows::{commits_in, commits_told};
use crate::tests::script::{
    ROOM, Script, all_of, are_last, change_count, command_count, count_of, ran,
};
use bdb_base::List;
use bdb_io::MemSink;
use std::alloc::Global;
use std::process::Abort;
use std::test::Fail;

/// The scripts, and how many calls of the log and of the database file an undisturbed run of each makes at least.
const SCRIPTS: [(Script, u64, u64); 2] = [(Script::Curators, 60, 10), (Script::Eagle, 30, 10)];

// The last call of each commit syncs the log. Where it fails all of the commit is written, and nothing tells whether it stays. A
// commit changes the file where it opens it, and for each command that changes the base.
#[test]
fn each_call_of_the_log_fails(rt: HostRuntime) -> Result<(), Fail> {
    for (script, calls, _) in SCRIPTS {
        let (runs, unanswered) = fails_each(&rt, rt.alloc(), script, Failing::Log)?;
        assert!(rt; calls < runs, "{runs}");
        assert_eq!(rt; unanswered, change_count(script) + 1);
    }
    Ok(())
}

// The database file is read where it is opened, and written where it is made and where it is closed; no commit calls it.
#[test]
fn each_call_of_the_database_file_fails(rt: HostRuntime) -> Result<(), Fail> {
    for (script, _, calls) in SCRIPTS {
        let (runs, unanswered) = fails_each(&rt, rt.alloc(), script, Failing::Database)?;
        assert!(rt; calls < runs, "{runs}");
        assert_eq!(rt; unanswered, 0);
    }
    Ok(())
}

#[test]
fn a_file_that_is_opened_again_shows_what_was_told(rt: HostRuntime) -> Result<(), Fail> {
    let alloc = rt.alloc();
    let ending = ended(alloc, Script::Eagle, Failing::Log, u64::MAX)?;
    assert!(rt; ending.closed);
    let Ok(mut keeper) = opened(alloc, ending.files) else {
        return Err("not opened".into());
    };
    let mut replies = MemSink::new(alloc, List::new(alloc), 0, ROOM)?;
    let status = ran(alloc, "run", all_of(Script::Bob), &mut replies, &mut keeper)?;
    assert_eq!(rt; status, 0);
    assert!(rt; are_last(Script::Bob, replies.bytes(), 0));
    Ok(())
}

/// Has the calls of one of the files fail, from a later one on in each run, until none fails. It tells how many runs met a failure,
/// and how many of them left a commit that wasn't answered.
fn fails_each(
    rt: &impl Abort,
    alloc: Global,
    script: Script,
    failing: Failing,
) -> Result<(u64, usize), Fail> {
    let mut unanswered: usize = 0;
    for calls in 0..10_000 {
        let ending = ended(alloc, script, failing, calls)?;
        let whole = ending.closed;
        if left_more(rt, alloc, script, calls, ending)? {
            unanswered = unanswered.saturating_add(1);
        }
        if whole {
            return Ok((calls, unanswered));
        }
    }
    Err("each run fails".into())
}

/// Judges the end of a run. Its status is 5, or 0 where all replies were written, also where closing failed. The replies are those to
/// the first commands. As a stopped machine leaves the files, they hold the rows of exactly those commits that were answered: of
/// the commands replied to, and of opening. As the program leaves them, they may hold those of one commit more, which is told. Over
/// both the other commands can be done.
fn left_more(
    rt: &impl Abort,
    alloc: Global,
    script: Script,
    calls: u64,
    ending: Ending,
) -> Result<bool, Fail> {
    let Ending {
        status,
        replies,
        closed: _,
        files,
    } = ending;
    let told = count_of(script, replies.bytes()).ok_or("other replies")?;
    let wanted = if told == command_count(script) { 0 } else { 5 };
    assert_eq!(rt; status, wanted, "{calls}");
    let least = commits_told(script, told);
    let left = as_they_were_left(alloc, &files)?;
    let left = commits_in(alloc, script, left, least)?.ok_or("no base")?;
    let stopped = commits_in(alloc, script, after_a_stop(files), least)?.ok_or("no base")?;
    // Whether opening was answered isn't told by a reply.
    assert!(rt; stopped == least || (told == 0 && stopped == 1), "{calls}");
    assert!(rt;
        left == stopped || left.checked_sub(stopped) == Some(1),
        "{calls}"
    );
    Ok(left != stopped)
}
