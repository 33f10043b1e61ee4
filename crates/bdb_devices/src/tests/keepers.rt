// Keepers that fail at a call: the commands stand that were committed, and the others can be done afterwards.
ghost use Rattle.std.specs.Prelude.{◌≡◌, false};

use crate::tests::copying::copy_of;
use crate::tests::{
    COMMANDS, End, Left, REPLIES, SCRIPT, ended, first_replies, left_by_call, parted, quiet_keeper,
    quiet_sink, quiet_source, ran, told,
};
use bdb_io::MemSink;
use bdb_memory::MemKeeper;
use std::alloc::Global;
use std::test::Fail;

/// How a run ends that committed so often.
fn end_of(commits: usize) -> End<'static> {
    End {
        status: 5,
        replies: first_replies(REPLIES, commits.saturating_sub(1)),
        commits,
    }
}

/// What stands at the end of a run of which nothing fails: the rows, and what is shown of them.
#[derive(Drop)]
struct Whole {
    keeper: MemKeeper,
    shown: MemSink,
}

fn undisturbed(alloc: Global) -> Result<Whole, Fail> {
    let mut keeper = quiet_keeper(alloc);
    told(alloc, SCRIPT, &mut keeper)?;
    let (_, shown) = told(alloc, b"show tables;", &mut keeper)?;
    Ok(Whole { keeper, shown })
}

/// Whether the commands that weren't done, over a copy of the rows left, bring about what stands at the end of the whole.
fn goes_on(alloc: Global, mut left: Left, whole: &Whole) -> Result<bool, Fail> {
    let done = (left.keeper.commits() as usize).saturating_sub(1);
    let (_, rest) = parted(SCRIPT, done);
    let mut keeper = copy_of(alloc, &mut left.keeper)?;
    let (status, out) = told(alloc, rest, &mut keeper)?;
    let is_replied = REPLIES.strip_prefix(first_replies(REPLIES, done)) == Some(out.bytes());
    Ok(
        status == 0
            && is_replied
            && keeper.same_rows(&whole.keeper)
            && is_shown(alloc, &mut keeper, whole)?,
    )
}

/// Whether a keeper's tables are sound, and show what is shown of the whole.
fn is_shown(alloc: Global, keeper: &mut MemKeeper, whole: &Whole) -> Result<bool, Fail>
    requires idle { keeper.old.seen.running ≡ false }
{
    let mut verdict = quiet_sink(alloc)?;
    let checked = ran(
        alloc,
        "check --db a",
        quiet_source(alloc, b"")?,
        &mut verdict,
        keeper,
    )?;
    let (status, shown) = told(alloc, b"show tables;", keeper)?;
    Ok(
        checked == 0
            && verdict.bytes() == b"ok\n".as_slice()
            && status == 0
            && shown.bytes() == whole.shown.bytes(),
    )
}

#[test]
fn each_call_fails_once(rt: HostRuntime) -> Result<(), Fail> {
    let alloc = rt.alloc();
    let whole = undisturbed(alloc)?;
    for call in 1..100_000 {
        let left = left_by_call(alloc, SCRIPT, call)?;
        if left.status == 0 {
            let end = End {
                status: 0,
                replies: REPLIES,
                commits: COMMANDS + 1,
            };
            assert!(rt; ended(alloc, SCRIPT, &left, end)?);
            assert!(rt; 100 < call);
            return Ok(());
        }
        let end = end_of(left.keeper.commits() as usize);
        assert!(rt; ended(alloc, SCRIPT, &left, end)?, "call {call}");
        assert!(rt; goes_on(alloc, left, &whole)?, "call {call}");
    }
    assert!(rt; false, "each call fails");
    Ok(())
}
