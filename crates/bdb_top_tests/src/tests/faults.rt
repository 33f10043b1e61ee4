// Runs over a keeper, a sink and a source that fail.
use crate::tests::{Left, ROOM, listed, ran, ran_failing, ran_in_steps, ran_quietly};
use bdb_base::List;
use bdb_io::MemSink;
use bdb_memory::MemKeeper;
use std::alloc::Global;
use std::test::Fail;

/// Two users, a relation and an insert, and a word of a command that doesn't end.
const COMMANDS: &str =
    "create user 'Alice';create user 'Bob';create relation S(k text, v text);insert into S values('s1','eagle');show";

/// The same users and relation, then worlds that come at depths of one to three, a refused change, a tuple that one of them
/// inherits, a changed tuple, worlds that go, and a user who leaves. The first command of each entry is accepted, so it commits; what stands behind
/// it is refused.
const CHANGES: [&str; 10] = [
    "create user 'Alice';",
    "create user 'Bob';",
    "create relation S(k text, v text);",
    "insert into BELIEF 'Alice' BELIEF 'Bob' BELIEF 'Alice' S values('s1','crow'); insert into BELIEF 'Alice' BELIEF 'Bob' BELIEF 'Alice' S values('s1','kite');",
    "insert into BELIEF 'Alice' S values('s2','owl');",
    "update BELIEF 'Alice' BELIEF 'Bob' BELIEF 'Alice' S set v = 'kite';",
    "delete from BELIEF 'Alice' BELIEF 'Bob' BELIEF 'Alice' S;",
    "show world BELIEF 'Alice' BELIEF 'Bob' BELIEF 'Alice';",
    "insert into BELIEF 'Alice' BELIEF 'Bob' S values('s3','jay');",
    "drop user 'Bob'; drop user 'Bob';",
];

/// The replies to these.
const CHANGES_REPLIES: &str = "ok\nok\nok\n\
ok 1\nerror clash + S('s1', 'crow')\nok 1\nok 1\nok 1\n\
+ S('s2', 'owl') inherited\nok 1\nok 1\nok 1\nerror user 'Bob'\n";

/// Whether a keeper's rows are those of the empty base.
fn has_empty_base(alloc: Global, keeper: &MemKeeper) -> Result<bool, Fail> {
    let mut empty_base = MemKeeper::new(alloc, List::new(alloc));
    empty_base.preset(1, &[0, 0, 0, 0], &[0, 0, 0, 3])?;
    empty_base.preset(6, &[0, 0, 0, 0], &[0, 0, 0, 0])?;
    Ok(keeper.same_rows(&empty_base))
}

#[test]
fn a_script_without_a_command_makes_the_empty_base(rt: HostRuntime) -> Result<(), Fail> {
    let left = ran_quietly(rt.alloc(), &[])?;
    assert!(rt; left.is_told("", 0));
    assert_eq!(rt; left.keeper.commits(), 1);
    assert!(rt; has_empty_base(rt.alloc(), &left.keeper)?);
    Ok(())
}

/// What the first of the changes leave, so many that the keeper committed so often; the first commit is that of opening.
fn left_after(alloc: Global, commits: u64) -> Result<Left, Fail> {
    if commits == 0 {
        return Left::new(alloc, &[]);
    }
    for count in 0..CHANGES.len() + 1 {
        if commits == (count as u64).saturating_add(1) {
            return ran_quietly(alloc, &CHANGES[..count]);
        }
    }
    Err(Fail::new("there are more commits than changes"))
}

/// Whether two keepers have the same rows, and committed equally often.
fn are_alike(keeper: &MemKeeper, other: &MemKeeper) -> bool {
    keeper.commits() == other.commits() && keeper.same_rows(other)
}

/// Whether a run of the changes was told all of their replies, or failed and was told the first of them.
fn is_told_so_far(left: &Left) -> bool {
    left.is_told(CHANGES_REPLIES, 1)
        || left.status == 5 && CHANGES_REPLIES.as_bytes().starts_with(left.out.bytes())
}

/// The status of the changes where this call of the keeper fails; none where it leaves other rows or replies than the first of
/// them do. What these leave is kept from call to call.
fn ended_failing(alloc: Global, call: u32, expected: &mut Left) -> Result<Option<u8>, Fail> {
    let left = ran_failing(alloc, &CHANGES, &[call])?;
    if expected.keeper.commits() != left.keeper.commits() {
        *expected = left_after(alloc, left.keeper.commits())?;
    }
    if are_alike(&expected.keeper, &left.keeper) && is_told_so_far(&left) {
        Ok(Some(left.status))
    } else {
        Ok(None)
    }
}

#[test]
fn each_call_of_the_keeper_fails_once(rt: HostRuntime) -> Result<(), Fail> {
    let mut expected = left_after(rt.alloc(), 0)?;
    for call in 1..10_000 {
        let status = ended_failing(rt.alloc(), call, &mut expected)?;
        if status != Some(5) {
            assert_eq!(rt; status, Some(1), "call {call}");
            assert!(rt; 60 < call, "call {call}");
            return Ok(());
        }
    }
    Err(Fail::new("a call fails each time"))
}

/// What the changes leave where a write fails, of which the sink takes one byte.
fn left_by_a_full_sink(alloc: Global) -> Result<Left, Fail> {
    let mut left = Left {
        keeper: MemKeeper::new(alloc, List::new(alloc)),
        out: MemSink::new(alloc, listed(alloc, &[4])?, 1, ROOM)?,
        status: 0,
    };
    left.status = ran(alloc, &CHANGES, &mut left.out, &mut left.keeper)?;
    Ok(left)
}

/// Whether a keeper committed so often, and has the rows that the changes leave then.
fn has_rows_after(alloc: Global, keeper: &MemKeeper, commits: u64) -> Result<bool, Fail> {
    let expected = left_after(alloc, commits)?;
    Ok(keeper.commits() == commits && are_alike(&expected.keeper, keeper))
}

#[test]
fn a_fault_of_the_sink_ends_the_run(rt: HostRuntime) -> Result<(), Fail> {
    let left = left_by_a_full_sink(rt.alloc())?;
    assert!(rt; left.is_told("ok\nok\nok\no", 4));
    assert!(rt; has_rows_after(rt.alloc(), &left.keeper, 5)?);
    Ok(())
}

#[test]
fn a_fault_of_the_source_ends_the_run(rt: HostRuntime) -> Result<(), Fail> {
    let cases = [
        (1, "", 3),
        (2, "ok\n", 3),
        (3, "ok\nok\n", 3),
        (4, "ok\nok\n", 3),
        (5, "ok\nok\nok\n", 3),
        (6, "ok\nok\nok\n", 3),
        (7, "ok\nok\nok\nok 1\n", 3),
        (8, "ok\nok\nok\nok 1\nerror unfinished\n", 1),
    ];
    for (read, replies, ends) in cases {
        let left = ran_in_steps(rt.alloc(), COMMANDS.as_bytes(), 20, &[read])?;
        assert!(rt; left.is_told(replies, ends), "{read}");
    }
    Ok(())
}
