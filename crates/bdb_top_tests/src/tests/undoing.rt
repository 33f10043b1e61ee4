// Changes that are taken back, and made again.
ghost use Rattle.std.specs.Prelude.{◌≡◌, false, IfOk};

use crate::tests::checking::checked;
use crate::tests::made::Made;
use crate::tests::{Left, SETUP, ran, sink};
use std::alloc::Global;
use std::test::Fail;

/// Sixty-five changes, of which sixty-four can be taken back, and made again.
fn more_than_can_be_taken_back(alloc: Global) -> Result<Made, Fail> {
    let mut made = Made::new(alloc);
    made.add(SETUP, "ok\nok\nok\n")?;
    made.add_numbered(
        alloc,
        ("insert into S values('", "','x');\n"),
        1,
        65,
        "ok 1\n",
    )?;
    made.add_times("undo;\n", "ok\n", 64)?;
    made.add("undo;\n", "error no undo\n")?;
    made.add("show world;\n", "+ S('1', 'x') explicit\nok 1\n")?;
    made.add_times("redo;\n", "ok\n", 64)?;
    made.add("redo;\n", "error no redo\n")?;
    made.add("show world;", "+ S('1', 'x') explicit\n")?;
    Ok(made)
}

#[test]
fn the_last_sixty_four_changes_can_be_taken_back(rt: HostRuntime) -> Result<(), Fail> {
    let made = more_than_can_be_taken_back(rt.alloc())?;
    assert!(rt; made.is_told_first(rt.alloc(), "+ S('9', 'x') explicit\nok 65\n", 1)?);
    Ok(())
}

/// Changes of each kind, each of which finds another base than it leaves.
const CHANGES: [&str; 14] = [
    "create user 'Alice';",
    "create relation S(k text, v text);",
    "create user 'Bob';",
    "insert into S values('a','x');",
    "insert into BELIEF 'Bob' not S values('a','x');",
    "create relation T(a int, b text, c text) key 2;",
    "insert into BELIEF 'Alice' BELIEF 'Bob' T values(1,'it''s','x');",
    "insert into BELIEF 'Bob' BELIEF 'Alice' BELIEF 'Bob' S values('b','y');",
    "update BELIEF 'Alice' BELIEF 'Bob' T set c = 'y' where a = 1;",
    "drop user 'Bob';",
    "create user 'Bob';",
    "insert into BELIEF 'Bob' S values('a','z');",
    "delete from S where k = 'a';",
    "drop user 'Alice';",
];

/// How many changes these are.
const ALL: u32 = 14;

/// What so many of the first changes leave, with so many times `undo`, and so many times `redo`, behind them.
fn left_after(alloc: Global, changes: u32, undos: u32, redos: u32) -> Result<Left, Fail>
    ensures idle { IfOk result (λ left. left.keeper.seen.running ≡ false) }
{
    let mut made = Made::new(alloc);
    for change in CHANGES.iter().take(changes as usize) {
        made.add(change, "")?;
    }
    made.add_times("undo;", "", undos)?;
    made.add_times("redo;", "", redos)?;
    made.ran(alloc)
}

/// The same, with a check of its tables and what is shown of them behind it; an error where they aren't sound.
fn shown_after(alloc: Global, changes: u32, undos: u32, redos: u32) -> Result<Left, Fail> {
    let mut left = left_after(alloc, changes, undos, redos)?;
    left.out = sink(alloc)?;
    if checked(alloc, &mut left.out, &mut left.keeper)? != 0 {
        return Err(Fail::new("the tables aren't sound"));
    }
    left.status = ran(alloc, &["show tables;"], &mut left.out, &mut left.keeper)?;
    Ok(left)
}

/// Whether such a base is shown so.
fn is_shown(
    alloc: Global,
    shown: &[u8],
    changes: u32,
    undos: u32,
    redos: u32,
) -> Result<bool, Fail> {
    Ok(shown_after(alloc, changes, undos, redos)?.out.bytes() == shown)
}

/// Whether a base of so many changes is shown alike however it was come by: by these alone, by one more that was taken back, and
/// by all of them, of which some were taken back, or all taken back and some made again.
fn is_shown_alike(alloc: Global, changes: u32) -> Result<bool, Fail> {
    let plain = shown_after(alloc, changes, 0, 0)?;
    let shown = plain.out.bytes();
    Ok(
        is_shown(alloc, shown, changes.saturating_add(1), 1, 0)?
            && is_shown(alloc, shown, ALL, ALL.saturating_sub(changes), 0)?
            && is_shown(alloc, shown, ALL, ALL, changes)?,
    )
}

#[test]
fn a_base_is_shown_alike_however_it_was_come_by(rt: HostRuntime) -> Result<(), Fail> {
    for changes in 0..ALL {
        assert!(rt; is_shown_alike(rt.alloc(), changes)?, "{changes}");
    }
    Ok(())
}
