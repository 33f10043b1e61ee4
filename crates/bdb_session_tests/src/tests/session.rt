// Batches over a keeper in memory.
ghost use Rattle.std.specs.Prelude.{◌≡◌, length, IfOk};

use bdb_base::{Lines, List};
use bdb_memory::MemKeeper;
use bdb_session::Session;
use std::alloc::{AllocError, Global};
use std::test::Fail;

fn lines(alloc: Global, first: &[u8], second: &[u8], third: &[u8]) -> Result<Lines, AllocError>
    ensures { IfOk result (λ lines. length lines ≡ 3) }
{
    let mut lines = List::new(alloc);
    lines.push(List::from_vec(Vec::from_slice(alloc, first)?))?;
    lines.push(List::from_vec(Vec::from_slice(alloc, second)?))?;
    lines.push(List::from_vec(Vec::from_slice(alloc, third)?))?;
    Ok(lines)
}

#[test]
fn a_batch_is_done_whole(rt: HostRuntime) -> Result<(), Fail> {
    let alloc = rt.alloc();
    let mut keeper = MemKeeper::new(alloc, List::new(alloc));
    let mut session = Session::open(alloc, &mut keeper)?;
    let lines = lines(
        alloc,
        b"create relation S(k text, v text)",
        b"insert into S values('a','x')",
        b"show world",
    )?;
    let told = session.apply_batch(&mut keeper, &lines)?;
    assert!(rt; !told.refused);
    assert_eq!(rt; told.accepted, 3);
    assert_eq!(rt;
        told.text.as_slice(),
        b"ok\nok 1\n+ S('a', 'x') explicit\nok 1\n".as_slice()
    );
    assert_eq!(rt; keeper.commits(), 2);
    Ok(())
}

#[test]
fn a_refused_line_undoes_its_batch(rt: HostRuntime) -> Result<(), Fail> {
    let alloc = rt.alloc();
    let mut keeper = MemKeeper::new(alloc, List::new(alloc));
    let mut session = Session::open(alloc, &mut keeper)?;
    let lines = lines(alloc, b"create user 'Alice'", b"create user 'Alice'", b"")?;
    let told = session.apply_batch(&mut keeper, &lines)?;
    assert!(rt; told.refused);
    assert_eq!(rt; told.accepted, 1);
    assert_eq!(rt;
        told.text.as_slice(),
        b"ok\nerror taken 'Alice'\n".as_slice()
    );
    assert_eq!(rt; keeper.commits(), 1);
    assert!(rt; session.catalog().users.is_empty());
    let told = session.apply(&mut keeper, b"create user 'Alice'")?;
    assert!(rt; told.accepted);
    assert_eq!(rt; keeper.commits(), 2);
    Ok(())
}

/// How many changes can be taken back and made again in a session that made two, took one back, and then was given these lines as
/// a batch.
fn history_after(
    alloc: Global,
    first: &str,
    second: &str,
    third: &str,
) -> Result<(u32, u32), Fail> {
    let lines = lines(alloc, first.as_bytes(), second.as_bytes(), third.as_bytes())?;
    let mut keeper = MemKeeper::new(alloc, List::new(alloc));
    let mut session = Session::open(alloc, &mut keeper)?;
    session.apply(&mut keeper, b"create user 'Alice'")?;
    session.apply(&mut keeper, b"create user 'Bob'")?;
    session.apply(&mut keeper, b"undo")?;
    session.apply_batch(&mut keeper, &lines)?;
    Ok((session.undos(), session.redos()))
}

#[test]
fn a_batch_that_changes_the_base_empties_the_history(rt: HostRuntime) -> Result<(), Fail> {
    let cases = [
        ("", "", "", true),
        ("show tables", "select U.name from Users U", "", true),
        ("create user 'Bob'", "create user 'Alice'", "", true),
        ("create user 'Bob'", "redo", "", true),
        ("undo", "create user 'Bob'", "", true),
        ("show tables", "create user 'Bob'", "", false),
        (
            "create relation S(k text)",
            "insert into S values('a')",
            "delete from S",
            false,
        ),
    ];
    for (first, second, third, stays) in cases {
        let (undos, redos) = history_after(rt.alloc(), first, second, third)?;
        let left = u32::from(stays);
        assert_eq!(rt; undos, left, "{first}; {second}; {third}");
        assert_eq!(rt; redos, left, "{first}; {second}; {third}");
    }
    Ok(())
}

/// Whether a session that was given this batch of one line after a change refuses `undo` so, or takes the change back.
fn is_undone_behind(alloc: Global, line: &str, reply: &str) -> Result<bool, Fail> {
    let lines = lines(alloc, line.as_bytes(), b"", b"")?;
    let mut keeper = MemKeeper::new(alloc, List::new(alloc));
    let mut session = Session::open(alloc, &mut keeper)?;
    session.apply(&mut keeper, b"create user 'Alice'")?;
    session.apply_batch(&mut keeper, &lines)?;
    let told = session.apply(&mut keeper, b"undo")?;
    Ok(told.text.as_slice() == reply.as_bytes())
}

#[test]
fn behind_a_batch_that_changed_the_base_nothing_is_taken_back(rt: HostRuntime) -> Result<(), Fail> {
    let cases = [
        ("create user 'Bob'", "error no undo\n"),
        ("create user 'Alice'", "ok\n"),
        ("show tables", "ok\n"),
    ];
    for (line, reply) in cases {
        assert!(rt; is_undone_behind(rt.alloc(), line, reply)?, "{line}");
    }
    Ok(())
}
