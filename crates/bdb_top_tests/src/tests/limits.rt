// Scripts that reach a limit, and pass it.
use crate::tests::made::Made;
use crate::tests::{SETUP, ran_from};
use bdb_base::List;
use bdb_io::MemSource;
use std::alloc::Global;
use std::test::Fail;

/// Ten numbers in a relation, of which five at a time are chosen, and one number more.
fn full_of_answers(alloc: Global) -> Result<Made, Fail> {
    let query = "select A.k, B.k, C.k, D.k, E.k from N A, N B, N C, N D, N E;";
    let mut made = Made::new(alloc);
    made.add(SETUP, "ok\nok\nok\n")?;
    made.add("create relation N(k int);", "ok\n")?;
    made.add_numbered(alloc, ("insert into N values(", ");"), 0, 10, "ok 1\n")?;
    made.add(query, "0, 0, 0, 0, 0\n")?;
    made.add("insert into N values(10);", "")?;
    made.add(query, "")?;
    Ok(made)
}

#[test]
fn answers_have_a_limit(rt: HostRuntime) -> Result<(), Fail> {
    let made = full_of_answers(rt.alloc())?;
    let end = "\n9, 9, 9, 9, 9\nok 100000\nok 1\nerror many\n";
    assert!(rt; made.is_told_first(rt.alloc(), end, 1)?);
    Ok(())
}

/// Adds the insert of an eagle at the path of two users.
fn add_eagle(alloc: Global, made: &mut Made, outer: u32, inner: u32) -> Result<(), Fail> {
    let command = format!(in alloc;
        "insert into BELIEF '{outer}' BELIEF '{inner}' S values('s1','eagle');\n"
    )?;
    made.add(command.as_str(), "ok 1\n")
}

/// Users 1 to `last`, and inserts at the path of each two of them that come before the last.
fn at_each_pair(alloc: Global, last: u32) -> Result<Made, Fail> {
    let mut made = Made::new(alloc);
    made.add_users(alloc, last as u64)?;
    made.add("create relation S(k text, v text);\n", "ok\n")?;
    for outer in 1..last {
        for inner in 1..last {
            if outer != inner {
                add_eagle(alloc, &mut made, outer, inner)?;
            }
        }
    }
    Ok(made)
}

/// Users 1 to 64, and inserts at as many paths of two users as make 4,000 worlds.
fn full_of_worlds(alloc: Global) -> Result<Made, Fail> {
    let mut made = at_each_pair(alloc, 64)?;
    for outer in 1..31 {
        add_eagle(alloc, &mut made, outer, 64)?;
    }
    Ok(made)
}

#[test]
fn worlds_have_a_limit(rt: HostRuntime) -> Result<(), Fail> {
    let mut made = full_of_worlds(rt.alloc())?;
    made.add(
        "insert into BELIEF '31' BELIEF '64' S values('s1','eagle');",
        "error full worlds\n",
    )?;
    made.add(
        "insert into BELIEF '1' BELIEF '64' S values('s2','owl');",
        "ok 1\n",
    )?;
    assert!(rt; made.is_told(rt.alloc(), 1)?);
    Ok(())
}

/// Users 1 to 45, and inserts at as many paths of two users as make 2,000 worlds.
fn half_full_of_worlds(alloc: Global) -> Result<Made, Fail> {
    let mut made = at_each_pair(alloc, 45)?;
    for inner in 1..45 {
        add_eagle(alloc, &mut made, 45, inner)?;
    }
    for outer in 1..19 {
        add_eagle(alloc, &mut made, outer, 45)?;
    }
    Ok(made)
}

#[test]
fn two_thousand_worlds_leave_room(rt: HostRuntime) -> Result<(), Fail> {
    let mut made = half_full_of_worlds(rt.alloc())?;
    add_eagle(rt.alloc(), &mut made, 19, 45)?;
    made.add(
        "insert into BELIEF '1' BELIEF '45' S values('s2','owl');",
        "ok 1\n",
    )?;
    assert!(rt; made.is_told(rt.alloc(), 0)?);
    Ok(())
}

#[test]
fn users_have_a_limit(rt: HostRuntime) -> Result<(), Fail> {
    let mut made = Made::new(rt.alloc());
    made.add_users(rt.alloc(), 1024)?;
    made.add(
        "create user 'Alice'; drop user '1'; create user 'Alice'; create user '1';",
        "error full users\nok 0\nerror full users\nerror full users\n",
    )?;
    assert!(rt; made.is_told(rt.alloc(), 1)?);
    Ok(())
}

#[test]
fn tuples_have_a_limit(rt: HostRuntime) -> Result<(), Fail> {
    let mut made = Made::new(rt.alloc());
    made.add("create user 'Bob'; create relation N(k int);\n", "ok\nok\n")?;
    made.add_numbered(
        rt.alloc(),
        ("insert into N values(", ");\n"),
        0,
        4_000,
        "ok 1\n",
    )?;
    made.add(
        "insert into N values(4000); insert into BELIEF 'Bob' not N values(4001);",
        "error full tuples\nerror full tuples\n",
    )?;
    made.add(
        "insert into BELIEF 'Bob' not N values(3999); delete from N where k = 0; insert into N values(4000);",
        "ok 1\nok 1\nok 1\n",
    )?;
    assert!(rt; made.is_told(rt.alloc(), 1)?);
    Ok(())
}

/// Five users who each believe 4,000 numbers.
fn full_of_statements(alloc: Global) -> Result<Made, Fail> {
    let mut made = Made::new(alloc);
    made.add_users(alloc, 5)?;
    made.add("create relation N(k int);\n", "ok\n")?;
    for front in [
        "insert into BELIEF '1' N values(",
        "insert into BELIEF '2' N values(",
        "insert into BELIEF '3' N values(",
        "insert into BELIEF '4' N values(",
        "insert into BELIEF '5' N values(",
    ] {
        made.add_numbered(alloc, (front, ");\n"), 0, 4_000, "ok 1\n")?;
    }
    Ok(made)
}

#[test]
fn statements_have_a_limit(rt: HostRuntime) -> Result<(), Fail> {
    let mut made = full_of_statements(rt.alloc())?;
    made.add(
        "insert into N values(0); insert into BELIEF '5' N values(0);",
        "error full statements\nok 0\n",
    )?;
    made.add(
        "delete from BELIEF '5' N where k = 0; insert into N values(0);",
        "ok 1\nok 1\n",
    )?;
    assert!(rt; made.is_told(rt.alloc(), 1)?);
    Ok(())
}

/// Whether pieces of the words `show world` with so many blanks, and what stands behind them, are told these replies.
fn are_told(
    alloc: Global,
    pieces: &[u32],
    rest: &str,
    replies: &str,
    status: u8,
) -> Result<bool, Fail> {
    let mut made = Made::new(alloc);
    for blanks in pieces {
        made.add("show world", "")?;
        made.add_times(" ", "", *blanks)?;
        made.add(";", "")?;
    }
    made.add(rest, replies)?;
    made.is_told(alloc, status)
}

#[test]
fn pieces_have_a_limit(rt: HostRuntime) -> Result<(), Fail> {
    let alloc = rt.alloc();
    let (fits, long) = (65_526, 65_527);
    assert!(rt; are_told(alloc, &[fits], "", "ok 0\n", 0)?);
    assert!(rt; are_told(alloc, &[long], "", "error long\n", 1)?);
    let replies = "error long\nok 0\nerror unfinished\n";
    assert!(rt; are_told(alloc, &[long, fits], "'", replies, 1)?);
    Ok(())
}

/// A text, so many blocks of 65,536 blanks, and so many blanks more.
fn with_blanks(alloc: Global, first: &str, blocks: usize, more: usize) -> Result<Vec<u8>, Fail> {
    let block = [b' '; 65_536];
    let mut text = Vec::from_slice(alloc, first.as_bytes())?;
    for _ in 0..blocks {
        text.extend_from_slice(&block)?;
    }
    for _ in 0..more {
        text.push(b' ')?;
    }
    Ok(text)
}

/// Whether a script that is read in blocks ends so, and is told so.
fn ends_so(alloc: Global, script: Vec<u8>, status: u8, replies: &str) -> Result<bool, Fail> {
    let mut source = MemSource::new(script, 65_536, List::new(alloc));
    Ok(ran_from(alloc, "run", &mut source)?.is_told(replies, status))
}

#[test]
fn scripts_have_a_limit(rt: HostRuntime) -> Result<(), Fail> {
    let cases = [
        ("", 1024, 0, 0, ""),
        ("", 1024, 1, 8, ""),
        ("show world;", 1023, 65_526, 8, "ok 0\n"),
    ];
    for (first, blocks, more, status, replies) in cases {
        let script = with_blanks(rt.alloc(), first, blocks, more)?;
        assert!(rt; ends_so(rt.alloc(), script, status, replies)?);
    }
    Ok(())
}
