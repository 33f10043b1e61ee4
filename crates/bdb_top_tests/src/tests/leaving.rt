// A user who leaves where many paths name him.
use crate::tests::SETUP;
use crate::tests::made::Made;
use std::alloc::Global;
use std::test::Fail;

/// Adds a statement at each path of at most two of so many users, with Bob behind them.
fn add_told_of_bob(alloc: Global, made: &mut Made, users: u32) -> Result<(), Fail> {
    for outer in 0..users {
        let outer = outer as u64 + 1;
        let path = format!(in alloc; "insert into BELIEF '{outer}'")?;
        add_told(made, path.as_str())?;
        for inner in 0..users {
            let inner = inner as u64 + 1;
            if outer != inner {
                let path = format!(in alloc; "insert into BELIEF '{outer}' BELIEF '{inner}'")?;
                add_told(made, path.as_str())?;
            }
        }
    }
    Ok(())
}

/// Adds such a statement behind the users of its path.
fn add_told(made: &mut Made, path: &str) -> Result<(), Fail> {
    made.add(path, "")?;
    made.add(" BELIEF 'Bob' S values('s1','owl');\n", "ok 1\n")
}

/// Whether a thousand statements go with the user whom their paths name.
fn go_with_bob(alloc: Global) -> Result<bool, Fail> {
    let mut made = Made::new(alloc);
    made.add(SETUP, "ok\nok\nok\n")?;
    made.add_users(alloc, 32)?;
    add_told_of_bob(alloc, &mut made, 32)?;
    made.add(
        "drop user 'Bob'; show tables;",
        "ok 1024\nuser 1 'Alice'\nuser 3 '1'\n",
    )?;
    made.is_told_first(alloc, "edge / '32' /\nok 68\n", 0)
}

#[test]
fn who_leaves_takes_along_a_thousand_paths(rt: HostRuntime) -> Result<(), Fail> {
    assert!(rt; go_with_bob(rt.alloc())?);
    Ok(())
}
