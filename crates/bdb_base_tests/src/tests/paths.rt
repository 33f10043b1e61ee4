// The states of worked bases, and where paths lead. A path is a word of its users' digits, and a dash is the empty path.
// Alice is user 1, Bob is user 2, Carol is user 3.
use bdb_base::{List, Path, Sign, Stmt, Tuple, Value};
use bdb_paths::{deepest_suffix, new_state_count, states_of};
use std::alloc::Global;
use std::test::Fail;

fn path_of(alloc: Global, word: &str) -> Result<Path, Fail> {
    let mut users = Vec::new(alloc);
    for digit in word.bytes() {
        if digit != b'-' {
            users.push(u32::from(digit.saturating_sub(b'0')))?;
        }
    }
    Ok(Path::try_new(alloc, users.as_slice())?)
}

/// One statement at each path.
fn statements(alloc: Global, paths: &str) -> Result<List<Stmt>, Fail> {
    let mut stmts = List::new(alloc);
    for word in paths.split_whitespace() {
        let mut vals = List::new(alloc);
        vals.push(Value::Int(7))?;
        stmts.push(Stmt {
            path: path_of(alloc, word)?,
            sign: Sign::Plus,
            tuple: Tuple { rel: 0, vals },
        })?;
    }
    Ok(stmts)
}

#[test]
fn paths_lead_to_states(rt: HostRuntime) -> Result<(), Fail> {
    let alloc = rt.alloc();
    let bases = [
        ("- 2", "- 2", "- 1 2 12 21 1212", "- - 2 2 - 2"),
        ("- 1 2", "- 1 2", "- 1 2 12 21 121", "- 1 2 2 1 1"),
        ("31", "- 3 31", "1 31 13 231", "- 31 3 31"),
        ("31 1 31", "- 1 3 31", "1 21 31 231 13 32", "1 1 31 31 3 -"),
    ];
    for (stated, listed, asked, found) in bases {
        let stmts = statements(alloc, stated)?;
        let states = states_of(alloc, stmts.as_slice())?;
        assert_eq!(rt; states.len(), listed.split_whitespace().count());
        for (state, word) in states.as_slice().iter().zip(listed.split_whitespace()) {
            assert_eq!(rt; state.as_slice(), path_of(alloc, word)?.as_slice());
        }
        for (path, word) in asked.split_whitespace().zip(found.split_whitespace()) {
            let at = deepest_suffix(&states, path_of(alloc, path)?.as_slice());
            let state = states.as_slice()[at].as_slice();
            assert_eq!(rt; state, path_of(alloc, word)?.as_slice());
        }
    }
    Ok(())
}

#[test]
fn inserts_add_states(rt: HostRuntime) -> Result<(), Fail> {
    let alloc = rt.alloc();
    let stmts = statements(alloc, "31 1 31")?;
    for (path, count) in [("-", 0), ("3", 0), ("32", 1), ("312", 1), ("231", 3)] {
        let path = path_of(alloc, path)?;
        assert_eq!(rt; new_state_count(stmts.as_slice(), path.as_slice()), count);
    }
    Ok(())
}
