// Queries at their limits, and past them, over two users who believe what stands in one tuple.
use crate::tests::SETUP;
use crate::tests::made::Made;
use std::alloc::Global;
use std::test::Fail;

/// The two users, and an eagle.
pub(crate) fn eagle(alloc: Global) -> Result<Made, Fail> {
    let mut made = Made::new(alloc);
    made.add(SETUP, "ok\nok\nok\n")?;
    made.add("insert into S values('s1','eagle');", "ok 1\n")?;
    Ok(made)
}

/// Whether commands at paths of so many users are told these replies.
fn are_told_at(alloc: Global, users: usize, replies: [&str; 4]) -> Result<bool, Fail> {
    let [selected, shown, reasons, named] = replies;
    let mut made = eagle(alloc)?;
    made.add_with_path(("select X.k from ", "S X;"), users, selected)?;
    made.add_with_path(("show world ", ";"), users, shown)?;
    made.add_with_path(("why ", "S values('s1','eagle');"), users, reasons)?;
    let front = "select U.name from Users U, BELIEF U.uid ";
    made.add_with_path((front, "S X;"), users.saturating_sub(1), named)?;
    made.is_told(alloc, u8::from(selected.starts_with("error")))
}

#[test]
fn paths_of_queries_have_a_limit(rt: HostRuntime) -> Result<(), Fail> {
    let replies = [
        "'s1'\nok 1\n",
        "+ S('s1', 'eagle') inherited\nok 1\n",
        "yes stated + S('s1', 'eagle') at /\nok 1\n",
        "'Bob'\nok 1\n",
    ];
    assert!(rt; are_told_at(rt.alloc(), 1_024, replies)?);
    let deep = "error deep\n";
    assert!(rt; are_told_at(rt.alloc(), 1_025, [deep, deep, deep, deep])?);
    Ok(())
}

/// Whether changes at a path of so many users are each told this.
fn are_changed_at(alloc: Global, users: usize, reply: &str, status: u8) -> Result<bool, Fail> {
    let mut made = eagle(alloc)?;
    made.add_with_path(("insert into ", "S values('s2','crow');"), users, reply)?;
    made.add_with_path(("update ", "S set v = 'owl';"), users, reply)?;
    made.add_with_path(("delete from ", "S;"), users, reply)?;
    made.is_told(alloc, status)
}

#[test]
fn paths_of_statements_have_a_limit(rt: HostRuntime) -> Result<(), Fail> {
    assert!(rt; are_changed_at(rt.alloc(), 64, "ok 1\n", 0)?);
    assert!(rt; are_changed_at(rt.alloc(), 65, "error deep\n", 1)?);
    Ok(())
}

/// A query of as many equal comparisons as a command has room for, and of another one behind them.
fn add_comparisons(made: &mut Made, items: &str, same: &str, last: &str) -> Result<(), Fail> {
    let fixed = "select X.k from  where ".len() + items.len();
    let fixed = fixed.saturating_add(last.len());
    let times = 65_536_usize.saturating_sub(fixed) / (same.len() + " and ".len());
    made.add("select X.k from ", "")?;
    made.add(items, "")?;
    made.add(" where ", "")?;
    for _ in 0..times {
        made.add(same, "")?;
        made.add(" and ", "")?;
    }
    made.add(last, "")?;
    made.add(";", "")
}

/// Whether such a query is told these replies.
fn is_compared(
    alloc: Global,
    items: &str,
    same: &str,
    last: &str,
    replies: &str,
) -> Result<bool, Fail> {
    let mut made = eagle(alloc)?;
    add_comparisons(&mut made, items, same, last)?;
    made.add("", replies)?;
    made.is_told(alloc, u8::from(replies.starts_with("error")))
}

#[test]
fn commands_are_full_of_comparisons(rt: HostRuntime) -> Result<(), Fail> {
    let cases = [
        ("S X", "X.k='s1'", "X.v='eagle'", "'s1'\nok 1\n"),
        ("S X", "X.k='s1'", "X.v='crow'", "ok 0\n"),
        ("S X", "X.k<>'s2'", "X.k=X.k", "'s1'\nok 1\n"),
        ("S X, S Y", "X.k=Y.k", "Y.v='eagle'", "'s1'\nok 1\n"),
        ("S X, S Y", "X.k<>Y.v", "Y.v>X.v", "ok 0\n"),
        ("S X, not S Y", "X.k=Y.k", "X.v=Y.v", "ok 0\n"),
        ("S X", "X.k='s1'", "X.z='s1'", "error column X.z\n"),
    ];
    for (items, same, last, replies) in cases {
        assert!(rt;
            is_compared(rt.alloc(), items, same, last, replies)?,
            "{items} {same} {last}"
        );
    }
    Ok(())
}

/// Adds an equality of the columns at two places of the chain below.
fn add_equality(alloc: Global, made: &mut Made, place: u32) -> Result<(), Fail> {
    let before = place.saturating_sub(1);
    let (item, column) = (place / 16, place % 16);
    let (item_before, column_before) = (before / 16, before % 16);
    let part = format!(in alloc; "A{item}.c{column} = A{item_before}.c{column_before} and ")?;
    made.add(part.as_str(), "")
}

/// Adds a relation of 16 columns, a statement of it, and a query of what seven items deny of it. Each of their columns is joined to
/// the one before it, the last one first, and the first one of all to a given column.
fn add_chain(alloc: Global, made: &mut Made, sign: &str) -> Result<(), Fail> {
    made.add("create relation W(c0 text", "ok\n")?;
    made.add_numbered(alloc, (", c", " text"), 1, 15, "")?;
    made.add("); insert into ", "ok 1\n")?;
    made.add(sign, "")?;
    made.add(" W values('s1'", "")?;
    made.add_times(", 's1'", "", 15)?;
    made.add("); select X.k from S X", "")?;
    made.add_numbered(alloc, (", not W A", ""), 0, 7, "")?;
    made.add(" where ", "")?;
    for step in 0..111_u32 {
        add_equality(alloc, made, 111_u32.saturating_sub(step))?;
    }
    made.add("A0.c0 = X.k;", "")
}

/// Whether such a query is told these replies.
fn is_chained(alloc: Global, sign: &str, replies: &str) -> Result<bool, Fail> {
    let mut made = eagle(alloc)?;
    add_chain(alloc, &mut made, sign)?;
    made.add("", replies)?;
    made.is_told(alloc, 0)
}

#[test]
fn chains_of_equalities_may_be_reversed(rt: HostRuntime) -> Result<(), Fail> {
    assert!(rt; is_chained(rt.alloc(), "not", "'s1'\nok 1\n")?);
    assert!(rt; is_chained(rt.alloc(), "", "ok 0\n")?);
    Ok(())
}
