// Tables of the format before this one: a run writes them in this one.
ghost use Rattle.std.specs.Prelude.{◌≡◌, false, IfOk};

use crate::tests::checking::checked;
use crate::tests::{Left, SETUP, ran, ran_quietly};
use bdb_base::List;
use bdb_memory::MemKeeper;
use bdb_samples::{RowChange, changes_of};
use std::alloc::{AllocError, Global};
use std::test::Fail;

/// A statement, and that a curator denies it.
const EAGLES: &str =
    "insert into S values('s1','eagle'); insert into BELIEF 'Bob' not S values('s1','eagle');";

/// The rows of a base with these that both formats spell alike: of each its table, its key and its content in hexadecimal
/// digits. A dot is no byte.
const ALIKE: &str = "02 00000001 02416c69636500; \
     02 00000002 02426f6200; \
     04 00000000 0000000002733100026561676c6500; \
     05 0000000002733100026561676c6500 00000000; \
     06 00000000 00000000; \
     06 00000001 00000001; \
     07 00000001 00000000; \
     08 0000000000000001 .; \
     09 0000000000000001 00000000; \
     09 0000000000000002 00000001; \
     09 0000000100000001 00000000; \
     0a 000000000000000000000001 .; \
     0a 000000000000000100000001 .; \
     0a 000000010000000000000002 .";

/// Its other rows, as the format before this one spells them.
const FORMER: &str = "01 00000000 00000002; \
     03 00000000 025300026b00018000000000000001027600018000000000000001; \
     0b 00000000000000000273310000000000 00000001; \
     0b 00000001000000000273310000000000 00000003";

/// The same, as this one does.
const LATER: &str = "01 00000000 00000003; \
     03 00000000 025300018000000000000001026b00018000000000000001027600018000000000000001; \
     0b 0000000000000000000000010273310000000000 00000001; \
     0b 0000000100000000000000010273310000000000 00000003";

/// Presets the row that a table gets.
fn preset(keeper: &mut MemKeeper, change: &RowChange) -> Result<(), AllocError>
    requires idle { keeper.old.seen.running ≡ false }
    ensures idle { keeper.new.seen.running ≡ false }
{
    if change.tab == 0 || 15 < change.tab {
        return Ok(());
    }
    match &change.row {
        Some(row) => keeper.preset(change.tab, &change.key, row),
        None => Ok(()),
    }
}

/// Presets the rows that a line tells.
fn preset_all(alloc: Global, rows: &str, keeper: &mut MemKeeper) -> Result<(), Fail>
    requires idle { keeper.old.seen.running ≡ false }
    ensures idle { keeper.new.seen.running ≡ false }
{
    for change in changes_of(alloc, rows)? {
        preset(keeper, &change)?;
    }
    Ok(())
}

/// What a script leaves over tables of the format before this one, where these calls fail.
fn ran_over_former(alloc: Global, script: &[&str], fails: &[u32]) -> Result<Left, Fail> {
    let mut left = Left::new(alloc, fails)?;
    preset_all(alloc, ALIKE, &mut left.keeper)?;
    preset_all(alloc, FORMER, &mut left.keeper)?;
    left.status = ran(alloc, script, &mut left.out, &mut left.keeper)?;
    Ok(left)
}

/// Whether a keeper has the rows that both formats spell alike, and these.
fn has_rows(alloc: Global, keeper: &MemKeeper, rows: &str) -> Result<bool, Fail> {
    let mut other = MemKeeper::new(alloc, List::new(alloc));
    preset_all(alloc, ALIKE, &mut other)?;
    preset_all(alloc, rows, &mut other)?;
    Ok(keeper.same_rows(&other))
}

#[test]
fn tables_of_this_format_are_these(rt: HostRuntime) -> Result<(), Fail> {
    let made = ran_quietly(rt.alloc(), &[SETUP, EAGLES])?;
    assert!(rt; has_rows(rt.alloc(), &made.keeper, LATER)?);
    Ok(())
}

#[test]
fn former_tables_are_written_anew(rt: HostRuntime) -> Result<(), Fail> {
    let left = ran_over_former(rt.alloc(), &[], &[])?;
    assert!(rt; left.is_told("", 0));
    assert_eq!(rt; left.keeper.commits(), 1);
    assert!(rt; has_rows(rt.alloc(), &left.keeper, LATER)?);
    Ok(())
}

#[test]
fn former_tables_are_gone_on_from(rt: HostRuntime) -> Result<(), Fail> {
    let script = [
        "show world BELIEF 'Bob'; insert into S values('s1','crow'); create user 'Carol';",
    ];
    let left = ran_over_former(rt.alloc(), &script, &[])?;
    let replies = "- S('s1', 'eagle') explicit\nok 1\nerror clash + S('s1', 'eagle')\nok\n";
    assert!(rt; left.is_told(replies, 1));
    assert_eq!(rt; left.keeper.commits(), 3);
    Ok(())
}

/// What a check of tables of the format before this one leaves.
fn checked_former(alloc: Global) -> Result<Left, Fail> {
    let mut left = Left::new(alloc, &[])?;
    preset_all(alloc, ALIKE, &mut left.keeper)?;
    preset_all(alloc, FORMER, &mut left.keeper)?;
    left.status = checked(alloc, &mut left.out, &mut left.keeper)?;
    Ok(left)
}

#[test]
fn former_tables_are_sound(rt: HostRuntime) -> Result<(), Fail> {
    let left = checked_former(rt.alloc())?;
    assert!(rt; left.is_told("ok\n", 0));
    assert_eq!(rt; left.keeper.commits(), 0);
    Ok(())
}

/// A keeper with the rows of a base that this format spells otherwise, in the format before it, and no others.
fn former_alone(alloc: Global) -> Result<Left, Fail>
    ensures idle { IfOk result (λ left. left.keeper.seen.running ≡ false) }
{
    let mut left = Left::new(alloc, &[])?;
    preset_all(alloc, FORMER, &mut left.keeper)?;
    Ok(left)
}

/// The same behind a run.
fn ran_over_former_alone(alloc: Global) -> Result<Left, Fail> {
    let mut left = former_alone(alloc)?;
    left.status = ran(alloc, &[SETUP], &mut left.out, &mut left.keeper)?;
    Ok(left)
}

#[test]
fn former_tables_of_no_base_stay(rt: HostRuntime) -> Result<(), Fail> {
    let left = ran_over_former_alone(rt.alloc())?;
    assert!(rt; left.is_told("", 7));
    assert_eq!(rt; left.keeper.commits(), 0);
    assert!(rt; left.keeper.same_rows(&former_alone(rt.alloc())?.keeper));
    Ok(())
}

/// The status of an empty script over tables of the format before this one, where this call fails; an error where they are
/// neither as before nor written anew.
fn opened_failing(alloc: Global, call: u32) -> Result<u8, Fail> {
    let left = ran_over_former(alloc, &[], &[call])?;
    let rows = if left.status == 0 { LATER } else { FORMER };
    let commits = u64::from(left.status == 0);
    if !has_rows(alloc, &left.keeper, rows)? || left.keeper.commits() != commits {
        return Err(Fail::new("the rows are others"));
    }
    Ok(left.status)
}

#[test]
fn each_call_fails_once_where_tables_are_written_anew(rt: HostRuntime) -> Result<(), Fail> {
    let alloc = rt.alloc();
    for call in 1..10_000 {
        let status = opened_failing(alloc, call)?;
        if status != 5 {
            assert_eq!(rt; status, 0);
            assert!(rt; 60 < call, "call {call}");
            return Ok(());
        }
    }
    assert!(rt; false);
    Ok(())
}
