// Tests of tables of the format before this one, their rows written by hand.
ghost use Rattle.std.specs.Prelude.{◌≡◌, false, IfOk};

use bdb_base::Base;
use bdb_decode::{OpenError, Stand, decode, stand_of};
use bdb_memory::QuietKeeper;
use bdb_samples::{RowChange, changes_of};
use std::alloc::{AllocError, Global};
use std::test::Fail;

/// A user, a relation of one column and one statement of the list, as rows of the former format: a table, a key and a row each.
const FORMER: &str =
    "01 00000000 00000002; 02 00000001 02416c69636500; 03 00000000 025300026b00018000000000000001; \
     04 00000000 0000000002733100; 05 0000000002733100 00000000; 06 00000000 00000000; \
     09 0000000000000001 00000000; 0a 000000000000000000000001 .; 0b 00000000000000000273310000000000 00000001";

/// Gives a keeper's table a row, or takes it away.
fn set(keeper: &mut QuietKeeper, change: &RowChange) -> Result<(), AllocError>
    requires { keeper.old.running ≡ false }
    ensures { keeper.new.running ≡ false }
{
    if change.tab == 0 || 15 < change.tab {
        return Ok(());
    }
    match &change.row {
        Some(row) => keeper.preset(change.tab, &change.key, row),
        None => {
            keeper.unset(change.tab, &change.key);
            Ok(())
        }
    }
}

/// Carries out the changes of a line.
fn carry_out(alloc: Global, line: &str, keeper: &mut QuietKeeper) -> Result<(), Fail>
    requires { keeper.old.running ≡ false }
    ensures { keeper.new.running ≡ false }
{
    for change in changes_of(alloc, line)? {
        set(keeper, &change)?;
    }
    Ok(())
}

/// A keeper with the rows of the former format, changed so.
fn keeper_with(alloc: Global, changes: &str) -> Result<QuietKeeper, Fail>
    ensures idle { IfOk result (λ keeper. keeper.running ≡ false) }
{
    let mut keeper = QuietKeeper::new(alloc);
    carry_out(alloc, FORMER, &mut keeper)?;
    carry_out(alloc, changes, &mut keeper)?;
    Ok(keeper)
}

/// Whether a base has one user, one statement, and one relation whose key is its one column.
fn is_worked(base: &Base) -> bool {
    let catalog = base.catalog();
    match catalog.rels.as_slice() {
        [def] => def.key == 1
            && def.cols.len() == 1
            && catalog.users.len() == 1
            && base.stmts().len() == 1,
        _ => false,
    }
}

/// Why the rows of the former format stand for no base where they are changed so.
fn refused(alloc: Global, changes: &str) -> Result<Option<OpenError>, Fail> {
    let mut keeper = keeper_with(alloc, changes)?;
    match decode(alloc, &mut keeper) {
        Ok(_) => Ok(None),
        Err(error) => Ok(Some(error)),
    }
}

#[test]
fn former_tables_stand_for_a_base(rt: HostRuntime) -> Result<(), Fail> {
    let alloc = rt.alloc();
    let mut keeper = keeper_with(alloc, "")?;
    let stands = match stand_of(alloc, &mut keeper)? {
        Stand::Former(base) => is_worked(&base),
        Stand::Stored(_) => false,
        Stand::Empty => false,
    };
    assert!(rt; stands);
    let base = decode(alloc, &mut keeper)?;
    assert!(rt; is_worked(&base));
    let same = keeper.same_rows(&keeper_with(alloc, "")?);
    assert!(rt; same);
    Ok(())
}

#[test]
fn former_tables_with_other_rows_are_damaged(rt: HostRuntime) -> Result<(), Fail> {
    let alloc = rt.alloc();
    for changes in [
        // Rows as this format spells them: a relation with the length of its key, and a key that is a list of one.
        "03 00000000 025300018000000000000001026b00018000000000000001",
        "0b 00000000000000000273310000000000 -; 0b 0000000000000000000000010273310000000000 00000001",
        // A user's row without bytes, as that of one who left is in this format.
        "02 00000001 .",
        // The number of this format.
        "01 00000000 00000003",
        // A tuple whose number isn't told, and a row under another value than its tuple's.
        "05 0000000002733100 -",
        "0b 00000000000000000273310000000000 -; 0b 00000000000000000273320000000000 00000001",
    ] {
        let error = refused(alloc, changes)?;
        assert!(rt; error == Some(OpenError::Damaged), "{changes}");
    }
    Ok(())
}

#[test]
fn formats_before_the_former_one_are_told(rt: HostRuntime) -> Result<(), Fail> {
    let alloc = rt.alloc();
    let error = refused(alloc, "01 00000000 00000001")?;
    assert!(rt; error == Some(OpenError::Format(1)));
    Ok(())
}
