// The changes that settle the rows of a group, told by the numbers of the tuples.
ghost use Rattle.std.specs.Prelude.{◌≡◌, ◌++◌, [], false, OnOk};
ghost use Rattle.std.specs.List.{list_any};
ghost use Rattle.bdb_val.specs.GroupChanges.{group_changes, own_change, new_change, group_change, is_explicit_plus};

use crate::marks::{handed_down, same_mark};
use crate::numbered::NumberedRows;
use bdb_base::Sign;
use std::alloc::AllocError;

/// A row of a group of a world: the number of its tuple; its sign, and whether it is explicit.
pub type Marked = (u32, (Sign, bool));

/// A change of a row of a group: the number of its tuple, and the row that it is to have, if any.
pub type MarkChange = (u32, Option<(Sign, bool)>);

/// Makes a list that of the changes that settle a group of a world that has no rows: all that is handed down.
pub fn put_all_new(changes: &mut Vec<MarkChange>, from: &[Marked]) -> Result<(), AllocError>
    ensures { OnOk result (changes.new.items ≡ group_changes [] from.now) }
{
    changes.clear();
    for row in from {
        push_first(changes, row)?;
    }
    Ok(())
}

// Adds what is handed down of a row, where the world has none.
fn push_first(changes: &mut Vec<MarkChange>, row: &Marked) -> Result<(), AllocError>
    ensures { OnOk result (changes.new.items ≡ changes.old.items ++ new_change false [] row.now) }
{
    let next = handed_down(false, Some(row.1));
    match push_change(changes, row.0, None, next) {
        Ok(()) => Ok(()),
        Err(error) => Err(error),
    }
}

/// Makes a list that of the changes that settle a group of a world: each row that is to be another, by the number of its tuple.
/// `own` are the rows that the world has, and `from` those of the world to which it is linked.
pub fn put_changes(
    changes: &mut Vec<MarkChange>,
    own: &[Marked],
    from: &[Marked],
) -> Result<(), AllocError>
    ensures { OnOk result (changes.new.items ≡ group_changes own.now from.now) }
{
    changes.clear();
    let barred = has_explicit_plus(own);
    let stored = NumberedRows::of(own);
    let passed = NumberedRows::of(from);
    for row in own {
        push_own(changes, barred, &passed, row)?;
    }
    for row in from {
        push_new(changes, barred, &stored, row)?;
    }
    Ok(())
}

// Whether a plus row among rows is explicit.
fn has_explicit_plus(rows: &[Marked]) -> bool
    ensures { result ≡ list_any is_explicit_plus rows.now }
{
    rows.iter().any(is_explicit_plus)
}

// Whether a row is explicit, and it is plus.
fn is_explicit_plus(row: &Marked) -> bool
    ensures { result ≡ is_explicit_plus row.now }
{
    row.1.1 && row.1.0 == Sign::Plus
}

// Adds the change of a row of the world: an explicit one stays, another becomes what it is handed down.
fn push_own(
    changes: &mut Vec<MarkChange>,
    barred: bool,
    from: &NumberedRows<'_>,
    row: &Marked,
) -> Result<(), AllocError>
    ensures { OnOk result
        (changes.new.items ≡ changes.old.items ++ own_change barred from.now row.now) }
{
    if row.1.1 {
        return Ok(());
    }
    let next = handed_down(barred, from.mark(row.0));
    match push_change(changes, row.0, Some(row.1), next) {
        Ok(()) => Ok(()),
        Err(error) => Err(error),
    }
}

// Adds what is handed down of a row, where the world has no row of its number.
fn push_new(
    changes: &mut Vec<MarkChange>,
    barred: bool,
    own: &NumberedRows<'_>,
    row: &Marked,
) -> Result<(), AllocError>
    ensures { OnOk result
        (changes.new.items ≡ changes.old.items ++ new_change barred own.now row.now) }
{
    if own.mark(row.0).is_some() {
        return Ok(());
    }
    let next = handed_down(barred, Some(row.1));
    match push_change(changes, row.0, None, next) {
        Ok(()) => Ok(()),
        Err(error) => Err(error),
    }
}

// Adds the change of a row, where it is to be another.
fn push_change(
    changes: &mut Vec<MarkChange>,
    tid: u32,
    before: Option<(Sign, bool)>,
    next: Option<(Sign, bool)>,
) -> Result<(), AllocError>
    ensures { OnOk result (changes.new.items ≡ changes.old.items ++ group_change tid before next) }
{
    if same_mark(before, next) {
        return Ok(());
    }
    changes.push((tid, next))?;
    Ok(())
}
