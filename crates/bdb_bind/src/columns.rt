// The checks of a query's columns.
ghost use Rattle.std.specs.Prelude.{◌≡◌};
ghost use Rattle.bdb_bind.specs.Firsts.{Checks, first_in};
ghost use Rattle.bdb_bind.specs.QueryLines.{in_cond, in_who, in_path, in_later_columns, column_missing, column_not_uid, query_column};

use crate::bound::BindError;
use crate::query_items::QueryItems;
use crate::refusals::missing_column;
use crate::scope::{column_place, is_uid};
use bdb_base::RelDef;
use bdb_syntax::{RawCol, RawCond, RawItem, RawQuery, RawSide, RawWho};
use std::alloc::Global;

/// Refuses the first column that its item does not have, or that stands after BELIEF and isn't the number of a user.
pub fn check_query_columns(
    alloc: Global,
    rels: &[RelDef],
    items: &QueryItems,
    query: &RawQuery,
) -> Result<(), BindError>
    requires items { items.now ≡ query.now.items }
    ensures { Checks result (query_column rels.now query.now) }
{
    check_columns(alloc, rels, items, query.take.as_slice())?;
    check_later_columns(alloc, rels, items, query)?;
    Ok(())
}

/// The same behind `from`.
fn check_later_columns(
    alloc: Global,
    rels: &[RelDef],
    items: &QueryItems,
    query: &RawQuery,
) -> Result<(), BindError>
    requires items { items.now ≡ query.now.items }
    ensures { Checks result
        (in_later_columns (column_missing rels.now items.now) (column_not_uid items.now)
        query.now) }
{
    check_paths(alloc, items, items.as_slice())?;
    check_conds(alloc, rels, items, query.conds.as_slice())?;
    Ok(())
}

/// Refuses a column that its item does not have.
fn check_column(
    alloc: Global,
    rels: &[RelDef],
    items: &QueryItems,
    col: &RawCol,
) -> Result<(), BindError>
    ensures { Checks result (column_missing rels.now items.now col.now) }
{
    if column_place(rels, items, col).is_none() {
        return Err(missing_column(alloc, col));
    }
    Ok(())
}

fn check_columns(
    alloc: Global,
    rels: &[RelDef],
    items: &QueryItems,
    cols: &[RawCol],
) -> Result<(), BindError>
    ensures { Checks result (first_in (column_missing rels.now items.now) cols.now) }
{
    for col in cols {
        check_column(alloc, rels, items, col)?;
    }
    Ok(())
}

/// Refuses a column after BELIEF that isn't the number of a user.
fn check_uid(alloc: Global, items: &QueryItems, col: &RawCol) -> Result<(), BindError>
    ensures { Checks result (column_not_uid items.now col.now) }
{
    if !is_uid(items, col) {
        return Err(missing_column(alloc, col));
    }
    Ok(())
}

fn check_paths(alloc: Global, items: &QueryItems, rest: &[RawItem]) -> Result<(), BindError>
    ensures { Checks result (first_in (in_path (column_not_uid items.now)) rest.now) }
{
    for item in rest {
        check_path(alloc, items, item.path.as_slice())?;
    }
    Ok(())
}

fn check_path(alloc: Global, items: &QueryItems, path: &[RawWho]) -> Result<(), BindError>
    ensures { Checks result (first_in (in_who (column_not_uid items.now)) path.now) }
{
    for who in path {
        if let RawWho::Col(col) = who {
            check_uid(alloc, items, col)?;
        }
    }
    Ok(())
}

fn check_conds(
    alloc: Global,
    rels: &[RelDef],
    items: &QueryItems,
    conds: &[RawCond],
) -> Result<(), BindError>
    ensures { Checks result (first_in (in_cond (column_missing rels.now items.now)) conds.now) }
{
    for cond in conds {
        check_column(alloc, rels, items, &cond.left)?;
        if let RawSide::Col(right) = &cond.right {
            check_column(alloc, rels, items, right)?;
        }
    }
    Ok(())
}
