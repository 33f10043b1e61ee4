// The check of a query's aliases.
ghost use Rattle.std.specs.Prelude.{◌≡◌};
ghost use Rattle.bdb_bind.specs.Firsts.{Checks, first_in};
ghost use Rattle.bdb_bind.specs.QueryLines.{in_cond, in_who, in_path, column_alias, query_alias};

use crate::bound::BindError;
use crate::query_items::QueryItems;
use crate::refusals::unknown_alias;
use bdb_syntax::{RawCol, RawCond, RawItem, RawQuery, RawSide, RawWho};
use std::alloc::Global;

/// Refuses the first column whose alias no item has.
pub fn check_query_aliases(
    alloc: Global,
    items: &QueryItems,
    query: &RawQuery,
) -> Result<(), BindError>
    requires items { items.now ≡ query.now.items }
    ensures { Checks result (query_alias query.now) }
{
    check_columns(alloc, items, query.take.as_slice())?;
    check_paths(alloc, items, items.as_slice())?;
    check_conds(alloc, items, query.conds.as_slice())?;
    Ok(())
}

/// Refuses a column whose alias no item has.
fn check_column(alloc: Global, items: &QueryItems, col: &RawCol) -> Result<(), BindError>
    ensures { Checks result (column_alias items.now col.now) }
{
    if items.place(&col.alias).is_none() {
        return Err(unknown_alias(alloc, col));
    }
    Ok(())
}

fn check_columns(alloc: Global, items: &QueryItems, cols: &[RawCol]) -> Result<(), BindError>
    ensures { Checks result (first_in (column_alias items.now) cols.now) }
{
    for col in cols {
        check_column(alloc, items, col)?;
    }
    Ok(())
}

/// Refuses the first column after BELIEF whose alias no item has.
fn check_paths(alloc: Global, items: &QueryItems, rest: &[RawItem]) -> Result<(), BindError>
    ensures { Checks result (first_in (in_path (column_alias items.now)) rest.now) }
{
    for item in rest {
        check_path(alloc, items, item.path.as_slice())?;
    }
    Ok(())
}

fn check_path(alloc: Global, items: &QueryItems, path: &[RawWho]) -> Result<(), BindError>
    ensures { Checks result (first_in (in_who (column_alias items.now)) path.now) }
{
    for who in path {
        if let RawWho::Col(col) = who {
            check_column(alloc, items, col)?;
        }
    }
    Ok(())
}

fn check_conds(alloc: Global, items: &QueryItems, conds: &[RawCond]) -> Result<(), BindError>
    ensures { Checks result (first_in (in_cond (column_alias items.now)) conds.now) }
{
    for cond in conds {
        check_column(alloc, items, &cond.left)?;
        if let RawSide::Col(right) = &cond.right {
            check_column(alloc, items, right)?;
        }
    }
    Ok(())
}
