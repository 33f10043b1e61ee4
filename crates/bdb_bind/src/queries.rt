// The other checks of a query: its sizes, its relations and users, and its kinds.
ghost use Rattle.std.specs.Prelude.{◌≡◌, nat_lt, length};
ghost use Rattle.std.specs.List.{list_any};
ghost use Rattle.bdb_base.specs.Limits.{deepest_query};
ghost use Rattle.bdb_bind.specs.Firsts.{Checks, first_in};
ghost use Rattle.bdb_bind.specs.QueryLines.{query_items, item_relation, query_relation, who_user, query_user, begins_with_name, repeats_name, query_repeat, query_deep, kind_of_side, cond_kind, query_kind};

use crate::bound::BindError;
use crate::kinds::{kind_of, one_kind};
use crate::lookup::{number_of, uid_of};
use crate::query_items::QueryItems;
use crate::refusals::{unknown_relation, unknown_user, wrong_query_kind};
use crate::scope::{is_users, kind_named};
use bdb_base::limits::{DEEPEST_QUERY, MOST_ITEMS, MOST_SELECT_COLUMNS};
use bdb_base::{Kind, RelDef, Txt, UserSlot, is_same_text};
use bdb_syntax::{RawCond, RawItem, RawQuery, RawSide, RawWho};
use std::alloc::Global;

/// Refuses too many items, and too many select columns.
pub fn check_query_items(query: &RawQuery) -> Result<(), BindError>
    ensures { Checks result (query_items query.now) }
{
    if query.items.len() > MOST_ITEMS || query.take.len() > MOST_SELECT_COLUMNS {
        return Err(BindError::Items);
    }
    Ok(())
}

/// Refuses the first item whose relation isn't in the catalog.
pub fn check_query_relations(
    alloc: Global,
    rels: &[RelDef],
    query: &RawQuery,
) -> Result<(), BindError>
    ensures { Checks result (query_relation rels.now query.now) }
{
    let items = query.items.as_slice();
    for item in items {
        check_item(alloc, rels, item)?;
    }
    Ok(())
}

fn check_item(alloc: Global, rels: &[RelDef], item: &RawItem) -> Result<(), BindError>
    ensures { Checks result (item_relation rels.now item.now) }
{
    if is_users(item) || number_of(rels, &item.rel).is_some() {
        return Ok(());
    }
    Err(unknown_relation(alloc, &item.rel))
}

/// Refuses the first name after BELIEF that is no live user's.
pub fn check_query_users(
    alloc: Global,
    users: &[UserSlot],
    query: &RawQuery,
) -> Result<(), BindError>
    ensures { Checks result (query_user users.now query.now) }
{
    let items = query.items.as_slice();
    for item in items {
        check_path(alloc, users, item.path.as_slice())?;
    }
    Ok(())
}

fn check_path(alloc: Global, users: &[UserSlot], path: &[RawWho]) -> Result<(), BindError>
    ensures { Checks result (first_in (who_user users.now) path.now) }
{
    for who in path {
        if let RawWho::Name(name) = who {
            check_user(alloc, users, name)?;
        }
    }
    Ok(())
}

fn check_user(alloc: Global, users: &[UserSlot], name: &Txt) -> Result<(), BindError>
    ensures { Checks result (who_user users.now (RawWho.Name name.now)) }
{
    if uid_of(users, name).is_none() {
        return Err(unknown_user(alloc, name));
    }
    Ok(())
}

/// Refuses a path that names one user twice in a row.
pub fn check_query_repeat(query: &RawQuery) -> Result<(), BindError>
    ensures { Checks result (query_repeat query.now) }
{
    if some_repeats(query.items.as_slice()) {
        return Err(BindError::Repeat);
    }
    Ok(())
}

fn some_repeats(items: &[RawItem]) -> bool
    ensures { result ≡ list_any (λ i. repeats_name i.path) items.now }
{
    items.iter().any(|item| repeats_name(item.path.as_slice()))
}

/// Whether two neighbours of a path are names, and are equal.
fn repeats_name(path: &[RawWho]) -> bool
    ensures { result ≡ repeats_name path.now }
{
    let mut rest = path;
    while let [first, others @ ..] = rest {
        if let RawWho::Name(name) = first {
            if begins_with_name(name, others) {
                return true;
            }
        }
        rest = others;
    }
    false
}

/// Whether a path begins with this name.
fn begins_with_name(name: &Txt, path: &[RawWho]) -> bool
    ensures { result ≡ begins_with_name name.now path.now }
{
    match path {
        [] => false,
        [RawWho::Name(first), ..] => is_same_text(name, first),
        [RawWho::Col(_), ..] => false,
    }
}

/// Refuses a path that is too long.
pub fn check_query_depth(query: &RawQuery) -> Result<(), BindError>
    ensures { Checks result (query_deep query.now) }
{
    if some_is_deep(query.items.as_slice()) {
        return Err(BindError::Deep);
    }
    Ok(())
}

fn some_is_deep(items: &[RawItem]) -> bool
    ensures { result ≡ list_any (λ i. nat_lt deepest_query (length i.path)) items.now }
{
    items.iter().any(|item| item.path.len() > DEEPEST_QUERY)
}

/// Refuses the first comparison that joins two kinds.
pub fn check_query_kinds(
    alloc: Global,
    rels: &[RelDef],
    items: &QueryItems,
    query: &RawQuery,
) -> Result<(), BindError>
    requires items { items.now ≡ query.now.items }
    ensures { Checks result (query_kind rels.now query.now) }
{
    let conds = query.conds.as_slice();
    for cond in conds {
        check_cond(alloc, rels, items, cond)?;
    }
    Ok(())
}

fn check_cond(
    alloc: Global,
    rels: &[RelDef],
    items: &QueryItems,
    cond: &RawCond,
) -> Result<(), BindError>
    ensures { Checks result (cond_kind rels.now items.now cond.now) }
{
    let left = kind_named(rels, items, &cond.left);
    if !one_kind(left, kind_of_side(rels, items, &cond.right)) {
        return Err(wrong_query_kind(alloc, &cond.left));
    }
    Ok(())
}

/// The kind of a comparison's right side.
fn kind_of_side(rels: &[RelDef], items: &QueryItems, side: &RawSide) -> Option<Kind>
    ensures { result ≡ kind_of_side rels.now items.now side.now }
{
    match side {
        RawSide::Col(col) => kind_named(rels, items, col),
        RawSide::Lit(value) => Some(kind_of(value)),
    }
}
