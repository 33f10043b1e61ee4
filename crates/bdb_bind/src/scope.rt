// What the aliases and columns of a query stand for.
ghost use Rattle.std.specs.Prelude.{◌≡◌, ◌<◌, length, IfSome};
ghost use Rattle.bdb_bind.specs.Lookup.{column_at, kind_at};
ghost use Rattle.bdb_bind.specs.Scope.{is_users, user_columns, item_columns, columns_named, is_uid};

use crate::lookup::{column_at, columns_of, kind_at};
use crate::query_items::QueryItems;
use bdb_base::{Kind, RelDef, Sign, Txt};
use bdb_syntax::{RawCol, RawItem};

/// Whether an item stands for the users: it is `Users`, with no path and without `not`.
pub fn is_users(item: &RawItem) -> bool
    ensures { result ≡ is_users item.now }
{
    item.rel.as_str() == "Users" && matches!(item.sign, Sign::Plus) && item.path.is_empty()
}

/// Whether a column is the number of a user.
pub fn is_uid(items: &QueryItems, col: &RawCol) -> bool
    ensures { result ≡ is_uid items.now col.now }
{
    match items.item(&col.alias) {
        Some(item) => is_users(item) && col.col.as_str() == "uid",
        None => false,
    }
}

/// The place of a column in its item.
pub fn column_place(rels: &[RelDef], items: &QueryItems, col: &RawCol) -> Option<usize>
    ensures place { result ≡ column_at (columns_named rels.now items.now col.now.alias)
        col.now.col }
    ensures within { IfSome result
        (λ at. at < length (columns_named rels.now items.now col.now.alias)) }
{
    match items.item(&col.alias) {
        Some(item) => place_in_item(rels, item, &col.col),
        None => None,
    }
}

/// The place of an item's column.
fn place_in_item(rels: &[RelDef], item: &RawItem, name: &Txt) -> Option<usize>
    ensures place { result ≡ column_at (item_columns rels.now item.now) name.now }
    ensures within { IfSome result (λ at. at < length (item_columns rels.now item.now)) }
{
    if is_users(item) {
        user_column_at(name)
    } else {
        column_at(columns_of(rels, &item.rel), name)
    }
}

/// The place of a user's column.
fn user_column_at(name: &Txt) -> Option<usize>
    ensures place { result ≡ column_at user_columns name.now }
    ensures within { IfSome result (λ at. at < length user_columns) }
{
    if "uid" == name.as_str() {
        Some(0)
    } else if "name" == name.as_str() {
        Some(1)
    } else {
        None
    }
}

/// The kind of a column.
pub fn kind_named(rels: &[RelDef], items: &QueryItems, col: &RawCol) -> Option<Kind>
    ensures { result ≡ kind_at (columns_named rels.now items.now col.now.alias) col.now.col }
{
    match items.item(&col.alias) {
        Some(item) => kind_in_item(rels, item, &col.col),
        None => None,
    }
}

/// The kind of an item's column.
fn kind_in_item(rels: &[RelDef], item: &RawItem, name: &Txt) -> Option<Kind>
    ensures { result ≡ kind_at (item_columns rels.now item.now) name.now }
{
    if is_users(item) {
        user_kind_at(name)
    } else {
        kind_at(columns_of(rels, &item.rel), name)
    }
}

/// The kind of a user's column.
fn user_kind_at(name: &Txt) -> Option<Kind>
    ensures { result ≡ kind_at user_columns name.now }
{
    if "uid" == name.as_str() {
        Some(Kind::Int)
    } else if "name" == name.as_str() {
        Some(Kind::Text)
    } else {
        None
    }
}
