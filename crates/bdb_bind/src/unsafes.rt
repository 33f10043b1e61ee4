// The refusal of a query that isn't safe.
ghost use Rattle.std.specs.Prelude.{◌≡◌, ◌≢◌, ◌<◌, ◌^◌, true, length, nat_lt, [], None, IfOk};
ghost use Rattle.std.specs.Option.{option_map, unwrap_or};
ghost use Rattle.std.specs.List.{list_all, slice_get};
ghost use Rattle.bdb_bind.specs.Firsts.{Checks};
ghost use Rattle.bdb_bind.specs.Refusal.{item_alias, relation_columns, unsafe_at, query_unsafe};

use crate::bound::{BindError, Bound};
use crate::safety::{columns_at, first_unbound};
use bdb_base::{Catalog, ColDef, Exact, Item, Query, RelDef, Txt};
use bdb_syntax::Command;
use std::alloc::{AllocError, Global};

/// Refuses a query that isn't safe.
pub fn check_safe(alloc: Global, rels: &[RelDef], query: &Query) -> Result<(), BindError>
    requires items { length query.now.items < 2 ^ 32 }
    requires columns { list_all (λ def. nat_lt (length def.cols) (2 ^ 32)) rels.now ≡ true }
    ensures { Checks result (query_unsafe rels.now query.now) }
{
    match first_unbound(alloc, rels, query) {
        Ok(Some((item, col))) => Err(unsafe_at(alloc, rels, query.items.as_slice(), item, col)),
        Ok(None) => Ok(()),
        Err(_) => Err(BindError::Memory),
    }
}

/// Nothing binds this column of a minus item.
fn unsafe_at(alloc: Global, rels: &[RelDef], items: &[Item], item: u32, col: u32) -> BindError
    requires columns { list_all (λ def. nat_lt (length def.cols) (2 ^ 32)) rels.now ≡ true }
    ensures { result ≢ BindError.Memory → result ≡ unsafe_at rels.now items.now (item, col) }
{
    let Ok(alias) = alias_at(alloc, items, item) else {
        return BindError::Memory;
    };
    match name_at(alloc, relation_columns(rels, items, item), col) {
        Ok(col) => BindError::Unsafe { alias, col },
        Err(_) => BindError::Memory,
    }
}

/// The alias of an item.
fn alias_at(alloc: Global, items: &[Item], at: u32) -> Result<Txt, AllocError>
    ensures { IfOk result
        (λ alias. alias ≡ unwrap_or (option_map item_alias (slice_get items.now at)) []) }
{
    match items.get(at as usize) {
        Some(Item::Users { alias }) => alias.try_clone(alloc),
        Some(Item::Rel { alias, .. }) => alias.try_clone(alloc),
        None => Txt::try_new(alloc, ""),
    }
}

/// The columns of an item's relation.
fn relation_columns<'a>(rels: &'a [RelDef], items: &[Item], at: u32) -> &'a [ColDef]
    requires columns { list_all (λ def. nat_lt (length def.cols) (2 ^ 32)) rels.now ≡ true }
    ensures { result.now ≡ relation_columns rels.now (slice_get items.now at) }
{
    match items.get(at as usize) {
        Some(Item::Rel { rel, .. }) => columns_at(rels, *rel),
        Some(Item::Users { .. }) => &[],
        None => &[],
    }
}

/// The name of a column.
fn name_at(alloc: Global, cols: &[ColDef], at: u32) -> Result<Txt, AllocError>
    ensures { IfOk result
        (λ name. name ≡ unwrap_or (option_map (λ c. c.name) (slice_get cols.now at)) []) }
{
    match cols.get(at as usize) {
        Some(col) => col.name.try_clone(alloc),
        None => Txt::try_new(alloc, ""),
    }
}
