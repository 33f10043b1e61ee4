// What a query that isn't refused is bound to.
ghost use Rattle.std.specs.Prelude.{◌≡◌, ◌≤◌, length, map, IfOk};
ghost use Rattle.bdb_base.specs.Limits.{most_items};
ghost use Rattle.bdb_base.specs.Bases.{IsCatalog};
ghost use Rattle.bdb_bind.specs.QueryBinding.{place_named, query_column_at, query_side, query_cond, query_who, query_item, bound_query};

use crate::making::{relation_at, uid_at};
use crate::query_items::QueryItems;
use crate::scope::{column_place, is_users};
use bdb_base::{Catalog, Cond, Exact, Item, List, Operand, Query, Ref, Txt, Who};
use bdb_syntax::{RawCol, RawCond, RawItem, RawQuery, RawSide, RawWho};
use std::alloc::{AllocError, Global};

/// A query, with its users, relations and columns by number.
#[tactic(auto, unfolding(crate::specs::QueryBinding::bound_query))]
pub fn bound_query(
    alloc: Global,
    catalog: &Catalog,
    items: &QueryItems,
    query: &RawQuery,
) -> Result<Query, AllocError>
    requires catalog { IsCatalog catalog.now }
    requires items { items.now ≡ query.now.items }
    requires few { length query.now.items ≤ most_items }
    ensures { IfOk result (λ b. b ≡ bound_query catalog.now query.now) }
{
    let take = bound_columns(alloc, catalog, items, query.take.as_slice())?;
    let bound = bound_items(alloc, catalog, items, items.as_slice())?;
    let conds = bound_conds(alloc, catalog, items, query.conds.as_slice())?;
    Ok(Query {
        take,
        items: bound,
        conds,
    })
}

/// The place of an item that is there.
fn place_named(items: &QueryItems, alias: &Option<Txt>) -> u32
    requires { length items.now ≤ most_items }
    ensures { result ≡ place_named items.now alias.now }
{
    match items.place(alias) {
        Some(place) => place as u32,
        None => 0,
    }
}

/// A column that is there, by places.
#[tactic(auto, using(crate::proofs::ScopeLemmas::named_few))]
fn query_column_at(catalog: &Catalog, items: &QueryItems, col: &RawCol) -> Ref
    requires catalog { IsCatalog catalog.now }
    requires few { length items.now ≤ most_items }
    ensures { result ≡ query_column_at catalog.now.rels items.now col.now }
{
    let item = place_named(items, &col.alias);
    let col = match column_place(catalog.rels.as_slice(), items, col) {
        Some(place) => place as u32,
        None => 0,
    };
    Ref { item, col }
}

fn bound_columns(
    alloc: Global,
    catalog: &Catalog,
    items: &QueryItems,
    cols: &[RawCol],
) -> Result<List<Ref>, AllocError>
    requires catalog { IsCatalog catalog.now }
    requires few { length items.now ≤ most_items }
    ensures { IfOk result (λ b. b ≡ map (query_column_at catalog.now.rels items.now) cols.now) }
{
    let mut bound = List::new(alloc);
    for col in cols {
        bound.push(query_column_at(catalog, items, col))?;
    }
    Ok(bound)
}

fn query_side(
    alloc: Global,
    catalog: &Catalog,
    items: &QueryItems,
    side: &RawSide,
) -> Result<Operand, AllocError>
    requires catalog { IsCatalog catalog.now }
    requires few { length items.now ≤ most_items }
    ensures { IfOk result (λ b. b ≡ query_side catalog.now.rels items.now side.now) }
{
    match side {
        RawSide::Col(col) => Ok(Operand::Col(query_column_at(catalog, items, col))),
        RawSide::Lit(value) => Ok(Operand::Lit(value.try_clone(alloc)?)),
    }
}

fn query_cond(
    alloc: Global,
    catalog: &Catalog,
    items: &QueryItems,
    cond: &RawCond,
) -> Result<Cond, AllocError>
    requires catalog { IsCatalog catalog.now }
    requires few { length items.now ≤ most_items }
    ensures { IfOk result (λ b. b ≡ query_cond catalog.now.rels items.now cond.now) }
{
    let right = query_side(alloc, catalog, items, &cond.right)?;
    Ok(Cond {
        left: query_column_at(catalog, items, &cond.left),
        cmp: cond.cmp,
        right,
    })
}

fn bound_conds(
    alloc: Global,
    catalog: &Catalog,
    items: &QueryItems,
    conds: &[RawCond],
) -> Result<List<Cond>, AllocError>
    requires catalog { IsCatalog catalog.now }
    requires few { length items.now ≤ most_items }
    ensures { IfOk result (λ b. b ≡ map (query_cond catalog.now.rels items.now) conds.now) }
{
    let mut bound = List::new(alloc);
    for cond in conds {
        bound.push(query_cond(alloc, catalog, items, cond)?)?;
    }
    Ok(bound)
}

/// A user of a path.
#[tactic(auto, using(crate::proofs::CatalogLemmas::users_few))]
fn query_who(catalog: &Catalog, items: &QueryItems, who: &RawWho) -> Who
    requires catalog { IsCatalog catalog.now }
    requires few { length items.now ≤ most_items }
    ensures { result ≡ query_who catalog.now.users items.now who.now }
{
    match who {
        RawWho::Name(name) => Who::User(uid_at(catalog.users.as_slice(), name)),
        RawWho::Col(col) => Who::Of(place_named(items, &col.alias)),
    }
}

fn bound_path(
    alloc: Global,
    catalog: &Catalog,
    items: &QueryItems,
    path: &[RawWho],
) -> Result<List<Who>, AllocError>
    requires catalog { IsCatalog catalog.now }
    requires few { length items.now ≤ most_items }
    ensures { IfOk result (λ b. b ≡ map (query_who catalog.now.users items.now) path.now) }
{
    let mut bound = List::new(alloc);
    for who in path {
        bound.push(query_who(catalog, items, who))?;
    }
    Ok(bound)
}

#[tactic(auto, using(crate::proofs::CatalogLemmas::relations_few))]
fn query_item(
    alloc: Global,
    catalog: &Catalog,
    items: &QueryItems,
    item: &RawItem,
) -> Result<Item, AllocError>
    requires catalog { IsCatalog catalog.now }
    requires few { length items.now ≤ most_items }
    ensures { IfOk result (λ b. b ≡ query_item catalog.now items.now item.now) }
{
    let alias = item.alias.try_clone(alloc)?;
    if is_users(item) {
        return Ok(Item::Users { alias });
    }
    let path = bound_path(alloc, catalog, items, item.path.as_slice())?;
    Ok(Item::Rel {
        alias,
        rel: relation_at(catalog.rels.as_slice(), &item.rel),
        sign: item.sign,
        path,
    })
}

fn bound_items(
    alloc: Global,
    catalog: &Catalog,
    items: &QueryItems,
    rest: &[RawItem],
) -> Result<List<Item>, AllocError>
    requires catalog { IsCatalog catalog.now }
    requires few { length items.now ≤ most_items }
    ensures { IfOk result (λ b. b ≡ map (query_item catalog.now items.now) rest.now) }
{
    let mut bound = List::new(alloc);
    for item in rest {
        bound.push(query_item(alloc, catalog, items, item)?)?;
    }
    Ok(bound)
}
