// Which columns of a query are bound, and the first of a minus item that isn't.
ghost use Rattle.std.specs.Prelude.{◌≡◌, ◌<◌, ◌^◌, true, length, nat_lt, [], None, IfOk};
ghost use Rattle.std.specs.List.{list_any, list_all, slice_get};
ghost use Rattle.bdb_base.specs.Queries.{columns_at};
ghost use Rattle.bdb_base.specs.Safety.{is_given, same_column, query_fits};
ghost use Rattle.bdb_bind.specs.Safe.{is_known, is_known_side, unknown_side, unknown_of_two, made_known, next_known, bound_columns, unbound_from, unbound_of, unbound_among, first_unbound};

use bdb_base::{Catalog, Cmp, ColDef, Cond, Item, List, Operand, Query, Ref, RelDef, Sign};
use std::alloc::{AllocError, Global};

/// The item and column of the first column of a minus item that isn't bound, in order of items, then columns. There is
/// none exactly where the query is safe.
#[tactic(auto, using(crate::proofs::SafeLemmas::few_items, crate::proofs::SafeLemmas::few_columns_each))]
pub fn safe(alloc: Global, catalog: &Catalog, q: &Query) -> Result<Option<(u32, u32)>, AllocError>
    requires fits { query_fits catalog.now q.now ≡ true }
    ensures { IfOk result (λ first. first ≡ first_unbound catalog.now.rels q.now) }
{
    let first = first_unbound(alloc, catalog.rels.as_slice(), q)?;
    Ok(first)
}

/// The same, where the items and columns can be numbered.
#[tactic(auto, unfolding(crate::specs::Safe::first_unbound))]
pub fn first_unbound(
    alloc: Global,
    rels: &[RelDef],
    q: &Query,
) -> Result<Option<(u32, u32)>, AllocError>
    requires items { length q.now.items < 2 ^ 32 }
    requires columns { list_all (λ def. nat_lt (length def.cols) (2 ^ 32)) rels.now ≡ true }
    ensures { IfOk result (λ first. first ≡ first_unbound rels.now q.now) }
{
    let items = q.items.as_slice();
    let known = bound_columns(alloc, items, q.conds.as_slice())?;
    Ok(unbound_among(rels, items, known.as_slice()))
}

/// The first column of the minus items that isn't known.
fn unbound_among(rels: &[RelDef], items: &[Item], known: &[Ref]) -> Option<(u32, u32)>
    requires items { length items.now < 2 ^ 32 }
    requires columns { list_all (λ def. nat_lt (length def.cols) (2 ^ 32)) rels.now ≡ true }
    ensures { result ≡ unbound_among rels.now items.now known.now 0 items.now }
{
    for (at, item) in items.iter().enumerate() {
        let first = unbound_of(rels, items, known, at as u32, item);
        if first.is_some() {
            return first;
        }
    }
    None
}

/// The first column of a minus item that isn't known.
fn unbound_of(
    rels: &[RelDef],
    items: &[Item],
    known: &[Ref],
    at: u32,
    item: &Item,
) -> Option<(u32, u32)>
    requires columns { list_all (λ def. nat_lt (length def.cols) (2 ^ 32)) rels.now ≡ true }
    ensures { result ≡ unbound_of rels.now items.now known.now at item.now }
{
    match item {
        Item::Rel {
            rel,
            sign: Sign::Minus,
            ..
        } => unbound_from(items, known, at, columns_at(rels, *rel)),
        _ => None,
    }
}

/// The columns of a relation, by its number.
#[tactic(auto, using(crate::proofs::SafeLemmas::few_columns_at))]
pub fn columns_at(rels: &[RelDef], rel: u32) -> &[ColDef]
    requires columns { list_all (λ def. nat_lt (length def.cols) (2 ^ 32)) rels.now ≡ true }
    ensures columns { result.now ≡ columns_at rels.now rel }
    ensures few { length result.now < 2 ^ 32 }
{
    match rels.get(rel as usize) {
        Some(def) => def.cols.as_slice(),
        None => &[],
    }
}

/// The first column of an item that isn't known.
fn unbound_from(items: &[Item], known: &[Ref], item: u32, cols: &[ColDef]) -> Option<(u32, u32)>
    requires { length cols.now < 2 ^ 32 }
    ensures { result ≡ unbound_from items.now known.now item 0 cols.now }
{
    for (at, _) in cols.iter().enumerate() {
        let col = at as u32;
        if !is_known(items, known, Ref { item, col }) {
            return Some((item, col));
        }
    }
    None
}

/// The columns that comparisons make known.
#[tactic(auto, using(crate::proofs::KnownLemmas::nothing_more))]
fn bound_columns(alloc: Global, items: &[Item], conds: &[Cond]) -> Result<List<Ref>, AllocError>
    ensures { IfOk result (λ known. known ≡ bound_columns items.now conds.now) }
{
    let mut known = List::new(alloc);
    for _step in conds {
        match next_known(items, known.as_slice(), conds) {
            Some(col) => known.push(col)?,
            None => return Ok(known),
        }
    }
    Ok(known)
}

/// The first column that a comparison makes known.
fn next_known(items: &[Item], known: &[Ref], conds: &[Cond]) -> Option<Ref>
    ensures { result ≡ next_known items.now known.now conds.now }
{
    for cond in conds {
        let made = made_known(items, known, cond);
        if made.is_some() {
            return made;
        }
    }
    None
}

/// The column that an equality makes known.
fn made_known(items: &[Item], known: &[Ref], cond: &Cond) -> Option<Ref>
    ensures { result ≡ made_known items.now known.now cond.now }
{
    match cond.cmp {
        Cmp::Eq => unknown_of_two(items, known, cond),
        _ => None,
    }
}

/// The column of a side that isn't known, where the other side is.
fn unknown_of_two(items: &[Item], known: &[Ref], cond: &Cond) -> Option<Ref>
    ensures { result ≡ unknown_of_two items.now known.now cond.now }
{
    if is_known(items, known, cond.left) {
        return unknown_side(items, known, &cond.right);
    }
    if is_known_side(items, known, &cond.right) {
        return Some(cond.left);
    }
    None
}

/// The column of a right side that isn't known.
fn unknown_side(items: &[Item], known: &[Ref], side: &Operand) -> Option<Ref>
    ensures { result ≡ unknown_side items.now known.now side.now }
{
    match side {
        Operand::Col(col) => {
            if is_known(items, known, *col) {
                return None;
            }
            Some(*col)
        }
        Operand::Lit(_) => None,
    }
}

/// Whether a comparison's right side is known: literals are.
fn is_known_side(items: &[Item], known: &[Ref], side: &Operand) -> bool
    ensures { result ≡ is_known_side items.now known.now side.now }
{
    match side {
        Operand::Col(col) => is_known(items, known, *col),
        Operand::Lit(_) => true,
    }
}

/// Whether a column is of a `Users` item or a plus item, or among the known ones.
fn is_known(items: &[Item], known: &[Ref], col: Ref) -> bool
    ensures { result ≡ is_known items.now known.now col }
{
    is_given(items, col.item) || is_among(known, col)
}

/// Whether an item is a `Users` item or a plus item.
fn is_given(items: &[Item], at: u32) -> bool
    ensures { result ≡ is_given (slice_get items.now at) }
{
    match items.get(at as usize) {
        Some(Item::Users { .. }) => true,
        Some(Item::Rel { sign, .. }) => matches!(sign, Sign::Plus),
        None => false,
    }
}

fn is_among(known: &[Ref], col: Ref) -> bool
    ensures { result ≡ list_any (same_column col) known.now }
{
    known.iter().any(|other| is_same_column(col, *other))
}

fn is_same_column(a: Ref, b: Ref) -> bool
    ensures { result ≡ same_column a b }
{
    a.item == b.item && a.col == b.col
}
