// Where the values of a query's minus items come from.
ghost use Rattle.std.specs.Prelude.{◌≡◌, IfOk};
ghost use Rattle.std.specs.Option.{option_copied};
ghost use Rattle.std.specs.List.{slice_get};
ghost use Rattle.bdb_base.specs.Safety.{is_given, same_column};
ghost use Rattle.bdb_model.specs.Sources.{source_of, source_in, source_of_operand, fresh_source, turned_source, source_from, next_source, AreSources};

use bdb_base::{Cmp, Cond, Exact, Item, List, Operand, Query, Ref, Sign};
use std::alloc::{AllocError, Global};

/// The sources of a query's bound columns: for each such column of a minus item a literal, or a column of a `Users` item
/// or a plus item, that equals it wherever the comparisons hold.
pub fn sources_of(alloc: Global, q: &Query) -> Result<List<Cond>, AllocError>
    ensures { IfOk result (λ sources. AreSources q.now sources) }
{
    let mut sources = List::new(alloc);
    loop {
        match next_source(
            alloc,
            q.items.as_slice(),
            sources.as_slice(),
            q.conds.as_slice(),
        )? {
            Some(source) => sources.push(source)?,
            None => return Ok(sources),
        }
    }
}

/// The first source that comparisons give for a column without one.
fn next_source(
    alloc: Global,
    items: &[Item],
    sources: &[Cond],
    conds: &[Cond],
) -> Result<Option<Cond>, AllocError>
    ensures { IfOk result (λ source. source ≡ next_source items.now sources.now conds.now) }
{
    for cond in conds {
        match source_from(alloc, items, sources, cond)? {
            Some(source) => return Ok(Some(source)),
            None => {}
        }
    }
    Ok(None)
}

fn source_from(
    alloc: Global,
    items: &[Item],
    sources: &[Cond],
    cond: &Cond,
) -> Result<Option<Cond>, AllocError>
    ensures { IfOk result (λ source. source ≡ source_from items.now sources.now cond.now) }
{
    match cond.cmp {
        Cmp::Eq => {}
        _ => return Ok(None),
    }
    match fresh_source(alloc, items, sources, cond.left, &cond.right)? {
        Some(source) => Ok(Some(source)),
        None => turned_source(alloc, items, sources, cond.left, &cond.right),
    }
}

fn turned_source(
    alloc: Global,
    items: &[Item],
    sources: &[Cond],
    left: Ref,
    right: &Operand,
) -> Result<Option<Cond>, AllocError>
    ensures { IfOk result (λ source. source ≡ turned_source items.now sources.now left right.now) }
{
    match right {
        Operand::Col(r) => {
            let source = fresh_source(alloc, items, sources, *r, &Operand::Col(left))?;
            Ok(source)
        }
        Operand::Lit(_) => Ok(None),
    }
}

/// A source for a column without one, where it equals what has one.
fn fresh_source(
    alloc: Global,
    items: &[Item],
    sources: &[Cond],
    left: Ref,
    right: &Operand,
) -> Result<Option<Cond>, AllocError>
    ensures { IfOk result (λ source. source ≡ fresh_source items.now sources.now left right.now) }
{
    match source_in(alloc, items, sources, left)? {
        Some(_) => return Ok(None),
        None => {}
    }
    match source_of_operand(alloc, items, sources, right)? {
        Some(right) => Ok(Some(Cond {
            left,
            cmp: Cmp::Eq,
            right,
        })),
        None => Ok(None),
    }
}

fn source_of_operand(
    alloc: Global,
    items: &[Item],
    sources: &[Cond],
    operand: &Operand,
) -> Result<Option<Operand>, AllocError>
    ensures { IfOk result (λ source. source ≡ source_of_operand items.now sources.now operand.now) }
{
    match operand {
        Operand::Col(r) => {
            let source = source_in(alloc, items, sources, *r)?;
            Ok(source)
        }
        Operand::Lit(_) => {
            let source = operand.try_clone(alloc)?;
            Ok(Some(source))
        }
    }
}

/// Where a column's value comes from. A column of a `Users` item or a plus item is its own source.
fn source_in(
    alloc: Global,
    items: &[Item],
    sources: &[Cond],
    r: Ref,
) -> Result<Option<Operand>, AllocError>
    ensures { IfOk result (λ source. source ≡ source_in items.now sources.now r) }
{
    if is_given(items, r.item as usize) {
        return Ok(Some(Operand::Col(r)));
    }
    match source_of(sources, r.item as usize, r.col as usize) {
        Some(source) => {
            let source = source.try_clone(alloc)?;
            Ok(Some(source))
        }
        None => Ok(None),
    }
}

/// Whether the item at a place is a `Users` item or a plus item.
fn is_given(items: &[Item], at: usize) -> bool
    ensures { result ≡ is_given (slice_get items.now at) }
{
    match items.get(at) {
        Some(Item::Users { .. }) => true,
        Some(Item::Rel { sign, .. }) => match sign {
            Sign::Plus => true,
            Sign::Minus => false,
        },
        None => false,
    }
}

/// The first source of a column.
pub fn source_of(sources: &[Cond], item: usize, col: usize) -> Option<&Operand>
    ensures { option_copied result ≡ source_of sources.now (record { item = item; col = col }) }
{
    match sources.iter().find(|source| is_of(source, item, col)) {
        Some(source) => Some(&source.right),
        None => None,
    }
}

fn is_of(source: &Cond, item: usize, col: usize) -> bool
    ensures { result ≡ same_column (record { item = item; col = col }) source.now.left }
{
    item == source.left.item as usize && col == source.left.col as usize
}
