// Where the values of columns come from.
ghost use Rattle.std.specs.Prelude.{◌≡◌, ◌+◌, ◌<◌, ◌^◌, ◌++◌, true, length, map, find, IfOk, OnOk};
ghost use Rattle.std.specs.Option.{option_copied};
ghost use Rattle.std.specs.List.{list_all};
ghost use Rattle.bdb_base.specs.Queries.{columns_at};
ghost use Rattle.bdb_plan.specs.Sources.{columns_from, given_columns};
ghost use Rattle.bdb_trans.specs.Names.{can_number_columns, item_columns, pins_name, has_name, source_by_names};

use crate::names::{named, same_column};
use bdb_base::{Cmp, ColDef, Cond, Exact, Item, Operand, Ref, RelDef, Sign};
use std::alloc::{AllocError, Global};

/// The columns of a query's `Users` items and plus items.
pub fn given_columns(alloc: Global, rels: &[RelDef], items: &[Item]) -> Result<Vec<Ref>, AllocError>
    requires relations { list_all can_number_columns rels.now ≡ true }
    requires few { length items.now < 2 ^ 32 }
    ensures { IfOk result (λ columns. columns.items ≡ given_columns rels.now 0 items.now) }
{
    let mut columns = Vec::new(alloc);
    append_given(&mut columns, rels, 0, items)?;
    Ok(columns)
}

fn append_given(
    columns: &mut Vec<Ref>,
    rels: &[RelDef],
    at: u32,
    items: &[Item],
) -> Result<(), AllocError>
    requires relations { list_all can_number_columns rels.now ≡ true }
    requires few { at + length items.now < 2 ^ 32 }
    ensures { OnOk result
        (columns.new.items ≡ columns.old.items ++ given_columns rels.now at items.now) }
{
    match items {
        [] => Ok(()),
        [item, rest @ ..] => {
            append_item(columns, rels, at, item)?;
            append_given(columns, rels, at + 1, rest)?;
            Ok(())
        }
    }
}

/// Appends the columns of an item, unless it is a minus item.
fn append_item(
    columns: &mut Vec<Ref>,
    rels: &[RelDef],
    at: u32,
    item: &Item,
) -> Result<(), AllocError>
    requires { list_all can_number_columns rels.now ≡ true }
    ensures { OnOk result
        (columns.new.items ≡ columns.old.items ++ item_columns rels.now at item.now) }
{
    match item {
        Item::Users { .. } => {
            columns.push(Ref { item: at, col: 0 })?;
            columns.push(Ref { item: at, col: 1 })?;
            Ok(())
        }
        Item::Rel { rel, sign, .. } => match sign {
            Sign::Plus => append_columns(columns, at, 0, columns_at(rels, *rel)),
            Sign::Minus => Ok(()),
        },
    }
}

/// Appends an item's columns, from one column on.
fn append_columns(
    columns: &mut Vec<Ref>,
    item: u32,
    col: u32,
    cols: &[ColDef],
) -> Result<(), AllocError>
    requires { col + length cols.now < 2 ^ 32 }
    ensures { OnOk result (columns.new.items ≡ columns.old.items ++ columns_from item col
        (map (λ c. c.kind) cols.now)) }
{
    match cols {
        [] => Ok(()),
        [_, rest @ ..] => {
            columns.push(Ref { item, col })?;
            append_columns(columns, item, col + 1, rest)?;
            Ok(())
        }
    }
}

/// The columns of a relation, by its number.
#[tactic(auto, using(crate::proofs::TurnLemmas::few_columns))]
pub fn columns_at(rels: &[RelDef], rel: u32) -> &[ColDef]
    requires { list_all can_number_columns rels.now ≡ true }
    ensures columns { result.now ≡ columns_at rels.now rel }
    ensures few { length result.now < 2 ^ 32 }
{
    match rels.get(rel as usize) {
        Some(def) => def.cols.as_slice(),
        None => &[],
    }
}

/// Where the value of a column comes from, by the columns' names.
pub fn source_by_names(
    alloc: Global,
    conds: &[Cond],
    names: &[(Ref, Ref)],
    given: &[Ref],
    column: Ref,
) -> Result<Option<Operand>, AllocError>
    ensures { IfOk result
        (λ source. source ≡ source_by_names conds.now names.now given.now column) }
{
    let name = named(names, column);
    match pinned(conds, names, name) {
        Some(cond) => {
            let literal = cond.right.try_clone(alloc)?;
            Ok(Some(literal))
        }
        None => match first_given(given, names, name) {
            Some(other) => Ok(Some(Operand::Col(*other))),
            None => Ok(None),
        },
    }
}

/// The first comparison that equals a column of this name with a literal.
fn pinned<'a>(conds: &'a [Cond], names: &[(Ref, Ref)], name: Ref) -> Option<&'a Cond>
    ensures { option_copied result ≡ find (pins_name names.now name) conds.now }
{
    conds.iter().find(|cond| pins_name(names, name, cond))
}

/// The first of these columns that has this name.
fn first_given<'a>(given: &'a [Ref], names: &[(Ref, Ref)], name: Ref) -> Option<&'a Ref>
    ensures { option_copied result ≡ find (has_name names.now name) given.now }
{
    given.iter().find(|other| has_name(names, name, **other))
}

/// Whether a comparison equals a column of this name with a literal.
fn pins_name(names: &[(Ref, Ref)], name: Ref, cond: &Cond) -> bool
    ensures { result ≡ pins_name names.now name cond.now }
{
    match (cond.cmp, &cond.right) {
        (Cmp::Eq, Operand::Lit(_)) => has_name(names, name, cond.left),
        _ => false,
    }
}

fn has_name(names: &[(Ref, Ref)], name: Ref, column: Ref) -> bool
    ensures { result ≡ has_name names.now name column }
{
    same_column(name, named(names, column))
}
