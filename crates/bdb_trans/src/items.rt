// The steps of items.
ghost use Rattle.std.specs.Prelude.{◌≡◌, ◌+◌, ◌<◌, ◌^◌, ◌++◌, ◌∷◌, true, length, OnOk, Some};
ghost use Rattle.std.specs.List.{flat_map, list_all, slice_get};
ghost use Rattle.bdb_plan.specs.Fitness.{is_among};
ghost use Rattle.bdb_plan.specs.PlanOf.{all_set, binds_from, denying, item_steps, operand_set, setting, steps_from};
ghost use Rattle.bdb_plan.specs.Sources.{given_columns};
ghost use Rattle.bdb_trans.specs.Names.{NameColumns, can_number_columns};
ghost use Rattle.bdb_trans.specs.Steps.{bind_steps, due_step, is_due};

use crate::sources::{columns_at, source_by_names};
use crate::walks::append_walk;
use bdb_base::{ColDef, Cond, Exact, Item, List, Operand, Query, Ref, RelDef, Sign};
use bdb_plan::Step;
use std::alloc::{AllocError, Global};

/// What the steps of a query are made from: the relations, the query, which names its columns have by its equalities, and
/// the columns of its `Users` items and plus items.
#[derive(Drop)]
pub struct Scope<'a> {
    pub rels: &'a [RelDef],
    pub query: &'a Query,
    pub names: &'a [(Ref, Ref)],
    pub given: &'a [Ref],
}

/// Appends the steps of items, one after the other, where others are set.
pub fn append_steps(
    alloc: Global,
    scope: &Scope,
    steps: &mut List<Step>,
    set: &mut Vec<u32>,
    order: &[u32],
) -> Result<(), AllocError>
    requires relations { list_all can_number_columns scope.now.rels.now ≡ true }
    requires names { NameColumns scope.now.query.now.conds scope.now.names.now }
    requires given { scope.now.given.now
        ≡ given_columns scope.now.rels.now 0 scope.now.query.now.items }
    ensures { OnOk result
        (steps.new
        ≡ steps.old ++ steps_from scope.now.rels.now scope.now.query.now set.old.items order.now) }
{
    match order {
        [] => Ok(()),
        [at, rest @ ..] => {
            append_place(alloc, scope, steps, set.as_slice(), *at)?;
            set.insert(0, *at)?;
            append_steps(alloc, scope, steps, set, rest)?;
            Ok(())
        }
    }
}

/// Appends the steps of the item at a place.
fn append_place(
    alloc: Global,
    scope: &Scope,
    steps: &mut List<Step>,
    set: &[u32],
    at: u32,
) -> Result<(), AllocError>
    requires relations { list_all can_number_columns scope.now.rels.now ≡ true }
    requires names { NameColumns scope.now.query.now.conds scope.now.names.now }
    requires given { scope.now.given.now
        ≡ given_columns scope.now.rels.now 0 scope.now.query.now.items }
    ensures { OnOk result
        (steps.new ≡ steps.old ++ item_steps scope.now.rels.now scope.now.query.now set.now at
        (slice_get scope.now.query.now.items at)) }
{
    match scope.query.items.get(at as usize) {
        Some(item) => {
            append_item(alloc, scope, steps, set, at, item)?;
            Ok(())
        }
        None => {
            append_due(alloc, steps, set, at, scope.query.conds.as_slice())?;
            Ok(())
        }
    }
}

/// Appends the steps of an item: those that set its columns, the tests that can then be made, and for a minus item the
/// test that its path denies its tuple.
fn append_item(
    alloc: Global,
    scope: &Scope,
    steps: &mut List<Step>,
    set: &[u32],
    at: u32,
    item: &Item,
) -> Result<(), AllocError>
    requires relations { list_all can_number_columns scope.now.rels.now ≡ true }
    requires names { NameColumns scope.now.query.now.conds scope.now.names.now }
    requires given { scope.now.given.now
        ≡ given_columns scope.now.rels.now 0 scope.now.query.now.items }
    ensures { OnOk result
        (steps.new ≡ steps.old ++ item_steps scope.now.rels.now scope.now.query.now set.now at
        (Some item.now)) }
{
    append_setting(alloc, scope, steps, at, item)?;
    append_due(alloc, steps, set, at, scope.query.conds.as_slice())?;
    append_denying(steps, at, item)?;
    Ok(())
}

/// Appends the steps that set an item's columns.
fn append_setting(
    alloc: Global,
    scope: &Scope,
    steps: &mut List<Step>,
    at: u32,
    item: &Item,
) -> Result<(), AllocError>
    requires relations { list_all can_number_columns scope.now.rels.now ≡ true }
    requires names { NameColumns scope.now.query.now.conds scope.now.names.now }
    requires given { scope.now.given.now
        ≡ given_columns scope.now.rels.now 0 scope.now.query.now.items }
    ensures { OnOk result
        (steps.new ≡ steps.old ++ setting scope.now.rels.now scope.now.query.now at
        (Some item.now)) }
{
    match item {
        Item::Users { .. } => {
            steps.push(Step::User { item: at })?;
            Ok(())
        }
        Item::Rel {
            rel,
            sign,
            path,
            ..
        } => match sign {
            Sign::Plus => {
                append_walk(steps, at, path.as_slice())?;
                steps.push(Step::Pos {
                    item: at,
                    rel: *rel,
                })?;
                Ok(())
            }
            Sign::Minus => {
                append_binds(alloc, scope, steps, at, 0, columns_at(scope.rels, *rel))?;
                Ok(())
            }
        },
    }
}

/// Appends the steps that bind an item's columns, from one column on.
fn append_binds(
    alloc: Global,
    scope: &Scope,
    steps: &mut List<Step>,
    item: u32,
    col: u32,
    cols: &[ColDef],
) -> Result<(), AllocError>
    requires names { NameColumns scope.now.query.now.conds scope.now.names.now }
    requires given { scope.now.given.now
        ≡ given_columns scope.now.rels.now 0 scope.now.query.now.items }
    requires few { col + length cols.now < 2 ^ 32 }
    ensures { OnOk result
        (steps.new
        ≡ steps.old ++ binds_from scope.now.rels.now scope.now.query.now item col cols.now) }
{
    match cols {
        [] => Ok(()),
        [_, rest @ ..] => {
            append_bind(alloc, scope, steps, Ref { item, col })?;
            append_binds(alloc, scope, steps, item, col + 1, rest)?;
            Ok(())
        }
    }
}

/// Appends the step that binds a column to its source.
#[tactic(auto, using(crate::proofs::TurnLemmas::source_is_named))]
fn append_bind(
    alloc: Global,
    scope: &Scope,
    steps: &mut List<Step>,
    column: Ref,
) -> Result<(), AllocError>
    requires names { NameColumns scope.now.query.now.conds scope.now.names.now }
    requires given { scope.now.given.now
        ≡ given_columns scope.now.rels.now 0 scope.now.query.now.items }
    ensures { OnOk result
        (steps.new ≡ steps.old ++ bind_steps scope.now.rels.now scope.now.query.now column) }
{
    let conds = scope.query.conds.as_slice();
    match source_by_names(alloc, conds, scope.names, scope.given, column)? {
        Some(right) => {
            steps.push(Step::Bind {
                item: column.item,
                col: column.col,
                right,
            })?;
            Ok(())
        }
        None => Ok(()),
    }
}

/// Appends the tests that can be made once one more item is set.
fn append_due(
    alloc: Global,
    steps: &mut List<Step>,
    set: &[u32],
    at: u32,
    conds: &[Cond],
) -> Result<(), AllocError>
    ensures { OnOk result (steps.new ≡ steps.old ++ flat_map (due_step set.now at) conds.now) }
{
    for cond in conds {
        append_if_due(alloc, steps, set, at, cond)?;
    }
    Ok(())
}

fn append_if_due(
    alloc: Global,
    steps: &mut List<Step>,
    set: &[u32],
    at: u32,
    cond: &Cond,
) -> Result<(), AllocError>
    ensures { OnOk result (steps.new ≡ steps.old ++ due_step set.now at cond.now) }
{
    if !is_due(set, at, cond) {
        return Ok(());
    }
    let cond = cond.try_clone(alloc)?;
    steps.push(Step::Test { cond })?;
    Ok(())
}

/// Appends the steps behind an item's tests.
fn append_denying(steps: &mut List<Step>, at: u32, item: &Item) -> Result<(), AllocError>
    ensures { OnOk result (steps.new ≡ steps.old ++ denying at (Some item.now)) }
{
    match item {
        Item::Users { .. } => Ok(()),
        Item::Rel {
            rel,
            sign,
            path,
            ..
        } => match sign {
            Sign::Plus => Ok(()),
            Sign::Minus => {
                append_walk(steps, at, path.as_slice())?;
                steps.push(Step::Neg {
                    item: at,
                    rel: *rel,
                })?;
                Ok(())
            }
        },
    }
}

/// Whether all that a comparison names is set with one more item, and wasn't before.
fn is_due(set: &[u32], at: u32, cond: &Cond) -> bool
    ensures { result ≡ is_due set.now at cond.now }
{
    is_set_with(set, at, cond) && !all_set(set, cond)
}

fn is_set_with(set: &[u32], at: u32, cond: &Cond) -> bool
    ensures { result ≡ all_set (at ∷ set.now) cond.now }
{
    is_among_with(set, at, cond.left.item) && operand_set_with(set, at, &cond.right)
}

fn operand_set_with(set: &[u32], at: u32, operand: &Operand) -> bool
    ensures { result ≡ operand_set (at ∷ set.now) operand.now }
{
    match operand {
        Operand::Col(column) => is_among_with(set, at, column.item),
        Operand::Lit(_) => true,
    }
}

fn is_among_with(set: &[u32], at: u32, item: u32) -> bool
    ensures { result ≡ is_among (at ∷ set.now) item }
{
    item == at || is_among(set, item)
}

/// Whether all that a comparison names is set.
fn all_set(set: &[u32], cond: &Cond) -> bool
    ensures { result ≡ all_set set.now cond.now }
{
    is_among(set, cond.left.item) && operand_set(set, &cond.right)
}

fn operand_set(set: &[u32], operand: &Operand) -> bool
    ensures { result ≡ operand_set set.now operand.now }
{
    match operand {
        Operand::Col(column) => is_among(set, column.item),
        Operand::Lit(_) => true,
    }
}

/// Whether an item is among those that are set.
pub fn is_among(set: &[u32], item: u32) -> bool
    ensures { result ≡ is_among set.now item }
{
    set.iter().any(|at| item == *at)
}
