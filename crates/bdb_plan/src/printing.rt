// The text of a plan.
ghost use Rattle.std.specs.Prelude.{◌≡◌, ◌++◌, map, IfOk, OnOk};
ghost use Rattle.std.specs.List.{flat_map, slice_get};
ghost use Rattle.bdb_base.specs.Texts.{joined, line, user_text};
ghost use Rattle.bdb_plan.specs.PlanText.{alias_at, column_of, operand_text, plan_text, ref_text, relation_column, step_text, take_text, who_text};

use crate::plan::Plan;
use crate::step::Step;
use bdb_base::{
    Catalog, Cond, Item, Operand, Query, Ref, Who, append_cmp, append_dotted, append_quoted,
    append_value,
};
use std::alloc::{AllocError, Global};

/// The text of a query's plan: a line for each step, and one with the columns taken. The only error is running out of memory.
pub fn print_plan(
    alloc: Global,
    catalog: &Catalog,
    query: &Query,
    plan: &Plan,
) -> Result<Vec<u8>, AllocError>
    ensures { IfOk result (λ bytes. bytes.items ≡ plan_text catalog.now query.now plan.now) }
{
    let mut out = Vec::new(alloc);
    append_steps(&mut out, catalog, query, plan.steps())?;
    append_take(&mut out, catalog, query, plan.take())?;
    out.push(b'\n')?;
    Ok(out)
}

// Appends the lines of steps.
fn append_steps(
    out: &mut Vec<u8>,
    catalog: &Catalog,
    query: &Query,
    steps: &[Step],
) -> Result<(), AllocError>
    ensures { OnOk result
        (out.new.items ≡ out.old.items ++ flat_map line
        (map (step_text catalog.now query.now) steps.now)) }
{
    for step in steps {
        append_step(out, catalog, query, step)?;
        out.push(b'\n')?;
    }
    Ok(())
}

// Appends a step: its word, and what it is about.
#[tactic(auto, unfolding(crate::specs::PlanText::step_text))]
fn append_step(
    out: &mut Vec<u8>,
    catalog: &Catalog,
    query: &Query,
    step: &Step,
) -> Result<(), AllocError>
    ensures { OnOk result
        (out.new.items ≡ out.old.items ++ step_text catalog.now query.now step.now) }
{
    match step {
        Step::User { item } => {
            out.extend_from_slice(b"user ")?;
            append_alias(out, query, *item)
        }
        Step::Start { item } => {
            out.extend_from_slice(b"start ")?;
            append_alias(out, query, *item)
        }
        Step::Edge { item, who } => {
            out.extend_from_slice(b"edge ")?;
            append_alias(out, query, *item)?;
            out.push(b' ')?;
            append_who(out, catalog, query, *who)
        }
        Step::Differ { item, left, right } => {
            append_differ(out, catalog, query, *item, *left, *right)
        }
        Step::Pos { item, .. } => {
            out.extend_from_slice(b"pos ")?;
            append_alias(out, query, *item)
        }
        Step::Bind { item, col, right } => append_bind(out, catalog, query, *item, *col, right),
        Step::Neg { item, .. } => {
            out.extend_from_slice(b"neg ")?;
            append_alias(out, query, *item)
        }
        Step::Test { cond } => append_test(out, catalog, query, cond),
    }
}

// Appends the step that keeps two users of an item's path apart.
#[tactic(auto, unfolding(crate::specs::PlanText::step_text))]
fn append_differ(
    out: &mut Vec<u8>,
    catalog: &Catalog,
    query: &Query,
    item: u32,
    left: Who,
    right: Who,
) -> Result<(), AllocError>
    ensures { OnOk result (out.new.items ≡ out.old.items ++ step_text catalog.now query.now
        (Step.Differ item left right)) }
{
    out.extend_from_slice(b"differ ")?;
    append_alias(out, query, item)?;
    out.push(b' ')?;
    append_who(out, catalog, query, left)?;
    out.push(b' ')?;
    append_who(out, catalog, query, right)
}

// Appends the step that sets a column of a minus item.
#[tactic(auto, unfolding(crate::specs::PlanText::step_text))]
fn append_bind(
    out: &mut Vec<u8>,
    catalog: &Catalog,
    query: &Query,
    item: u32,
    col: u32,
    right: &Operand,
) -> Result<(), AllocError>
    ensures { OnOk result (out.new.items ≡ out.old.items ++ step_text catalog.now query.now
        (Step.Bind item col right.now)) }
{
    out.extend_from_slice(b"bind ")?;
    append_ref(out, catalog, query, Ref { item, col })?;
    out.push(b' ')?;
    append_operand(out, catalog, query, right)
}

// Appends the test of a comparison.
#[tactic(auto, unfolding(crate::specs::PlanText::step_text))]
fn append_test(
    out: &mut Vec<u8>,
    catalog: &Catalog,
    query: &Query,
    cond: &Cond,
) -> Result<(), AllocError>
    ensures { OnOk result (out.new.items ≡ out.old.items ++ step_text catalog.now query.now
        (Step.Test cond.now)) }
{
    out.extend_from_slice(b"cond ")?;
    append_ref(out, catalog, query, cond.left)?;
    out.push(b' ')?;
    append_cmp(out, cond.cmp)?;
    out.push(b' ')?;
    append_operand(out, catalog, query, &cond.right)
}

// Appends the columns taken.
#[tactic(auto, unfolding(crate::specs::PlanText::take_text))]
fn append_take(
    out: &mut Vec<u8>,
    catalog: &Catalog,
    query: &Query,
    take: &[Ref],
) -> Result<(), AllocError>
    ensures { OnOk result
        (out.new.items ≡ out.old.items ++ take_text catalog.now query.now take.now) }
{
    out.extend_from_slice(b"take ")?;
    append_refs(out, catalog, query, take)
}

// Appends columns, with a comma and a space between each two.
fn append_refs(
    out: &mut Vec<u8>,
    catalog: &Catalog,
    query: &Query,
    refs: &[Ref],
) -> Result<(), AllocError>
    ensures { OnOk result
        (out.new.items ≡ out.old.items ++ joined (map (ref_text catalog.now query.now) refs.now)) }
{
    match refs {
        [] => Ok(()),
        [first, rest @ ..] => {
            append_ref(out, catalog, query, *first)?;
            for r in rest {
                out.extend_from_slice(b", ")?;
                append_ref(out, catalog, query, *r)?;
            }
            Ok(())
        }
    }
}

// Appends a column behind its item's alias.
#[tactic(auto, unfolding(crate::specs::PlanText::ref_text))]
fn append_ref(
    out: &mut Vec<u8>,
    catalog: &Catalog,
    query: &Query,
    column: Ref,
) -> Result<(), AllocError>
    ensures { OnOk result (out.new.items ≡ out.old.items ++ ref_text catalog.now query.now column) }
{
    append_dotted(
        out,
        alias_at(query, column.item),
        column_at(catalog, query, column),
    )
}

// Appends a user of a path: the name in quotes, or the uid of a `Users` item.
#[tactic(auto, unfolding(crate::specs::PlanText::who_text))]
fn append_who(
    out: &mut Vec<u8>,
    catalog: &Catalog,
    query: &Query,
    who: Who,
) -> Result<(), AllocError>
    ensures { OnOk result (out.new.items ≡ out.old.items ++ who_text catalog.now query.now who) }
{
    match who {
        Who::User(uid) => append_quoted(out, user_text(catalog, uid)),
        Who::Of(item) => append_dotted(out, alias_at(query, item), b"uid"),
    }
}

// Appends an operand: a column, or a literal.
#[tactic(auto, unfolding(crate::specs::PlanText::operand_text))]
fn append_operand(
    out: &mut Vec<u8>,
    catalog: &Catalog,
    query: &Query,
    operand: &Operand,
) -> Result<(), AllocError>
    ensures { OnOk result
        (out.new.items ≡ out.old.items ++ operand_text catalog.now query.now operand.now) }
{
    match operand {
        Operand::Col(column) => append_ref(out, catalog, query, *column),
        Operand::Lit(value) => append_value(out, value),
    }
}

// Appends the alias of an item.
fn append_alias(out: &mut Vec<u8>, query: &Query, item: u32) -> Result<(), AllocError>
    ensures { OnOk result (out.new.items ≡ out.old.items ++ alias_at query.now item) }
{
    out.extend_from_slice(alias_at(query, item))
}

// The alias of an item; empty where there is none.
fn alias_at(query: &Query, item: u32) -> &[u8]
    ensures { result.now ≡ alias_at query.now item }
{
    match query.items.get(item as usize) {
        Some(Item::Users { alias }) => alias.as_bytes(),
        Some(Item::Rel { alias, .. }) => alias.as_bytes(),
        None => b"",
    }
}

// The name of a column; empty where there is none.
fn column_at<'a>(catalog: &'a Catalog, query: &Query, column: Ref) -> &'a [u8]
    ensures { result.now ≡ column_of catalog.now column.col
        (slice_get query.now.items column.item) }
{
    match query.items.get(column.item as usize) {
        Some(Item::Users { .. }) => { if column.col == 0 { b"uid" } else { b"name" } }
        Some(Item::Rel { rel, .. }) => relation_column(catalog, *rel, column.col),
        None => b"",
    }
}

// The name of a relation's column; empty where there is none.
fn relation_column(catalog: &Catalog, rel: u32, col: u32) -> &[u8]
    ensures { result.now ≡ relation_column catalog.now rel col }
{
    match catalog.rels.get(rel as usize) {
        Some(def) => match def.cols.get(col as usize) {
            Some(column) => column.name.as_bytes(),
            None => b"",
        },
        None => b"",
    }
}

// The name of a live user; empty where there is none.
fn user_text(catalog: &Catalog, uid: u32) -> &[u8]
    ensures { result.now ≡ user_text catalog.now uid }
{
    match bdb_base::user_name(catalog.users.as_slice(), uid) {
        Some(name) => name.as_bytes(),
        None => b"",
    }
}
