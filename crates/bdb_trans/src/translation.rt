// From queries to plans.
ghost use Rattle.std.specs.Prelude.{◌≡◌, ◌<◌, ◌^◌, true, [], length, IfOk};
ghost use Rattle.std.specs.List.{list_all};
ghost use Rattle.bdb_base.specs.Safety.{query_fits, IsSafe};
ghost use Rattle.bdb_plan.specs.PlanOf.{plan_steps, plan_of, steps_from};
ghost use Rattle.bdb_trans.specs.Names.{can_number_columns};
ghost use Rattle.bdb_trans.specs.Orders.{IsPlanInOrder};

use crate::choosing::order_to_run;
use crate::items::{Scope, append_steps};
use crate::names::renames_of;
use crate::order::order_of;
use crate::sources::given_columns;
use bdb_base::{Catalog, Exact, List, Query, RelDef};
use bdb_plan::{Plan, Step};
use std::alloc::{AllocError, Global};

/// The plan of a safe query that fits a catalog. It looks at no stored rows. The only error is running out of memory.
#[tactic(auto, using(crate::proofs::TurnLemmas::columns_are_numbered))]
pub fn translate(alloc: Global, catalog: &Catalog, q: &Query) -> Result<Plan, AllocError>
    requires fits { query_fits catalog.now q.now ≡ true }
    requires safe { IsSafe catalog.now.rels q.now }
    ensures { IfOk result (λ plan. plan ≡ plan_of catalog.now.rels q.now) }
{
    let items = q.items.len() as u32;
    let steps = plan_steps(alloc, catalog.rels.as_slice(), q)?;
    let take = q.take.try_clone(alloc)?;
    Ok(Plan::new(items, steps, take))
}

/// A plan of the same query that is quick to run, whichever order the query has its items in: its steps set the items in an
/// order that hangs on the query alone. It looks at no stored rows. The only error is running out of memory.
#[tactic(auto, using(crate::proofs::TurnLemmas::columns_are_numbered))]
pub fn translate_to_run(alloc: Global, catalog: &Catalog, q: &Query) -> Result<Plan, AllocError>
    requires fits { query_fits catalog.now q.now ≡ true }
    requires safe { IsSafe catalog.now.rels q.now }
    ensures { IfOk result (λ plan. IsPlanInOrder catalog.now.rels q.now plan) }
{
    let items = q.items.len() as u32;
    let order = order_to_run(alloc, catalog, q)?;
    let steps = steps_in(alloc, catalog.rels.as_slice(), q, order.as_slice())?;
    let take = q.take.try_clone(alloc)?;
    Ok(Plan::new(items, steps, take))
}

/// The steps of a query's plan.
fn plan_steps(alloc: Global, rels: &[RelDef], q: &Query) -> Result<List<Step>, AllocError>
    requires relations { list_all can_number_columns rels.now ≡ true }
    requires few { length q.now.items < 2 ^ 32 }
    ensures { IfOk result (λ steps. steps ≡ plan_steps rels.now q.now) }
{
    let order = order_of(alloc, q.items.as_slice())?;
    let steps = steps_in(alloc, rels, q, order.as_slice())?;
    Ok(steps)
}

/// The steps that set the items of a query in this order.
fn steps_in(
    alloc: Global,
    rels: &[RelDef],
    q: &Query,
    order: &[u32],
) -> Result<List<Step>, AllocError>
    requires relations { list_all can_number_columns rels.now ≡ true }
    requires few { length q.now.items < 2 ^ 32 }
    ensures { IfOk result (λ steps. steps ≡ steps_from rels.now q.now [] order.now) }
{
    let names = renames_of(alloc, q.conds.as_slice())?;
    let given = given_columns(alloc, rels, q.items.as_slice())?;
    let scope = Scope {
        rels,
        query: q,
        names: names.as_slice(),
        given: given.as_slice(),
    };
    let mut set = Vec::new(alloc);
    let mut steps = List::new(alloc);
    append_steps(alloc, &scope, &mut steps, &mut set, order)?;
    Ok(steps)
}
