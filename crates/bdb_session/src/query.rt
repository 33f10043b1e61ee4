// The commands that answer a query, and tell its plan.
ghost use Rattle.std.specs.Prelude.{◌≡◌, ◌≤◌, true, IfOk, length};
ghost use Rattle.bdb_base.specs.Bases.{IsCatalog};
ghost use Rattle.bdb_base.specs.Limits.{most_lines};
ghost use Rattle.bdb_bind.specs.Fits.{can_be_answered, fits_catalog};
ghost use Rattle.bdb_plan.specs.PlanOf.{plan_of};
ghost use Rattle.bdb_render.specs.Replies.{rows_reply};
ghost use Rattle.bdb_session.specs.Known.{AgreesOnSome};
ghost use Rattle.bdb_session.specs.Machine.{bound_outcome, plan_reply};
ghost use Rattle.bdb_session.specs.Outcome.{State, Done};
ghost use Rattle.bdb_session.specs.QueryReads.{ReadsAsBounded};
ghost use Rattle.bdb_session.specs.Telling.{ReadsWithin, WritesNothing};
ghost use Rattle.bdb_session.specs.Within.{IsSaid, TellsWithin};
ghost use Rattle.bdb_trans.specs.Orders.{IsPlanInOrder};

use crate::error::StopError;
use crate::reply::Reply;
use crate::session::Session;
use bdb_base::{List, Query};
use bdb_bind::Bound;
use bdb_exec::{ExecError, Rows, run_plan};
use bdb_keep::Keeper;
use bdb_plan::{Plan, print_plan};
use bdb_render::{Refusal, count_reply, rows_reply};
use bdb_trans::{translate, translate_to_run};
use std::alloc::AllocError;

impl Session {
    /// Answers a query within a transaction, or refuses it where it has too many answers. How often is read is bounded by the
    /// product of one factor for each item.
    pub(crate) fn select<K: Keeper>(
        &self,
        keeper: &mut K,
        query: &Query,
    ) -> Result<Reply, StopError>
        requires running { (K.seen keeper.old).running ≡ true }
        requires agrees { AgreesOnSome (K.seen keeper.old).kept self.now }
        requires fits { fits_catalog self.now.catalog (Bound.Select query.now) ≡ true }
        ensures told { TellsWithin (λ s. bound_outcome s (Bound.Select query.now)) self.now self.now
            (K.seen keeper.old) (K.seen keeper.new) result }
        ensures reads { ReadsAsBounded query.now self.now (K.seen keeper.old) (K.seen keeper.new)
            result }
        ensures writes { WritesNothing (K.seen keeper.old) (K.seen keeper.new) result }
    {
        let plan = match self.plan_to_run(query) {
            Ok(plan) => plan,
            Err(_) => {
                keeper.undo();
                return Err(StopError::Memory);
            }
        };
        match run_plan(self.alloc, keeper, &plan) {
            Ok(rows) => self.tell_rows(keeper, &rows),
            Err(ExecError::TooMany) => self.refuse_within(keeper, &Refusal::Many),
            Err(ExecError::Fault) => Err(StopError::Fault),
            Err(ExecError::Memory) => Err(StopError::Memory),
        }
    }

    /// Tells the answers of a query.
    fn tell_rows<K: Keeper>(&self, keeper: &mut K, rows: &Rows) -> Result<Reply, StopError>
        requires few { length rows.now ≤ most_lines }
        ensures { (s : State) → IsSaid self.now.catalog
            (Done (rows_reply rows.now) (length rows.now) s) (K.seen keeper.old) (K.seen keeper.new)
            result }
    {
        let answers = rows.len() as u32;
        let text = rows_reply(self.alloc, rows);
        self.say(keeper, text, answers)
    }

    /// Tells the plan of a query, within a transaction. Nothing is read for it.
    pub(crate) fn explain<K: Keeper>(
        &self,
        keeper: &mut K,
        query: &Query,
    ) -> Result<Reply, StopError>
        requires running { (K.seen keeper.old).running ≡ true }
        requires agrees { AgreesOnSome (K.seen keeper.old).kept self.now }
        requires fits { fits_catalog self.now.catalog (Bound.Explain query.now) ≡ true }
        ensures told { TellsWithin (λ s. bound_outcome s (Bound.Explain query.now))
            self.now self.now (K.seen keeper.old) (K.seen keeper.new) result }
        ensures reads { ReadsWithin (λ s. 0) self.now (K.seen keeper.old) (K.seen keeper.new)
            result }
        ensures writes { WritesNothing (K.seen keeper.old) (K.seen keeper.new) result }
    {
        let text = self.plan_text(query);
        self.say(keeper, text, 0)
    }

    /// The text of a query's plan, and how many lines it has.
    fn plan_text(&self, query: &Query) -> Result<List<u8>, AllocError>
        requires catalog { IsCatalog self.now.catalog }
        requires fits { can_be_answered self.now.catalog query.now ≡ true }
        ensures { IfOk result (λ text. text ≡ plan_reply self.now.catalog query.now) }
    {
        let plan = self.plan_of(query)?;
        let lines = plan.steps().len() + 1;
        let count = count_reply(self.alloc, lines)?;
        let mut text = print_plan(self.alloc, &self.catalog, query, &plan)?;
        text.extend_from_slice(count.as_slice())?;
        Ok(List::from_vec(text))
    }

    /// A plan of a query that is quick to run, in whichever order the query has its items.
    fn plan_to_run(&self, query: &Query) -> Result<Plan, AllocError>
        requires catalog { IsCatalog self.now.catalog }
        requires fits { can_be_answered self.now.catalog query.now ≡ true }
        ensures { IfOk result (λ plan. IsPlanInOrder self.now.catalog.rels query.now plan) }
    {
        let plan = translate_to_run(self.alloc, &self.catalog, query)?;
        Ok(plan)
    }

    /// The plan of a query.
    fn plan_of(&self, query: &Query) -> Result<Plan, AllocError>
        requires catalog { IsCatalog self.now.catalog }
        requires fits { can_be_answered self.now.catalog query.now ≡ true }
        ensures { IfOk result (λ plan. plan ≡ plan_of self.now.catalog.rels query.now) }
    {
        let plan = translate(self.alloc, &self.catalog, query)?;
        Ok(plan)
    }
}
