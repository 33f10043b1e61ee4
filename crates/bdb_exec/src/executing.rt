// The rows of a plan.
ghost use Rattle.std.specs.Prelude.{◌≡◌, ◌≤◌, ◌<◌, ◌+◌, IfOk, OnOk, length};
ghost use Rattle.std.specs.Result.{IsErrOf};
ghost use Rattle.bdb_base.specs.Limits.{most_lines};
ghost use Rattle.bdb_queries.specs.Limits.{up_to};
ghost use Rattle.bdb_plan.specs.Running.{meaning_of, reads_from, start_of};
ghost use Rattle.bdb_exec.specs.LookUps.{looks_from};
ghost use Rattle.bdb_exec.specs.Looks.{IsExecuted};
ghost use Rattle.bdb_tables.specs.Reading.{OnlyReads};
ghost use Rattle.bdb_exec.specs.Readable.{CanBeRun};
ghost use Rattle.bdb_exec.specs.Seen.{sight_of};

use crate::errors::ExecError;
use crate::memo::Memo;
use crate::running::run;
use crate::seen_keys::SeenKeys;
use crate::state::State;
use bdb_base::limits::MOST_LINES;
use bdb_base::{List, Value};
use bdb_keep::Keeper;
use bdb_plan::Plan;
use bdb_queries::Found;
use bdb_tables::TabError;
use std::alloc::Global;

/// Rows of an answer.
pub type Rows = List<List<Value>>;

/// The rows that a plan means over what the tables of a keeper show: in order, each once. `TooMany` comes exactly where
/// there are more than an answer may have. Of a world it reads the rows of a relation, or of the prefix of a key where the
/// tests behind the choice ask for its first columns. Users, edges, the lengths of keys, the tuples of a whole relation in a world,
/// and each tuple that was decoded are remembered until the end; and of each world and relation the tuples of the prefix of a
/// key that was asked for last. The tuples of a whole relation are looked up by the columns that tests ask for. Steps that
/// depend on the values of columns alone aren't run again for values for which they were run, where the first column of some
/// item that is chosen isn't among them; of such values at most 100,000 are remembered.
pub fn run_plan<K: Keeper>(alloc: Global, keeper: &mut K, plan: &Plan) -> Result<Rows, ExecError>
    requires run { CanBeRun (K.seen keeper.old).kept }
    ensures rows { IfOk result (λ rows. rows ≡ meaning_of (sight_of (K.seen keeper.old).kept)
        plan.now) }
    ensures few { IfOk result (λ rows. length rows ≤ most_lines) }
    ensures many { IsErrOf result ExecError.TooMany
        → most_lines < length (meaning_of (sight_of (K.seen keeper.old).kept) plan.now) }
    ensures reads { OnOk result ((K.seen keeper.new).reads ≤ (K.seen keeper.old).reads + reads_from
        (sight_of (K.seen keeper.old).kept) plan.now.steps (start_of plan.now.items)) }
    ensures reads_many { IsErrOf result ExecError.TooMany → (K.seen keeper.new).reads
        ≤ (K.seen keeper.old).reads + reads_from (sight_of (K.seen keeper.old).kept) plan.now.steps
        (start_of plan.now.items) }
    ensures few_reads { OnOk result
        ((K.seen keeper.new).reads ≤ (K.seen keeper.old).reads + looks_from
        (sight_of (K.seen keeper.old).kept) plan.now.steps (start_of plan.now.items)) }
    ensures few_reads_many { IsErrOf result ExecError.TooMany → (K.seen keeper.new).reads
        ≤ (K.seen keeper.old).reads + looks_from (sight_of (K.seen keeper.old).kept) plan.now.steps
        (start_of plan.now.items) }
    ensures execution { IsExecuted (K.seen keeper.old) (K.seen keeper.new) result }
{
    match rows_up_to(alloc, keeper, plan, MOST_LINES) {
        Ok(Some(rows)) => Ok(rows),
        Ok(None) => Err(ExecError::TooMany),
        Err(TabError::Fault) => Err(ExecError::Fault),
        Err(TabError::Memory) => Err(ExecError::Memory),
    }
}

// The rows of a plan, where there are at most so many; none exactly where there are more.
fn rows_up_to<K: Keeper>(
    alloc: Global,
    keeper: &mut K,
    plan: &Plan,
    most: usize,
) -> Result<Option<Rows>, TabError>
    requires run { CanBeRun (K.seen keeper.old).kept }
    ensures rows { IfOk result
        (λ rows. rows ≡ up_to most (meaning_of (sight_of (K.seen keeper.old).kept) plan.now)) }
    ensures reads { OnOk result ((K.seen keeper.new).reads ≤ (K.seen keeper.old).reads + looks_from
        (sight_of (K.seen keeper.old).kept) plan.now.steps (start_of plan.now.items)) }
    ensures looks { OnlyReads (K.seen keeper.old) (K.seen keeper.new) result TabError.Fault }
{
    let state = match State::start(alloc, plan.items()) {
        Ok(state) => state,
        Err(_) => {
            keeper.undo();
            return Err(TabError::Memory);
        }
    };
    let mut found = Found::new(alloc, most);
    let mut memo = Memo::new(alloc);
    let mut keys = SeenKeys::new(alloc);
    match run(
        alloc,
        keeper,
        &mut memo,
        plan,
        plan.steps(),
        state,
        &mut found,
        &mut keys,
    ) {
        Ok(()) => {}
        Err(error) => return Err(error),
    }
    match found.into_rows(alloc) {
        Ok(rows) => Ok(rows),
        Err(_) => {
            keeper.undo();
            Err(TabError::Memory)
        }
    }
}
