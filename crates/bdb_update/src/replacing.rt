// Statements go, and others come, one after the other.
ghost use Rattle.std.specs.Prelude.{◌≡◌, true, IfOk, OnOk};
ghost use Rattle.bdb_update.specs.Keeping.{KeepsNumbers, ReplaceKeeps};
ghost use Rattle.bdb_update.specs.Replacing.{Come, Go, Replace, SomeMayCome, SomeMayGo, SomeMayReplace, WritesForOne, is_stop};
ghost use Rattle.bdb_update.specs.Steps.{ComesThrough, GoesThrough, ReplacesThrough};
ghost use Rattle.bdb_update.specs.Trying.{stopped_by};
ghost use Rattle.bdb_val.specs.Steps.{IsChanging};

use crate::adding::add_statement;
use crate::answer::UpdateError;
use crate::dropping::drop_statement;
use bdb_base::Stmt;
use bdb_canon::Counts;
use bdb_keep::Keeper;
use bdb_tables::TabError;
use std::alloc::Global;

/// Puts statements in place of others, in the base that the tables store, whose sizes are `counts`. It tells the sizes
/// afterwards. For each statement there are no more writes than `drop_statement` or `add_statement` makes for it.
pub fn replace<K: Keeper>(
    alloc: Global,
    keeper: &mut K,
    counts: &Counts,
    gone: &[Stmt],
    come: &[Stmt],
) -> Result<Counts, TabError>
    requires running { (K.seen keeper.old).running ≡ true }
    requires base { SomeMayReplace (K.seen keeper.old).kept counts.now gone.now come.now }
    ensures replaced { IfOk result
        (λ next. Replace (K.seen keeper.old).kept
        (K.seen keeper.new).kept counts.now next gone.now come.now) }
    ensures steps { OnOk result (ReplacesThrough counts.now gone.now come.now (K.seen keeper.old)
        (K.seen keeper.new)) }
    ensures keeps { OnOk result (ReplaceKeeps counts.now gone.now come.now (K.seen keeper.old)
        (K.seen keeper.new)) }
    ensures changing { IsChanging (K.seen keeper.old) (K.seen keeper.new) result TabError.Fault }
{
    let mut next = *counts;
    match drop_statements(alloc, keeper, &mut next, gone) {
        Ok(()) => {}
        Err(error) => return Err(error),
    }
    match add_statements(alloc, keeper, &mut next, come) {
        Ok(()) => Ok(next),
        Err(error) => Err(error),
    }
}

/// Takes statements away that stand, each once, from the base that the tables store, whose sizes are `counts`. Worlds and
/// tuples that are left keep their numbers. For each statement there are no more writes than `drop_statement` makes for it.
pub fn drop_statements<K: Keeper>(
    alloc: Global,
    keeper: &mut K,
    counts: &mut Counts,
    gone: &[Stmt],
) -> Result<(), TabError>
    requires running { (K.seen keeper.old).running ≡ true }
    requires base { SomeMayGo (K.seen keeper.old).kept counts.old gone.now }
    ensures gone { OnOk result
        (Go (K.seen keeper.old).kept (K.seen keeper.new).kept counts.old counts.new gone.now) }
    ensures steps { OnOk result
        (GoesThrough counts.old gone.now (K.seen keeper.old) (K.seen keeper.new)) }
    ensures keeps { OnOk result (KeepsNumbers (K.seen keeper.new).kept (K.seen keeper.old).kept) }
    ensures changing { IsChanging (K.seen keeper.old) (K.seen keeper.new) result TabError.Fault }
    ensures writes { WritesForOne gone.now (K.seen keeper.old) (K.seen keeper.new) result }
{
    for stmt in gone {
        match drop_statement(alloc, keeper, counts, stmt) {
            Ok(_) => {}
            Err(error) => return Err(error),
        }
    }
    Ok(())
}

/// Adds statements to the base that the tables store, whose sizes are `counts`; with all of them it is valid. Worlds and tuples keep
/// their numbers. For each statement there are no more writes than `add_statement` makes for it.
pub fn add_statements<K: Keeper>(
    alloc: Global,
    keeper: &mut K,
    counts: &mut Counts,
    come: &[Stmt],
) -> Result<(), TabError>
    requires running { (K.seen keeper.old).running ≡ true }
    requires base { SomeMayCome (K.seen keeper.old).kept counts.old come.now }
    ensures come { OnOk result
        (Come (K.seen keeper.old).kept (K.seen keeper.new).kept counts.old counts.new come.now) }
    ensures steps { OnOk result
        (ComesThrough counts.old come.now (K.seen keeper.old) (K.seen keeper.new)) }
    ensures keeps { OnOk result (KeepsNumbers (K.seen keeper.old).kept (K.seen keeper.new).kept) }
    ensures changing { IsChanging (K.seen keeper.old) (K.seen keeper.new) result TabError.Fault }
{
    for stmt in come {
        match add_statement(alloc, keeper, counts, stmt) {
            Ok(_) => {}
            Err(error) => return Err(stop_of(error)),
        }
    }
    Ok(())
}

// Why a statement was not added that neither clashes nor passes a limit.
fn stop_of(error: UpdateError) -> TabError
    requires { is_stop error ≡ true }
    ensures { error ≡ stopped_by result }
{
    match error {
        UpdateError::Fault => TabError::Fault,
        UpdateError::Memory => TabError::Memory,
        UpdateError::Clash(_) => unreachable!(),
        UpdateError::Full(_) => unreachable!(),
    }
}
