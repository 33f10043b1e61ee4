// Which tuples go with statements of a path, and which come.
ghost use Rattle.std.specs.Prelude.{◌≡◌, ◌++◌, true, IfOk, OnOk};
ghost use Rattle.bdb_keep.specs.Calls.{IsRead};
ghost use Rattle.bdb_key.specs.Rows.{MayBeTuple};
ghost use Rattle.bdb_tables.specs.Grammar.{InGrammar};
ghost use Rattle.bdb_update.specs.Elsewhere.{AreFresh, AreLost, IsFresh, IsLost, MayBeTuples, kept_if};
ghost use Rattle.bdb_update.specs.Holding.{AreOfOnePath};

use crate::holding::holds_tuple;
use crate::numbers::number_of;
use crate::reading::count_told;
use bdb_base::{Exact, List, Stmt, Tuple};
use bdb_keep::Keeper;
use bdb_tables::TabError;
use std::alloc::{AllocError, Global};

/// Those of some statements of one path whose tuple no statement of another path has, nor any of `reached`, which are in order and
/// all of one path. Two reads for each statement, however many worlds there are.
pub fn lost_of<K: Keeper>(
    alloc: Global,
    keeper: &mut K,
    reached: &[Stmt],
    gone: &[Stmt],
) -> Result<List<Stmt>, TabError>
    requires running { (K.seen keeper.old).running ≡ true }
    requires grammar { InGrammar (K.seen keeper.old).kept }
    requires reached { AreOfOnePath reached.now }
    requires tuples { MayBeTuples gone.now }
    ensures lost { IfOk result (AreLost (K.seen keeper.old).kept reached.now gone.now) }
    ensures read { IsRead (K.seen keeper.old) (K.seen keeper.new) result TabError.Fault }
{
    let mut lost = List::new(alloc);
    for stmt in gone {
        let missing = match is_lost(alloc, keeper, reached, &stmt.tuple) {
            Ok(missing) => missing,
            Err(error) => return Err(error),
        };
        match keep_if(alloc, &mut lost, stmt, missing) {
            Ok(()) => {}
            Err(_) => {
                keeper.undo();
                return Err(TabError::Memory);
            }
        }
    }
    Ok(lost)
}

/// Those of some statements whose tuple no statement of the base has. It reads a row for each.
pub fn fresh_of<K: Keeper>(
    alloc: Global,
    keeper: &mut K,
    come: &[Stmt],
) -> Result<List<Stmt>, TabError>
    requires running { (K.seen keeper.old).running ≡ true }
    requires grammar { InGrammar (K.seen keeper.old).kept }
    requires tuples { MayBeTuples come.now }
    ensures fresh { IfOk result (AreFresh (K.seen keeper.old).kept come.now) }
    ensures read { IsRead (K.seen keeper.old) (K.seen keeper.new) result TabError.Fault }
{
    let mut fresh = List::new(alloc);
    for stmt in come {
        let missing = match is_fresh(alloc, keeper, &stmt.tuple) {
            Ok(missing) => missing,
            Err(error) => return Err(error),
        };
        match keep_if(alloc, &mut fresh, stmt, missing) {
            Ok(()) => {}
            Err(_) => {
                keeper.undo();
                return Err(TabError::Memory);
            }
        }
    }
    Ok(fresh)
}

// Adds a copy of a statement, where it is to be kept.
fn keep_if(alloc: Global, kept: &mut List<Stmt>, stmt: &Stmt, is: bool) -> Result<(), AllocError>
    ensures { OnOk result (kept.new ≡ kept.old ++ kept_if is stmt.now) }
{
    if !is {
        return Ok(());
    }
    kept.push(stmt.try_clone(alloc)?)?;
    Ok(())
}

// Whether no statement of another path than one at which a tuple is stated has it, nor any of `reached`.
fn is_lost<K: Keeper>(
    alloc: Global,
    keeper: &mut K,
    reached: &[Stmt],
    tuple: &Tuple,
) -> Result<bool, TabError>
    requires running { (K.seen keeper.old).running ≡ true }
    requires grammar { InGrammar (K.seen keeper.old).kept }
    requires reached { AreOfOnePath reached.now }
    requires tuple { MayBeTuple tuple.now }
    ensures lost { IfOk result (IsLost (K.seen keeper.old).kept reached.now tuple.now) }
    ensures read { IsRead (K.seen keeper.old) (K.seen keeper.new) result TabError.Fault }
{
    if holds_tuple(reached, tuple) {
        return Ok(false);
    }
    let tid = match number_of(alloc, keeper, tuple) {
        Ok(Some(tid)) => tid,
        Ok(None) => return Ok(true),
        Err(error) => return Err(error),
    };
    match count_told(keeper, tid) {
        Ok(count) => Ok(count < 2),
        Err(error) => Err(error),
    }
}

// Whether no statement of the base has a tuple.
fn is_fresh<K: Keeper>(alloc: Global, keeper: &mut K, tuple: &Tuple) -> Result<bool, TabError>
    requires running { (K.seen keeper.old).running ≡ true }
    requires grammar { InGrammar (K.seen keeper.old).kept }
    requires tuple { MayBeTuple tuple.now }
    ensures fresh { IfOk result (IsFresh (K.seen keeper.old).kept tuple.now) }
    ensures read { IsRead (K.seen keeper.old) (K.seen keeper.new) result TabError.Fault }
{
    match number_of(alloc, keeper, tuple) {
        Ok(Some(_)) => Ok(false),
        Ok(None) => Ok(true),
        Err(error) => Err(error),
    }
}
