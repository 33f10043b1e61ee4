// What stands at a path, and what comes to stand there.
ghost use Rattle.std.specs.Prelude.{◌≡◌, [], true, IfOk, OnOk};
ghost use Rattle.bdb_base.specs.Changes.{with_statements, without_statements};
ghost use Rattle.bdb_base.specs.Order.{statement_cmp};
ghost use Rattle.bdb_base.specs.SortedSet.{ascending};
ghost use Rattle.bdb_keep.specs.Calls.{IsRead};
ghost use Rattle.bdb_update.specs.Reached.{SomeHasState, StandAt, said_at, said_of};

use bdb_base::{Exact, List, Path, Stmt, put, put_copy, take};
use bdb_keep::Keeper;
use bdb_tables::TabError;
use bdb_val::{StoredRow, read_world};
use bdb_worlds::longest_state;
use std::alloc::{AllocError, Global};

/// The statements at a path that is a state, in order.
pub fn read_statements<K: Keeper>(
    alloc: Global,
    keeper: &mut K,
    path: &Path,
) -> Result<List<Stmt>, TabError>
    requires running { (K.seen keeper.old).running ≡ true }
    requires base { SomeHasState (K.seen keeper.old).kept path.now }
    ensures found { IfOk result (StandAt (K.seen keeper.old).kept path.now) }
    ensures sorted { IfOk result (λ stmts. ascending statement_cmp stmts ≡ true) }
    ensures read { IsRead (K.seen keeper.old) (K.seen keeper.new) result TabError.Fault }
{
    let (_, wid) = match longest_state(alloc, keeper, path.as_slice()) {
        Ok(found) => found,
        Err(error) => return Err(error),
    };
    let rows = match read_world(alloc, keeper, wid) {
        Ok(rows) => rows,
        Err(error) => return Err(error),
    };
    match stated_at(alloc, path, rows) {
        Ok(stmts) => Ok(stmts),
        Err(_) => {
            keeper.undo();
            Err(TabError::Memory)
        }
    }
}

// The statements that the explicit rows of a path's world are, in order.
fn stated_at(alloc: Global, path: &Path, rows: Vec<StoredRow>) -> Result<List<Stmt>, AllocError>
    ensures stated { IfOk result
        (λ stmts. stmts ≡ with_statements [] (said_at path.now rows.items)) }
    ensures sorted { IfOk result (λ stmts. ascending statement_cmp stmts ≡ true) }
{
    let mut stmts = List::new(alloc);
    for row in rows {
        put_said(alloc, &mut stmts, path, row)?;
    }
    Ok(stmts)
}

// Puts the statement that a row is, if it is explicit, among others.
fn put_said(
    alloc: Global,
    stmts: &mut List<Stmt>,
    path: &Path,
    row: StoredRow,
) -> Result<(), AllocError>
    requires { ascending statement_cmp stmts.old ≡ true }
    ensures { OnOk result (stmts.new ≡ with_statements stmts.old (said_of path.now row)) }
{
    if !row.mark.1 {
        return Ok(());
    }
    let path = path.try_clone(alloc)?;
    let stmt = Stmt {
        path,
        sign: row.mark.0,
        tuple: row.tuple,
    };
    let _added = put(stmts, stmt)?;
    Ok(())
}

/// Statements with more of them.
pub fn with_statements(
    alloc: Global,
    stmts: List<Stmt>,
    come: &[Stmt],
) -> Result<List<Stmt>, AllocError>
    requires { ascending statement_cmp stmts ≡ true }
    ensures next { IfOk result (λ next. next ≡ with_statements stmts come.now) }
    ensures sorted { IfOk result (λ next. ascending statement_cmp next ≡ true) }
{
    let mut next = stmts;
    for stmt in come {
        let _added = put_copy(alloc, &mut next, stmt)?;
    }
    Ok(next)
}

/// Statements without some of them.
pub fn without_statements(stmts: List<Stmt>, gone: &[Stmt]) -> List<Stmt>
    requires { ascending statement_cmp stmts ≡ true }
    ensures left { result ≡ without_statements stmts gone.now }
    ensures sorted { ascending statement_cmp result ≡ true }
{
    let mut left = stmts;
    for stmt in gone {
        let _taken = take(&mut left, stmt);
    }
    left
}
