// Statements that stand in a table of a test.
ghost use Rattle.std.specs.Prelude.{◌≡◌, true, IfOk};
ghost use Rattle.bdb_base.specs.Order.{statement_cmp};
ghost use Rattle.bdb_base.specs.SortedSet.{ascending};

use crate::parts::statement;
use bdb_base::{List, Sign, Stmt, put};
use std::alloc::Global;
use std::test::Fail;

/// A statement of a test: its path, its sign, and the two columns of its tuple.
pub type Given<'a> = (&'a [u32], Sign, &'a str, &'a str);

/// All believe an eagle.
pub const EAGLE: Given = (&[], Sign::Plus, "s1", "eagle");

/// User 2 believes no eagle.
pub const BOB_DENIES: Given = (&[2], Sign::Minus, "s1", "eagle");

/// User 1 believes a crow.
pub const CROW: Given = (&[1], Sign::Plus, "s1", "crow");

/// These statements, in order.
pub fn stmts_of(alloc: Global, given: &[Given]) -> Result<List<Stmt>, Fail>
    ensures { IfOk result (λ stmts. ascending statement_cmp stmts ≡ true) }
{
    let mut stmts = List::new(alloc);
    for (path, sign, k, v) in given {
        let stmt = statement(alloc, *path, *sign, *k, *v)?;
        let _added = put(&mut stmts, stmt)?;
    }
    Ok(stmts)
}
