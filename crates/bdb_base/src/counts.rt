// The different tuples of statements.
ghost use Rattle.std.specs.Prelude.{◌≡◌, IfOk};
ghost use Rattle.bdb_base.specs.Bases.{tuple_count};

use crate::kinds::Stmt;
use crate::list::List;
use crate::ordered::put_copy;
use crate::tuple::Tuple;
use std::alloc::{AllocError, Global};

/// How many different tuples the statements have. It keeps a sorted list of them, so that each look-up is a binary search.
pub fn distinct_tuples(alloc: Global, stmts: &[Stmt]) -> Result<usize, AllocError>
    ensures { IfOk result (λ count. count ≡ tuple_count stmts.now) }
{
    let mut tuples = List::new(alloc);
    for stmt in stmts {
        let _added = put_copy(alloc, &mut tuples, &stmt.tuple)?;
    }
    Ok(tuples.len())
}
