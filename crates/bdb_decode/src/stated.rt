// Whether tuples and worlds are those of statements.
ghost use Rattle.std.specs.Prelude.{◌≡◌, true, IfOk};
ghost use Rattle.bdb_base.specs.SortedSet.{ascending};
ghost use Rattle.bdb_decode.specs.Stated.{all_in, all_stated, all_states};

use bdb_base::{Ordered, Path, Stmt, Tuple, contains, tuples_of};
use bdb_paths::states_of;
use std::alloc::{AllocError, Global};

/// Whether each tuple is that of a statement.
pub fn all_stated(
    alloc: Global,
    stmts: &[Stmt],
    tuples: &[(u32, Tuple)],
) -> Result<bool, AllocError>
    ensures { IfOk result (λ all. all ≡ all_stated stmts.now tuples.now) }
{
    match tuples_of(alloc, stmts) {
        Ok(set) => Ok(all_in(set.as_slice(), tuples)),
        Err(error) => Err(error),
    }
}

/// Whether each path is a state.
pub fn all_states(alloc: Global, stmts: &[Stmt], worlds: &[(u32, Path)]) -> Result<bool, AllocError>
    ensures { IfOk result (λ all. all ≡ all_states stmts.now worlds.now) }
{
    match states_of(alloc, stmts) {
        Ok(set) => Ok(all_in(set.as_slice(), worlds)),
        Err(error) => Err(error),
    }
}

// Whether each item is in a set. Each look-up is a binary search.
fn all_in<X: Ordered>(set: &[X], items: &[(u32, X)]) -> bool
    requires { ascending X.order set.now ≡ true }
    ensures { result ≡ all_in X.order set.now items.now }
{
    let mut rest = items;
    while let [first, others @ ..] = rest {
        if !contains(set, &first.1) {
            return false;
        }
        rest = others;
    }
    true
}
