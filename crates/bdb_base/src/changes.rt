// Changes of a tuple's columns.
ghost use Rattle.std.specs.Prelude.{◌≡◌, IfOk};
ghost use Rattle.bdb_base.specs.Conditions.{with_column, changed};

use crate::kinds::SetCol;
use crate::list::{Exact, List};
use crate::tuple::Tuple;
use std::alloc::{AllocError, Global};

/// The tuple with columns set, from left to right, so that a later set of the same column wins. A set of a column that
/// the tuple lacks changes nothing.
pub fn changed(alloc: Global, t: &Tuple, sets: &[SetCol]) -> Result<Tuple, AllocError>
    ensures { IfOk result (λ to. to ≡ changed sets.now t.now) }
{
    let mut tuple = t.try_clone(alloc)?;
    for set in sets {
        tuple = with_column(alloc, tuple, set)?;
    }
    Ok(tuple)
}

fn with_column(alloc: Global, tuple: Tuple, set: &SetCol) -> Result<Tuple, AllocError>
    ensures { IfOk result (λ to. to ≡ with_column tuple set.now) }
{
    let to = set.to.try_clone(alloc)?;
    let Tuple { rel, vals } = tuple;
    let mut items = vals.into_vec();
    let at = set.col as usize;
    if at < items.len() {
        items[at] = to;
    }
    Ok(Tuple {
        rel,
        vals: List::from_vec(items),
    })
}
