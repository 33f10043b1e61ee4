// Which tuples the tests right behind a choice let through.
ghost use Rattle.std.specs.Prelude.{◌≡◌, IfOk, filter};
ghost use Rattle.bdb_exec.specs.Keys.{passes};

use crate::shared::Shared;
use crate::slots::holds_with;
use bdb_base::{Exact, List, Tuple};
use bdb_plan::Step;
use std::alloc::{AllocError, Global};

/// The tuples of which the tests right behind a choice hold.
pub fn passing(
    alloc: Global,
    slots: &[Option<Shared>],
    item: u32,
    behind: &[Step],
    tuples: &[Shared],
) -> Result<List<Shared>, AllocError>
    ensures { IfOk result (λ pool. pool ≡ filter (passes slots.now item behind.now) tuples.now) }
{
    let mut pool = List::new(alloc);
    for shared in tuples {
        if !passes(slots, item, behind, shared.tuple()) {
            continue;
        }
        pool.push(shared.try_clone(alloc)?)?;
    }
    Ok(pool)
}

/// Those of these tuples of which the tests right behind a choice hold.
pub fn kept(
    slots: &[Option<Shared>],
    item: u32,
    behind: &[Step],
    tuples: List<Shared>,
) -> List<Shared>
    ensures { result ≡ filter (passes slots.now item behind.now) tuples }
{
    let mut pool = tuples.into_vec();
    pool.retain(|shared| passes(slots, item, behind, shared.tuple()));
    List::from_vec(pool)
}

// Whether the tests right behind a choice hold of a tuple.
fn passes(slots: &[Option<Shared>], item: u32, behind: &[Step], tuple: &Tuple) -> bool
    ensures { result ≡ passes slots.now item behind.now tuple.now }
{
    for step in behind {
        match step {
            Step::Test { cond } => {
                if !holds_with(slots, item, tuple, cond) {
                    return false;
                }
            }
            Step::User { .. } => return true,
            Step::Start { .. } => return true,
            Step::Edge { .. } => return true,
            Step::Differ { .. } => return true,
            Step::Pos { .. } => return true,
            Step::Bind { .. } => return true,
            Step::Neg { .. } => return true,
        }
    }
    true
}
