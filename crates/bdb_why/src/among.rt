// Certificates from the standing statements.
ghost use Rattle.std.specs.Prelude.{◌≡◌, ◌<◌, ◌^◌, true, length, map, IfOk};
ghost use Rattle.bdb_base.specs.Order.{statement_cmp};
ghost use Rattle.bdb_base.specs.SortedSet.{ascending};
ghost use Rattle.bdb_why.specs.Certificates.{considered, ruled_of, why_of};
ghost use Rattle.bdb_why.specs.Searching.{searched_by};

use crate::grounds::ground_from;
use crate::kinds::{Ruled, Why};
use crate::rivals::rivals_of;
use bdb_base::{Exact, List, Sign, Stmt, Tuple};
use std::alloc::{AllocError, Global};

/// What a look at rivals found.
#[derive(Drop)]
pub enum Searched {
    /// The first rival that the world has.
    Held(Ruled),
    /// The world has none: all rivals, with their grounds.
    Others(List<Ruled>),
}

/// Why a path believes a signed tuple, or doesn't, where these statements stand, and the tuple's relation has keys of the
/// length `n`. The path has less than 2^32 users. The only error is running out of memory.
pub fn why_among(
    alloc: Global,
    n: u32,
    stmts: &[Stmt],
    path: &[u32],
    t: &Tuple,
    s: Sign,
) -> Result<Why, AllocError>
    requires sorted { ascending statement_cmp stmts.now ≡ true }
    requires short { length path.now < 2 ^ 32 }
    ensures { IfOk result (λ y. y ≡ why_of (λ _. n) stmts.now path.now t.now s) }
{
    let own = ground_from(alloc, n, stmts, 0, path, t, s)?;
    if own.is_found() {
        return Ok(Why::Stated { reason: own });
    }
    match look(alloc, n, stmts, path, t, s)? {
        Searched::Held(found) => Ok(Why::Other { found }),
        Searched::Others(others) => Ok(Why::Absent { own, others }),
    }
}

/// What a look at the rivals that count finds.
fn look(
    alloc: Global,
    n: u32,
    stmts: &[Stmt],
    path: &[u32],
    t: &Tuple,
    s: Sign,
) -> Result<Searched, AllocError>
    requires sorted { ascending statement_cmp stmts.now ≡ true }
    requires short { length path.now < 2 ^ 32 }
    ensures { IfOk result
        (λ found. found ≡ searched_by (considered (λ _. n) stmts.now path.now t.now s)) }
{
    match s {
        Sign::Plus => Ok(Searched::Others(List::new(alloc))),
        Sign::Minus => {
            let tuples = rivals_of(alloc, n, stmts, path, t)?;
            let found = look_among(alloc, n, stmts, path, tuples.as_slice())?;
            Ok(found)
        }
    }
}

/// What a look at some rivals finds. It stops at the first that the world has.
fn look_among(
    alloc: Global,
    n: u32,
    stmts: &[Stmt],
    path: &[u32],
    tuples: &[Tuple],
) -> Result<Searched, AllocError>
    requires sorted { ascending statement_cmp stmts.now ≡ true }
    requires short { length path.now < 2 ^ 32 }
    ensures { IfOk result
        (λ found. found ≡ searched_by (map (ruled_of (λ _. n) stmts.now path.now) tuples.now)) }
{
    let mut others = List::new(alloc);
    for tuple in tuples {
        let ruled = ruled_of(alloc, n, stmts, path, tuple)?;
        if ruled.is_held() {
            return Ok(Searched::Held(ruled));
        }
        others.push(ruled)?;
    }
    Ok(Searched::Others(others))
}

/// A rival with its ground.
fn ruled_of(
    alloc: Global,
    n: u32,
    stmts: &[Stmt],
    path: &[u32],
    tuple: &Tuple,
) -> Result<Ruled, AllocError>
    requires sorted { ascending statement_cmp stmts.now ≡ true }
    requires short { length path.now < 2 ^ 32 }
    ensures { IfOk result (λ ruled. ruled ≡ ruled_of (λ _. n) stmts.now path.now tuple.now) }
{
    let reason = ground_from(alloc, n, stmts, 0, path, tuple, Sign::Plus)?;
    let tuple = tuple.try_clone(alloc)?;
    Ok(Ruled { tuple, reason })
}
