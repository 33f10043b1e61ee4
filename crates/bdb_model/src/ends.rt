// The statements at the ends of a path, found by binary search.
ghost use Rattle.std.specs.Prelude.{◌≡◌, ◌++◌, true, filter, IfOk, OnOk};
ghost use Rattle.bdb_base.specs.Order.{statement_cmp};
ghost use Rattle.bdb_base.specs.Same.{same_path};
ghost use Rattle.bdb_base.specs.Segments.{is_suffix};
ghost use Rattle.bdb_base.specs.SortedSet.{ascending};
ghost use Rattle.bdb_model.specs.Ends.{IsFirstAt, WorldsDependOnEnds, path_is_before};

use crate::beliefs::is_at;
use bdb_base::{Exact, List, Stmt, cmp_path};
use std::alloc::{AllocError, Global};
use std::cmp::Ordering;

/// A world depends on the statements at the path's ends alone.
#[tactic(auto, using(crate::proofs::EndLemmas::worlds_depend_on_ends))]
pub fn worlds_depend_on_ends()
    ensures { WorldsDependOnEnds }
{}

/// The statements whose paths are ends of a path, in order. Those of each end stand side by side, and are found by
/// binary search.
pub fn at_ends(alloc: Global, stmts: &[Stmt], path: &[u32]) -> Result<List<Stmt>, AllocError>
    requires { ascending statement_cmp stmts.now ≡ true }
    ensures { IfOk result (λ near. near ≡ filter (λ x. is_suffix x.path path.now) stmts.now) }
{
    let mut near = List::new(alloc);
    push_at_ends(alloc, &mut near, stmts, path)?;
    Ok(near)
}

/// Adds the statements at the ends of a path, those of the shortest end first.
fn push_at_ends(
    alloc: Global,
    near: &mut List<Stmt>,
    stmts: &[Stmt],
    path: &[u32],
) -> Result<(), AllocError>
    requires { ascending statement_cmp stmts.now ≡ true }
    ensures { OnOk result
        (near.new ≡ near.old ++ filter (λ x. is_suffix x.path path.now) stmts.now) }
{
    match path {
        [] => {
            push_copies(alloc, near, at_path(stmts, path))?;
            Ok(())
        }
        [_, rest @ ..] => {
            push_at_ends(alloc, near, stmts, rest)?;
            push_copies(alloc, near, at_path(stmts, path))?;
            Ok(())
        }
    }
}

fn push_copies(alloc: Global, near: &mut List<Stmt>, stmts: &[Stmt]) -> Result<(), AllocError>
    ensures { OnOk result (near.new ≡ near.old ++ stmts.now) }
{
    for x in stmts {
        near.push(x.try_clone(alloc)?)?;
    }
    Ok(())
}

/// The statements of this very path. The first one is found by binary search, and no other is looked at than those of the path
/// and the one behind them.
pub fn at_path<'a>(stmts: &'a [Stmt], path: &[u32]) -> &'a [Stmt]
    requires { ascending statement_cmp stmts.now ≡ true }
    ensures { result.now ≡ filter (λ x. same_path x.path path.now) stmts.now }
{
    let first = first_at(stmts, path);
    let rest = &stmts[first..];
    for (count, x) in rest.iter().enumerate() {
        if !is_at(x, path) {
            return &rest[..count];
        }
    }
    rest
}

/// The first place whose statement's path does not come before a path, by binary search; the length where there is none.
fn first_at(stmts: &[Stmt], path: &[u32]) -> usize
    requires { ascending statement_cmp stmts.now ≡ true }
    ensures { IsFirstAt stmts.now path.now result }
{
    let mut low = 0;
    let mut high = stmts.len();
    while low < high {
        let mid = low + (high - low) / 2;
        if is_before(&stmts[mid], path) {
            low = mid + 1;
        } else {
            high = mid;
        }
    }
    low
}

fn is_before(x: &Stmt, path: &[u32]) -> bool
    ensures { result ≡ path_is_before path.now x.now }
{
    cmp_path(x.path.as_slice(), path) == Ordering::Less
}
