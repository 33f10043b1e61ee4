// Whether the structure has too many lines to be told.
ghost use Rattle.std.specs.Prelude.{◌≡◌, ◌+◌, true, nat_lt, sum_by, IfOk};
ghost use Rattle.bdb_base.specs.Bases.{key_lengths};
ghost use Rattle.bdb_base.specs.Order.{statement_cmp};
ghost use Rattle.bdb_base.specs.SortedSet.{ascending};
ghost use Rattle.bdb_canon.specs.Canonical.{canon_of, edge_count, left_after, line_count, row_count};

use crate::structure::Canon;
use crate::users::{user_count, user_numbers};
use bdb_base::{Base, Catalog, Path, RelDef, Stmt, path_is_suffix, tuples_of};
use bdb_model::world_among;
use bdb_paths::states_of;
use std::alloc::{AllocError, Global};

/// Whether a base's structure has more than so many lines. It is decided before edges and rows are built: the edges are
/// counted, and the rows world by world, up to the first one that is too many.
pub fn has_more_lines(alloc: Global, base: &Base, most: usize) -> Result<bool, AllocError>
    ensures { IfOk result
        (λ more. more ≡ nat_lt most (line_count base.now.catalog (canon_of base.now))) }
{
    let catalog = base.catalog();
    let rels = catalog.rels.as_slice();
    let stmts = base.stmts();
    let users = user_numbers(alloc, catalog.users.as_slice())?;
    let tuples = tuples_of(alloc, stmts)?;
    let states = states_of(alloc, stmts)?;
    let head = users.len() + catalog.rels.len() + tuples.len() + states.len();
    if most < head {
        return Ok(true);
    }
    let more = has_more_parts(
        alloc,
        users.as_slice(),
        rels,
        stmts,
        states.as_slice(),
        most - head,
    )?;
    Ok(more)
}

/// Whether states have more edges and rows than so many.
fn has_more_parts(
    alloc: Global,
    users: &[u32],
    rels: &[RelDef],
    stmts: &[Stmt],
    states: &[Path],
    most: usize,
) -> Result<bool, AllocError>
    requires { ascending statement_cmp stmts.now ≡ true }
    ensures { IfOk result
        (λ more. more ≡ nat_lt most
        (sum_by (edge_count users.now) states.now + sum_by
        (row_count (key_lengths rels.now) stmts.now) states.now)) }
{
    match left_after_edges(users, states, most) {
        None => Ok(true),
        Some(left) => {
            let rest = left_after_rows(alloc, rels, stmts, states, left)?;
            Ok(rest.is_none())
        }
    }
}

/// How many lines tell a structure.
pub fn line_count(catalog: &Catalog, canon: &Canon) -> usize
    ensures { result ≡ line_count catalog.now canon.now }
{
    let users = user_count(catalog.users.as_slice());
    let rels = catalog.rels.as_slice();
    let tuples = canon.tuples.as_slice();
    let worlds = canon.worlds.as_slice();
    let edges = canon.edges.as_slice();
    let rows = canon.rows.as_slice();
    users + rels.len() + tuples.len() + worlds.len() + edges.len() + rows.len()
}

/// What the edges of states leave of a number; none where they are more.
fn left_after_edges(users: &[u32], states: &[Path], most: usize) -> Option<usize>
    ensures { result ≡ left_after most (sum_by (edge_count users.now) states.now) }
{
    let mut left = most;
    for path in states {
        let count = edge_count(users, path.as_slice());
        if left < count {
            return None;
        }
        left -= count;
    }
    Some(left)
}

/// What the rows of states' worlds leave of a number; none where they are more.
fn left_after_rows(
    alloc: Global,
    rels: &[RelDef],
    stmts: &[Stmt],
    states: &[Path],
    most: usize,
) -> Result<Option<usize>, AllocError>
    requires { ascending statement_cmp stmts.now ≡ true }
    ensures { IfOk result
        (λ left. left ≡ left_after most
        (sum_by (row_count (key_lengths rels.now) stmts.now) states.now)) }
{
    let mut left = most;
    for path in states {
        let world = world_among(alloc, rels, stmts, path.as_slice())?;
        let count = world.held.len();
        if left < count {
            return Ok(None);
        }
        left -= count;
    }
    Ok(Some(left))
}

/// How many edges a state has.
fn edge_count(users: &[u32], path: &[u32]) -> usize
    ensures { result ≡ edge_count users.now path.now }
{
    users
        .iter()
        .filter(|uid| !path_is_suffix(&[**uid], path))
        .count()
}
