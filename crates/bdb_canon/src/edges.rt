// The edges of the states.
ghost use Rattle.std.specs.Prelude.{◌≡◌, ◌++◌, IfOk, OnOk};
ghost use Rattle.std.specs.List.{flat_map};
ghost use Rattle.bdb_base.specs.Order.{path_cmp};
ghost use Rattle.bdb_base.specs.SortedSet.{is_member};
ghost use Rattle.bdb_base.specs.States.{edge_target};
ghost use Rattle.bdb_paths.specs.Places.{place_in};
ghost use Rattle.bdb_canon.specs.Canonical.{AreStates, edges_at, edges_from};

use crate::places::target_place;
use crate::structure::CanonEdge;
use bdb_base::{List, Path, path_is_suffix};
use std::alloc::{AllocError, Global};

/// The edges of the states, by place and user.
pub fn edges_of(
    alloc: Global,
    users: &[u32],
    states: &[Path],
) -> Result<List<CanonEdge>, AllocError>
    requires { AreStates states.now }
    ensures { IfOk result (λ edges. edges ≡ flat_map (edges_from users.now states.now) states.now) }
{
    let mut edges = List::new(alloc);
    for (at, path) in states.iter().enumerate() {
        push_edges(alloc, &mut edges, users, states, at as u32, path.as_slice())?;
    }
    Ok(edges)
}

/// Adds the edges of the state at a place.
fn push_edges(
    alloc: Global,
    edges: &mut List<CanonEdge>,
    users: &[u32],
    states: &[Path],
    from: u32,
    path: &[u32],
) -> Result<(), AllocError>
    requires states { AreStates states.now }
    requires place { from ≡ place_in path_cmp states.now path.now }
    ensures { OnOk result (edges.new ≡ edges.old ++ edges_from users.now states.now path.now) }
{
    for uid in users {
        push_edge(alloc, edges, states, from, path, *uid)?;
    }
    Ok(())
}

/// Adds the edge of the state at a place for a user, unless the user is the state's last.
fn push_edge(
    alloc: Global,
    edges: &mut List<CanonEdge>,
    states: &[Path],
    from: u32,
    path: &[u32],
    uid: u32,
) -> Result<(), AllocError>
    requires states { AreStates states.now }
    requires place { from ≡ place_in path_cmp states.now path.now }
    ensures { OnOk result (edges.new ≡ edges.old ++ edges_at states.now path.now uid) }
{
    if path_is_suffix(&[uid], path) {
        return Ok(());
    }
    let to = edge_place(alloc, states, path, uid)?;
    edges.push(CanonEdge { from, uid, to })?;
    Ok(())
}

/// The place to which the edge of a state for a user leads.
fn edge_place(alloc: Global, states: &[Path], path: &[u32], uid: u32) -> Result<u32, AllocError>
    requires { AreStates states.now }
    ensures { IfOk result
        (λ to. to ≡ place_in path_cmp states.now
        (edge_target (is_member path_cmp states.now) path.now uid)) }
{
    let mut longer = Vec::from_slice(alloc, path)?;
    longer.push(uid)?;
    Ok(target_place(states, longer.as_slice()))
}
