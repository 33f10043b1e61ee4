// How many worlds a statement would add.
ghost use Rattle.std.specs.Prelude.{◌≡◌, ◌≤◌, length};
ghost use Rattle.bdb_base.specs.States.{new_states};
ghost use Rattle.bdb_paths.specs.Shared.{shared_length, stated_length};

use bdb_base::Stmt;

/// How many worlds an insert at a path adds: the prefixes of the path that are no states yet. It takes no memory, and
/// goes over the statements once, up to the first whose path goes on from this one.
#[tactic(auto, using(crate::proofs::SharedLemmas::new_states_by_length))]
pub fn new_state_count(stmts: &[Stmt], path: &[u32]) -> usize
    ensures { result ≡ length (new_states stmts.now path.now) }
{
    path.len() - stated_length(stmts, path)
}

/// How many users of a path are those of the longest prefix that is a state.
fn stated_length(stmts: &[Stmt], path: &[u32]) -> usize
    ensures value { result ≡ stated_length stmts.now path.now }
    ensures within { result ≤ length path.now }
{
    let mut most = 0;
    for x in stmts {
        let shared = shared_length(path, x.path.as_slice());
        if shared == path.len() {
            return shared;
        }
        most = most.max(shared);
    }
    most
}

/// How many users two paths share at their beginnings.
fn shared_length(a: &[u32], b: &[u32]) -> usize
    ensures value { result ≡ shared_length a.now b.now }
    ensures within { result ≤ length a.now }
{
    let mut count = 0;
    let mut rest = b;
    for x in a {
        match rest {
            [y, others @ ..] if x == y => rest = others,
            _ => return count,
        }
        count += 1;
    }
    count
}
