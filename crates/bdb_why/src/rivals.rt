// The rivals of a tuple.
ghost use Rattle.std.specs.Prelude.{◌≡◌, true, cond, IfOk, OnOk};
ghost use Rattle.bdb_base.specs.Order.{tuple_cmp};
ghost use Rattle.bdb_base.specs.SortedSet.{ascending, put_in};
ghost use Rattle.bdb_why.specs.Certificates.{is_rival_near, rivals};

use bdb_base::{List, Sign, Stmt, Tuple, clash, path_is_suffix, put_copy};
use std::alloc::{AllocError, Global};

/// The rivals of a tuple: what statements at the path's ends state with plus, another tuple of its relation and key, in
/// order, each once. The relation's keys have the length `n`.
pub fn rivals_of(
    alloc: Global,
    n: u32,
    stmts: &[Stmt],
    path: &[u32],
    t: &Tuple,
) -> Result<List<Tuple>, AllocError>
    ensures { IfOk result (λ tuples. tuples ≡ rivals (λ _. n) stmts.now path.now t.now) }
{
    let mut tuples = List::new(alloc);
    for x in stmts {
        put_rival(alloc, n, &mut tuples, path, t, x)?;
    }
    Ok(tuples)
}

/// Puts a statement's tuple into a set, where the statement makes it a rival.
fn put_rival(
    alloc: Global,
    n: u32,
    tuples: &mut List<Tuple>,
    path: &[u32],
    t: &Tuple,
    x: &Stmt,
) -> Result<(), AllocError>
    requires { ascending tuple_cmp tuples.old ≡ true }
    ensures { OnOk result (tuples.new ≡ cond (is_rival_near (λ _. n) path.now t.now x.now)
        (put_in tuple_cmp tuples.old x.now.tuple) tuples.old) }
{
    if is_rival_near(n, path, t, x) {
        let _added = put_copy(alloc, tuples, &x.tuple)?;
        return Ok(());
    }
    Ok(())
}

/// Whether a statement at an end of the path states with plus another tuple of the relation and key.
pub fn is_rival_near(n: u32, path: &[u32], t: &Tuple, x: &Stmt) -> bool
    ensures { result ≡ is_rival_near (λ _. n) path.now t.now x.now }
{
    path_is_suffix(x.path.as_slice(), path)
        && (x.sign == Sign::Plus && clash(n, t, Sign::Plus, &x.tuple, Sign::Plus))
}
