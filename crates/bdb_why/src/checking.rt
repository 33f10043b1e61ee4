// The checker of certificates. It reads the standing statements alone and takes no memory.
ghost use Rattle.std.specs.Prelude.{◌≡◌, ◌+◌, ◌<◌, ◌^◌, true, length, IsTrue};
ghost use Rattle.std.specs.Bool.{Decides};
ghost use Rattle.std.specs.List.{list_any, list_all};
ghost use Rattle.std.specs.Ordering.{is_lt};
ghost use Rattle.bdb_base.specs.Bases.{key_lengths};
ghost use Rattle.bdb_base.specs.Order.{statement_cmp};
ghost use Rattle.bdb_base.specs.Same.{same_statement};
ghost use Rattle.bdb_base.specs.SortedSet.{ascending};
ghost use Rattle.bdb_base.specs.Worlds.{believes};
ghost use Rattle.bdb_why.specs.declared.kinds.Ground.TheVariants.{Found, Blocked, Nowhere};
ghost use Rattle.bdb_why.specs.Accepting.{accepts, are_considered, is_among, is_covered, is_ground, is_ruled, makes_rival, refutes, ruled_cmp, same_ground};
ghost use Rattle.bdb_why.specs.Certificates.{is_held, says, why_of};
ghost use Rattle.bdb_why.specs.Grounds.{ground_from};

use crate::grounds::{clash_at, explicit_at};
use crate::kinds::{Ground, Ruled, Why};
use crate::rivals::is_rival_near;
use bdb_base::{Base, Sign, Stmt, Tuple, clash, cmp_tuple, same_tuple};
use bdb_model::{key_length_in, stated_among};

/// Whether a certificate is that of a signed tuple at a path. Where it is, it says what the path believes. It takes no
/// memory.
pub fn check_why(base: &Base, path: &[u32], t: &Tuple, s: Sign, y: &Why) -> bool
    requires { length path.now < 2 ^ 32 }
    ensures exact { Decides result
        (y.now ≡ why_of (key_lengths base.now.catalog.rels) base.now.stmts path.now t.now s) }
    ensures belief { IsTrue result → says y.now ≡ believes (key_lengths base.now.catalog.rels)
        base.now.stmts path.now t.now s }
{
    check_why_among(key_length_in(base, t), base.stmts(), path, t, s, y)
}

/// Whether a certificate is right, where these statements stand, and the tuple's relation has keys of the length `n`.
pub fn check_why_among(n: u32, stmts: &[Stmt], path: &[u32], t: &Tuple, s: Sign, y: &Why) -> bool
    requires sorted { ascending statement_cmp stmts.now ≡ true }
    requires short { length path.now < 2 ^ 32 }
    ensures { result ≡ accepts (λ _. n) stmts.now path.now t.now s y.now }
{
    match y {
        Why::Stated { reason } => reason.is_found() && is_ground(n, stmts, path, t, s, reason),
        Why::Other { found } => refutes(n, stmts, path, t, s, found),
        Why::Absent { own, others } => {
            !own.is_found()
                && (is_ground(n, stmts, path, t, s, own)
                    && (!is_any_held(others.as_slice())
                        && are_considered(n, stmts, path, t, s, others.as_slice())))
        }
    }
}

/// Whether a rival refutes a tuple whose negation isn't stated itself.
fn refutes(n: u32, stmts: &[Stmt], path: &[u32], t: &Tuple, s: Sign, r: &Ruled) -> bool
    requires sorted { ascending statement_cmp stmts.now ≡ true }
    requires short { length path.now < 2 ^ 32 }
    ensures { result ≡ refutes (λ _. n) stmts.now path.now t.now s r.now }
{
    match s {
        Sign::Plus => false,
        Sign::Minus => {
            clash(n, t, Sign::Plus, &r.tuple, Sign::Plus)
                && (r.is_held()
                    && (is_ground(n, stmts, path, &r.tuple, Sign::Plus, &r.reason)
                        && !stated_among(n, stmts, path, t, Sign::Minus)))
        }
    }
}

/// Whether the rivals given are those that count, in order, each with its ground.
fn are_considered(
    n: u32,
    stmts: &[Stmt],
    path: &[u32],
    t: &Tuple,
    s: Sign,
    others: &[Ruled],
) -> bool
    requires sorted { ascending statement_cmp stmts.now ≡ true }
    requires short { length path.now < 2 ^ 32 }
    ensures { result ≡ are_considered (λ _. n) stmts.now path.now t.now s others.now }
{
    match s {
        Sign::Plus => others.len() == 0,
        Sign::Minus => {
            are_ascending(others)
                && (are_ruled(n, stmts, path, t, others) && are_covered(n, stmts, path, t, others))
        }
    }
}

fn is_any_held(others: &[Ruled]) -> bool
    ensures { result ≡ list_any is_held others.now }
{
    others.iter().any(|r| r.is_held())
}

/// Whether each rival's tuple is below all later ones.
fn are_ascending(others: &[Ruled]) -> bool
    ensures { result ≡ ascending ruled_cmp others.now }
{
    match others {
        [] => true,
        [first, rest @ ..] => is_below_all(first, rest) && are_ascending(rest),
    }
}

fn is_below_all(r: &Ruled, rest: &[Ruled]) -> bool
    ensures { result ≡ list_all (λ x. is_lt (ruled_cmp r.now x)) rest.now }
{
    rest.iter().all(|x| is_below(r, x))
}

fn is_below(a: &Ruled, b: &Ruled) -> bool
    ensures { result ≡ is_lt (ruled_cmp a.now b.now) }
{
    cmp_tuple(&a.tuple, &b.tuple).is_lt()
}

fn are_ruled(n: u32, stmts: &[Stmt], path: &[u32], t: &Tuple, others: &[Ruled]) -> bool
    requires sorted { ascending statement_cmp stmts.now ≡ true }
    requires short { length path.now < 2 ^ 32 }
    ensures { result ≡ list_all (is_ruled (λ _. n) stmts.now path.now t.now) others.now }
{
    others.iter().all(|r| is_ruled(n, stmts, path, t, r))
}

/// Whether some statement makes this tuple a rival, and its ground is the one given.
fn is_ruled(n: u32, stmts: &[Stmt], path: &[u32], t: &Tuple, r: &Ruled) -> bool
    requires sorted { ascending statement_cmp stmts.now ≡ true }
    requires short { length path.now < 2 ^ 32 }
    ensures { result ≡ is_ruled (λ _. n) stmts.now path.now t.now r.now }
{
    is_made_rival(n, stmts, path, t, &r.tuple)
        && is_ground(n, stmts, path, &r.tuple, Sign::Plus, &r.reason)
}

fn is_made_rival(n: u32, stmts: &[Stmt], path: &[u32], t: &Tuple, u: &Tuple) -> bool
    ensures { result ≡ list_any (makes_rival (λ _. n) path.now t.now u.now) stmts.now }
{
    stmts.iter().any(|x| makes_rival(n, path, t, u, x))
}

fn makes_rival(n: u32, path: &[u32], t: &Tuple, u: &Tuple, x: &Stmt) -> bool
    ensures { result ≡ makes_rival (λ _. n) path.now t.now u.now x.now }
{
    is_rival_near(n, path, t, x) && same_tuple(&x.tuple, u)
}

fn are_covered(n: u32, stmts: &[Stmt], path: &[u32], t: &Tuple, others: &[Ruled]) -> bool
    ensures { result ≡ list_all (is_covered (λ _. n) path.now t.now others.now) stmts.now }
{
    stmts.iter().all(|x| is_covered(n, path, t, others, x))
}

/// Whether, where a statement makes its tuple a rival, the tuple is among those given.
fn is_covered(n: u32, path: &[u32], t: &Tuple, others: &[Ruled], x: &Stmt) -> bool
    ensures { result ≡ is_covered (λ _. n) path.now t.now others.now x.now }
{
    !is_rival_near(n, path, t, x) || is_among(others, &x.tuple)
}

fn is_among(others: &[Ruled], u: &Tuple) -> bool
    ensures { result ≡ is_among others.now u.now }
{
    others.iter().any(|r| same_tuple(&r.tuple, u))
}

/// Whether a ground is that of a signed tuple at a path.
fn is_ground(n: u32, stmts: &[Stmt], path: &[u32], t: &Tuple, s: Sign, reason: &Ground) -> bool
    requires sorted { ascending statement_cmp stmts.now ≡ true }
    requires short { length path.now < 2 ^ 32 }
    ensures { result ≡ is_ground (λ _. n) stmts.now path.now t.now s reason.now }
{
    is_ground_from(n, stmts, 0, path, t, s, reason)
}

/// Goes down the path, which is at a level of another, to where something decides.
fn is_ground_from(
    n: u32,
    stmts: &[Stmt],
    level: u32,
    path: &[u32],
    t: &Tuple,
    s: Sign,
    reason: &Ground,
) -> bool
    requires sorted { ascending statement_cmp stmts.now ≡ true }
    requires short { level + length path.now < 2 ^ 32 }
    ensures { result ≡ same_ground reason.now
        (ground_from (λ _. n) stmts.now level path.now t.now s) }
{
    if explicit_at(stmts, path, t, s) {
        return is_found_at(reason, level);
    }
    match clash_at(n, stmts, path, t, s) {
        Some(x) => is_blocked_at(reason, level, x),
        None => match path {
            [] => is_nowhere(reason),
            [_, rest @ ..] => is_ground_from(n, stmts, level + 1, rest, t, s, reason),
        },
    }
}

fn is_found_at(reason: &Ground, level: u32) -> bool
    ensures { result ≡ same_ground reason.now (Found level) }
{
    match reason {
        Ground::Found { level: found } => *found == level,
        Ground::Blocked { .. } => false,
        Ground::Nowhere => false,
    }
}

fn is_blocked_at(reason: &Ground, level: u32, x: &Stmt) -> bool
    ensures { result ≡ same_ground reason.now (Blocked level x.now) }
{
    match reason {
        Ground::Found { .. } => false,
        Ground::Blocked { level: found, by } => *found == level && is_same_statement(by, x),
        Ground::Nowhere => false,
    }
}

fn is_nowhere(reason: &Ground) -> bool
    ensures { result ≡ same_ground reason.now Nowhere }
{
    match reason {
        Ground::Found { .. } => false,
        Ground::Blocked { .. } => false,
        Ground::Nowhere => true,
    }
}

fn is_same_statement(a: &Stmt, b: &Stmt) -> bool
    ensures { result ≡ same_statement a.now b.now }
{
    a.path.as_slice() == b.path.as_slice() && (same_tuple(&a.tuple, &b.tuple) && a.sign == b.sign)
}
