// What a path's world has, what the path believes, and what an insert would clash with.
ghost use Rattle.std.specs.Prelude.{◌≡◌};
ghost use Rattle.std.specs.Option.{option_copied};
ghost use Rattle.bdb_base.specs.Same.{same_path};
ghost use Rattle.bdb_base.specs.Worlds.{explicit, contradicted, stated, believes, least_clash};
ghost use Rattle.bdb_model.specs.Parts.{states, clashes_here, is_rival, has_rival};

use bdb_base::{Sign, Stmt, Tuple, clash, same_tuple};

/// Whether the world of a path has a signed tuple, where these statements stand, and the tuple's relation has keys of the
/// length `n`.
pub fn stated_among(n: u32, stmts: &[Stmt], path: &[u32], t: &Tuple, s: Sign) -> bool
    ensures { result ≡ stated (λ _. n) stmts.now path.now t.now s }
{
    match path {
        [] => is_explicit(stmts, path, t, s),
        [_, rest @ ..] => {
            is_explicit(stmts, path, t, s)
                || (stated_among(n, stmts, rest, t, s) && !is_contradicted(n, stmts, path, t, s))
        }
    }
}

/// Whether a path believes a tuple, or with minus its negation, where these statements stand, and the tuple's relation has
/// keys of the length `n`.
pub fn believes_among(n: u32, stmts: &[Stmt], path: &[u32], t: &Tuple, s: Sign) -> bool
    ensures { result ≡ believes (λ _. n) stmts.now path.now t.now s }
{
    match s {
        Sign::Plus => stated_among(n, stmts, path, t, s),
        Sign::Minus => stated_among(n, stmts, path, t, s) || has_rival(n, stmts, path, t),
    }
}

/// The least of these statements at this very path with which a signed tuple clashes, where its relation has keys of the
/// length `n`; none exactly where none does.
pub fn clashing_among<'a>(
    n: u32,
    stmts: &'a [Stmt],
    path: &[u32],
    t: &Tuple,
    s: Sign,
) -> Option<&'a Stmt>
    ensures { option_copied result ≡ least_clash (λ _. n) stmts.now path.now t.now s }
{
    stmts.iter().find(|x| clashes_here(n, x, path, t, s))
}

/// Whether a signed tuple is stated at this very path.
pub fn is_explicit(stmts: &[Stmt], path: &[u32], t: &Tuple, s: Sign) -> bool
    ensures { result ≡ explicit stmts.now path.now t.now s }
{
    stmts.iter().any(|x| states(x, path, t, s))
}

/// Whether a signed tuple clashes with a statement of this very path.
pub fn is_contradicted(n: u32, stmts: &[Stmt], path: &[u32], t: &Tuple, s: Sign) -> bool
    ensures { result ≡ contradicted (λ _. n) stmts.now path.now t.now s }
{
    stmts.iter().any(|x| clashes_here(n, x, path, t, s))
}

fn states(x: &Stmt, path: &[u32], t: &Tuple, s: Sign) -> bool
    ensures { result ≡ states x.now path.now t.now s }
{
    is_at(x, path) && same_tuple(&x.tuple, t) && x.sign == s
}

fn clashes_here(n: u32, x: &Stmt, path: &[u32], t: &Tuple, s: Sign) -> bool
    ensures { result ≡ clashes_here (λ _. n) x.now path.now t.now s }
{
    is_at(x, path) && clash(n, t, s, &x.tuple, x.sign)
}

fn has_rival(n: u32, stmts: &[Stmt], path: &[u32], t: &Tuple) -> bool
    ensures { result ≡ has_rival (λ _. n) stmts.now path.now t.now }
{
    stmts.iter().any(|x| is_rival(n, stmts, path, t, x))
}

fn is_rival(n: u32, stmts: &[Stmt], path: &[u32], t: &Tuple, x: &Stmt) -> bool
    ensures { result ≡ is_rival (λ _. n) stmts.now path.now t.now x.now }
{
    clash(n, t, Sign::Plus, &x.tuple, Sign::Plus)
        && stated_among(n, stmts, path, &x.tuple, Sign::Plus)
}

/// Whether a statement is at this very path.
pub fn is_at(x: &Stmt, path: &[u32]) -> bool
    ensures { result ≡ same_path x.now.path path.now }
{
    x.path.as_slice() == path
}
