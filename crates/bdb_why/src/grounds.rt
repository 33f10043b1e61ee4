// Grounds, looked for down a path. The statements of each end are found by binary search.
ghost use Rattle.std.specs.Prelude.{◌≡◌, ◌+◌, ◌<◌, ◌^◌, true, length, IfOk};
ghost use Rattle.std.specs.Option.{option_copied};
ghost use Rattle.bdb_base.specs.Order.{statement_cmp};
ghost use Rattle.bdb_base.specs.SortedSet.{ascending};
ghost use Rattle.bdb_base.specs.Worlds.{explicit, least_clash};
ghost use Rattle.bdb_why.specs.Grounds.{ground_from};

use crate::kinds::Ground;
use bdb_base::{Exact, Sign, Stmt, Tuple};
use bdb_model::{at_path, clashing_among, is_explicit};
use std::alloc::{AllocError, Global};

/// The ground of a signed tuple at a path that is at a level of another, where the tuple's relation has keys of the length
/// `n`.
pub fn ground_from(
    alloc: Global,
    n: u32,
    stmts: &[Stmt],
    level: u32,
    path: &[u32],
    t: &Tuple,
    s: Sign,
) -> Result<Ground, AllocError>
    requires sorted { ascending statement_cmp stmts.now ≡ true }
    requires short { level + length path.now < 2 ^ 32 }
    ensures { IfOk result
        (λ reason. reason ≡ ground_from (λ _. n) stmts.now level path.now t.now s) }
{
    if explicit_at(stmts, path, t, s) {
        return Ok(Ground::Found { level });
    }
    match clash_at(n, stmts, path, t, s) {
        Some(x) => {
            let by = x.try_clone(alloc)?;
            Ok(Ground::Blocked { level, by })
        }
        None => match path {
            [] => Ok(Ground::Nowhere),
            [_, rest @ ..] => {
                let reason = ground_from(alloc, n, stmts, level + 1, rest, t, s)?;
                Ok(reason)
            }
        },
    }
}

/// Whether a signed tuple is stated at this very path.
pub fn explicit_at(stmts: &[Stmt], path: &[u32], t: &Tuple, s: Sign) -> bool
    requires { ascending statement_cmp stmts.now ≡ true }
    ensures { result ≡ explicit stmts.now path.now t.now s }
{
    is_explicit(at_path(stmts, path), path, t, s)
}

/// The least statement of this very path with which a signed tuple clashes; none exactly where none does.
pub fn clash_at<'a>(n: u32, stmts: &'a [Stmt], path: &[u32], t: &Tuple, s: Sign) -> Option<&'a Stmt>
    requires { ascending statement_cmp stmts.now ≡ true }
    ensures { option_copied result ≡ least_clash (λ _. n) stmts.now path.now t.now s }
{
    clashing_among(n, at_path(stmts, path), path, t, s)
}
