// The statements of a path that clash with each other.
ghost use Rattle.std.specs.Prelude.{◌≡◌, true};
ghost use Rattle.std.specs.Option.{option_copied};
ghost use Rattle.bdb_base.specs.Bases.{key_lengths};
ghost use Rattle.bdb_base.specs.Changes.{first_clashing};
ghost use Rattle.bdb_base.specs.Clash.{clash};
ghost use Rattle.bdb_base.specs.Order.{statement_cmp};
ghost use Rattle.bdb_base.specs.SortedSet.{ascending};
ghost use Rattle.bdb_model.specs.Clashes.{clashes_after, last_plus};

use crate::beliefs::is_at;
use crate::keys::key_length_of;
use bdb_base::{RelDef, Sign, Stmt, Tuple, clash};

/// The first of these statements at this very path that clashes with another one at it; none exactly where none does.
/// In order, statements of one relation and key stand side by side: one that clashes with an earlier one clashes with
/// the last plus statement before it.
pub fn first_clashing_among<'a>(
    rels: &[RelDef],
    stmts: &'a [Stmt],
    path: &[u32],
) -> Option<&'a Stmt>
    requires { ascending statement_cmp stmts.now ≡ true }
    ensures { option_copied result ≡ first_clashing (key_lengths rels.now) stmts.now path.now }
{
    let mut last = None;
    for x in stmts {
        if clashes_after(rels, last, x, path) {
            return last;
        }
        last = last_plus(last, x, path);
    }
    None
}

/// Whether a statement of this very path clashes with one that came before it.
fn clashes_after(rels: &[RelDef], before: Option<&Stmt>, x: &Stmt, path: &[u32]) -> bool
    ensures { result ≡ clashes_after (key_lengths rels.now) path.now (option_copied before.entry)
        x.now }
{
    match before {
        Some(y) => is_at(x, path) && clash_in(rels, &y.tuple, y.sign, &x.tuple, x.sign),
        None => false,
    }
}

/// Whether two signed tuples clash, where these are the relations.
fn clash_in(rels: &[RelDef], a: &Tuple, s: Sign, b: &Tuple, t: Sign) -> bool
    ensures { result ≡ clash (key_lengths rels.now) a.now s b.now t }
{
    clash(key_length_of(rels, a), a, s, b, t)
}

/// The last plus statement of this very path, once a statement came.
fn last_plus<'a>(last: Option<&'a Stmt>, x: &'a Stmt, path: &[u32]) -> Option<&'a Stmt>
    ensures { option_copied result ≡ last_plus path.now (option_copied last.entry) x.now }
{
    if is_at(x, path) && x.sign == Sign::Plus {
        Some(x)
    } else {
        last
    }
}
