// Which statement of a path is the first that clashes with another.
ghost use Rattle.std.specs.Prelude.{◌≡◌, ◌&&◌, true};
ghost use Rattle.std.specs.Option.{option_copied};
ghost use Rattle.bdb_base.specs.Bases.{key_lengths};
ghost use Rattle.bdb_base.specs.Changes.{first_clashing};
ghost use Rattle.bdb_base.specs.Order.{statement_cmp};
ghost use Rattle.bdb_base.specs.SortedSet.{ascending};
ghost use Rattle.bdb_base.specs.declared.kinds.Sign.TheVariants.{Plus};
ghost use Rattle.bdb_update.specs.Clashing.{clashes_ahead, clashes_near, first_ahead, is_beside};

use crate::keys::{clash_in, same_key_in};
use bdb_base::{RelDef, Sign, Stmt};

/// The first of these statements, which are in order, at this very path that clashes with another one at it, where these are
/// the relations; none exactly where none does. It compares each plus statement with those of its relation and key that
/// follow it, up to the next plus one, and none twice.
pub fn first_clashing<'a>(rels: &[RelDef], stmts: &'a [Stmt], path: &[u32]) -> Option<&'a Stmt>
    requires { ascending statement_cmp stmts.now ≡ true }
    ensures { option_copied result ≡ first_clashing (key_lengths rels.now) stmts.now path.now }
{
    first_ahead(rels, stmts, path)
}

// The first statement that clashes with one ahead.
fn first_ahead<'a>(rels: &[RelDef], stmts: &'a [Stmt], path: &[u32]) -> Option<&'a Stmt>
    ensures { option_copied result ≡ first_ahead (key_lengths rels.now) stmts.now path.now }
{
    let mut rest = stmts;
    while let [first, others @ ..] = rest {
        if clashes_ahead(rels, path, first, others) {
            return Some(first);
        }
        rest = others;
    }
    None
}

// Whether a statement is one of this very path, plus, and clashes with one of those that follow it, before the first that is
// not near it.
fn clashes_ahead(rels: &[RelDef], path: &[u32], x: &Stmt, others: &[Stmt]) -> bool
    ensures { result ≡ clashes_ahead (key_lengths rels.now) path.now x.now others.now }
{
    x.path.as_slice() == path && (x.sign == Sign::Plus && clashes_near(rels, path, x, others))
}

// Whether a statement clashes with one of these, before the first that is not near it.
fn clashes_near(rels: &[RelDef], path: &[u32], x: &Stmt, others: &[Stmt]) -> bool
    ensures { result ≡ clashes_near (key_lengths rels.now) path.now x.now others.now }
{
    let mut rest = others;
    while let [next, others @ ..] = rest {
        if !is_near(rels, path, x, next) {
            return false;
        }
        if clash_in(rels, &x.tuple, x.sign, &next.tuple, next.sign) {
            return true;
        }
        rest = others;
    }
    false
}

// Whether a statement is one of this very path, of the relation and key of another.
fn is_near(rels: &[RelDef], path: &[u32], x: &Stmt, y: &Stmt) -> bool
    ensures { result ≡ is_beside (key_lengths rels.now) path.now x.now y.now }
{
    y.path.as_slice() == path && same_key_in(rels, &x.tuple, &y.tuple)
}
