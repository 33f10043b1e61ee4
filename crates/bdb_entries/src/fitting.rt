// Whether a statement belongs to a catalog.
ghost use Rattle.std.specs.Prelude.{◌≡◌, ◌&&◌, nat_le, length};
ghost use Rattle.std.specs.List.{list_all};
ghost use Rattle.bdb_base.specs.Alternation.{alternates};
ghost use Rattle.bdb_base.specs.Bases.{belongs, fits_relation, is_user};
ghost use Rattle.bdb_base.specs.Limits.{deepest_statement};

use bdb_base::limits::DEEPEST_STATEMENT;
use bdb_base::{Catalog, Path, RelDef, Stmt, Tuple, UserSlot, is_user};

/// Whether each statement belongs to a catalog.
pub fn all_belong(catalog: &Catalog, stmts: &[Stmt]) -> bool
    ensures { result ≡ list_all (belongs catalog.now) stmts.now }
{
    stmts.iter().all(|stmt| belongs(catalog, stmt))
}

// Whether a statement's path is one of live users of a catalog and not too deep, and its tuple fits its relation.
fn belongs(catalog: &Catalog, stmt: &Stmt) -> bool
    ensures { result ≡ belongs catalog.now stmt.now }
{
    is_path_of(catalog.users.as_slice(), &stmt.path)
        && fits_relation(catalog.rels.as_slice(), &stmt.tuple)
}

// Whether a path is one of live users and not too deep.
fn is_path_of(users: &[UserSlot], path: &Path) -> bool
    ensures { result ≡ (alternates path.now && nat_le (length path.now)
        deepest_statement && list_all (is_user users.now) path.now) }
{
    path.len() <= DEEPEST_STATEMENT && are_users(users, path.as_slice())
}

/// Whether numbers are those of live users.
pub fn are_users(users: &[UserSlot], path: &[u32]) -> bool
    ensures { result ≡ list_all (is_user users.now) path.now }
{
    path.iter().all(|user| is_user(users, *user))
}

// Whether a tuple fits its relation, if there is one of its number: a value for each column, of its kind.
fn fits_relation(rels: &[RelDef], tuple: &Tuple) -> bool
    ensures { result ≡ fits_relation rels.now tuple.now }
{
    bdb_base::fits_relation(rels, tuple.rel, tuple.vals.as_slice())
}
