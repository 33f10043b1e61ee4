// The statements that go where a user leaves: those whose path names him.
ghost use Rattle.std.specs.Prelude.{◌≡◌, length};
ghost use Rattle.bdb_base.specs.Changes.{names_user, statements_naming, without_statements_of};

use crate::kinds::Stmt;
use crate::list::List;

/// Whether a path names a user.
pub fn names_user(uid: u32, path: &[u32]) -> bool
    ensures { result ≡ names_user uid path.now }
{
    path.iter().any(|user| *user == uid)
}

/// How many statements have a path that names a user.
pub fn count_naming(stmts: &[Stmt], uid: u32) -> usize
    ensures { result ≡ length (statements_naming uid stmts.now) }
{
    stmts.iter().filter(|stmt| is_of(uid, stmt)).count()
}

/// Takes the statements away whose path names a user.
pub fn drop_naming(stmts: &mut List<Stmt>, uid: u32)
    ensures { stmts.new ≡ without_statements_of uid stmts.old }
{
    stmts.retain(|stmt| !is_of(uid, stmt));
}

// Whether a statement's path names a user.
fn is_of(uid: u32, stmt: &Stmt) -> bool
    ensures { result ≡ names_user uid stmt.now.path }
{
    names_user(uid, stmt.path.as_slice())
}
