//! What a change did to a base.
ghost use Rattle.std.specs.Prelude.{◌≡◌, true, IfOk};
ghost use Rattle.bdb_base.specs.SortedSet.{ascending};
ghost use Rattle.bdb_base.specs.Order.{statement_cmp};
ghost use Rattle.bdb_undo.specs.Changes.{alters, missing_from, names_something};

use bdb_base::{Exact, List, RelDef, Stmt, Txt, contains};
use std::alloc::{AllocError, Global};

/// What a change did to the catalog.
#[derive(Drop)]
pub enum Named {
    /// The catalog stayed as it was.
    Nothing,
    /// A user of this name was added, behind the others.
    UserAdded { name: Txt },
    /// A relation of this definition was added, behind the others.
    RelationAdded { def: RelDef },
    /// The user of this number left, who had this name.
    UserDropped { uid: u32, name: Txt },
}

/// What a change did to a base: the user or the relation that it added, or the user who left, and the statements that went and
/// those that came, each in order.
#[derive(Drop)]
pub struct Change {
    pub named: Named,
    pub gone: List<Stmt>,
    pub come: List<Stmt>,
}

impl Named {
    /// Whether a user or a relation was added, or a user left.
    fn is_something(&self) -> bool
        ensures { result ≡ names_something self.now }
    {
        match self {
            Named::Nothing => false,
            Named::UserAdded { name: _ } => true,
            Named::RelationAdded { def: _ } => true,
            Named::UserDropped { uid: _, name: _ } => true,
        }
    }
}

impl Change {
    /// Whether the change alters its base at all. A change that alters nothing isn't noted: an undo would lead to the same
    /// base.
    pub fn alters(&self) -> bool
        ensures { result ≡ alters self.now }
    {
        self.named.is_something() || (!self.gone.is_empty() || !self.come.is_empty())
    }
}

/// The statements that do not stand among others, which are in order: those that went, or those that came, where one list
/// takes the place of the other. The only error is running out of memory.
pub fn missing_from(
    alloc: Global,
    others: &[Stmt],
    stmts: &[Stmt],
) -> Result<List<Stmt>, AllocError>
    requires { ascending statement_cmp others.now ≡ true }
    ensures { IfOk result (λ xs. xs ≡ missing_from others.now stmts.now) }
{
    let mut missing = List::new(alloc);
    for stmt in stmts {
        if !contains(others, stmt) {
            missing.push(stmt.try_clone(alloc)?)?;
        }
    }
    Ok(missing)
}
