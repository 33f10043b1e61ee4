// Belief paths.
ghost use Rattle.std.specs.Prelude.{◌≡◌, IfOk, IsErrOf, true, false, length};
ghost use Rattle.bdb_base.specs.Alternation.{alternates, begins_otherwise};

use crate::list::{Exact, List};
use std::alloc::{AllocError, Global};
use std::marker::Model;
use thiserror::Error;

/// A belief path: the users, the outermost believer first. No two neighbours are equal; the empty path is the plain
/// content of the database. Contracts see it as the list of its users' numbers.
#[derive(Debug, Drop)]
pub struct Path {
    users: List<u32>,
}

impl Model for Path {
    ghost use Rattle.std.specs.Prelude.{◌≡◌, List, ℕ, true};
    ghost use Rattle.bdb_base.specs.Alternation.{alternates};

    ghost Value = { List ℕ };

    ghost view = { λ p. p.users };

    ghost invariant = { λ p. alternates p.users ≡ true };
}

/// Why a list of users is no path.
#[derive(Clone, Copy, Debug, PartialEq, Eq, Drop, Error)]
pub enum PathError {
    /// Two neighbours are equal.
    #[error("two neighbouring users of a path are equal")]
    Repeat,
    /// There is no memory.
    #[error("out of memory")]
    Memory,
}

impl Path {
    /// The path of these users. `Repeat` comes exactly where two neighbours are equal.
    pub fn try_new(alloc: Global, users: &[u32]) -> Result<Self, PathError>
        ensures ok { IfOk result (λ path. path ≡ users.now) }
        ensures fits { IfOk result (λ path. alternates path ≡ true) }
        ensures repeat { IsErrOf result PathError.Repeat → alternates users.now ≡ false }
        ensures refuses { alternates users.now ≡ false → IsErrOf result PathError.Repeat }
    {
        if !is_alternating(users) {
            return Err(PathError::Repeat);
        }
        match Vec::from_slice(alloc, users) {
            Ok(items) => {
                let users = List::from_vec(items);
                Ok(Path { users })
            }
            Err(_) => Err(PathError::Memory),
        }
    }

    /// The users.
    pub fn as_slice(&self) -> &[u32]
        ensures users { result.now ≡ self.now }
        ensures alternates { alternates self.now ≡ true }
    {
        self.users.as_slice()
    }

    /// How many users the path names.
    pub fn len(&self) -> usize
        ensures { result ≡ length self.now }
    {
        self.users.len()
    }
}

impl Exact for Path {
    fn try_clone(&self, alloc: Global) -> Result<Self, AllocError> {
        let users = self.users.try_clone(alloc)?;
        Ok(Path { users })
    }
}

/// Whether no two neighbours are equal.
pub fn is_alternating(users: &[u32]) -> bool
    ensures { result ≡ alternates users.now }
{
    let mut rest = users;
    while let [first, others @ ..] = rest {
        if !is_otherwise(*first, others) {
            return false;
        }
        rest = others;
    }
    true
}

/// Whether a list does not begin with this user.
fn is_otherwise(user: u32, users: &[u32]) -> bool
    ensures { result ≡ begins_otherwise user users.now }
{
    match users {
        [] => true,
        [first, ..] => user != *first,
    }
}
