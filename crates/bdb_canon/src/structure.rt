// The parts of the structure.
use bdb_base::{Exact, List, Path, Sign, Tuple};
use std::alloc::{AllocError, Global};

/// A state, and the place of the state to which its suffix link leads. The empty path has no link.
#[derive(Drop)]
pub struct CanonWorld {
    pub path: Path,
    pub suffix: Option<u32>,
}

/// An edge: from the state at a place, for a user, to the state at a place.
#[derive(Clone, Copy, Debug, PartialEq, Eq, Drop)]
pub struct CanonEdge {
    pub from: u32,
    pub uid: u32,
    pub to: u32,
}

/// A row of the world of the state at a place: the tuple at a place with a sign. It is explicit where it is a statement
/// of the state itself.
#[derive(Clone, Copy, Debug, PartialEq, Eq, Drop)]
pub struct CanonRow {
    pub world: u32,
    pub tuple: u32,
    pub sign: Sign,
    pub explicit: bool,
}

/// The structure. Worlds and tuples are in order; edges come by state and user, rows by world and tuple.
#[derive(Drop)]
pub struct Canon {
    pub worlds: List<CanonWorld>,
    pub tuples: List<Tuple>,
    pub edges: List<CanonEdge>,
    pub rows: List<CanonRow>,
}

impl Exact for CanonWorld {
    fn try_clone(&self, alloc: Global) -> Result<Self, AllocError> {
        let path = self.path.try_clone(alloc)?;
        Ok(CanonWorld {
            path,
            suffix: self.suffix,
        })
    }
}

impl Exact for CanonEdge {
    fn try_clone(&self, alloc: Global) -> Result<Self, AllocError> {
        Ok(*self)
    }
}

impl Exact for CanonRow {
    fn try_clone(&self, alloc: Global) -> Result<Self, AllocError> {
        Ok(*self)
    }
}
