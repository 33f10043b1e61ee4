// Grounds and certificates.
ghost use Rattle.std.specs.Prelude.{◌≡◌};
ghost use Rattle.bdb_why.specs.Certificates.{is_held, says};
ghost use Rattle.bdb_why.specs.Grounds.{is_found};

use bdb_base::{Exact, List, Stmt, Tuple};
use std::alloc::{AllocError, Global};

/// What decides whether a path's world has a signed tuple. A level is how many of the path's first users are left out.
#[derive(Debug, Drop)]
pub enum Ground {
    /// The signed tuple is stated there, and nothing above blocks it.
    Found { level: u32 },
    /// The least statement there with which it clashes, where it isn't stated there nor above.
    Blocked { level: u32, by: Stmt },
    /// No level states it or anything with which it clashes.
    Nowhere,
}

/// A tuple, and what decides whether the world has it with plus.
#[derive(Debug, Drop)]
pub struct Ruled {
    pub tuple: Tuple,
    pub reason: Ground,
}

/// A certificate: why a path believes a signed tuple, or doesn't.
#[derive(Debug, Drop)]
pub enum Why {
    /// The world has the signed tuple itself.
    Stated { reason: Ground },
    /// The world has another tuple of the relation and key, so the negation is believed.
    Other { found: Ruled },
    /// It isn't believed: its own ground, and for a negation those of all other tuples that count.
    Absent { own: Ground, others: List<Ruled> },
}

impl Ground {
    /// Whether the signed tuple is stated at a level, with nothing above that blocks it.
    pub fn is_found(&self) -> bool
        ensures { result ≡ is_found self.now }
    {
        match self {
            Ground::Found { .. } => true,
            Ground::Blocked { .. } => false,
            Ground::Nowhere => false,
        }
    }
}

impl Ruled {
    /// Whether the world has the tuple with plus, by this ground.
    pub fn is_held(&self) -> bool
        ensures { result ≡ is_held self.now }
    {
        self.reason.is_found()
    }
}

/// Whether a certificate says that the signed tuple is believed.
pub fn says(y: &Why) -> bool
    ensures { result ≡ says y.now }
{
    match y {
        Why::Stated { .. } => true,
        Why::Other { .. } => true,
        Why::Absent { .. } => false,
    }
}

impl Exact for Ground {
    fn try_clone(&self, alloc: Global) -> Result<Self, AllocError> {
        match self {
            Ground::Found { level } => Ok(Ground::Found { level: *level }),
            Ground::Blocked { level, by } => Ok(Ground::Blocked {
                level: *level,
                by: by.try_clone(alloc)?,
            }),
            Ground::Nowhere => Ok(Ground::Nowhere),
        }
    }
}

impl Exact for Ruled {
    fn try_clone(&self, alloc: Global) -> Result<Self, AllocError> {
        let tuple = self.tuple.try_clone(alloc)?;
        let reason = self.reason.try_clone(alloc)?;
        Ok(Ruled { tuple, reason })
    }
}
