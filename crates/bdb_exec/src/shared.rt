// Tuples that several places hold.
ghost use Rattle.std.specs.Prelude.{◌≡◌, IfOk};

use bdb_base::{Exact, Tuple};
use std::alloc::{AllocError, Global};
use std::marker::Model;
use std::rc::Rc;

/// A tuple that several places may hold: one more of them takes no memory.
#[derive(Drop)]
pub struct Shared {
    tuple: Rc<Tuple>,
}

impl Model for Shared {
    ghost use Rattle.bdb_base.specs.TupleFields.{Fields};

    ghost Value = { Fields };

    ghost view = { λ s. s.tuple.value };
}

impl Shared {
    /// A tuple that one place holds.
    pub fn new(alloc: Global, tuple: Tuple) -> Result<Self, AllocError>
        ensures { IfOk result (λ s. s ≡ tuple) }
    {
        match Rc::new(alloc, tuple) {
            Ok(tuple) => Ok(Shared { tuple }),
            Err(_) => Err(AllocError),
        }
    }

    /// The tuple.
    pub fn tuple(&self) -> &Tuple
        ensures { result.now ≡ self.now }
    {
        self.tuple.as_ref()
    }

    /// The tuple itself, or a copy where others hold it.
    pub fn into_tuple(self, alloc: Global) -> Result<Tuple, AllocError>
        ensures { IfOk result (λ t. t ≡ self) }
    {
        let Shared { tuple } = self;
        match Rc::try_unwrap(tuple) {
            Ok(tuple) => Ok(tuple),
            Err(held) => {
                let copy = held.as_ref().try_clone(alloc)?;
                Ok(copy)
            }
        }
    }
}

impl Exact for Shared {
    fn try_clone(&self, _alloc: Global) -> Result<Self, AllocError> {
        let tuple = self.tuple.clone()?;
        Ok(Shared { tuple })
    }
}
