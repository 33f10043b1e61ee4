// The parts of keys, and why bytes are no key or row.
ghost use Rattle.std.specs.Prelude.{◌≡◌, IfOk};
ghost use Rattle.bdb_key.specs.declared.part.KeyError.TheVariants.{Memory};

use bdb_base::{Exact, List, Path, Value};
use std::alloc::{AllocError, AllocFailed, Global};
use thiserror::Error;

/// A part of a key.
#[derive(Drop)]
pub enum Part {
    /// A number, as the number of a user or a world.
    Num(u32),
    /// A value of a tuple.
    Val(Value),
    /// A list of values, as the first values of a tuple. A list with fewer values comes first.
    Vals(List<Value>),
    /// A belief path.
    Path(Path),
}

/// What may stand at a place of a key. A list of them is the shape of a table's keys.
#[derive(Clone, Copy, Debug, PartialEq, Eq, Drop)]
pub enum Slot {
    Num,
    Val,
    Vals,
    Path,
    /// Values up to the end.
    Rest,
}

/// Why bytes were not read as a key.
#[derive(Clone, Copy, Debug, PartialEq, Eq, Drop, Error)]
pub enum KeyError {
    /// The bytes are no key of that shape.
    #[error("the bytes are no key of the table")]
    NotAKey,
    /// There is no memory.
    #[error("out of memory")]
    Memory,
}

/// Why bytes were not read as a row.
#[derive(Clone, Copy, Debug, PartialEq, Eq, Drop, Error)]
pub enum RowError {
    /// The bytes are no row of that table.
    #[error("the bytes are no row of the table")]
    NotARow,
    /// There is no memory.
    #[error("out of memory")]
    Memory,
}

impl Exact for Part {
    fn try_clone(&self, alloc: Global) -> Result<Self, AllocError> {
        match self {
            Part::Num(n) => Ok(Part::Num(*n)),
            Part::Val(value) => Ok(Part::Val(value.try_clone(alloc)?)),
            Part::Vals(values) => Ok(Part::Vals(values.try_clone(alloc)?)),
            Part::Path(path) => Ok(Part::Path(path.try_clone(alloc)?)),
        }
    }
}

impl From<AllocError> for KeyError {
    ghost from_gives = { λ _ e. e ≡ Memory };

    fn from(_error: AllocError) -> KeyError {
        KeyError::Memory
    }
}

impl<T: Drop> From<AllocFailed<T>> for KeyError {
    ghost from_gives = { λ _ e. e ≡ Memory };

    fn from(_error: AllocFailed<T>) -> KeyError {
        KeyError::Memory
    }
}
