// Tuples.
ghost use Rattle.std.specs.Prelude.{◌<◌, length};

use crate::kinds::Value;
use crate::list::{Exact, List};
use std::alloc::{AllocError, Global};
use std::marker::Model;

/// A tuple: the number of its relation, and one value for each column. There is at least one value.
#[derive(Debug, Drop)]
pub struct Tuple {
    pub rel: u32,
    pub vals: List<Value>,
}

impl Model for Tuple {
    ghost use Rattle.std.specs.Prelude.{◌<◌, length};
    ghost use Rattle.bdb_base.specs.TupleFields.{Fields};

    ghost Value = { Fields };

    ghost view = { λ t. record { rel = t.rel; vals = t.vals } };

    ghost invariant = { λ t. 0 < length t.vals };
}

impl Exact for Tuple {
    fn try_clone(&self, alloc: Global) -> Result<Self, AllocError> {
        let vals = self.vals.try_clone(alloc)?;
        Ok(Tuple {
            rel: self.rel,
            vals,
        })
    }
}
