// The base for which tables of any bytes stand.
ghost use Rattle.std.specs.Prelude.{ℕ, IfOk, IsErrOf};
ghost use Rattle.bdb_catalog.specs.Opening.{StandFor};
ghost use Rattle.bdb_decode.specs.Opening.{AreDamaged, EndsReading, HaveOtherFormat, TellsStand};

use crate::judging::{Judgement, judge};
use bdb_base::Base;
use bdb_keep::Keeper;
use bdb_tables::TabError;
use std::alloc::Global;
use thiserror::Error;

/// Why no base is read off tables.
#[derive(Clone, Copy, Debug, PartialEq, Eq, Drop, Error)]
pub enum OpenError {
    /// The tables hold no base.
    #[error("the tables hold no base")]
    Damaged,
    /// The tables are of another format, which is told.
    #[error("the tables are of another format")]
    Format(u32),
    /// The keeper failed. Its count of faults rose.
    #[error("the keeper failed")]
    Fault,
    /// There is no memory.
    #[error("there is no memory")]
    Memory,
}

/// How tables stand for a base.
#[derive(Drop)]
pub enum Stand {
    /// They have no row, and stand for the empty base.
    Empty,
    /// They store this base.
    Stored(Base),
    /// They store this base in the format before this one.
    Former(Base),
}

/// How the tables stand for a base. `Format` comes exactly where the table of the format is one row of the right key and form with a
/// number that is neither this format's nor that of the one before it, and `Damaged` exactly where the tables stand for no base and
/// that isn't so. Nothing is written. After both the rows, what is committed and a running transaction are as they were; after
/// `Fault` and `Memory` no transaction runs.
pub fn stand_of<K: Keeper>(alloc: Global, keeper: &mut K) -> Result<Stand, OpenError>
    ensures stand { IfOk result (TellsStand (K.seen keeper.old).kept) }
    ensures damaged { IsErrOf result OpenError.Damaged → AreDamaged (K.seen keeper.old).kept }
    ensures format { (n : ℕ) → IsErrOf result (OpenError.Format n)
        → HaveOtherFormat (K.seen keeper.old).kept n }
    ensures ends { EndsReading (K.seen keeper.old) (K.seen keeper.new) result }
{
    match judge(alloc, keeper) {
        Ok(Judgement::Empty) => Ok(Stand::Empty),
        Ok(Judgement::Held(base)) => Ok(Stand::Stored(base)),
        Ok(Judgement::Former(base)) => Ok(Stand::Former(base)),
        Ok(Judgement::Damaged) => Err(OpenError::Damaged),
        Ok(Judgement::Format(number)) => Err(OpenError::Format(number)),
        Err(TabError::Fault) => Err(OpenError::Fault),
        Err(TabError::Memory) => Err(OpenError::Memory),
    }
}

/// The base for which the tables stand, in this format or in the one before it; no rows at all stand for the empty base. The
/// refusals are those of `stand_of`.
pub fn decode<K: Keeper>(alloc: Global, keeper: &mut K) -> Result<Base, OpenError>
    ensures base { IfOk result (λ base. StandFor (K.seen keeper.old).kept base) }
    ensures damaged { IsErrOf result OpenError.Damaged → AreDamaged (K.seen keeper.old).kept }
    ensures format { (n : ℕ) → IsErrOf result (OpenError.Format n)
        → HaveOtherFormat (K.seen keeper.old).kept n }
    ensures ends { EndsReading (K.seen keeper.old) (K.seen keeper.new) result }
{
    match stand_of(alloc, keeper) {
        Ok(Stand::Empty) => Ok(Base::empty(alloc)),
        Ok(Stand::Stored(base)) => Ok(base),
        Ok(Stand::Former(base)) => Ok(base),
        Err(error) => Err(error),
    }
}
