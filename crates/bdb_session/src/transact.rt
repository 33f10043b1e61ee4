// Transactions of a keeper.
ghost use Rattle.std.specs.Prelude.{◌≡◌, true};
ghost use Rattle.bdb_keep.specs.Calls.{IsBegin, IsCommit};
ghost use Rattle.bdb_keep.specs.Seen.{IsStill};

use crate::error::StopError;
use bdb_keep::{KeepError, Keeper};
use bdb_tables::TabError;

/// Begins a transaction.
pub(crate) fn begin<K: Keeper>(keeper: &mut K) -> Result<(), StopError>
    requires still { IsStill (K.seen keeper.old) }
    ensures { IsBegin (K.seen keeper.old) (K.seen keeper.new) result StopError.Fault }
{
    match keeper.begin() {
        Ok(()) => Ok(()),
        Err(error) => Err(stop_of(error)),
    }
}

/// Commits a transaction.
pub(crate) fn commit<K: Keeper>(keeper: &mut K) -> Result<(), StopError>
    requires running { (K.seen keeper.old).running ≡ true }
    ensures { IsCommit (K.seen keeper.old) (K.seen keeper.new) result StopError.Fault }
{
    match keeper.commit() {
        Ok(()) => Ok(()),
        Err(error) => Err(stop_of(error)),
    }
}

/// A keeper's error as a session's.
fn stop_of(error: KeepError) -> StopError
    ensures { result ≡ StopError.Fault → error ≡ KeepError.Fault }
{
    match error {
        KeepError::Fault => StopError::Fault,
        KeepError::Memory => StopError::Memory,
    }
}

/// A table's error as a session's.
pub(crate) fn stop_from(error: TabError) -> StopError
    ensures { result ≡ StopError.Fault → error ≡ TabError.Fault }
{
    match error {
        TabError::Fault => StopError::Fault,
        TabError::Memory => StopError::Memory,
    }
}
