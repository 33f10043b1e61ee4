// What a keeper answers where SQLite refuses.
ghost use Rattle.std.specs.Prelude.{◌↔◌, ◌≡◌};

use bdb_keep::KeepError;
use sqlite::{Error, ErrorCode};

/// What a keeper answers to a refusal: out of memory as such, and anything else as a fault.
pub fn keeper_error(error: Error) -> KeepError
    ensures { (result ≡ KeepError.Memory) ↔ (error ≡ Error.SqliteFailure ErrorCode.OutOfMemory) }
{
    match error {
        Error::SqliteFailure(ErrorCode::OutOfMemory) => KeepError::Memory,
        _ => KeepError::Fault,
    }
}
