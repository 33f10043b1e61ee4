// The status of a run.
ghost use Rattle.std.specs.Prelude.{◌≡◌};
ghost use Rattle.bdb_stream.specs.Reads.{status_of};

use bdb_stream::RunError;

/// The status of a run: 0 or 1 where the script was read to its end, by whether every command was accepted.
pub fn status_of(ended: Result<bool, RunError>) -> u8
    ensures { result ≡ status_of ended }
{
    match ended {
        Ok(true) => 0,
        Ok(false) => 1,
        Err(RunError::Source) => 3,
        Err(RunError::Sink) => 4,
        Err(RunError::Keeper) => 5,
        Err(RunError::Memory) => 6,
        Err(RunError::Large) => 8,
    }
}
