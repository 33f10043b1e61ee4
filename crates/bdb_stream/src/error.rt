// Why a run stops early.
use thiserror::Error;

/// Why a run stops before the end of its script.
#[derive(Clone, Copy, Debug, PartialEq, Eq, Drop, Error)]
pub enum RunError {
    /// A read failed.
    #[error("a read failed")]
    Source,
    /// A write failed.
    #[error("a write failed")]
    Sink,
    /// The keeper of the rows failed.
    #[error("the keeper of the rows failed")]
    Keeper,
    /// There is no memory.
    #[error("there is no memory")]
    Memory,
    /// The script is too large.
    #[error("the script is too large")]
    Large,
}
