// Why a plan was not run.
use thiserror::Error;

/// Why a plan gave no rows.
#[derive(Clone, Copy, Debug, PartialEq, Eq, Drop, Error)]
pub enum ExecError {
    /// There are more rows than an answer may have.
    #[error("too many rows")]
    TooMany,
    /// The store failed. The keeper's count of faults rose.
    #[error("the store failed")]
    Fault,
    /// There is no memory.
    #[error("out of memory")]
    Memory,
}
