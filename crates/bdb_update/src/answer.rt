// What is answered where statements change.
use bdb_base::{Stmt, What};
use thiserror::Error;

/// Whether a statement was added.
#[derive(Clone, Copy, Debug, PartialEq, Eq, Drop)]
pub enum Added {
    /// It stands now.
    New,
    /// It stood already.
    Already,
}

/// Why statements were not changed. After a clash, or where the base is full, nothing was written, and a transaction that
/// ran still runs. After the others no transaction runs, and the rows are those last committed.
#[derive(Debug, Drop, Error)]
pub enum UpdateError {
    /// It would clash with this statement of its path, the least such one.
    #[error("a statement of the path clashes")]
    Clash(Stmt),
    /// The base would have too many of these.
    #[error("the base is full")]
    Full(What),
    /// The store failed. The keeper's count of faults rose.
    #[error("the store failed")]
    Fault,
    /// There is no memory.
    #[error("there is no memory")]
    Memory,
}
