// Why a session does nothing.
use thiserror::Error;

/// Why a session was not opened, or a piece was not carried out. After either all is as it was, and no transaction runs.
#[derive(Clone, Copy, Debug, PartialEq, Eq, Drop, Error)]
pub enum StopError {
    /// The store failed. The keeper's count of faults rose.
    #[error("the store failed")]
    Fault,
    /// There is no memory.
    #[error("there is no memory")]
    Memory,
}
