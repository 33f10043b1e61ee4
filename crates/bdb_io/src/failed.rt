// The one failure of sources and sinks.
use thiserror::Error;

/// A read or a write failed. The count of faults rose.
#[derive(Clone, Copy, Debug, PartialEq, Eq, Drop, Error)]
#[error("a read or a write failed")]
pub struct Failed;
