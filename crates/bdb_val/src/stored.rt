// Rows of a world as they are read.
use bdb_base::{Sign, Tuple};

/// A row of a world: the number of its tuple, the tuple, its sign, and whether it is explicit.
#[derive(Drop)]
pub struct StoredRow {
    pub tid: u32,
    pub tuple: Tuple,
    pub mark: (Sign, bool),
}

/// What settling the rows of one world did.
#[derive(Clone, Copy, Drop)]
pub struct SettledWorld {
    /// Whether a tuple has another sign, a first one, or none any more.
    pub turned: bool,
    /// How many rows were put at keys that had none.
    pub put: usize,
    /// How many rows were taken away.
    pub taken: usize,
}

/// What settling the rows of worlds did.
#[derive(Clone, Copy, Drop)]
pub struct Settled {
    /// How many rows were put at keys that had none.
    pub put: usize,
    /// How many rows were taken away.
    pub taken: usize,
}
