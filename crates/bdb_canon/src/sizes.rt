// The sizes of a base.

/// How large a base is: its worlds, different tuples and statements, and the rows of its worlds, which are the signed
/// tuples of all states.
#[derive(Clone, Copy, Debug, PartialEq, Eq, Drop)]
pub struct Counts {
    pub worlds: u32,
    pub tuples: u32,
    pub stmts: u32,
    pub rows: u32,
}
