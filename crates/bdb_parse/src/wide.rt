// Numbers outside i64.

/// How a reading takes a number outside i64.
#[derive(Clone, Copy, Drop)]
pub enum Wide {
    /// As no literal.
    Refused,
    /// As a literal, for which 0 stands.
    Zero,
}
