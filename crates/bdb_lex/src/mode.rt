// Where a script's last byte stands.

/// Where the bytes that were cut so far end: what the next byte means depends on it.
#[derive(Clone, Copy, Debug, PartialEq, Eq, Drop)]
pub enum Mode {
    /// Outside texts and comments.
    Plain,
    /// Behind a dash outside texts and comments, which begins a comment if a second one follows.
    Dash,
    /// Within a text.
    Quoted,
    /// Within a comment.
    Comment,
}
