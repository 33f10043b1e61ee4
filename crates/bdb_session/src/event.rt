// What a script is made of.
use bdb_base::List;

/// What a script asks for, in order: its pieces, and then the rest where it holds something.
#[derive(Drop)]
pub enum ScriptEvent {
    /// A piece of at most 65,536 bytes, without its semicolon.
    Piece(List<u8>),
    /// A longer piece.
    Long,
    /// A rest that no semicolon ended.
    Unfinished,
}
