// What a piece is.
use bdb_multi::Event;

/// What a piece of a stream of sessions is.
#[derive(Drop)]
pub enum Read {
    /// Blanks and comments alone.
    Nothing,
    /// A piece of more bytes than a command may have.
    Long,
    /// A piece that doesn't begin with the number of a session and a blank.
    NoSession,
    /// A piece of this session whose line has blanks and comments alone.
    NoLine(u8),
    /// A line of a session.
    Event(Event),
}
