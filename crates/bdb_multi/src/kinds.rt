// Lines, events and acts.
use bdb_base::{Exact, Lines, List};
use std::alloc::{AllocError, Global};

/// Lines of sessions, in order.
pub type Events = List<Event>;

/// What becomes of events, in order.
pub type Acts = List<Act>;

/// A line of a session.
#[derive(Drop)]
pub enum Line {
    /// Opens a batch.
    Begin,
    /// Closes the open batch, which is run.
    Commit,
    /// Closes the open batch, which is dropped.
    Abort,
    /// A command.
    Cmd(List<u8>),
}

/// A line and the session that it is of.
#[derive(Drop)]
pub struct Event {
    pub session: u8,
    pub line: Line,
}

/// What becomes of an event.
#[derive(Drop)]
pub enum Act {
    /// A batch was opened.
    Begun,
    /// The command waits in the open batch.
    Queued,
    /// The open batch was dropped.
    Aborted,
    /// A batch can't be opened, as one is open.
    ErrBegun,
    /// There is no open batch to commit or to abort.
    ErrNotBegun,
    /// The command doesn't wait: the open batch has as many as it may have.
    ErrBatch,
    /// The command is run at once.
    One(List<u8>),
    /// These commands are run as one batch.
    Batch(Lines),
}

impl Exact for Line {
    fn try_clone(&self, alloc: Global) -> Result<Self, AllocError> {
        match self {
            Line::Begin => Ok(Line::Begin),
            Line::Commit => Ok(Line::Commit),
            Line::Abort => Ok(Line::Abort),
            Line::Cmd(command) => Ok(Line::Cmd(command.try_clone(alloc)?)),
        }
    }
}

impl Exact for Event {
    fn try_clone(&self, alloc: Global) -> Result<Self, AllocError> {
        Ok(Event {
            session: self.session,
            line: self.line.try_clone(alloc)?,
        })
    }
}

impl Exact for Act {
    fn try_clone(&self, alloc: Global) -> Result<Self, AllocError> {
        match self {
            Act::Begun => Ok(Act::Begun),
            Act::Queued => Ok(Act::Queued),
            Act::Aborted => Ok(Act::Aborted),
            Act::ErrBegun => Ok(Act::ErrBegun),
            Act::ErrNotBegun => Ok(Act::ErrNotBegun),
            Act::ErrBatch => Ok(Act::ErrBatch),
            Act::One(command) => Ok(Act::One(command.try_clone(alloc)?)),
            Act::Batch(commands) => Ok(Act::Batch(commands.try_clone(alloc)?)),
        }
    }
}
