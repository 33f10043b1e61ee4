//! Reading the pieces of a stream of sessions: each has the number of a session and its line.
#![tactic(auto)]

mod event;
mod form;
mod gaps;
mod laws;
mod read;
mod words;

pub use event::event_of;
pub use laws::{forms_are_read, lines_are_read, nothing_is_gaps, pieces_are_read};
pub use read::Read;
