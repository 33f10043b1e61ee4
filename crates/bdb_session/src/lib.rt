//! The belief machine, one command at a time, or several in one batch.
#![tactic(auto)]

mod batch;
mod change;
mod changes;
mod course;
mod create;
mod error;
pub mod error_laws;
mod event;
mod insert;
pub mod laws;
mod leave;
mod limits;
mod news;
mod open;
mod query;
mod reading;
mod refusals;
mod reply;
mod session;
mod show;
mod step;
mod transact;
mod undo;
mod why;
mod within;

pub use batch::BatchReply;
pub use course::Course;
pub use error::StopError;
pub use event::ScriptEvent;
pub use reading::{Reading, read_piece};
pub use reply::Reply;
pub use session::Session;
