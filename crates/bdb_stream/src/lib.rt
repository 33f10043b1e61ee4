//! Carrying out a stream while it is read: each piece is handled as soon as the bytes are read in which it ends, its reply written at
//! once, and how far that comes where a read, a write or the keeper fails. A session handles the commands of a script.
#![tactic(auto)]

mod answers;
mod error;
mod handler;
mod stream;

pub use answers::carry_out_script;
pub use error::RunError;
pub use handler::Handler;
pub use stream::carry_out;
