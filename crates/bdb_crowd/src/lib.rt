//! Carrying out a stream of many sessions while it is read: each piece as soon as the bytes are read in which it ends, its reply
//! written at once, and how far that comes where a read, a write or the keeper fails.
#![tactic(auto)]

mod acts;
mod crowd;
pub mod error_laws;
mod laws;
mod stream;
mod write;

pub use crowd::Crowd;
pub use laws::{commits_tell_the_state, first_batches_lead, streams_come_to};
pub use stream::carry_out_stream;
