//! Streams of sessions: what is told of each piece, and what the stream comes to.
#![tactic(auto)]

mod laws;

pub use laws::{leads_as_batches, lines_are_labelled};
