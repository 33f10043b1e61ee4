//! The reply to `why`: a certificate of belief, as a curator reads it.
#![tactic(auto)]

mod lines;
mod reply;

pub use reply::why_reply;
