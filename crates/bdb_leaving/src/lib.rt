//! A user leaves the base that tables store: with him go the statements whose paths name him, and the edges for him.
#![tactic(auto)]

mod leaving;
mod naming;
mod paths;

pub use leaving::drop_user;
