//! A change of a stored base is taken back, and made again: its statements go and come, and its name goes or comes.
#![tactic(auto)]

mod naming;
mod numbers;
mod places;
mod returning;

pub use returning::{make_again, take_back};
