//! The world of a path as it is shown, from the bytes of its stored rows to the reply: no value is decoded.
#![tactic(auto)]

mod lines;
mod order;
mod reading;
mod row;
mod showing;
mod values;

pub use showing::shown_world;
