//! Running plans over tables: the rows that a plan means, over what the tables of a keeper show.
#![tactic(auto)]

mod deciding;
mod errors;
mod executing;
mod index;
mod keys;
pub mod laws;
mod looking;
mod memo;
mod passing;
mod prefixes;
mod reading;
mod running;
mod seen_keys;
mod shared;
mod slots;
mod state;
mod values;

pub use errors::ExecError;
pub use executing::{Rows, run_plan};
