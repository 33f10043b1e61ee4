//! A keeper whose rows are in an SQLite file.
#![tactic(auto)]

mod file;
mod keeper;
mod keeper_error;
mod kept;
pub mod laws;
mod load;
mod look;
mod schema;
mod write;

pub use keeper::SqlKeeper;
