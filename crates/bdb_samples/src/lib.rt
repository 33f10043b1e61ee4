//! Worked bases, how their structure is printed, and what lines of tests spell, for the crates of tests.
#![tactic(auto)]

mod bases;
mod given;
mod parts;
mod printed;
mod spelled;

pub use bases::{catalog, disputed, reported};
pub use given::{BOB_DENIES, CROW, EAGLE, Given, stmts_of};
pub use parts::{live, sightings, statement, tuple_of};
pub use printed::text_of;
pub use spelled::{RowChange, bytes_of, changes_of, words_of};
