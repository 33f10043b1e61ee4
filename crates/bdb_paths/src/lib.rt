//! The states of a list of statements, which are the paths whose worlds are kept, and the deepest state of a path: the
//! one whose world is the path's.
#![tactic(auto)]

mod counts;
pub mod laws;
mod places;
mod states;
mod suffixes;

pub use counts::new_state_count;
pub use states::states_of;
pub use suffixes::{deepest_suffix, deepest_suffix_in_set};
