//! The finite structure that stands for the worlds of all paths, computed from scratch.
#![tactic(auto)]

mod building;
mod edges;
pub mod laws;
mod lines;
mod places;
mod rows;
mod sizes;
mod structure;
mod users;
mod worlds;

pub use building::canon;
pub use lines::{has_more_lines, line_count};
pub use sizes::Counts;
pub use structure::{Canon, CanonEdge, CanonRow, CanonWorld};
