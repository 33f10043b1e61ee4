//! The worlds of tables of any bytes: the names that they have in whichever states the tables hold, and whether the suffix
//! links and edges are those of these names.
#![tactic(auto)]

mod edges;
mod finding;
mod laws;
mod leading;
mod links;
mod naming;
mod numbers;
mod states;
mod turning;
mod ups;
mod worlds;

pub use laws::worlds_are_held;
pub use numbers::{HasNumber, place_of_number};
pub use states::are_states_held;
pub use turning::are_turned_round;
pub use worlds::raw_worlds;
