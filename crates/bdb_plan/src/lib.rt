//! Plans of queries: lists of steps that choose users and tuples, follow the edges between worlds, and test as soon as
//! they can; what a plan means over what it sees of stored tables; and its text.
#![tactic(auto)]

pub mod laws;
mod plan;
mod printing;
mod step;

pub use plan::Plan;
pub use printing::print_plan;
pub use step::Step;
