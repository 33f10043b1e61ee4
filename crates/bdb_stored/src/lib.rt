//! A stored base as it is read whole from its tables, its sizes and the structure that stands for all its worlds, and as
//! it is written whole.
#![tactic(auto)]

mod clearing;
mod counting;
mod edges;
mod items;
mod links;
mod named;
mod rows;
mod structure;
mod tuples;
mod users;
mod worlds;
mod writing;

pub use counting::counts_of;
pub use named::place_of_number;
pub use structure::canon_of;
pub use users::user_numbers;
pub use worlds::worlds_in_order;
pub use writing::write_all_tables;
