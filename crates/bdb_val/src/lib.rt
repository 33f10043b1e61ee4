//! Stored valuations: the rows of every stored world, kept up one group at a time.
#![tactic(auto)]

mod changes;
mod laws;
mod links;
mod marks;
mod numbered;
mod reading;
mod room;
mod settle;
mod stored;
mod walk;
mod world_rows;
mod worlds;

pub use laws::{
    held_rows_are_explicit, held_rows_are_settled, next_marks_are_settled,
    none_settles_the_settled, right_rows_are_settled, settled_rows_are_held,
    settled_rows_are_right, settling_is_apart, settling_is_real, settling_is_right,
    steps_write_differences,
};
pub use reading::{read_group, read_stored, read_world};
pub use stored::{Settled, StoredRow};
pub use walk::settle_group;
pub use world_rows::world_at;
pub use worlds::{clear_world, copy_world};
