//! Worlds and belief, computed as they are defined: by going down the path, over the standing statements.
#![tactic(auto)]

mod allowed;
mod bases;
mod beliefs;
mod choosing;
mod conflicts;
mod ends;
mod keys;
mod levels;
mod pools;
mod queries;
mod rows;
mod sources;
mod stages;

pub use bases::{believes, clashing, key_length_in, stated, world_rows};
pub use beliefs::{believes_among, clashing_among, is_explicit, stated_among};
pub use conflicts::first_clashing_among;
pub use ends::{at_ends, at_path, worlds_depend_on_ends};
pub use queries::{answers, answers_up_to};
pub use rows::world_among;
