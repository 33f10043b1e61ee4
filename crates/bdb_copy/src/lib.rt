//! A copy in memory of the tables of the format before this one, as this one spells them.
#![tactic(auto)]

mod copying;

pub use copying::respelled_copy;
