//! Tables of any bytes: which base they hold, if any. Of users, relations and tuples `bdb_entries` tells, and of worlds
//! `bdb_graph`; here are the statements, the rows of the worlds, and what all of them come to.
#![tactic(auto)]

mod held_rows;
mod items;
mod judging;
mod keys;
mod laws;
mod limits;
mod linking;
mod opening;
mod parts;
mod rows;
mod settles;
mod stated;
mod statements;
mod whole;

pub use held_rows::are_rows_held;
pub use items::item_of;
pub use laws::{
    base_statements_are_held, few_have_statements, former_keys_have_one_column,
    former_users_are_live, held_bases_are_stated, held_bases_are_whole, held_rows_have_places,
    held_rows_make_statements, misplaced_have_no_places, one_base_at_most, others_stand_for_none,
    placed_rows_are_keyed, stated_rows_are_explicit,
};
pub use limits::worlds_are_within_limits;
pub use opening::{OpenError, Stand, decode, stand_of};
pub use rows::{ValRow, raw_statements};
pub use stated::{all_stated, all_states};
pub use statements::are_statements;
pub use whole::raw_base_statements;
