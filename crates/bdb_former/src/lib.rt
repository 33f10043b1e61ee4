//! Tables of the format before this one: what they are as this one spells them.
#![tactic(auto)]

mod laws;
mod spelling;

pub use laws::{
    formats_become_this, keys_get_a_count, names_stay, no_other_row_is_there, no_user_was_gone,
    places_stay_apart, relations_get_a_length, relations_had_no_length, rows_are_respelled,
};
pub use spelling::{respelled_key, respelled_row};
