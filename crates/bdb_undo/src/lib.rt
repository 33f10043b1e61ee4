//! Changes of a base that can be taken back and made again, by the statements that went and came and not by copies of the
//! base; and the history that keeps the last of them.
#![tactic(auto)]

mod change;
mod history;
mod laws;
mod limits;
mod steps;

pub use change::{Change, Named, missing_from};
pub use history::History;
pub use laws::{
    arrives_there, back_gives_the_base_before, back_undoes, bases_are_determined, bases_move,
    changes_are_counted, changes_are_determined, changes_are_one, coming_leads_ahead,
    contents_are_their_own, fewer_are_valid, forth_gives_the_base_after, forth_redoes,
    last_leads_here, note_arrives, note_moves, nothing_is_altered, nothing_kept_starts,
    nothing_to_redo, nothing_to_undo, put_leads, relation_leads, same_base_alters_nothing,
    same_contents_are_one, statements_lead, staying_arrives, takes_lead, update_leads, user_leads,
};
pub use limits::{MOST_CHANGES, limits_agree};
pub use steps::{change_back, change_forth};
