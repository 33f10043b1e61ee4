//! The texts of replies: rows, counts, worlds, the structure and refusals, as a curator reads them.
#![tactic(auto)]

mod lines;
mod names;
mod refusal;
mod reply;
mod table_lines;
mod tables;

pub use lines::{append_count, append_path, append_signed};
pub use names::relation_name;
pub use refusal::{Refusal, refusal_reply};
pub use reply::{
    count_reply, ok_reply, path_text, rows_reply, tuple_text, value_text, world_reply,
};
pub use tables::tables_reply;
