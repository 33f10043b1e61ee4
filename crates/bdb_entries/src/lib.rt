//! What tables of any bytes tell of users, relations and tuples: their rows read raw, the format, and whether each key and
//! row is in the grammar of its table.
#![tactic(auto)]

mod bare;
mod catalog;
mod fitting;
mod format;
mod grammar;
mod reading;
mod tuples;
mod validity;

pub use bare::{is_bare, others_are_bare};
pub use catalog::{raw_catalog, raw_relations, raw_users};
pub use fitting::{all_belong, are_users};
pub use format::{Format, read_format};
pub use grammar::is_in_grammar;
pub use reading::{fits, next_raw, raw_rows};
pub use tuples::{are_same, raw_tuples};
