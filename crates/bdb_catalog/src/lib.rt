//! What is made and read of tables that store a base with its worlds, all but changes of statements: the empty base, its
//! users and relations, the state whose rows the world of a path has, and the statements that a change is about.
#![tactic(auto)]

mod asking;
mod creating;
mod opening;
mod place;
mod showing;
mod taking;
mod users;

pub use creating::{add_relation, write_empty};
pub use opening::{read_relations, read_users};
pub use place::empty_place;
pub use showing::{plain_paths_inherit, state_of};
pub use taking::{taken, tuples_under};
pub use users::{add_gone_place, add_user, put_live};
