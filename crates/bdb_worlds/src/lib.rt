//! The structure of stored worlds: which world a path has, and how worlds come and go. A world is a path of users that
//! is a state, with a number of its own. Its suffix link and its edges lead to other worlds by number.
#![tactic(auto)]

mod children;
mod dropping;
mod free;
mod growing;
pub mod laws;
mod leading;
mod leaving;
mod making;
mod moving;
mod owning;
mod reach;
mod staying;
mod taking;
mod users;
mod walk;

pub use dropping::drop_states;
pub use growing::add_states;
pub use reach::longest_state;
pub use users::{add_user_edges, drop_user_edges};
pub use walk::{deepest_state, resolve};
