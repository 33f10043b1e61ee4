//! What holds of the names of stored worlds: how suffix links and edges change with a state; and a world with its path.
#![tactic(auto)]

mod named;

pub use named::NamedWorld;
