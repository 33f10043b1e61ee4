//! Keepers of rows: tables of byte keys and byte rows with transactions, as a trait.
#![tactic(auto)]

mod keeper;
mod span;

pub use keeper::{KeepError, Keeper, KeyEnd};
pub use span::{AppendKey, Span};
