//! From queries to plans, which mean the same over every base.
#![tactic(auto)]

mod choosing;
mod items;
pub mod laws;
mod names;
mod order;
mod passing;
mod sources;
mod translation;
mod walks;

pub use translation::{translate, translate_to_run};
