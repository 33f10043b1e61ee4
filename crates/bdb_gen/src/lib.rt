//! Scripts made from a number: the same seed and size give the same script.
#![tactic(auto)]

mod draws;
mod lines;
mod scripts;
#[cfg(test)]
mod tests;

pub use draws::Draws;
pub use scripts::generate;
