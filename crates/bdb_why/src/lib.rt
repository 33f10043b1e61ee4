//! Why a path believes a signed tuple, or doesn't: certificates, and a checker that reads the standing statements alone.
#![tactic(auto)]

mod among;
mod asking;
mod checking;
mod descent;
mod grounds;
mod kinds;
pub mod laws;
mod nearby;
mod rivals;

pub use among::why_among;
pub use asking::why;
pub use checking::{check_why, check_why_among};
pub use kinds::{Ground, Ruled, Why, says};
