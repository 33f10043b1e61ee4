//! Commands of BeliefSQL as they are written, with names for users, relations and columns.
#![tactic(auto)]

mod command;
mod printing;

pub use command::{Command, RawCol, RawCond, RawItem, RawQuery, RawSet, RawSide, RawWho};
pub use printing::print;
