//! What holds of queries and their answers, each law as the contract of a function that does nothing; the rows found so far,
//! which each way to answer a query collects; and what is chosen for a query's items.
#![tactic(auto)]

mod found;
pub mod laws;
mod slots;

pub use found::Found;
pub use slots::{
    Chosen, known, known_operand, known_row, must_all_hold, must_hold, path_of, uid_of, user_tuple,
    user_tuples, with_chosen,
};
