//! The top call: it does all that the program does.
#![tactic(auto)]

mod check;
mod generated;
mod laws;
mod lines;
mod many;
mod status;
mod tally;
mod top;
mod words;

pub use bdb_stream::RunError;
pub use laws::{count_tells_the_state, no_rows_stand_for_a_base};
pub use top::run;
pub use words::{Job, WordsError, job_of};
