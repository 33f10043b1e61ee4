//! Reading a command from its tokens.
#![tactic(auto)]

mod beliefs;
mod change;
mod col;
mod column;
mod command;
mod cond;
mod create;
mod cut;
mod error;
mod item;
mod key;
mod keywords;
mod laws;
mod leave;
mod list;
mod literal;
mod number;
mod one_word;
mod query;
mod reading;
mod round_trip;
mod set;
mod show;
mod signed;
mod stop;
mod target;
mod tokens;
mod why;
mod wide;

pub use error::ParseError;
pub use keywords::is_keyword;
pub use laws::commands_are_read;
pub use reading::parse;
pub use round_trip::printed_reads_back;
