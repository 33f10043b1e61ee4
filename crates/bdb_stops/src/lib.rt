//! Runs over a file whose calls fail, one after the other, and what is in the file afterwards; and a keeper over SQLite's store in
//! memory. It is tests alone, over all that stands below the program.
#![tactic(auto)]

#[cfg(test)]
mod tests;
