//! Tests of the keepers in memory, of keys and rows as bytes, of the tables over a keeper, and of copies of tables of the format
//! before this one. They stand apart from the libraries that they test, so that each of these is proved once, without its tests.
#![tactic(auto)]

#[cfg(test)]
mod tests;
