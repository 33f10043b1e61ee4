//! Tests of a base as it is stored and asked: tables read back and written whole, the reasons of beliefs, their replies, and
//! batches of a session.
#![tactic(auto)]

#[cfg(test)]
mod tests;
