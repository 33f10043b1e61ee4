//! Tests of how commands are read, bound and answered: worked scripts cut into pieces and tokens, commands read of tokens, names
//! looked up, and the texts of replies.
#![tactic(auto)]

#[cfg(test)]
mod tests;
