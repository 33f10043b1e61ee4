//! Tests of the libraries on which bases, worlds, streams and changes stand: what each answers over worked values is what was
//! meant. They stand apart from the libraries so that one is proved once, and not again with its tests.
#![tactic(auto)]

#[cfg(test)]
mod tests;
