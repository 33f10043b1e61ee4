//! Tests of whole runs: scripts and streams of sessions, the words of a command line, checks and generated scripts, and what is
//! told of them. Source, sink and keeper are in memory; in some runs one of them fails.
#![tactic(auto)]

#[cfg(test)]
mod failing;
#[cfg(test)]
mod tests;
