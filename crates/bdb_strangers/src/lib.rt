//! Tests of what `check` tells of tables of any bytes, and of what a run makes of them. A keeper in memory gets rows that no
//! command leaves, as a stranger's file would have them.
#![tactic(auto)]

#[cfg(test)]
mod tests;
