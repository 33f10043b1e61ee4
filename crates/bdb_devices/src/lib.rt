//! Tests of what a device's failure leaves. A source, a sink and a keeper in memory fail at each of their calls in turn, and
//! what is left is what the commands left that were done: no less, and nothing of the next one.
#![tactic(auto)]

#[cfg(test)]
mod tests;
