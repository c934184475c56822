//! Tests of values, clocks and draws, of the lease machine's laws, and of what waits for peers and is shown.
#![tactic(auto)]

#[cfg(test)]
mod tests;
