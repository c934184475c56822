//! Tests of peers and workers: the turns of each, and sessions at once.
#![tactic(auto)]

#[cfg(test)]
mod tests;
