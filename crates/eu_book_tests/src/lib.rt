//! Tests of the registry with its journal, alone, through its lock, and closed.
#![tactic(auto)]

#[cfg(test)]
mod tests;
