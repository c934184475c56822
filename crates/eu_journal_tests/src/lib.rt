//! Tests of journals as text.
#![tactic(auto)]

#[cfg(test)]
mod tests;
