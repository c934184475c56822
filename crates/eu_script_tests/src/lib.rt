//! Tests of scripts, from the streams that they are read from to what they print.
#![tactic(auto)]

#[cfg(test)]
mod tests;
