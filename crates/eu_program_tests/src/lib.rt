//! Tests of whole runs of the program, and of its command line.
#![tactic(auto)]

#[cfg(test)]
mod tests;
