//! Tests of the auditor: whole journals, what each rule lets a run do, which states are none, and books whose journal is a run.
#![tactic(auto)]

#[cfg(test)]
mod tests;
