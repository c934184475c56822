//! Tests of hostile bytes, readers and writers: what requests and sessions make of them.
#![tactic(auto)]

#[cfg(test)]
mod tests;
