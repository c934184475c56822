//! Tests of whole servers, of accepted connections and of the timers' pace.
#![tactic(auto)]

#[cfg(test)]
mod tests;
