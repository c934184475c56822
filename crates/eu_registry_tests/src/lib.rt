//! Tests of the registry and of its parts: leases, their table and deadlines, the meter, and evictions.
#![tactic(auto)]

#[cfg(test)]
mod tests;
