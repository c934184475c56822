//! Tests of HTTP: how requests are framed, which call they name, the JSON of instances and batches, and the responses.
#![tactic(auto)]

#[cfg(test)]
mod tests;
