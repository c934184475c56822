//! Tests of sessions of HTTP, over a registry and over a book.
#![tactic(auto)]

#[cfg(test)]
mod tests;
