//! The tests.
mod changed;
mod failures;
mod journal;
mod memory;
mod reading;
