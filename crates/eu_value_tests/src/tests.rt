//! The tests, by the crates that they are of.
mod admin;
mod base;
mod choice;
mod clock;
mod collisions;
mod memory;
mod model;
mod outbox;
mod page;
mod texts;
mod value_memory;
