//! The tests, by what they are of.
mod deadlines;
mod desk;
mod eviction;
mod index;
mod lease;
mod memory;
mod meter;
mod registry;
mod steps;
mod store;
mod store_memory;
mod texts;
mod twins;
