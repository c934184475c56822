//! The tests, by what they are of.
mod batches;
mod books;
mod calls;
mod memory;
mod policies;
mod served;
mod sessions;
mod settings;
mod told;
mod turns;
