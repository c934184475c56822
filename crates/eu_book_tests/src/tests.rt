//! The tests, by what they are of.
mod book;
mod closed;
mod memory;
mod session_memory;
mod sessions;
mod shared;
mod shared_memory;
mod texts;
mod threads;
