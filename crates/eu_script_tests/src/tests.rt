//! The tests, by what they are of.
mod audits;
mod examples;
mod failures;
mod journals;
mod lines;
mod memory;
mod peers;
mod scripts;
mod settings;
mod stream;
mod words;
