//! The tests, by what they are of.
mod client;
mod files;
mod fits;
mod journals;
mod machine;
mod options;
mod runs;
mod servers;
