//! The tests, by what they are of.
mod accepted;
mod admissions;
mod client;
mod cuts;
mod journals;
mod operators;
mod polls;
mod servers;
