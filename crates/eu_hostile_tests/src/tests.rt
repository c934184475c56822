//! The tests, by what they are of.
mod bodies;
mod cuts;
mod decided;
mod ends;
mod failures;
mod fakes;
mod long;
mod rows;
mod smuggling;
mod tables;
