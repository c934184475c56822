//! The deadlines of numbered positions, with those that have passed within reach.
#![tactic(auto)]

mod deadlines;
mod list;
mod reading;
mod remove;
mod sift;
mod walk;

pub use deadlines::Deadlines;
pub use list::DeadlineList;
