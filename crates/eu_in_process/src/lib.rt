//! Servers of this process as peers of each other. No program runs them.
#![tactic(auto)]

mod commands;
mod delivery;

pub use delivery::InProcess;
