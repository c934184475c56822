//! A book that was closed, as plain data, and whether the logs of who asked are its entries.
#![tactic(auto)]

mod closed;
mod parts;
mod settling;

pub use closed::{Closed, PassLog};
pub use settling::{Mismatch, settle};
