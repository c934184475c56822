//! What the program `eureka` does.
#![tactic(auto)]

mod end;
mod files;
mod program;
mod serving;

pub use program::start;
pub use serving::{listen, serve};
