//! The values of a journal's lines as JSON: to JSON, and back.
#![tactic(auto)]

mod commands;
mod faults;
mod members;
mod read;
mod replies;
mod write;

pub use commands::{command_of, command_value};
pub use faults::LineFault;
pub use members::{member_in, moment_in, number_in, status_in, text_in};
pub use read::{config_from, id_of, instance_in, key_in, task_of, times_of};
pub use replies::{reply_of, reply_value};
pub use write::{config_value, instance_value, key_value, status_value, task_value, times_value};
