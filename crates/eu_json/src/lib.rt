//! JSON: instances and batches of peers' tasks that are read, and instances, listings, batches and their answers that are written.
#![tactic(auto)]

mod batch;
mod batch_write;
mod checks;
mod judge;
mod law;
mod listings;
mod members;
mod numbers;
mod read;
mod statuses;
mod write;

pub use batch::read_batch;
pub use batch_write::{ItemAnswer, append_answers, batch_text};
pub use law::{batches_come_back, items_are_of_applications};
pub use listings::{append_application, append_applications, append_held};
pub use read::read_instance;
