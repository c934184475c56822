//! A journal from its text, line by line.
#![tactic(auto)]

mod entries;
mod faults;
mod journal;
mod law;
mod reader;
mod stages;
mod states;

pub use faults::JournalFault;
pub use journal::{Recorded, read_journal};
pub use law::{a_text_says_one_journal, journals_come_back};
