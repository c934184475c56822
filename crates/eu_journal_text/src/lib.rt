//! A journal as a text of lines: written as a whole, and each line read.
#![tactic(auto)]

mod entries;
mod faults;
mod journal;
mod lines;
mod push;
mod states;

pub use faults::WriteError;
pub use journal::{journal_text, write_journal};
pub use lines::{line_texts_come_back, read_line};
