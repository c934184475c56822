//! The lines of a script: the words of a line, and what they say.
#![tactic(auto)]

mod lines;
mod openings;
mod words;

pub use lines::{Line, read_line};
pub use openings::{Opening, PeerCount};
