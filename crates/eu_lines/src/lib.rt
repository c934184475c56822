//! A text of lines, answered as it comes.
//!
//! `answer_lines` reads a stream of bytes, cuts it into lines at LF, has each line answered by an `Answerer`, and
//! writes what the lines print. Whole lines are answered, written and flushed before the next read. It takes time
//! in proportion to the text, however the text is cut into reads, keeps no more of it than one read and the front of
//! one line, and ends even where the reader never does.
#![tactic(auto)]

mod answerer;
mod faults;
mod limits;
mod lines;
mod run;
mod script;

pub use answerer::Answerer;
pub use faults::{LineError, ScriptFault};
pub use limits::{LONGEST_LINE, Limits, MOST_BYTES};
pub use script::answer_lines;
