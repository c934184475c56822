//! Reads and writes that tell whether they failed.
//!
//! `std::io::Read` and `std::io::Write` don't say in their contracts when an error comes, so a function over
//! them may give up at any time and still meet its contract. A `Source` and a `Sink` remember whether a call
//! failed, and an error is proved to come from a failure alone. `Reading` and `Writing` make the one of any
//! reader, and the other of any writer.
#![tactic(auto)]

mod sink;
mod source;
mod tries;

pub use sink::{Discarding, Sink, WriteFault, Writing, write_whole};
pub use source::{ReadFault, Reading, Source};

/// A call that a signal interrupts is made again, until it was made this many times.
pub const MOST_TRIES: usize = 16;
