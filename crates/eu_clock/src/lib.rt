//! What the registry asks of the outside: moments, and words for its draws; and how it draws by them.
#![tactic(auto)]

mod choosers;
mod clocks;
mod shuffle;

pub use choosers::{Chooser, FirstChooser, ListChooser, RngChooser};
pub use clocks::{Clock, ListClock, SystemClock};
pub use shuffle::choose;
