//! The registry's book behind one lock, with exact accounts.
#![tactic(auto)]

mod closing;
mod held;
mod pass;
mod seat;
mod shared;
mod shares;
mod sums;

pub use closing::Unclosed;
pub use held::Held;
pub use pass::Pass;
pub use seat::Seat;
pub use shared::{Shared, close};
pub use shares::{Blanks, Label, PARTS};
