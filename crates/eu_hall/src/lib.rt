//! The hall of a server: where open connections stand while their peers are awaited, as plain values, with no lock, socket or thread.
//!
//! A loop of the server owns one `Hall`. Whatever it has of a connection is a guest, and each guest has a place, whose key is the token of the
//! connection. A guest is called when there is something to do for it, and comes back when its peer is awaited again (`Awaited`). What was
//! read of it comes through `Arriving`, which tells a read that would wait from one that failed; what is to be written stands in `Unsent`
//! until its peer takes it.
#![tactic(auto)]

mod arriving;
mod guest;
mod hall;
mod leaving;
mod phase;
mod place;
mod trouble;
mod unsent;

pub use arriving::Arriving;
pub use guest::{Guest, Left, ServerFacts, Visit};
pub use hall::Hall;
pub use leaving::{Leaving, Sent};
pub use phase::{Awaited, Happened, PATIENCE, Patience, Phase};
pub use place::{Place, Standing};
pub use unsent::{MOST_AT_ONCE, MOST_KEPT, Unsent};
