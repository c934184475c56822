//! Sessions of HTTP: requests in, responses out, over anything that answers what they ask.
#![tactic(auto)]

mod book;
mod faults;
mod law;
mod room;
mod session;
mod talk;
mod turn;

pub use book::sessions_are_runs;
pub use faults::SessionFault;
pub use law::listings_are_by_application;
pub use room::SessionRoom;
pub use session::serve_session;
pub use talk::{Talk, Turned, take_turn, turns_are_connections, turns_are_sessions};

/// The most requests of a session.
pub const MAX_REQUESTS: u32 = 100;
