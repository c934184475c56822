//! A server's connections: a door that accepts them, loops in whose halls they wait, and a pool for requests that take long; and the pace of
//! its timers.
#![tactic(auto)]

mod admission;
mod behind;
mod bell;
mod calls;
mod door;
mod gathering;
mod hub;
mod loops;
mod mail;
mod messages;
mod outlet;
mod pace;
mod pool;
mod queue;
mod station;

pub use admission::{Admission, Entry, SPARE};
pub use door::Door;
pub use gathering::can_gather;
pub use hub::{Hub, Limits};
pub use loops::Loop;
pub use mail::Mailbox;
pub use messages::{Message, Told};
pub use pace::Pace;
pub use pool::{HandName, Pool};
pub use station::{Hand, Station};
