//! A journal as lines of JSON: each line to JSON, and back.
#![tactic(auto)]

mod law;
mod lines;
mod lines_read;
mod lines_write;

pub use law::lines_come_back;
pub use lines::{DigestText, Head, JournalLine};
pub use lines_read::line_of;
pub use lines_write::{
    answered_value, asked_value, digest_value, flight_value, head_value, lease_value, peer_value,
    row_value, sent_value, victim_value, waiting_value,
};
