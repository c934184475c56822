//! A server: workers that serve connections, and timers, over one shared book.
#![tactic(auto)]

mod no_peer;
mod serve;

pub use eu_accept::Limits;
pub use eu_gate::{BUCKET_MS, MOST_WORKERS, THRESHOLD_MS};
pub use serve::{Finished, Plan, serve_book, serve_by, serve_with_journal};
