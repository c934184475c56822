//! The lease machine: what a registry is, what may be asked of it, and what it may answer.
//!
//! Whoever asks (a session, a turn for a peer) knows a [`Desk`]: a book is one (`eu_book`), and so is a pass of a shared book in its seat (`eu_shared`).
//!
//! The rules stand in `specs/`, from `Machine` to `Law`. The types here are what they speak of.
#![tactic(auto)]

mod asks;
mod commands;
mod desk;
mod law;
mod queues;
mod states;
mod status_counts;
mod tallies;
mod views;

pub use asks::{Answer, Ask};
pub use commands::{Command, Entry, Reply};
pub use desk::Desk;
pub use law::{
    evictions_are_safe, leases_are_accounted, peers_and_timers_queue_nothing, plain_form_decides,
    plain_servers_decide, preservation_keeps_all, runs_are_what_entries_say, who_is_silent_goes,
    who_renews_is_kept,
};
pub use queues::{Queue, Queues};
pub use states::{OverrideRows, State};
pub use status_counts::StatusCounts;
pub use tallies::Tally;
pub use views::{Counts, Gauges, Listed, Listing, Query, Times, View};
