//! The book of a registry: the registry with the outboxes of its peers, the journal of what they were told last, and the sums of what
//! all that was told did.
//!
//! Each command that is accepted is one entry of the journal, and a step of the lease machine; the entries are at any time a
//! run from the journal's base to the registry and the outboxes as they are. Of the base only what waited for the peers is kept: with each
//! entry stands what its step replaced, and by that a copy of the registry is led back to the base, where that is asked for. A journal
//! that is full begins anew in lists that are kept for that: what they are becomes its base, which copies no lease. The entries that it
//! dropped are let go of one by one, as new ones come. So a book goes on for 2^62 steps. It keeps 65,536 entries at most, and at most as
//! many that were dropped.
#![tactic(auto)]

mod book;
mod checkpoint;
mod desk;
mod entering;
mod journal;
mod law;
mod peers;
mod serving;
mod snapshot;
mod tasks;
mod undoing;

pub use book::{Book, LoggedReceipt, Receipt};
pub use journal::{Dropped, Journal, Logged};
pub use law::{drains_are_busy, listings_ascend};
pub use snapshot::ViewSnapshot;
