//! Names, moments, stamps, settings, instances, tasks and faults: the values that every layer speaks of.
#![tactic(auto)]

mod digits;
mod faults;
mod hosts;
mod instances;
mod items;
mod limits;
mod names;
mod order;
mod rest;
mod settings;
mod shared;
mod statuses;
mod tasks;
mod times;

pub use digits::read_digits;
pub use faults::Fault;
pub use instances::Instance;
pub use items::Items;
pub use limits::{
    LAST_MOMENT, LONGEST_LEASE, LONGEST_NAME, MOST_ENTRIES, MOST_EXPECTED, MOST_LEASES,
    MOST_PASSES, MOST_PEERS, MOST_RENEWALS, MOST_SENT, MOST_STEPS, MOST_WAITING, TASK_AGE,
    limits_are_one,
};
pub use names::{App, Id, Key, Keys};
pub use order::keys_are_ordered;
pub use rest::Rest;
pub use settings::{Config, ExpectedRenewalSecs, Percent};
pub use shared::SharedInstance;
pub use statuses::Status;
pub use tasks::{Action, Codes, Task, TaskName, Tasks};
pub use times::{LeaseSecs, Moment, RenewalSecs, Stamp};
