//! What paces the workers of a server: the gates that they pass, and when its timers take their turns.
#![tactic(auto)]

mod gate;
mod tally;
mod timers;

pub use gate::{
    BUCKET, EVICTOR, FIRST_REPLICATOR, Gate, Go, MOST_WORKERS, News, OTHER_WORKERS, Point,
    THRESHOLD,
};
pub use tally::{Count, Responded, Tally};
pub use timers::{BUCKET_MS, Periods, Schedule, Schedules, THRESHOLD_MS, Timer};
