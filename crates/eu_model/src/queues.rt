//! What waits for peers, as plain data.

use eu_base::{Items, Tasks};

/// What a peer is to be told.
#[derive(Debug, Drop)]
pub struct Queue {
    /// The tasks that wait, first to last. In a book no two of them have one name.
    pub waiting: Tasks,
    /// The tasks in flight, as one batch. In a book no two of them have one name.
    pub flight: Tasks,
}

/// The queues of the peers, by their numbers.
pub type Queues = Items<Queue>;
