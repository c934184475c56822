//! The lines of a journal.
ghost use Rattle.std.specs.Prelude.{◌≡◌, string_bytes};

use eu_base::{Config, Id, Key, Moment, Status, Task};
use eu_model::{Command, Listed, Reply};
use std::marker::Model;

/// The text of a digest. Contracts see its bytes.
#[derive(Debug, Drop)]
pub struct DigestText {
    text: String,
}

impl Model for DigestText {
    ghost use Rattle.std.specs.Prelude.{ℕ, List, string_bytes};

    ghost Value = { List ℕ };

    ghost view = { λ d. string_bytes d.text };
}

impl DigestText {
    /// The digest of that text.
    pub fn new(text: String) -> DigestText
        ensures { result ≡ string_bytes text }
    {
        DigestText { text }
    }

    /// The text.
    pub fn as_str(&self) -> &str
        ensures { result.now ≡ self.now }
    {
        self.text.as_str()
    }
}

/// A state but for its leases, its rows and what its peers are to be told.
#[derive(Clone, Copy, Debug)]
pub struct Head {
    /// The settings.
    pub config: Config,
    /// The clients that are expected to send renewals.
    pub expected: u64,
    /// The renewals of the last whole minute.
    pub last: u64,
    /// The renewals since then.
    pub since: u64,
    /// The moment of the previous eviction, if there was one.
    pub previous: Option<Moment>,
}

/// A line of a journal.
#[derive(Debug, Drop)]
pub enum JournalLine {
    /// A state begins: its settings and its numbers.
    Head(Head),
    /// A lease of the state.
    Lease(Listed),
    /// An override row of the state.
    Row {
        /// The id.
        id: Id,
        /// The status that overrides with it.
        status: Status,
    },
    /// The next peer of the state, first the one with the number 0. What it is to be told follows.
    Peer,
    /// A task that waits for the peer.
    Waiting(Task),
    /// A task in flight to the peer.
    Flight(Task),
    /// An entry begins: who asked, the number of the step, the moment and the command.
    Asked {
        /// The number of who asked.
        pass: u64,
        /// The number of the step, from 0.
        number: u64,
        /// The moment at which it was asked.
        moment: Moment,
        /// The command.
        command: Command,
    },
    /// What the command was answered. An eviction has no victims yet, and a batch no tasks: they follow, each on a line.
    Answered(Reply),
    /// A lease that the eviction took out.
    Victim(Key),
    /// A task of the batch.
    Sent(Task),
    /// The digest of all lines before.
    Digest(DigestText),
}
