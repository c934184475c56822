//! Which kind of answer a request wants.

/// The kind of answer that a request wants.
#[derive(Clone, Copy, Debug, PartialEq, Eq)]
pub enum Wanted {
    /// A command's reply.
    Change,
    /// The replies of a batch, one for each of its commands.
    Batch,
    /// One lease.
    One,
    /// What an application holds.
    OfApp,
    /// All that is held.
    All,
    /// The counts, and all that is held.
    Page,
}
