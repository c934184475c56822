//! The table that the leases stand in.
use crate::HeldLease;
use eu_base::Key;
use eu_hash::HashKey;
use indexmap::IndexMap;

/// Leases by their keys, which clients choose: so it hashes them by a key that it is given.
pub(crate) type Table = IndexMap<Key, HeldLease, HashKey>;
