//! How a registry is opened.
ghost use Rattle.std.specs.Prelude.{◌≡◌, ◌≤◌, SomeIff};

use eu_base::MOST_PEERS;
use std::marker::Model;

/// How many peers a registry has: 0 to 8. Contracts see the number.
#[derive(Clone, Copy, Debug)]
pub struct PeerCount {
    count: u32,
}

impl Model for PeerCount {
    ghost use Rattle.std.specs.Prelude.{ℕ, ◌≤◌};
    ghost use Rattle.eu_base.specs.Limits.{most_peers};

    ghost Value = { ℕ };

    ghost view = { λ p. p.count };

    ghost invariant = { λ p. p.count ≤ most_peers };

    ghost inverse = { λ n. record { count = n } };
}

impl PeerCount {
    /// No peer.
    pub const NONE: PeerCount = PeerCount { count: 0 };

    /// So many peers. None exactly where they are more than 8.
    pub fn new(count: u32) -> Option<PeerCount>
        ensures { SomeIff result (count ≤ MOST_PEERS) count }
    {
        if count > MOST_PEERS {
            return None;
        }
        Some(PeerCount { count })
    }

    /// The number.
    pub fn count(self) -> u32
        ensures value { result ≡ self }
        ensures bound { result ≤ MOST_PEERS }
    {
        self.count
    }
}

/// How a registry is opened.
#[derive(Clone, Copy, Debug)]
pub struct Opening {
    /// So many clients are expected.
    pub expected: u32,
    /// So many peers there are.
    pub peers: PeerCount,
}
