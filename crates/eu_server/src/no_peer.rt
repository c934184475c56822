//! What stands for the peer of a server without peers.

use eu_base::Task;
use eu_peer::{ItemAnswer, Lost, Peer};
use std::alloc::Global;

/// A peer for a server that has none: whatever it were sent would be lost.
#[derive(Clone, Copy, Debug, PartialEq, Eq)]
pub struct NoPeer;

impl Peer for NoPeer {
    ghost use Rattle.std.specs.Prelude.{◌≡◌, None};

    ghost submits = { λ before batch answers after. answers ≡ None };

    fn submit(&mut self, _alloc: Global, _batch: &[Task]) -> Result<Vec<ItemAnswer>, Lost> {
        Err(Lost)
    }
}
