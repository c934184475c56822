//! Who is told.
ghost use Rattle.std.specs.Prelude.{List, Option, Some, None, IfOk, OnErr};

use eu_base::Task;
use eu_json::ItemAnswer;
use std::alloc::Global;
use thiserror::Error;

/// A batch was lost: nobody answered it, and nobody knows which of its tasks were done.
#[derive(Clone, Copy, Debug, PartialEq, Eq, Error)]
#[error("the batch was lost")]
pub struct Lost;

/// A server that is told what another server's clients did (`PeerEurekaNode` in Eureka).
///
/// `submits p batch answers q` says that a peer in the state `p`, told the batch, may give these answers, or none where the batch was
/// lost, and be in the state `q` then.
pub trait Peer {
    ghost use Rattle.eu_base.specs.declared.tasks.Task.{Task};
    ghost use Rattle.eu_json.specs.declared.batch_write.ItemAnswer.{ItemAnswer};

    ghost submits: { Self → List Task → Option (List ItemAnswer) → Self → Type 0 };

    /// Tells the peer some tasks, and gives what it answers to each, in order. `Lost` where no answer came.
    fn submit(&mut self, alloc: Global, batch: &[Task]) -> Result<Vec<ItemAnswer>, Lost>
        ensures submits { IfOk result (λ answers. submits self.old batch.now (Some answers.items) self.new) }
        ensures lost { OnErr result (submits self.old batch.now None self.new) };
}
