//! What is seen of a book, in two steps: what its lock is held for, and the rest.
ghost use Rattle.std.specs.Prelude.{◌≡◌, IfOk};
ghost use Rattle.eu_book.specs.Snapshot.{view_of};

use eu_core::Snapshot;
use eu_model::{Listing, View};
use std::alloc::{AllocError, Global};

/// What a query saw at one moment. A listing of all is still to be made of what was taken.
#[derive(Debug, Drop)]
pub enum ViewSnapshot {
    /// The view itself.
    View(View),
    /// Everything that was held.
    All(Snapshot),
}

impl ViewSnapshot {
    /// The view. `AllocError` where no memory is left.
    pub fn into_view(self, alloc: Global) -> Result<View, AllocError>
        ensures { IfOk result (λ v. v ≡ view_of self) }
    {
        match self {
            ViewSnapshot::View(view) => Ok(view),
            ViewSnapshot::All(snapshot) => Ok(View::All(Listing::new(snapshot.listed(alloc)?))),
        }
    }
}
