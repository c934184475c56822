//! Deadlines as they were at one moment.
ghost use Rattle.std.specs.Prelude.{◌≡◌, slice_index, IfOk};
ghost use Rattle.eu_deadlines.specs.Heap.{by_position};

use std::alloc::{AllocError, Global};
use std::marker::Model;

/// The deadlines of positions 0, 1, 2 and so on, as they were when the list was made. Contracts see the list.
#[derive(Debug, Drop)]
pub struct DeadlineList {
    deadlines: Vec<u64>,
    places: Vec<usize>,
}

impl Model for DeadlineList {
    ghost use Rattle.std.specs.Prelude.{ℕ, List};
    ghost use Rattle.eu_deadlines.specs.Heap.{by_position};

    ghost Value = { List ℕ };

    ghost view = { λ a. by_position a.deadlines.items a.places.items };
}

impl DeadlineList {
    /// Those of a heap, with the places of the positions in it. Both are copied as they stand. `AllocError` where no memory is left.
    pub(crate) fn of(
        alloc: Global,
        deadlines: &[u64],
        places: &[usize],
    ) -> Result<DeadlineList, AllocError>
        ensures { IfOk result (λ list. list ≡ by_position deadlines.now places.now) }
    {
        let mut list = DeadlineList {
            deadlines: Vec::new(alloc),
            places: Vec::new(alloc),
        };
        list.deadlines.extend_from_slice(deadlines)?;
        list.places.extend_from_slice(places)?;
        Ok(list)
    }

    /// The deadline of a position; 0 where there is none.
    pub fn get(&self, position: usize) -> u64
        ensures { result ≡ slice_index self.now position }
    {
        match self.places.get(position) {
            Some(place) => self.deadlines.get(*place).copied().unwrap_or(0),
            None => 0,
        }
    }
}
