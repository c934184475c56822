//! What came of a worker.
ghost use Rattle.eu_workers.specs.Ended.{Counts};
ghost use Rattle.std.specs.Prelude.{◌+◌, ◌≤◌, ◌<◌, ◌^◌, is_err};

/// What a worker did until it ended.
#[derive(Clone, Copy, Debug, Default, PartialEq, Eq)]
pub struct Ended {
    /// The turns that it began.
    pub turns: u64,
    /// Those of them that were refused, or ended by a fault.
    pub refused: u64,
}

impl Ended {
    /// Counts a turn by what came of it.
    pub(crate) fn count<T, F>(&mut self, turn: &Result<T, F>)
        requires room { self.old.turns + 1 < 2 ^ 64 }
        requires few { self.old.refused ≤ self.old.turns }
        ensures { Counts self.old (is_err turn.now) self.new }
    {
        self.turns += 1;
        if turn.is_err() {
            self.refused += 1;
        }
    }
}
