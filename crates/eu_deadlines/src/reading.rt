//! Deadlines that are counted as they are read.
ghost use Rattle.std.specs.Prelude.{◌≡◌, ◌+◌, ◌^◌, ◌<◌, length, slice_index};

use std::marker::Model;

/// The deadlines of a heap, by place, for whoever is to count each one that is read: there is no other way to one.
#[derive(Drop)]
pub struct Counted<'a> {
    deadlines: &'a [u64],
}

impl<'a> Model for Counted<'a> {
    ghost use Rattle.std.specs.Prelude.{ℕ, List};

    ghost Value = { List ℕ };

    ghost view = { λ a. a.deadlines.now };
}

impl<'a> Counted<'a> {
    /// These deadlines.
    pub fn new(deadlines: &'a [u64]) -> Counted<'a>
        ensures { result ≡ deadlines.now }
    {
        Counted { deadlines }
    }
}

impl Counted<'_> {
    /// How many there are.
    pub fn len(&self) -> usize
        ensures { result ≡ length self.now }
    {
        self.deadlines.len()
    }

    /// Reads the deadline at a place, and counts that it was read.
    pub fn read(&self, place: usize, readings: &mut u64) -> u64
        requires within { place < length self.now }
        requires fits { readings.old + 1 < 2 ^ 64 }
        ensures value { result ≡ slice_index self.now place }
        ensures counted { readings.new ≡ readings.old + 1 }
    {
        let deadlines = self.deadlines;
        *readings += 1;
        deadlines[place]
    }
}
