//! The index.
ghost use Rattle.std.specs.Prelude.{◌≡◌, ℕ, ◌+◌, ◌*◌, ◌^◌, ◌<◌, ◌≤◌, ◌++◌, [], ◌∷◌, length, slice_set, vec_len, IfOk, OnOk};
ghost use Rattle.std.specs.List.{swap_remove};
ghost use Rattle.eu_deadlines.specs.Indexed.{AreBefore};

use crate::DeadlineList;
use crate::reading::Counted;
use crate::remove::unlink;
use crate::sift::{reorder, rise};
use crate::walk::earlier_places;
use std::alloc::{AllocError, Global};
use std::marker::Model;

/// The deadlines of positions 0, 1, 2 and so on, seen as their list, with the room that is left.
///
/// They stand in a binary heap, the earliest at the top, beside the position of each entry; and each position knows the place of its
/// entry. So a deadline is set in a logarithm of their number, and n that are before a limit are found by a look at no more than n + 1 others.
#[derive(Debug, Drop)]
pub struct Deadlines {
    deadlines: Vec<u64>,
    positions: Vec<usize>,
    places: Vec<usize>,
}

impl Model for Deadlines {
    ghost use Rattle.eu_deadlines.specs.Indexed.{Indexed, IsIndex, room_of};
    ghost use Rattle.eu_deadlines.specs.Heap.{by_position};

    ghost Value = { Indexed };

    ghost view = { λ a. record { list = by_position a.deadlines.items a.places.items; room = room_of a.deadlines.cap a.positions.cap a.places.cap a.deadlines.items } };

    ghost invariant = { λ a. IsIndex a.deadlines.items a.positions.items a.places.items };
}

impl Deadlines {
    /// No position. Takes no memory.
    pub fn new(alloc: Global) -> Deadlines
        ensures { result.list ≡ [] }
    {
        Deadlines {
            deadlines: Vec::new(alloc),
            positions: Vec::new(alloc),
            places: Vec::new(alloc),
        }
    }

    /// How many positions there are.
    pub fn len(&self) -> usize
        ensures { result ≡ length self.now.list }
    {
        self.places.len()
    }

    /// The list, as it is now. It takes a copy of what is kept, and looks at no position. `AllocError` where no memory is left.
    pub fn list(&self, alloc: Global) -> Result<DeadlineList, AllocError>
        ensures { IfOk result (λ list. list ≡ self.now.list) }
    {
        DeadlineList::of(alloc, &self.deadlines, &self.places)
    }

    /// Makes room for so many more. Where there is no memory for it, no deadline changes.
    pub fn reserve(&mut self, more: usize) -> Result<(), AllocError>
        ensures list { self.new.list ≡ self.old.list }
        ensures ok { OnOk result (more ≤ self.new.room) }
        ensures room { self.old.room ≤ self.new.room }
    {
        self.deadlines.reserve(more)?;
        self.positions.reserve(more)?;
        self.places.reserve(more)
    }

    /// Adds the deadline of the next position, in the room that was made. Takes no memory.
    pub fn push(&mut self, deadline: u64)
        requires { 0 < self.old.room }
        ensures list { self.new.list ≡ self.old.list ++ deadline ∷ [] }
        ensures room { self.old.room ≤ self.new.room + 1 }
    {
        let position = self.deadlines.len();
        self.deadlines.push_reserved(deadline);
        self.positions.push_reserved(position);
        self.places.push_reserved(position);
        rise(
            &mut self.deadlines,
            &mut self.positions,
            &mut self.places,
            position,
        );
    }

    /// Sets the deadline of a position that is there, to an earlier or a later one. Takes no memory.
    pub fn set(&mut self, position: usize, deadline: u64)
        requires { position < length self.old.list }
        ensures list { self.new.list ≡ slice_set self.old.list position deadline }
        ensures room { self.new.room ≡ self.old.room }
    {
        let place = self.places[position];
        let before = self.deadlines[place];
        self.deadlines[place] = deadline;
        reorder(
            &mut self.deadlines,
            &mut self.positions,
            &mut self.places,
            place,
            before,
        );
    }

    /// Takes out a position that is there; the last position takes its number. Takes no memory.
    pub fn swap_remove(&mut self, position: usize)
        requires { position < length self.old.list }
        ensures list { self.new.list ≡ swap_remove self.old.list position 0 }
        ensures room { self.old.room ≤ self.new.room }
    {
        let (place, before) = unlink(
            &mut self.deadlines,
            &mut self.positions,
            &mut self.places,
            position,
        );
        if place < self.deadlines.len() {
            reorder(
                &mut self.deadlines,
                &mut self.positions,
                &mut self.places,
                place,
                before,
            );
        }
    }

    /// The positions whose deadlines are before the limit, each once. What is read is added to the readings: the deadline of each
    /// position that is found, and at most one more than two for each in all.
    ///
    /// `AllocError` where no memory is left for the positions; the readings may have grown all the same.
    pub fn before(
        &self,
        alloc: Global,
        limit: u64,
        readings: &mut u64,
    ) -> Result<Vec<usize>, AllocError>
        requires { readings.old + 2 * length self.now.list + 2 < 2 ^ 64 }
        ensures found { IfOk result (λ found. AreBefore self.now.list limit found.items) }
        ensures counted { IfOk result (λ found. readings.new ≤ readings.old + 2 * vec_len found + 1) }
        ensures read { IfOk result (λ found. readings.old + vec_len found ≤ readings.new) }
    {
        let heap = Counted::new(&self.deadlines);
        let mut found = earlier_places(alloc, &heap, limit, readings)?;
        for place in found.iter_mut() {
            *place = self.positions[*place];
        }
        Ok(found)
    }
}
