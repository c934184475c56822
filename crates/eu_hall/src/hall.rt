//! The hall.
ghost use Rattle.std.specs.Prelude.{◌≡◌, ◌+◌, ◌≤◌, ◌==◌, ℕ, ◌↔◌, [], Some, None, true, false, if◌then◌else◌, is_some, IsErr, IsOk, IfErr, IfNone, IfOk, IfSome, OnErr, OnOk, OnSome};
ghost use Rattle.std.specs.Bool.{OnFalse};
ghost use Rattle.eu_hall.specs.Places.{IsFirstDue, bytes_at, called_from, is_due};
ghost use Rattle.eu_hall.specs.Rooms.{ChangesOnly, bytes_here, place_at, taken};

use crate::phase::Awaited;
use crate::place::{Place, Standing, first_due, put_back, take};
use slab::Slab;
use std::alloc::{AllocError, Global};
use std::marker::Model;

/// Where open connections stand while their peers are awaited: each is a guest with a place, whose key stays the same until the guest leaves.
///
/// A guest that is called is away until it comes back, and can't be called again meanwhile; so no two workers have one connection. Contracts see what
/// stands at each key, how many places there are, and how many bytes those that stand here can hold.
#[derive(Drop)]
pub struct Hall<G> {
    places: Slab<Place<G>>,
    /// No place from this key on was taken so far.
    bound: usize,
    most: usize,
    bytes: usize,
    most_bytes: usize,
}

impl<G> Model for Hall<G> {
    ghost use Rattle.eu_hall.specs.Rooms.{IsKept, Room};

    ghost Value = { Room G };

    ghost view = { λ h. record { places = h.places.slots; most = h.most; most_bytes = h.most_bytes } };

    ghost invariant = { λ h. IsKept h.places.slots h.places.capacity h.bound h.most h.bytes h.most_bytes };
}

impl<G: Drop> Hall<G> {
    /// A hall with `most` places, all free, whose guests can hold `most_bytes` bytes while they stand there. It takes the memory for all places;
    /// no other call takes any. `AllocError` where there is too little.
    pub fn new(alloc: Global, most: usize, most_bytes: usize) -> Result<Hall<G>, AllocError>
        ensures { IfOk result (λ hall. hall ≡ record { places = []; most = most; most_bytes = most_bytes }) }
    {
        Ok(Hall {
            places: Slab::with_capacity(alloc, most)?,
            bound: 0,
            most,
            bytes: 0,
            most_bytes,
        })
    }

    /// How many places are taken, by guests that stand here or are away.
    pub fn len(&self) -> usize
        ensures value { result ≡ taken self.now }
        ensures most { result ≤ self.now.most }
    {
        let _most = &self.most;
        self.places.len()
    }

    /// Whether no place is taken.
    pub fn is_empty(&self) -> bool
        ensures { result ≡ (taken self.now == 0) }
    {
        self.places.is_empty()
    }

    /// How many bytes those hold that stand here. Those that are away don't count.
    pub fn bytes(&self) -> usize
        ensures value { result ≡ bytes_here self.now }
        ensures most { result ≤ self.now.most_bytes }
    {
        self.bytes
    }

    /// Takes in a guest, which stands at a place that was free and holds no bytes. Tells the key of its place.
    ///
    /// Where all places are taken, the guest is given back, and nothing changes.
    pub fn enter(&mut self, guest: G, awaited: Awaited) -> Result<usize, G>
        ensures full { IsErr result ↔ (taken self.old ≡ self.old.most) }
        ensures free { IfOk result (λ key. place_at self.old key ≡ None) }
        ensures enters { IfOk result (λ key. ChangesOnly self.old self.new key (Some (Place.Here (record { guest = guest; awaited = awaited; bytes = 0 })))) }
        ensures taken { OnOk result (taken self.new ≡ taken self.old + 1) }
        ensures bytes { OnOk result (bytes_here self.new ≡ bytes_here self.old) }
        ensures err { OnErr result (self.new ≡ self.old) }
        ensures guest { IfErr result (λ back. back ≡ guest) }
    {
        if self.places.len() >= self.most {
            return Err(guest);
        }
        let key = self.places.insert_reserved(Place::Here(Standing {
            guest,
            awaited,
            bytes: 0,
        }));
        let _room = self.places.capacity();
        self.bound = self.bound.max(key + 1);
        Ok(key)
    }

    /// Calls the guest that stands at that key, and tells what is awaited of its peer. Its place is away then, and stays taken.
    ///
    /// None, and nothing changes, where it is away already, or where the place is free.
    pub fn call(&mut self, key: usize) -> Option<(G, Awaited)>
        ensures value { result ≡ called_from (place_at self.old key) }
        ensures away { OnSome result (ChangesOnly self.old self.new key (Some Place.Away)) }
        ensures taken { taken self.new ≡ taken self.old }
        ensures bytes { bytes_here self.new + bytes_at (place_at self.old key) ≡ bytes_here self.old }
        ensures none { IfNone result (self.new ≡ self.old) }
    {
        let standing = take(&mut self.places, key)?;
        self.bytes -= standing.bytes;
        Some((standing.guest, standing.awaited))
    }

    /// Puts a guest back in its place, of whose peer this is awaited now; it holds so many bytes that aren't used or sent.
    ///
    /// Where that place isn't away, or where those that stand here would hold more than the limit, the guest is given back, and nothing changes. (In the
    /// second case its place stays away, until it leaves.)
    pub fn come_back(
        &mut self,
        key: usize,
        guest: G,
        awaited: Awaited,
        bytes: usize,
    ) -> Result<(), G>
        ensures back { IsOk result ↔ ((place_at self.old key ≡ Some Place.Away) × (bytes_here self.old + bytes ≤ self.old.most_bytes)) }
        ensures stands { OnOk result (ChangesOnly self.old self.new key (Some (Place.Here (record { guest = guest; awaited = awaited; bytes = bytes })))) }
        ensures taken { taken self.new ≡ taken self.old }
        ensures bytes { OnOk result (bytes_here self.new ≡ bytes_here self.old + bytes) }
        ensures err { OnErr result (self.new ≡ self.old) }
        ensures guest { IfErr result (λ given. given ≡ guest) }
    {
        if bytes > self.most_bytes - self.bytes {
            return Err(guest);
        }
        put_back(
            &mut self.places,
            key,
            Standing {
                guest,
                awaited,
                bytes,
            },
        )?;
        self.bytes += bytes;
        Ok(())
    }

    /// Frees a place, whatever stands there: a guest that stands there is dropped. Tells whether the place was taken; where it was free, nothing changes.
    pub fn leave(&mut self, key: usize) -> bool
        ensures value { result ≡ is_some (place_at self.old key) }
        ensures leaves { ChangesOnly self.old self.new key None }
        ensures taken { taken self.new + (if result then 1 else 0) ≡ taken self.old }
        ensures bytes { bytes_here self.new + bytes_at (place_at self.old key) ≡ bytes_here self.old }
        ensures free { OnFalse result (self.new ≡ self.old) }
    {
        let Some(place) = self.places.try_remove(key) else {
            return false;
        };
        self.bytes -= place.bytes();
        true
    }

    /// Whether the guest that stands at that key is late at `now` (`Awaited::is_late`). False where none stands there.
    pub fn is_late(&self, key: usize, now: u64) -> bool
        ensures { result ≡ is_due now false (place_at self.now key) }
    {
        match self.places.get(key) {
            Some(place) => place.is_due(now, false),
            None => false,
        }
    }

    /// The first key from `from` on whose guest stands here and is late at `now` (`Awaited::is_late`), or idle where the server stops. None where there is none.
    ///
    /// A sweep asks from 0 on, gives the guest up, and asks again from the next key on, until there is none: each place is looked at once.
    pub fn late(&self, from: usize, now: u64, stops: bool) -> Option<usize>
        ensures found { IfSome result (λ key. IsFirstDue self.now.places now stops from key) }
        ensures none { IfNone result ((key : ℕ) → from ≤ key → is_due now stops (place_at self.now key) ≡ false) }
    {
        first_due(&self.places, from, self.bound, now, stops)
    }
}
