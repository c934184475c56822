//! The leases that are held, by their keys.
ghost use Rattle.std.specs.Prelude.{◌≡◌, ◌↔◌, ◌<◌, ◌≤◌, ◌+◌, ◌-◌, ◌*◌, ◌^◌, ◌⊎◌, length, map, None, slice_get, is_some, IfSome, IfOk, IfErr, OnOk, true};
ghost use Rattle.std.specs.Option.{option_copied};
ghost use Rattle.std.specs.FinMap as map;
ghost use Rattle.indexmap.specs.IndexMap.{values, index_map_len, get_by, index_of_by, IsUnique};
ghost use Rattle.eu_base.specs.Values.{key_eq};
ghost use Rattle.eu_store.specs.Brief.{IsBrief};
ghost use Rattle.eu_store.specs.Removed.{with_values};
ghost use Rattle.eu_store.specs.Stored.{amended, changed, expired_keys, listing_of};
ghost use Rattle.eu_store.specs.Sweep.{Suffices};
ghost use Rattle.eu_model.specs.Machine.{without};
ghost use Rattle.eu_model.specs.View.{status_counts, with_one_more, with_one_fewer, in_status};

use crate::directory::Directory;
use crate::rows::listed_rows;
use crate::sweep::{self, Taking};
use crate::table::Table;
use crate::{Amendment, HeldLease, Snapshot, kept};
use eu_base::{App, Fault, Key, MOST_LEASES, Moment, Status};
use eu_deadlines::Deadlines;
use eu_hash::HashKey;
use eu_model::{Listed, StatusCounts};
use indexmap::IndexMap;
use std::alloc::{AllocError, Global};
use std::marker::Model;

/// Where a lease was found. It's a hint: where another lease stands there now, the key is looked up once more.
#[derive(Clone, Copy, Debug)]
pub struct Place {
    index: usize,
}

/// Where that key stands in the table, if it does: where it was found, or else where a look-up finds it.
#[inline(always)]
fn place_of(table: &Table, key: &Key, hint: Place) -> Option<usize>
    ensures index { result ≡ index_of_by (key_eq key.now) table.now }
    ensures found { is_some result ≡ is_some (get_by (key_eq key.now) table.now) }
    ensures within { IfSome result (λ i. i < index_map_len table.now) }
    ensures value { IfSome result (λ i. slice_get (values table.now) i ≡ get_by (key_eq key.now) table.now) }
    ensures unique { IsUnique key_eq table.now }
{
    match table.as_slice().get_index(hint.index) {
        Some((found, _held)) if found == key => Some(hint.index),
        _ => table.get_index_of(key),
    }
}

/// The leases that are held. Contracts see a finite map from keys to what is listed, and how many more can be put without
/// taking memory.
///
/// Beside them stands an index of their deadlines, in the order of the table, so that of those which have expired n are found
/// by a look at no more than n + 1 others. How many have each status is counted at each step. And once a snapshot was taken, there
/// is a directory of the leases in key order.
#[derive(Debug, Drop)]
pub struct Leases {
    table: Table,
    index: Deadlines,
    counts: StatusCounts,
    directory: Option<Directory>,
}

impl Model for Leases {
    ghost use Rattle.std.specs.Prelude.{◌≡◌, length, ◌≤◌, ◌-◌, min};
    ghost use Rattle.std.specs.FinMap as map;
    ghost use Rattle.indexmap.specs.IndexMap.{spare};
    ghost use Rattle.eu_store.specs.Stored.{Stored, coded_stored, counts_of, deadlines};
    ghost use Rattle.eu_store.specs.Order.{AreOrdered, room_of};
    ghost use Rattle.eu_base.specs.Limits.{most_leases};

    ghost Value = { Stored };

    ghost coded = { coded_stored };

    ghost view = { λ a. record { held = map.from_entries a.table.entries; room = min (min (min (spare a.table) a.index.room) (room_of a.directory)) (most_leases - length a.table.entries) } };

    ghost invariant = { λ a. (length a.table.entries ≤ most_leases) × (a.index.list ≡ deadlines a.table.entries) × (a.counts ≡ counts_of (map.from_entries a.table.entries)) × AreOrdered a.table.entries a.directory };
}

impl Leases {
    /// No lease; the table is to hash by that key. Takes no memory.
    pub fn new(alloc: Global, hash_key: HashKey) -> Leases
        ensures { result.held ≡ map.empty }
    {
        Leases {
            table: IndexMap::with_hasher(alloc, hash_key),
            index: Deadlines::new(alloc),
            counts: StatusCounts::of(&[]),
            directory: None,
        }
    }

    /// What is held under that key.
    pub fn get(&self, key: &Key) -> Option<&HeldLease>
        ensures { option_copied result ≡ map.get self.now.held key.now }
    {
        self.table.get(key)
    }

    /// The same, and where it was found, for who changes it then.
    pub fn find(&self, key: &Key) -> (Place, Option<&HeldLease>)
        ensures { option_copied result.1 ≡ map.get self.now.held key.now }
    {
        match self.table.get_full(key) {
            Some((index, _key, held)) => (Place { index }, Some(held)),
            None => (Place { index: 0 }, None),
        }
    }

    /// How many leases are held: at most 65,536.
    pub fn len(&self) -> usize
        ensures value { result ≡ map.len self.now.held }
        ensures bound { result ≤ MOST_LEASES }
    {
        self.table.len()
    }

    /// How many leases are held of each status, expired or not. Takes no memory, and looks at no lease.
    pub fn status_counts(&self) -> StatusCounts
        ensures { result ≡ status_counts (listing_of None self.now.held) }
    {
        self.counts
    }

    /// Makes room for as many leases as may be held, so that nothing grows any more as they come. `AllocError` where no memory is left, which changes
    /// nothing that is held, and takes no room away.
    pub fn reserve_all(&mut self) -> Result<(), AllocError>
        ensures held { self.new.held ≡ self.old.held }
        ensures room { self.old.room ≤ self.new.room }
        ensures ready { OnOk result (map.len self.old.held + self.new.room ≡ MOST_LEASES) }
    {
        let more = MOST_LEASES - self.table.len();
        self.table.reserve(more)?;
        self.index.reserve(more)?;
        kept::reserve(&mut self.directory, more)
    }

    /// Makes room for one lease more. `Full` exactly where 65,536 are held; else `OutOfMemory`. Neither changes what is held, or
    /// takes room away.
    pub fn reserve(&mut self) -> Result<(), Fault>
        ensures held { self.new.held ≡ self.old.held }
        ensures room { self.old.room ≤ self.new.room }
        ensures ready { OnOk result (0 < self.new.room) }
        ensures full { (result ≡ Err Fault.Full) ↔ (map.len self.old.held ≡ MOST_LEASES) }
        ensures no_other { IfErr result (λ f. (f ≡ Fault.Full) ⊎ (f ≡ Fault.OutOfMemory)) }
    {
        if self.table.len() >= MOST_LEASES {
            return Err(Fault::Full);
        }
        self.table.reserve(1)?;
        self.index.reserve(1)?;
        kept::reserve(&mut self.directory, 1)?;
        Ok(())
    }

    /// Puts a lease under a key that has none, into the room that was made. Takes no memory.
    pub fn insert(&mut self, key: Key, held: HeldLease)
        requires new { map.get self.old.held key ≡ None }
        requires room { 0 < self.old.room }
        ensures held { self.new.held ≡ map.insert self.old.held key held }
        ensures room { self.old.room ≤ self.new.room + 1 }
    {
        kept::put(&mut self.directory, &self.table, &key);
        self.counts.add(held.instance().status());
        self.index.push(held.deadline());
        self.table.insert(key, held).unwrap();
    }

    /// Takes out what is held under that key. Takes no memory.
    pub fn take(&mut self, key: &Key, hint: Place) -> Option<HeldLease>
        ensures before { result ≡ map.get self.old.held key.now }
        ensures held { self.new.held ≡ map.remove self.old.held key.now }
        ensures room { self.old.room ≤ self.new.room }
    {
        let place = place_of(&self.table, key, hint)?;
        kept::take(&mut self.directory, &self.table, place);
        let (_key, held) = sweep::take_out(
            &mut self.table,
            &mut self.index,
            &mut self.counts,
            place,
        );
        Some(held)
    }

    /// Room to take out what is held under so many keys, out of as many leases as are held. For no key none is made. `AllocError` where no memory is
    /// left.
    pub fn room_for(&self, alloc: Global, number: usize) -> Result<Taking, AllocError>
        ensures { IfOk result (λ room. Suffices room number (map.len self.now.held)) }
    {
        Taking::new(alloc, number, self.table.len())
    }

    /// Takes out what is held under these keys, one after the other, and gives it in their order. A key under which nothing is held gives
    /// `None`. What is kept in key order is gone through once, however many go. Takes no memory.
    pub fn take_all(&mut self, keys: &[Key], room: Taking) -> Vec<Option<HeldLease>>
        requires room { Suffices room (length keys.now) (map.len self.old.held) }
        ensures held { self.new.held ≡ without self.old.held keys.now }
        ensures long { length result.items ≡ length keys.now }
        ensures back { with_values self.new.held keys.now result.items ≡ self.old.held }
        ensures room { self.old.room ≤ self.new.room }
    {
        sweep::take_all(
            &mut self.table,
            &mut self.index,
            &mut self.counts,
            &mut self.directory,
            keys,
            room,
        )
    }

    /// Amends the lease of that key, and tells whether one is held. Takes no memory.
    pub fn amend(&mut self, key: &Key, hint: Place, amendment: Amendment) -> bool
        ensures found { result ≡ is_some (map.get self.old.held key.now) }
        ensures held { self.new.held ≡ changed (amended amendment) self.old.held key.now }
        ensures room { self.new.room ≡ self.old.room }
    {
        let Some(place) = place_of(&self.table, key, hint) else {
            drop(amendment);
            return false;
        };
        let is_kept = amendment.renews(&self.table[place]);
        kept::change(&mut self.directory, &self.table, place, is_kept);
        let held = &mut self.table[place];
        let before = held.instance().status();
        held.amend(amendment);
        recount(&mut self.counts, before, held.instance().status());
        self.index.set(place, held.deadline());
        true
    }

    /// The keys of the leases that have expired, if each is granted some extra milliseconds, in key order. `AllocError`
    /// where no memory is left.
    pub fn expired_keys(
        &self,
        alloc: Global,
        moment: Moment,
        extra: u64,
    ) -> Result<Vec<Key>, AllocError>
        ensures { IfOk result (λ keys. keys.items ≡ expired_keys self.now.held moment extra) }
    {
        let (keys, _) = self.expired_counted(alloc, moment, extra)?;
        Ok(keys)
    }

    /// The same, and how many entries of the index of deadlines were looked at: for n keys at least n, and at most 2n + 1.
    /// `AllocError` where no memory is left.
    pub fn expired_counted(
        &self,
        alloc: Global,
        moment: Moment,
        extra: u64,
    ) -> Result<(Vec<Key>, u64), AllocError>
        ensures keys { IfOk result (λ r. r.0.items ≡ expired_keys self.now.held moment extra) }
        ensures few { IfOk result (λ r. r.1 ≤ 2 * length r.0.items + 1) }
        ensures each { IfOk result (λ r. length r.0.items ≤ r.1) }
    {
        let mut readings = 0;
        let limit = moment.ms().saturating_sub(extra);
        let places = self.index.before(alloc, limit, &mut readings)?;
        let entries = self.table.as_slice();
        let mut keys = Vec::with_capacity(alloc, places.len())?;
        for place in &places {
            let (key, _) = entries.get_index(*place).unwrap();
            keys.push(key.copy(alloc)?)?;
        }
        keys.sort()?;
        Ok((keys, readings))
    }

    /// How many leases have expired, if each is granted some extra milliseconds. Looks at no lease: only at the index of deadlines. `AllocError` where
    /// no memory is left.
    pub fn expired_number(
        &self,
        alloc: Global,
        moment: Moment,
        extra: u64,
    ) -> Result<usize, AllocError>
        ensures { IfOk result (λ number. number ≡ length (expired_keys self.now.held moment extra)) }
    {
        let mut looked = 0;
        let limit = moment.ms().saturating_sub(extra);
        let places = self.index.before(alloc, limit, &mut looked)?;
        let _entries = self.table.as_slice();
        Ok(places.len())
    }

    /// What is held of an application, or everything where none is given: expired or not, in key order. `AllocError` where no memory is
    /// left.
    pub fn listed(&self, alloc: Global, app: Option<&App>) -> Result<Vec<Listed>, AllocError>
        ensures { IfOk result (λ leases. leases.items ≡ listing_of (option_copied app.entry) self.now.held) }
    {
        match &self.directory {
            Some(directory) => directory.listed(alloc, &self.table, app),
            None => listed_rows(alloc, &self.table, app),
        }
    }

    /// Whether it is known that few leases are held of an application, or in all where none is given, and that each is short: `few` at most, and of each at
    /// most `short` bytes of what its client gave, as text. It looks at so many leases at most. It isn't known where no order is kept, as before the first
    /// snapshot, nor of an instance of which no text is kept, as one that a script gave no more than a host. Takes no memory.
    pub fn is_brief(&self, app: Option<&App>, few: usize, short: usize) -> bool
        ensures { result ≡ true → IsBrief few short (listing_of (option_copied app.entry) self.now.held) }
    {
        match &self.directory {
            Some(directory) => directory.is_brief(&self.table, app, few, short),
            None => false,
        }
    }

    /// The same leases once more; they share their instances, and hash by the same key. `AllocError` where no memory is left.
    pub fn copy(&self, alloc: Global) -> Result<Leases, AllocError>
        ensures { IfOk result (λ copy. copy.held ≡ self.now.held) }
    {
        let mut copy = Leases::new(alloc, *self.table.hasher());
        let entries = self.table.as_slice();
        let mut left = self.table.len();
        while left > 0 {
            left -= 1;
            let (key, held) = entries.get_index(left).unwrap();
            if copy.reserve().is_err() {
                return Err(AllocError);
            }
            copy.insert(key.copy(alloc)?, held.copy()?);
        }
        Ok(copy)
    }

    /// Everything that is held, for who holds a lock. The first one sorts what is held; each other looks at no lease, but at those that
    /// stand near one that came, went, or changed by more than its last update. What is held stays as it is. `AllocError` where no memory is left.
    pub fn snapshot(&mut self, alloc: Global) -> Result<Snapshot, AllocError>
        ensures listing { IfOk result (λ s. s ≡ listing_of None self.old.held) }
        ensures held { self.new.held ≡ self.old.held }
    {
        kept::make(&mut self.directory, alloc, &self.table)?;
        let directory = self.directory.as_mut().unwrap();
        let parts = directory.parts(alloc, &self.table)?;
        let order = directory.order(alloc)?;
        let deadlines = self.index.list(alloc)?;
        // for the prover: so its keys are known to be distinct
        let _entries = self.table.as_slice();
        Ok(Snapshot::new(parts, deadlines, order))
    }
}

/// Counts one lease of a status less, and one of another more. Nothing changes where both are the same.
#[inline(always)]
fn recount(counts: &mut StatusCounts, before: Status, after: Status)
    requires before { 0 < in_status counts.old before }
    requires after { in_status counts.old after < 2 ^ 64 - 1 }
    ensures { counts.new ≡ with_one_more (with_one_fewer counts.old before) after }
{
    if before != after {
        counts.remove(before);
        counts.add(after);
    }
}
