//! What is held in key order, for who reads. It is kept once somebody took a snapshot: nobody pays for it before.
ghost use Rattle.std.specs.Prelude.{◌≡◌, ◌≢◌, ◌+◌, ◌-◌, ◌*◌, ◌/◌, ◌<◌, ◌≤◌, ◌⊎◌, filter, length, map, min, slice_index_or, slice_set as set, slice_get, IfOk, IfSome, None, OnOk, Some, true};
ghost use Rattle.std.specs.Arc.{arc_value};
ghost use Rattle.std.specs.List as lists;
ghost use Rattle.std.specs.List.{prefix_len};
ghost use Rattle.std.specs.List.Sorted.{IsPartitionedBy};
ghost use Rattle.std.specs.Map.{keys_of};
ghost use Rattle.std.specs.Option.{option_copied};
ghost use Rattle.eu_base.specs.Limits.{most_leases};
ghost use Rattle.eu_model.specs.View.{is_of};
ghost use Rattle.eu_store.specs.Brief.{IsBrief};
ghost use Rattle.eu_store.specs.Limit.{within};
ghost use Rattle.eu_store.specs.Order.{at_place, at_places, undated_of, is_below, keys_held, room_in, window, AreParts, AreWhole, IsDirectory, IsForgotten};
ghost use Rattle.eu_store.specs.Stored.{listing_of};
ghost use Rattle.std.specs.FinMap as map;

use crate::rows::rows;
use crate::table::Table;
use eu_base::{App, Key};
use eu_model::Listed;
use std::alloc::{AllocError, Global};
use std::sync::Arc;

/// How many neighbours of a table are in a part.
pub(crate) const PART_ROOM: usize = 512;

/// How many parts the largest table has.
const MOST_PARTS: usize = 128;

/// Some neighbours in a table, each without its last update.
pub(crate) type Part = Arc<Vec<Listed>, Global>;

/// The places of a table's leases in the order of their keys; and the leases without their last updates, in parts that readers share, as far as
/// they were gathered since the last step that changed more than the last update of one of the part. A place has 16 bits, since at most 65,536 leases are held: so a lease
/// that comes or goes moves at most 128 KB.
#[derive(Debug, Drop)]
pub(crate) struct Directory {
    pub(crate) places: Vec<u16>,
    pub(crate) parts: Vec<Option<Part>>,
}

impl Directory {
    /// That of a table, with no part. `AllocError` where no memory is left.
    pub(crate) fn of(alloc: Global, table: &Table) -> Result<Directory, AllocError>
        requires { length table.now.entries ≤ most_leases }
        ensures { IfOk result (λ d. IsDirectory table.now.entries d) }
    {
        let rows = rows(alloc, table, None)?;
        let mut places = Vec::with_capacity(alloc, rows.len())?;
        for row in &rows {
            let (place, _key, _held) = table.get_full(row.0).unwrap();
            places.push(place as u16)?;
        }
        Ok(Directory {
            places,
            parts: no_parts(alloc)?,
        })
    }

    /// Makes room for so many leases more.
    pub(crate) fn reserve(&mut self, more: usize) -> Result<(), AllocError>
        ensures places { self.new.places.items ≡ self.old.places.items }
        ensures parts { self.new.parts ≡ self.old.parts }
        ensures ready { OnOk result (more ≤ room_in self.new) }
        ensures room { room_in self.old ≤ room_in self.new }
    {
        self.places.reserve(more)
    }

    /// Puts a key in it that comes behind the last of the table, into the room that was made. Takes no memory.
    pub(crate) fn put(&mut self, table: &Table, key: &Key)
        requires directory { IsDirectory table.now.entries self.old }
        requires few { length table.now.entries < most_leases }
        requires room { 0 < room_in self.old }
        ensures places { self.new.places.items ≡ lists.insert self.old.places.items (prefix_len (is_below key.now) (keys_held table.now.entries)) (length table.now.entries) }
        ensures parts { IsForgotten (length table.now.entries) self.old.parts.items self.new.parts.items }
        ensures room { room_in self.old ≤ room_in self.new + 1 }
    {
        let at = count_within(table, Limit::Below(key), &self.places);
        self.places.insert(at, table.len() as u16).unwrap();
        self.forget(table.len());
    }

    /// Takes out what stands at one position, and writes a place over what stands at another: that of the table's last lease, which goes there.
    /// Takes no memory.
    pub(crate) fn swap_remove(&mut self, at: usize, moved: usize, place: usize, last: usize)
        requires at { at < length self.old.places.items }
        requires moved { moved < length self.old.places.items }
        requires place { place < most_leases }
        ensures places { self.new.places.items ≡ lists.remove (set self.old.places.items moved place) at }
        ensures parts { (n : _) (c : _) → slice_get self.new.parts.items n ≡ Some (Some c)
            → (slice_get self.old.parts.items n ≡ Some (Some c)) × (place / PART_ROOM ≢ n) × (last / PART_ROOM ≢ n) }
        ensures room { room_in self.old ≤ room_in self.new }
    {
        self.places[moved] = place as u16;
        self.places.remove(at);
        self.forget(place);
        self.forget(last);
    }

    /// Lets the part of a place of the table go.
    pub(crate) fn forget(&mut self, place: usize)
        ensures places { self.new.places ≡ self.old.places }
        ensures parts { IsForgotten place self.old.parts.items self.new.parts.items }
    {
        if let Some(part) = self.parts.get_mut(place / PART_ROOM) {
            *part = None;
        }
    }

    /// At which position a place of the table stands. It's found by its key.
    pub(crate) fn standing(&self, table: &Table, place: usize) -> usize
        requires directory { IsDirectory table.now.entries self.now }
        requires within { place < length table.now.entries }
        ensures bound { result < length self.now.places.items }
        ensures value { slice_index_or self.now.places.items result 0 ≡ place }
    {
        let (key, _held) = table.as_slice().get_index(place).unwrap();
        count_within(table, Limit::Below(key), &self.places)
    }

    /// The places of the leases of an application, or of all where none is given.
    fn part<'a>(&'a self, table: &Table, app: Option<&App>) -> &'a [u16]
        requires { IsDirectory table.now.entries self.now }
        ensures { at_places (keys_of table.now.entries) result.now ≡ map Some (filter (is_of (option_copied app.entry)) (keys_held table.now.entries)) }
    {
        let places = self.places.as_slice();
        let Some(app) = app else {
            return places;
        };
        let low = count_within(table, Limit::Before(app), places);
        let high = count_within(table, Limit::Through(app), places);
        &places[low..high]
    }

    /// Whether few leases are held of an application, or in all where none is given, and each is short.
    pub(crate) fn is_brief(
        &self,
        table: &Table,
        app: Option<&App>,
        few: usize,
        short: usize,
    ) -> bool
        requires { IsDirectory table.now.entries self.now }
        ensures { result ≡ true → IsBrief few short (listing_of (option_copied app.entry) (map.from_entries table.now.entries)) }
    {
        let entries = table.as_slice();
        let places = self.part(table, app);
        if places.len() > few {
            return false;
        }
        for place in places {
            let (_key, held) = entries.get_index(usize::from(*place)).unwrap();
            if !held.is_short(short) {
                return false;
            }
        }
        true
    }

    /// What is held of an application, or everything where none is given, in key order. `AllocError` where no memory is left.
    pub(crate) fn listed(
        &self,
        alloc: Global,
        table: &Table,
        app: Option<&App>,
    ) -> Result<Vec<Listed>, AllocError>
        requires { IsDirectory table.now.entries self.now }
        ensures { IfOk result (λ leases. leases.items ≡ listing_of (option_copied app.entry) (map.from_entries table.now.entries)) }
    {
        let entries = table.as_slice();
        let places = self.part(table, app);
        let mut leases = Vec::with_capacity(alloc, places.len())?;
        for place in places {
            let (_key, held) = entries.get_index(usize::from(*place)).unwrap();
            leases.push(held.listed()?)?;
        }
        Ok(leases)
    }

    /// The places in key order, copied. `AllocError` where no memory is left.
    pub(crate) fn order(&self, alloc: Global) -> Result<Vec<u16>, AllocError>
        ensures { IfOk result (λ order. order.items ≡ self.now.places.items) }
    {
        let mut order = Vec::new(alloc);
        order.extend_from_slice(&self.places)?;
        Ok(order)
    }

    /// All parts of the table. Those that are missing are gathered. `AllocError` where no memory is left.
    pub(crate) fn parts(&mut self, alloc: Global, table: &Table) -> Result<Vec<Part>, AllocError>
        requires parts { AreParts table.now.entries self.old.parts.items }
        requires few { length table.now.entries ≤ MOST_PARTS * PART_ROOM }
        ensures places { self.new.places ≡ self.old.places }
        ensures parts { AreParts table.now.entries self.new.parts.items }
        ensures whole { IfOk result (λ parts. AreWhole table.now.entries parts.items) }
    {
        let mut parts = Vec::new(alloc);
        for number in 0..MOST_PARTS {
            if table.len() <= number * PART_ROOM {
                return Ok(parts);
            }
            parts.push(self.part_of(alloc, table, number)?)?;
        }
        Ok(parts)
    }

    /// The part of that number, gathered where it's missing. `AllocError` where no memory is left.
    fn part_of(&mut self, alloc: Global, table: &Table, number: usize) -> Result<Part, AllocError>
        requires parts { AreParts table.now.entries self.old.parts.items }
        requires there { number * PART_ROOM < length table.now.entries }
        ensures places { self.new.places ≡ self.old.places }
        ensures parts { AreParts table.now.entries self.new.parts.items }
        ensures part { IfOk result (λ p. (arc_value p).items ≡ window number (undated_of table.now.entries)) }
    {
        if let Some(part) = self.kept(number)? {
            return Ok(part);
        }
        let part = Arc::new(alloc, gathered(alloc, table, number)?)?;
        let kept = Arc::try_clone(&part)?;
        self.keep(number, kept);
        Ok(part)
    }

    /// The part of that number, where it is kept.
    fn kept(&self, number: usize) -> Result<Option<Part>, AllocError>
        ensures { IfOk result (λ o. IfSome o (λ p. (q : _) × (slice_get self.now.parts.items number ≡ Some (Some q)) × (arc_value p ≡ arc_value q))) }
    {
        match self.parts.get(number) {
            Some(Some(part)) => Ok(Some(Arc::try_clone(part)?)),
            _ => Ok(None),
        }
    }

    /// Keeps the part of that number.
    fn keep(&mut self, number: usize, part: Part)
        ensures places { self.new.places ≡ self.old.places }
        ensures parts { (n : _) (c : _) → slice_get self.new.parts.items n ≡ Some (Some c) → (slice_get self.old.parts.items n ≡ Some (Some c)) ⊎ ((n ≡ number) × (c ≡ part)) }
    {
        if let Some(place) = self.parts.get_mut(number) {
            *place = Some(part);
        }
    }
}

/// The room for all parts, of which none is gathered. `AllocError` where no memory is left.
fn no_parts(alloc: Global) -> Result<Vec<Option<Part>>, AllocError>
    ensures { IfOk result (λ parts. (n : _) (c : _) → slice_get parts.items n ≢ Some (Some c)) }
{
    let mut parts = Vec::with_capacity(alloc, MOST_PARTS)?;
    for _part in 0..MOST_PARTS {
        parts.push(None)?;
    }
    Ok(parts)
}

/// The leases of the part of that number, without their last updates. `AllocError` where no memory is left.
fn gathered(alloc: Global, table: &Table, number: usize) -> Result<Vec<Listed>, AllocError>
    requires { number * PART_ROOM < length table.now.entries }
    ensures { IfOk result (λ v. v.items ≡ window number (undated_of table.now.entries)) }
{
    let entries = table.as_slice();
    let begin = number * PART_ROOM;
    let end = entries.len().min(begin.saturating_add(PART_ROOM));
    let mut neighbours = Vec::with_capacity(alloc, PART_ROOM)?;
    for place in begin..end {
        let (_key, held) = entries.get_index(place).unwrap();
        neighbours.push(held.undated()?)?;
    }
    Ok(neighbours)
}

/// Where keys end that are looked for: before a key, before those of an application, or behind them.
#[derive(Clone, Copy)]
enum Limit<'a> {
    Below(&'a Key),
    Before(&'a App),
    Through(&'a App),
}

/// Whether the key at a place is within a limit.
fn is_within(table: &Table, limit: Limit<'_>, place: usize) -> bool
    ensures { result ≡ at_place (within limit.entry) table.now.entries place }
{
    let Some((key, _held)) = table.get_index(place) else {
        return false;
    };
    match limit {
        Limit::Below(other) => key < other,
        Limit::Before(app) => key.app < *app,
        Limit::Through(app) => key.app <= *app,
    }
}

/// How many places have keys within a limit: the first ones.
fn count_within(table: &Table, limit: Limit<'_>, places: &[u16]) -> usize
    requires { IsPartitionedBy (at_place (within limit) table.now.entries) places.now }
    ensures value { result ≡ prefix_len (at_place (within limit.entry) table.now.entries) places.now }
    ensures bound { result ≤ length places.now }
{
    places.partition_point(
        |place| -> bool
            ensures { result ≡ at_place (within limit.entry) table.entry.now.entries place.now }
        { is_within(table, limit, usize::from(*place)) },
    )
}
