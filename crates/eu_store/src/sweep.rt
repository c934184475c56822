//! Leases are taken out, one or many. What is kept in key order is gone through once, however many go.
ghost use Rattle.std.specs.Prelude.{◌≡◌, ◌<◌, ◌≤◌, List, Some, IfOk, length, map as all, slice_get};
ghost use Rattle.std.specs.FinMap as map;
ghost use Rattle.std.specs.List.{swap_remove as swapped};
ghost use Rattle.indexmap.specs.IndexMap.{spare, IsUnique};
ghost use Rattle.eu_base.specs.Limits.{most_leases};
ghost use Rattle.eu_base.specs.Values.{key_eq};
ghost use Rattle.eu_base.specs.declared.names.Key.{Key};
ghost use Rattle.eu_model.specs.Machine.{without};
ghost use Rattle.eu_model.specs.declared.views.Listed.{Listed};
ghost use Rattle.eu_store.specs.Order.{at_places, map_by, room_of, AreOrdered};
ghost use Rattle.eu_store.specs.Removed.{with_values};
ghost use Rattle.eu_store.specs.Stored.{counts_of, deadlines};
ghost use Rattle.eu_store.specs.Sweep.{places_in, ArePartsOf, Suffices};

use crate::directory::Directory;
use crate::places::counted;
use crate::table::Table;
use crate::{HeldLease, kept};
use eu_base::Key;
use eu_deadlines::Deadlines;
use eu_model::StatusCounts;
use std::alloc::{AllocError, Global};
use std::marker::Model;

/// Room for what is taken out under some keys, and for what that needs. Contracts see how many keys it suffices for, and out of how many
/// leases.
///
/// The places of the table are counted in it: of each lease that stays at the end it tells where that stood before.
#[derive(Debug, Drop)]
pub struct Taking {
    held: Vec<Option<HeldLease>>,
    origins: Vec<u16>,
    moved: Vec<u16>,
}

impl Model for Taking {
    ghost use Rattle.std.specs.Prelude.{◌≡◌, ◌≤◌, [], length, vec_capacity};
    ghost use Rattle.eu_base.specs.Limits.{most_leases};
    ghost use Rattle.eu_store.specs.Sweep.{AreCounted, Space};

    ghost Value = { Space };

    ghost view = { λ a. record { keys = vec_capacity a.held; leases = length a.origins.items } };

    ghost invariant = { λ a. (a.held.items ≡ []) × AreCounted a.origins.items × (length a.moved.items ≡ length a.origins.items) × (length a.origins.items ≤ most_leases) };
}

impl Taking {
    /// Room for so many keys, out of so many leases. For no key none is made. `AllocError` where no memory is left.
    pub(crate) fn new(alloc: Global, keys: usize, leases: usize) -> Result<Taking, AllocError>
        requires { leases ≤ most_leases }
        ensures { IfOk result (λ taking. Suffices taking keys leases) }
    {
        let places = if keys == 0 { 0 } else { leases };
        Ok(Taking {
            held: Vec::with_capacity(alloc, keys)?,
            origins: counted(alloc, places)?,
            moved: counted(alloc, places)?,
        })
    }
}

/// Takes the lease of a place out of the table, its deadline out of their index, and counts it no more. The last one gets its place. Takes
/// no memory.
#[inline(always)]
pub(crate) fn take_out(
    table: &mut Table,
    index: &mut Deadlines,
    counts: &mut StatusCounts,
    place: usize,
) -> (Key, HeldLease)
    requires unique { IsUnique key_eq table.old }
    requires within { place < length table.old.entries }
    requires index { index.old.list ≡ deadlines table.old.entries }
    requires counts { counts.old ≡ counts_of (map_by table.old.entries) }
    ensures entry { slice_get table.old.entries place ≡ Some result }
    ensures entries { table.new.entries ≡ swapped table.old.entries place result }
    ensures held { map_by table.new.entries ≡ map.remove (map_by table.old.entries) result.0 }
    ensures there { map.get (map_by table.old.entries) result.0 ≡ Some result.1 }
    ensures index { index.new.list ≡ deadlines table.new.entries }
    ensures counts { counts.new ≡ counts_of (map_by table.new.entries) }
    ensures few { length table.new.entries ≤ length table.old.entries }
    ensures spare { spare table.old ≤ spare table.new }
    ensures room { index.old.room ≤ index.new.room }
{
    let (key, held) = table.swap_remove_index(place).unwrap();
    index.swap_remove(place);
    counts.remove(held.instance().status());
    (key, held)
}

/// Takes out what is held under a key, and notes in `origins` that the last lease stands at its place now. Takes no memory.
fn take_one(
    table: &mut Table,
    index: &mut Deadlines,
    counts: &mut StatusCounts,
    directory: &mut Option<Directory>,
    origins: &mut Vec<u16>,
    key: &Key,
) -> Option<HeldLease>
    requires index { index.old.list ≡ deadlines table.old.entries }
    requires counts { counts.old ≡ counts_of (map_by table.old.entries) }
    requires parts { ArePartsOf table.old.entries directory.old }
    requires origins { length origins.old.items ≡ length table.old.entries }
    ensures before { result ≡ map.get (map_by table.old.entries) key.now }
    ensures held { map_by table.new.entries ≡ map.remove (map_by table.old.entries) key.now }
    ensures index { index.new.list ≡ deadlines table.new.entries }
    ensures counts { counts.new ≡ counts_of (map_by table.new.entries) }
    ensures parts { ArePartsOf table.new.entries directory.new }
    ensures places { places_in directory.new ≡ places_in directory.old }
    ensures origins { (es : List (Key × Listed)) → at_places es origins.old.items ≡ all Some table.old.entries → at_places es origins.new.items ≡ all Some table.new.entries }
    ensures long { length origins.new.items ≡ length table.new.entries }
    ensures few { length table.new.entries ≤ length table.old.entries }
    ensures spare { spare table.old ≤ spare table.new }
    ensures room { index.old.room ≤ index.new.room }
{
    let place = table.get_index_of(key)?;
    let last = table.len() - 1;
    kept::forget(directory, place, last);
    origins.swap_remove(place);
    let (_key, held) = take_out(table, index, counts, place);
    Some(held)
}

/// Takes out what is held under these keys, one after the other, and gives it in their order. Takes no memory.
pub(crate) fn take_all(
    table: &mut Table,
    index: &mut Deadlines,
    counts: &mut StatusCounts,
    directory: &mut Option<Directory>,
    keys: &[Key],
    room: Taking,
) -> Vec<Option<HeldLease>>
    requires few { length table.old.entries ≤ most_leases }
    requires index { index.old.list ≡ deadlines table.old.entries }
    requires counts { counts.old ≡ counts_of (map_by table.old.entries) }
    requires ordered { AreOrdered table.old.entries directory.old }
    requires room { Suffices room (length keys.now) (map.len (map_by table.old.entries)) }
    ensures held { map_by table.new.entries ≡ without (map_by table.old.entries) keys.now }
    ensures long { length result.items ≡ length keys.now }
    ensures back { with_values (map_by table.new.entries) keys.now result.items ≡ map_by table.old.entries }
    ensures index { index.new.list ≡ deadlines table.new.entries }
    ensures counts { counts.new ≡ counts_of (map_by table.new.entries) }
    ensures ordered { AreOrdered table.new.entries directory.new }
    ensures few { length table.new.entries ≤ length table.old.entries }
    ensures spare { spare table.old ≤ spare table.new }
    ensures index_room { index.old.room ≤ index.new.room }
    ensures room { room_of directory.old ≤ room_of directory.new }
{
    let Taking {
        mut held,
        mut origins,
        mut moved,
    } = room;
    if keys.is_empty() {
        return held;
    }
    origins.truncate(table.len());
    for key in keys {
        let taken = take_one(table, index, counts, directory, &mut origins, key);
        held.push_reserved(taken);
    }
    kept::renumber(directory, &origins, &mut moved);
    held
}
