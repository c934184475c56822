//! The directory, where one is kept.
ghost use Rattle.std.specs.Prelude.{◌≡◌, ◌∷◌, ◌++◌, ◌+◌, ◌-◌, ◌<◌, ◌≤◌, [], None, Some, List, OnOk, IsTrue, MatchOption, ⊤, is_some, true, length, map as all, slice_get};
ghost use Rattle.std.specs.FinMap as map;
ghost use Rattle.std.specs.List.{IsDistinct, swap_remove as swapped};
ghost use Rattle.std.specs.Map.{keys_of};
ghost use Rattle.indexmap.specs.IndexMap.{set_value_at};
ghost use Rattle.eu_base.specs.Limits.{most_leases};
ghost use Rattle.eu_base.specs.Values.{key_eq};
ghost use Rattle.eu_base.specs.declared.names.Key.{Key};
ghost use Rattle.eu_model.specs.declared.views.Listed.{Listed};
ghost use Rattle.eu_store.specs.Order.{at_places, undated, undated_of, AreOrdered, map_by, room_of};
ghost use Rattle.eu_store.specs.Sweep.{AreBelow, ArePartsOf, ArePlacesOf, places_in};

use crate::directory::Directory;
use crate::places;
use crate::table::Table;
use eu_base::Key;
use std::alloc::{AllocError, Global};

/// Makes one, where none is kept. `AllocError` where no memory is left.
pub(crate) fn make(
    directory: &mut Option<Directory>,
    alloc: Global,
    table: &Table,
) -> Result<(), AllocError>
    requires ordered { AreOrdered table.now.entries directory.old }
    requires few { length table.now.entries ≤ most_leases }
    ensures ordered { AreOrdered table.now.entries directory.new }
    ensures there { OnOk result (is_some directory.new ≡ true) }
{
    if directory.is_none() {
        *directory = Some(Directory::of(alloc, table)?);
    }
    Ok(())
}

/// Makes room in it for so many leases more.
pub(crate) fn reserve(directory: &mut Option<Directory>, more: usize) -> Result<(), AllocError>
    requires { more ≤ most_leases }
    ensures ordered { (es : List (Key × Listed)) → AreOrdered es directory.old → AreOrdered es directory.new }
    ensures ready { OnOk result (more ≤ room_of directory.new) }
    ensures room { room_of directory.old ≤ room_of directory.new }
{
    match directory {
        Some(directory) => directory.reserve(more),
        None => Ok(()),
    }
}

/// Puts a key in it that comes behind the last of the table.
pub(crate) fn put(directory: &mut Option<Directory>, table: &Table, key: &Key)
    requires ordered { AreOrdered table.now.entries directory.old }
    requires few { length table.now.entries < most_leases }
    requires new { map.get (map_by table.now.entries) key.now ≡ None }
    requires room { 0 < room_of directory.old }
    ensures ordered { (v : Listed) → (fs : List (Key × Listed)) → fs ≡ table.now.entries ++ (key.now, v) ∷ [] → map_by fs ≡ map.insert (map_by table.now.entries) key.now v → AreOrdered fs directory.new }
    ensures room { room_of directory.old ≤ room_of directory.new + 1 }
{
    if let Some(directory) = directory {
        directory.put(table, key);
    }
}

/// Takes the key of a place out, whose place the last one of the table gets.
pub(crate) fn take(directory: &mut Option<Directory>, table: &Table, place: usize)
    requires ordered { AreOrdered table.now.entries directory.old }
    requires few { length table.now.entries ≤ most_leases }
    requires within { place < length table.now.entries }
    ensures ordered { (k : Key) → (d : Key × Listed) → (l : Listed) → (fs : List (Key × Listed)) → slice_get (keys_of table.now.entries) place ≡ Some k → map.get (map_by table.now.entries) k ≡ Some l
        → fs ≡ swapped table.now.entries place d → map_by fs ≡ map.remove (map_by table.now.entries) k → AreOrdered fs directory.new }
    ensures room { room_of directory.old ≤ room_of directory.new }
{
    if let Some(directory) = directory {
        let last = table.len() - 1;
        let at = directory.standing(table, place);
        let moved = directory.standing(table, last);
        directory.swap_remove(at, moved, place, last);
    }
}

/// Lets the parts of two places go: that of the lease that goes, and that of the last one, which gets its place.
pub(crate) fn forget(directory: &mut Option<Directory>, gone: usize, last: usize)
    ensures places { places_in directory.new ≡ places_in directory.old }
    ensures parts { (es : List (Key × Listed)) → (fs : List (Key × Listed)) → (d : Key × Listed) → 0 < length es → last ≡ length es - 1 → fs ≡ swapped es gone d → ArePartsOf es directory.old → ArePartsOf fs directory.new }
{
    if let Some(directory) = directory {
        directory.forget(gone);
        directory.forget(last);
    }
}

/// Writes the directory's places anew. `origins` tells where the leases that stay stood before.
pub(crate) fn renumber(directory: &mut Option<Directory>, origins: &[u16], moved: &mut [u16])
    requires few { length origins.now ≤ most_leases }
    requires origins { AreBelow (length moved.old) origins.now }
    requires places { MatchOption directory.old ⊤ (λ d. AreBelow (length moved.old) d.places.items) }
    ensures ordered { (es : List (Key × Listed)) → (fs : List (Key × Listed)) → IsDistinct key_eq (keys_of es) → at_places es origins.now ≡ all Some fs → ArePlacesOf es directory.old → ArePartsOf fs directory.old → AreOrdered fs directory.new }
    ensures room { room_of directory.old ≤ room_of directory.new }
{
    if let Some(directory) = directory {
        places::renumber(&mut directory.places, origins, moved);
    }
}

/// What is left of it where the lease of a place changes: its part goes, unless only the last update moves.
pub(crate) fn change(directory: &mut Option<Directory>, table: &Table, place: usize, is_kept: bool)
    requires ordered { AreOrdered table.now.entries directory.old }
    ensures ordered { (v : Listed) → (IsTrue is_kept → Some (undated v) ≡ slice_get (undated_of table.now.entries) place) → AreOrdered (set_value_at table.now.entries place v) directory.new }
    ensures room { room_of directory.new ≡ room_of directory.old }
{
    if is_kept {
        return;
    }
    if let Some(directory) = directory {
        directory.forget(place);
    }
}
