//! Places of a table, counted and renumbered.
ghost use Rattle.std.specs.Prelude.{◌≡◌, ◌<◌, ◌≤◌, List, Some, IfOk, length, map as all};
ghost use Rattle.std.specs.List.{IsDistinct};
ghost use Rattle.std.specs.Map.{keys_of};
ghost use Rattle.eu_base.specs.Limits.{most_leases};
ghost use Rattle.eu_base.specs.Values.{key_eq};
ghost use Rattle.eu_base.specs.declared.names.Key.{Key};
ghost use Rattle.eu_model.specs.declared.views.Listed.{Listed};
ghost use Rattle.eu_store.specs.Order.{at_places, IsInOrder};
ghost use Rattle.eu_store.specs.Sweep.{place_now, AreBelow, AreCounted, AreNoted};

use std::alloc::{AllocError, Global};

/// The first so many places. `AllocError` where no memory is left.
pub(crate) fn counted(alloc: Global, number: usize) -> Result<Vec<u16>, AllocError>
    requires { number ≤ most_leases }
    ensures long { IfOk result (λ places. length places.items ≡ number) }
    ensures counted { IfOk result (λ places. AreCounted places.items) }
{
    let mut places = Vec::with_capacity(alloc, number)?;
    for place in 0..number {
        places.push(place as u16)?;
    }
    Ok(places)
}

/// Writes the places in key order anew. Those of leases that stay are kept, each as the place where its lease stands now.
pub(crate) fn renumber(places: &mut Vec<u16>, origins: &[u16], moved: &mut [u16])
    requires few { length origins.now ≤ most_leases }
    requires origins { AreBelow (length moved.old) origins.now }
    requires places { AreBelow (length moved.old) places.old.items }
    ensures order { (es fs : List (Key × Listed)) → IsDistinct key_eq (keys_of es) → at_places es origins.now ≡ all Some fs → IsInOrder es places.old.items → IsInOrder fs places.new.items }
    ensures bound { length places.new.items ≤ length places.old.items }
    ensures capacity { places.new.cap ≡ places.old.cap }
{
    note(origins, moved);
    let mut kept = 0;
    for at in 0..places.len() {
        if let Some(place) = place_now(origins, moved, places[at]) {
            places[kept] = place;
            kept += 1;
        }
    }
    places.truncate(kept);
}

/// Notes at each place of before where its lease stands now.
fn note(origins: &[u16], moved: &mut [u16])
    requires few { length origins.now ≤ most_leases }
    requires within { AreBelow (length moved.old) origins.now }
    ensures noted { AreNoted origins.now moved.new }
    ensures long { length moved.new ≡ length moved.old }
{
    for place in 0..origins.len() {
        moved[usize::from(origins[place])] = place as u16;
    }
}

/// Where the lease of a place of before stands now, if it stays.
fn place_now(origins: &[u16], moved: &[u16], place: u16) -> Option<u16>
    requires { place < length moved.now }
    ensures { result ≡ place_now origins.now moved.now place }
{
    let now = moved[usize::from(place)];
    match origins.get(usize::from(now)) {
        Some(origin) if *origin == place => Some(now),
        _ => None,
    }
}
