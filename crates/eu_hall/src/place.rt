//! A place of the hall.
ghost use Rattle.std.specs.Prelude.{◌≡◌, ◌≤◌, ℕ, ◌<◌, ◌↔◌, Some, None, false, IsOk, IfErr, IfNone, IfSome, OnErr, OnOk, OnSome};
ghost use Rattle.slab.specs.Slab.{get, with_value};
ghost use Rattle.eu_hall.specs.Places.{IsFirstDue, NoneDue, bytes_at, is_due, place_in, standing_at};

use crate::phase::{Awaited, Phase};
use slab::Slab;
use std::mem;

/// A guest that stands at its place.
#[derive(Debug, Drop)]
pub struct Standing<G> {
    /// The guest.
    pub guest: G,
    /// What is awaited of its peer.
    pub awaited: Awaited,
    /// How many bytes it holds that aren't used or sent yet.
    pub bytes: usize,
}

/// A place that is taken.
#[derive(Debug, Drop)]
pub enum Place<G> {
    /// By a guest that stands here.
    Here(Standing<G>),
    /// By a guest that was called and hasn't come back.
    Away,
}

impl<G> Place<G> {
    /// How many bytes the guest holds that stands here; none where it is away.
    pub(crate) fn bytes(&self) -> usize
        ensures { result ≡ bytes_at (Some self.now) }
    {
        match self {
            Place::Here(standing) => standing.bytes,
            Place::Away => 0,
        }
    }

    /// Whether the guest that stands here is late at `now`, or idle where the server stops.
    pub(crate) fn is_due(&self, now: u64, stops: bool) -> bool
        ensures { result ≡ is_due now stops (Some self.now) }
    {
        match self {
            Place::Here(standing) => {
                let awaited = &standing.awaited;
                awaited.is_late(now) || (stops && awaited.phase == Phase::Idle)
            }
            Place::Away => false,
        }
    }
}

/// Takes the guest that stands at that key, whose place is away then. Where none stands there, nothing changes.
pub(crate) fn take<G: Drop>(places: &mut Slab<Place<G>>, key: usize) -> Option<Standing<G>>
    ensures value { result ≡ standing_at (get places.old key) }
    ensures some { OnSome result (places.new ≡ with_value places.old key Place.Away) }
    ensures none { IfNone result (places.new ≡ places.old) }
{
    let place = places.get_mut(key)?;
    match mem::replace(place, Place::Away) {
        Place::Here(standing) => Some(standing),
        Place::Away => None,
    }
}

/// Puts a guest at that key. Where its place isn't away, nothing changes, and the guest is given back.
pub(crate) fn put_back<G: Drop>(
    places: &mut Slab<Place<G>>,
    key: usize,
    standing: Standing<G>,
) -> Result<(), G>
    ensures back { IsOk result ↔ (get places.old key ≡ Some Place.Away) }
    ensures ok { OnOk result (places.new ≡ with_value places.old key (Place.Here standing)) }
    ensures err { OnErr result (places.new ≡ places.old) }
    ensures guest { IfErr result (λ guest. guest ≡ standing.guest) }
{
    let Some(Place::Away) = places.get(key) else {
        return Err(standing.guest);
    };
    if let Some(place) = places.get_mut(key) {
        *place = Place::Here(standing);
    }
    Ok(())
}

/// The first of these keys whose guest is late at `now`, or idle where the server stops. None where there is none.
pub(crate) fn first_due<G>(
    places: &Slab<Place<G>>,
    from: usize,
    to: usize,
    now: u64,
    stops: bool,
) -> Option<usize>
    ensures found { IfSome result (λ key. IsFirstDue places.now.slots now stops from key) }
    ensures none { IfNone result (NoneDue places.now.slots now stops from to) }
{
    for key in from..to {
        if let Some(place) = places.get(key)
            && place.is_due(now, stops)
        {
            return Some(key);
        }
    }
    None
}
