//! What is kept from session to session.
ghost use Rattle.std.specs.Prelude.{◌≡◌, []};

use crate::talk::Talk;
use eu_framing::{EMPTY_ROOM, Room};
use std::alloc::Global;

/// Room for the requests of one session after another. What it holds before and after doesn't matter: it is only kept, so that a server that is short
/// of memory needn't find it for each session.
#[derive(Drop)]
pub struct SessionRoom {
    pub(crate) talk: Talk,
    pub(crate) room: Room,
}

impl SessionRoom {
    /// Room that has no memory yet: the first request takes it.
    pub fn new(alloc: Global) -> SessionRoom
        ensures inbox { result.talk.inbox ≡ [] }
        ensures served { result.talk.served ≡ 0 }
    {
        SessionRoom {
            talk: Talk::new(alloc),
            room: EMPTY_ROOM,
        }
    }
}
