//! Calls that may find no memory. In a usual run no allocation is refused; `tools/sweep_memory.sh` refuses one after another.
use eu_base::Fault;
use std::alloc::{AllocError, Global};

/// Whether that is so, or there was no memory to find it.
fn is_so(answer: Result<bool, Fault>) -> bool {
    answer == Ok(true) || answer == Err(Fault::OutOfMemory)
}

/// Whether the answers to a call that is made twice are right, of which one may have found no memory.
pub fn are_so(first: Result<bool, Fault>, second: Result<bool, Fault>) -> bool {
    is_so(first) && is_so(second) && (first == Ok(true) || second == Ok(true))
}

/// Has `tools/sweep_memory.sh`, which looks for an allocation of this size, refuse none of those that follow, or go on refusing.
/// Whether there was room for it.
pub fn pause_or_go_on(alloc: Global) -> bool {
    let room: Result<Vec<u8>, AllocError> = Vec::with_capacity(alloc, 1_234_567);
    room.is_ok()
}

/// The same text, where each id that begins with i is one of more than forty bytes: a copy of it takes memory, which a shorter one doesn't.
/// None of it is refused (`pause_or_go_on`).
pub fn with_long_ids(alloc: Global, text: &str) -> Result<String, AllocError> {
    pause_or_go_on(alloc);
    let text = text.replace(alloc, " i", " an-id-of-an-instance-of-more-than-40-bytes-i");
    pause_or_go_on(alloc);
    text
}
