//! The walk over the entries whose deadlines have passed.
ghost use Rattle.std.specs.Prelude.{◌≡◌, ◌+◌, ◌*◌, ◌^◌, ◌<◌, ◌≤◌, ◌++◌, [], ◌∷◌, if◌then◌else◌, length, vec_len, IfOk, OnOk};
ghost use Rattle.eu_deadlines.specs.Heap.{IsOrdered};
ghost use Rattle.eu_deadlines.specs.Walk.{is_earlier, IsAllEarlier};

use crate::reading::Counted;
use std::alloc::{AllocError, Global};

/// Adds a place to those found where it is in the heap and its deadline is before the limit.
fn offer(
    heap: &Counted<'_>,
    place: usize,
    limit: u64,
    readings: &mut u64,
    found: &mut Vec<usize>,
) -> Result<(), AllocError>
    requires { readings.old + 1 < 2 ^ 64 }
    ensures found { OnOk result (found.new.items ≡ (if is_earlier heap.now limit place then found.old.items ++ place ∷ [] else found.old.items)) }
    ensures counted { readings.new ≤ readings.old + 1 }
    ensures read { OnOk result (readings.old + length found.new.items ≤ readings.new + length found.old.items) }
{
    if place < heap.len() && heap.read(place, readings) < limit {
        found.push(place)?;
    }
    Ok(())
}

/// The places of all entries whose deadlines are before the limit, level by level from the top: what is found is the queue of what
/// is still to be looked below. The deadline of each is read, and at most one more than two for each in all.
pub fn earlier_places(
    alloc: Global,
    heap: &Counted<'_>,
    limit: u64,
    readings: &mut u64,
) -> Result<Vec<usize>, AllocError>
    requires order { IsOrdered heap.now }
    requires fits { readings.old + 2 * length heap.now + 2 < 2 ^ 64 }
    ensures found { IfOk result (λ found. IsAllEarlier heap.now limit found.items) }
    ensures counted { IfOk result (λ found. readings.new ≤ readings.old + 2 * vec_len found + 1) }
    ensures read { IfOk result (λ found. readings.old + vec_len found ≤ readings.new) }
{
    let mut found = Vec::new(alloc);
    offer(heap, 0, limit, readings, &mut found)?;
    let mut next = 0;
    while next < found.len() {
        let place = found[next];
        offer(heap, 2 * place + 1, limit, readings, &mut found)?;
        offer(heap, 2 * place + 2, limit, readings, &mut found)?;
        next += 1;
    }
    Ok(found)
}
