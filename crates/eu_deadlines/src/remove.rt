//! A position is taken out.
ghost use Rattle.std.specs.Prelude.{◌≡◌, ◌≢◌, ℕ, ◌+◌, ◌-◌, ◌<◌, length, slice_index, take, vec_len, vec_capacity};
ghost use Rattle.std.specs.List.{swap_remove};
ghost use Rattle.eu_deadlines.specs.Heap.{AreLinked, by_position};

use crate::sift::exchange;

/// Puts the entry of a position last in the heap, and answers where it stood.
pub fn to_last(
    deadlines: &mut [u64],
    positions: &mut [usize],
    places: &mut [usize],
    position: usize,
) -> usize
    requires linked { AreLinked positions.old places.old }
    requires long { length deadlines.old ≡ length positions.old }
    requires position { position < length positions.old }
    ensures at { result ≡ slice_index places.old position }
    ensures linked { AreLinked positions.new places.new }
    ensures same { by_position deadlines.new places.new ≡ by_position deadlines.old places.old }
    ensures last { slice_index places.new position + 1 ≡ length positions.new }
    ensures moved { slice_index deadlines.new (length deadlines.new - 1) ≡ slice_index deadlines.old result }
    ensures rest { (k : ℕ) → k + 1 < length deadlines.new → k ≢ result → slice_index deadlines.new k ≡ slice_index deadlines.old k }
{
    let last = positions.len() - 1;
    let at = places[position];
    if at != last {
        exchange(deadlines, positions, places, at, last);
    }
    at
}

/// Takes out a position whose entry stands last in the heap. The last position takes its number.
pub fn drop_last(
    deadlines: &mut Vec<u64>,
    positions: &mut Vec<usize>,
    places: &mut Vec<usize>,
    position: usize,
)
    requires linked { AreLinked positions.old.items places.old.items }
    requires long { length deadlines.old.items ≡ length positions.old.items }
    requires position { position < length positions.old.items }
    requires last { slice_index places.old.items position + 1 ≡ length positions.old.items }
    ensures linked { AreLinked positions.new.items places.new.items }
    ensures seen { by_position deadlines.new.items places.new.items ≡ swap_remove (by_position deadlines.old.items places.old.items) position 0 }
    ensures deadlines { deadlines.new.items ≡ take (length deadlines.old.items - 1) deadlines.old.items }
    ensures long { length deadlines.new.items ≡ length positions.new.items }
    ensures capacity { vec_capacity deadlines.new ≡ vec_capacity deadlines.old }
    ensures positions_capacity { vec_capacity positions.new ≡ vec_capacity positions.old }
    ensures places_capacity { vec_capacity places.new ≡ vec_capacity places.old }
{
    deadlines.pop();
    positions.pop();
    places.swap_remove(position);
    if position < places.len() {
        let at = places[position];
        positions[at] = position;
    }
}

/// Takes a position out of the lists. It answers where in the heap its entry stood, where another entry stands now, and its deadline.
pub fn unlink(
    deadlines: &mut Vec<u64>,
    positions: &mut Vec<usize>,
    places: &mut Vec<usize>,
    position: usize,
) -> (usize, u64)
    requires linked { AreLinked positions.old.items places.old.items }
    requires long { length deadlines.old.items ≡ length positions.old.items }
    requires position { position < length positions.old.items }
    ensures linked { AreLinked positions.new.items places.new.items }
    ensures long { length deadlines.new.items ≡ length positions.new.items }
    ensures short { length deadlines.new.items + 1 ≡ length deadlines.old.items }
    ensures seen { by_position deadlines.new.items places.new.items ≡ swap_remove (by_position deadlines.old.items places.old.items) position 0 }
    ensures rest { (k : ℕ) → k < length deadlines.new.items → k ≢ result.0 → slice_index deadlines.new.items k ≡ slice_index deadlines.old.items k }
    ensures before { result.1 ≡ slice_index deadlines.old.items result.0 }
    ensures capacity { vec_capacity deadlines.new ≡ vec_capacity deadlines.old }
    ensures positions_capacity { vec_capacity positions.new ≡ vec_capacity positions.old }
    ensures places_capacity { vec_capacity places.new ≡ vec_capacity places.old }
{
    let before = deadlines[places[position]];
    let at = to_last(deadlines, positions, places, position);
    drop_last(deadlines, positions, places, position);
    (at, before)
}
