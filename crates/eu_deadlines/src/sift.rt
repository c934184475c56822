//! Entries that rise and sink in a heap.
ghost use Rattle.std.specs.Prelude.{◌≡◌, ◌≢◌, ℕ, ◌+◌, ◌-◌, ◌/◌, ◌<◌, ◌≤◌, length, swap, slice_index};
ghost use Rattle.eu_deadlines.specs.Heap.{IsOrdered, RisesFrom, SinksFrom, AreLinked, by_position};

/// Puts the entries at a and b in each other's place.
pub fn exchange(
    deadlines: &mut [u64],
    positions: &mut [usize],
    places: &mut [usize],
    a: usize,
    b: usize,
)
    requires linked { AreLinked positions.old places.old }
    requires long { length deadlines.old ≡ length positions.old }
    requires a { a < length positions.old }
    requires b { b < length positions.old }
    requires apart { a ≢ b }
    ensures after { deadlines.new ≡ swap deadlines.old a b }
    ensures positions { positions.new ≡ swap positions.old a b }
    ensures linked { AreLinked positions.new places.new }
    ensures same { by_position deadlines.new places.new ≡ by_position deadlines.old places.old }
{
    deadlines.swap(a, b);
    positions.swap(a, b);
    let at_a = positions[a];
    let at_b = positions[b];
    places[at_a] = a;
    places[at_b] = b;
}

/// Lets the entry at `start` rise to where it is no earlier than the one above it.
pub fn rise(deadlines: &mut [u64], positions: &mut [usize], places: &mut [usize], start: usize)
    requires linked { AreLinked positions.old places.old }
    requires long { length deadlines.old ≡ length positions.old }
    requires start { start < length positions.old }
    requires order { RisesFrom deadlines.old start }
    ensures order { IsOrdered deadlines.new }
    ensures linked { AreLinked positions.new places.new }
    ensures same { by_position deadlines.new places.new ≡ by_position deadlines.old places.old }
{
    let mut at = start;
    while at > 0 {
        let above = (at - 1) / 2;
        if deadlines[above] <= deadlines[at] {
            return;
        }
        exchange(deadlines, positions, places, above, at);
        at = above;
    }
}

/// Lets the entry at `start` sink to where it is no later than those below it.
pub fn sink(deadlines: &mut [u64], positions: &mut [usize], places: &mut [usize], start: usize)
    requires linked { AreLinked positions.old places.old }
    requires long { length deadlines.old ≡ length positions.old }
    requires start { start < length positions.old }
    requires order { SinksFrom deadlines.old start }
    ensures order { IsOrdered deadlines.new }
    ensures linked { AreLinked positions.new places.new }
    ensures same { by_position deadlines.new places.new ≡ by_position deadlines.old places.old }
{
    let len = deadlines.len();
    let mut at = start;
    while at < len / 2 {
        let least = earliest_below(deadlines, at);
        if deadlines[at] <= deadlines[least] {
            return;
        }
        exchange(deadlines, positions, places, at, least);
        at = least;
    }
}

/// Lets the entry at `start` rise or sink to its place, by whether its deadline is earlier than the one that stood there before.
pub fn reorder(
    deadlines: &mut [u64],
    positions: &mut [usize],
    places: &mut [usize],
    start: usize,
    before: u64,
)
    requires linked { AreLinked positions.old places.old }
    requires long { length deadlines.old ≡ length positions.old }
    requires start { start < length positions.old }
    requires earlier { slice_index deadlines.old start < before → RisesFrom deadlines.old start }
    requires later { before ≤ slice_index deadlines.old start → SinksFrom deadlines.old start }
    ensures order { IsOrdered deadlines.new }
    ensures linked { AreLinked positions.new places.new }
    ensures same { by_position deadlines.new places.new ≡ by_position deadlines.old places.old }
{
    if deadlines[start] < before {
        rise(deadlines, positions, places, start);
    } else {
        sink(deadlines, positions, places, start);
    }
}

/// The earlier of the entries below `at`.
fn earliest_below(deadlines: &[u64], at: usize) -> usize
    requires { at < length deadlines.now / 2 }
    ensures within { result < length deadlines.now }
    ensures after { 0 < result }
    ensures below { (result - 1) / 2 ≡ at }
    ensures least { (k : ℕ) → 0 < k → k < length deadlines.now → (k - 1) / 2 ≡ at → slice_index deadlines.now result ≤ slice_index deadlines.now k }
{
    let left = 2 * at + 1;
    let right = left + 1;
    if right == deadlines.len() {
        return left;
    }
    // added rather than chosen by a branch, which could not be foretold
    left + usize::from(deadlines[right] < deadlines[left])
}
