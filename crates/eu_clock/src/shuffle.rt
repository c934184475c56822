//! The shuffle.
ghost use Rattle.std.specs.Prelude.{◌≡◌, ◌≤◌, Bool, length, IsPermutation};
ghost use Rattle.std.specs.List.{IsDistinct};
ghost use Rattle.eu_clock.specs.Front.{shuffled, state_after};

use crate::Chooser;

/// Draws `n` members of a list, which has as many at least, by the chooser's words, and leaves them at its front: the first `n` swaps of
/// a Knuth shuffle (TAOCP 3.4.2, Algorithm P, from the front), as Eureka's evictor makes them (`AbstractInstanceRegistry.evict`).
///
/// For each place from 0 to `n - 1`, one word is asked, below the number of places that are left, that one included. The
/// members stay the same ones, so where they differ, those at the front do. Takes no memory.
pub fn choose<T, C: Chooser>(items: &mut [T], n: usize, chooser: &mut C)
    requires { n ≤ length items.old }
    ensures after { items.new ≡ shuffled C.asks n items.old chooser.old }
    ensures chooser { chooser.new ≡ state_after C.asks n (length items.old) chooser.old }
    ensures permutation { IsPermutation items.old items.new }
    ensures distinct { (e : T → T → Bool) → ((x y : T) → e x y ≡ e y x) → IsDistinct e items.old → IsDistinct e items.new }
{
    let len = items.len();
    for i in 0..n {
        let word = chooser.below((len - i) as u64) as usize;
        items.swap(i, i + word);
    }
}
