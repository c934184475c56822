//! Lists of keys that are drawn from, each in the same way.
ghost use Rattle.std.specs.Prelude.{◌≡◌, ◌<◌, ◌≤◌, Bool, [], length, replicate, swap, take, vec_capacity, IfOk, IsPermutation};
ghost use Rattle.std.specs.List.{IsDistinct};
ghost use Rattle.eu_clock.specs.Front.{shuffled, state_after};
ghost use Rattle.eu_base.specs.declared.names.Key.{Key};

use eu_base::{Key, Keys};
use eu_clock::Chooser;
use eu_model::Reply;
use std::alloc::{AllocError, Global};
use std::marker::Model;

/// A list of keys that is drawn from. Contracts see the list.
#[derive(Debug, Drop)]
pub struct Lot {
    keys: Vec<Key>,
}

impl Model for Lot {
    ghost use Rattle.std.specs.Prelude.{List};
    ghost use Rattle.eu_base.specs.declared.names.Key.{Key};

    ghost Value = { List Key };

    ghost view = { λ l. l.keys.items };
}

impl Lot {
    /// A list of these keys.
    fn of(alloc: Global, keys: &[Key]) -> Result<Lot, AllocError>
        ensures { IfOk result (λ l. l ≡ keys.now) }
    {
        let mut list = Vec::with_capacity(alloc, keys.len())?;
        for key in keys {
            list.push(key.copy(alloc)?)?;
        }
        Ok(Lot { keys: list })
    }

    /// Swaps two keys of this list of keys.
    fn swap(&mut self, keys: &[Key], i: usize, j: usize)
        requires same { self.old ≡ keys.now }
        requires first { i < length keys.now }
        requires second { j < length keys.now }
        ensures { self.new ≡ swap keys.now i j }
    {
        self.keys.as_mut_slice().swap(i, j);
    }

    /// The first keys of the list.
    fn front(self, number: usize) -> Keys
        ensures { result ≡ take number self }
    {
        let Lot { mut keys } = self;
        keys.truncate(number);
        Keys::new(keys)
    }
}

/// So many lists of these keys.
pub fn lots(alloc: Global, keys: &[Key], number: u32) -> Result<Vec<Lot>, AllocError>
    ensures { IfOk result (λ v. v.items ≡ replicate number keys.now) }
{
    let mut lots = Vec::with_capacity(alloc, number as usize)?;
    for _made in 0..number {
        lots.push(Lot::of(alloc, keys)?)?;
    }
    Ok(lots)
}

/// Swaps two keys in each list of these keys.
fn swap_all(lots: &mut [Lot], keys: &[Key], i: usize, j: usize)
    requires first { i < length keys.now }
    requires second { j < length keys.now }
    requires same { lots.old ≡ replicate (length lots.old) keys.now }
    ensures { lots.new ≡ replicate (length lots.old) (swap keys.now i j) }
{
    for lot in lots.iter_mut() {
        lot.swap(keys, i, j);
    }
}

/// Draws so many keys by the chooser's words, as `choose` does, from a list and from other lists of the same keys alike.
pub fn draw_all<C: Chooser>(keys: &mut [Key], lots: &mut [Lot], number: usize, chooser: &mut C)
    requires few { number ≤ length keys.old }
    requires same { lots.old ≡ replicate (length lots.old) keys.old }
    ensures after { keys.new ≡ shuffled C.asks number keys.old chooser.old }
    ensures lots { lots.new ≡ replicate (length lots.old) keys.new }
    ensures chooser { chooser.new ≡ state_after C.asks number (length keys.old) chooser.old }
    ensures permutation { IsPermutation keys.old keys.new }
    ensures distinct { (e : Key → Key → Bool) → ((x y : Key) → e x y ≡ e y x) → IsDistinct e keys.old → IsDistinct e keys.new }
{
    let len = keys.len();
    for i in 0..number {
        let word = chooser.below((len - i) as u64) as usize;
        swap_all(lots, keys, i, i + word);
        keys.swap(i, i + word);
    }
}

/// A reply for each list, which tells its first keys. Takes no memory.
pub fn evictions(room: Vec<Reply>, lots: Vec<Lot>, keys: &[Key], number: usize) -> Vec<Reply>
    requires empty { room.items ≡ [] }
    requires room { length lots.items ≤ vec_capacity room }
    requires same { lots.items ≡ replicate (length lots.items) keys.now }
    ensures { result.items ≡ replicate (length lots.items) (Reply.Evicted (take number keys.now)) }
{
    let mut replies = room;
    for lot in lots {
        replies.push_reserved(Reply::Evicted(lot.front(number)));
    }
    replies
}
