//! What hashes by a key: by multiplications, as `FoldHasher` of the standard library does, but with a secret word in each factor.
ghost use Rattle.std.specs.Prelude.{◌≡◌};
ghost use Rattle.std.specs.Hash.FoldHasher.{folded_multiply as folded};
ghost use Rattle.eu_hash.specs.Keyed.{begun, finish, write};

use crate::read::{read_short, read_u64};
use std::hash::Hasher;

/// With what the first word of a key is joined, so that a key of 0 and 0 hashes well.
const STATE: u64 = 0x243f_6a88_85a3_08d3;

/// With what the second word of a key is joined.
const FACTOR: u64 = 0x9e37_79b9_7f4a_7c15;

/// Hashes by a key. It reads 16 bytes at a time, and each half of them is joined with a word that the key makes secret, before the two are
/// multiplied.
#[derive(Clone, Copy)]
pub struct KeyedHasher {
    state: u64,
    factor: u64,
}

impl KeyedHasher {
    /// That of the key of these words. It has hashed nothing.
    pub(crate) fn begin(first: u64, second: u64) -> KeyedHasher
        ensures { result ≡ begun first second }
    {
        KeyedHasher {
            state: first ^ STATE,
            factor: second ^ FACTOR,
        }
    }
}

/// The halves of a product of 128 bits, joined.
#[inline(always)]
fn folded_multiply(a: u64, b: u64) -> u64
    ensures { result ≡ folded a b }
{
    let product = a as u128 * b as u128;
    (product & 0xFFFF_FFFF_FFFF_FFFF) as u64 ^ (product >> 64) as u64
}

impl Hasher for KeyedHasher {
    ghost write = { write };

    ghost finish = { finish };

    #[inline(always)]
    fn finish(&self) -> u64 {
        self.state
    }

    #[inline(always)]
    fn write(&mut self, bytes: &[u8]) {
        let len = bytes.len();
        let factor = self.factor;
        if len <= 8 {
            self.state = folded_multiply(self.state ^ read_short(bytes), factor ^ (2 * len as u64));
            return;
        }
        let mut state = self.state.wrapping_add((len as u64).wrapping_mul(factor));
        let mut at = 0;
        while len - at > 16 {
            state = folded_multiply(
                read_u64(bytes, at) ^ state,
                read_u64(bytes, at + 8) ^ factor,
            );
            at += 16;
        }
        self.state = folded_multiply(
            read_u64(bytes, len.saturating_sub(16)) ^ state,
            read_u64(bytes, len - 8) ^ factor,
        );
    }
}
