//! The key of a hash.
ghost use Rattle.std.specs.Prelude.{◌≡◌};
ghost use Rattle.eu_hash.specs.Keyed.{begun_of, key_of};

use crate::hasher::KeyedHasher;
use std::hash::BuildHasher;

/// The key of a hash: two words. Tables that hash by different keys put what they hold in different places.
///
/// A server draws the words from the system at its start, so that nobody who chooses names knows which of them collide. Who wants the same
/// each time takes 0 and 0.
#[derive(Clone, Copy)]
pub struct HashKey {
    begun: KeyedHasher,
}

impl HashKey {
    /// The key of these words.
    pub fn new(first: u64, second: u64) -> HashKey
        ensures { result ≡ key_of first second }
    {
        HashKey {
            begun: KeyedHasher::begin(first, second),
        }
    }
}

impl BuildHasher for HashKey {
    type Hasher = KeyedHasher;

    ghost build_hasher = { begun_of };

    #[inline(always)]
    fn build_hasher(&self) -> KeyedHasher {
        self.begun
    }
}
