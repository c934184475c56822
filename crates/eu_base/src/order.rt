//! The order of keys.
ghost use Rattle.std.specs.Prelude.{◌≡◌};
ghost use Rattle.eu_base.specs.Values.{key_cmp, key_eq};

use crate::names::Key;

/// A law without code: keys are ordered by application, and then by id, each by its bytes; and they are equal where both are.
pub fn keys_are_ordered()
    ensures order { (a : Key) (b : Key) → ⟦<Key as Ord>⟧.cmp a b ≡ key_cmp a b }
    ensures equal { (a : Key) (b : Key) → ⟦<Key as PartialEq>⟧.eq a b ≡ key_eq a b }
{}
