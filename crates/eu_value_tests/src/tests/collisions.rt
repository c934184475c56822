//! Texts that were chosen to collide, in tables that hash by other keys.
ghost use Rattle.std.specs.Prelude.{string_bytes, nat_eq};
ghost use Rattle.std.specs.Hash as fed;
ghost use Rattle.std.specs.Cmp.Lexicographic.{pointwise};
ghost use Rattle.std.specs.Ordering.{on};
ghost use Rattle.std.specs.Cmp.Rules.{comparing, hashing};
ghost use Rattle.std.proofs.Common.{rules};

use eu_hash::HashKey;
use indexmap::IndexMap;
use std::alloc::{AllocError, Global};
use std::cell::Cell;
use std::hash::{BuildHasher, BuildHasherDefault, FoldHasher, Hash, Hasher};

/// A text whose comparisons are counted.
#[derive(Drop)]
struct Counted<'a> {
    text: &'a str,
    compared: &'a Cell<u32>,
}

impl PartialEq for Counted<'_> {
    ghost eq = { on (λ c. c.text.now) (pointwise nat_eq) };

    ghost laws = { Prim.search (comparing, rules) };

    fn eq(&self, other: &Self) -> bool {
        self.compared.set(self.compared.get().wrapping_add(1));
        self.text == other.text
    }
}

impl Eq for Counted<'_> {
    ghost laws = { Prim.search (comparing, rules) };
}

impl Hash for Counted<'_> {
    ghost hash_input = { λ c. fed.str c.text.now };

    ghost respects_eq = { Prim.search (hashing, rules) };

    fn hash<H: Hasher>(&self, state: &mut H) {
        self.text.hash(state);
    }
}

/// How many texts collide.
const COUNT: u32 = 64;

/// What a table of so many looks at of a hash: in which of eight groups it looks first, and which of a group's keys it compares.
const LOOKED_AT: u64 = 0xFF00_0007;

/// What a table looks at of the hash of a text.
fn seen<S: BuildHasher>(hasher: &S, text: &str) -> u64 {
    let hash = hasher.hash_one(text);
    (hash ^ (hash >> 32)) & LOOKED_AT
}

/// Texts of which a table sees no difference that hashes like this, in the order of the numbers in them.
fn colliding<S: BuildHasher>(alloc: Global, hasher: &S) -> Result<Vec<String>, AllocError> {
    let mut texts = Vec::new(alloc);
    for number in 0..500_000u32 {
        if texts.len() == COUNT as usize {
            return Ok(texts);
        }
        let text = format!(in alloc; "host-{number}.example.org:app:8080")?;
        if seen(hasher, text.as_str()) == 0x5500_0005 {
            texts.push(text)?;
        }
    }
    Ok(texts)
}

/// A table of these texts, which hashes like this.
fn filled<'a, S: BuildHasher + Drop>(
    alloc: Global,
    hasher: S,
    texts: &'a [String],
    compared: &'a Cell<u32>,
) -> Result<IndexMap<Counted<'a>, (), S>, AllocError> {
    let mut table = IndexMap::with_hasher(alloc, hasher);
    for text in texts {
        let text = text.as_str();
        table.insert(Counted { text, compared }, ())?;
    }
    Ok(table)
}

/// How many keys a look-up of one of these texts compares, where a table hashes them like this: the most.
fn most_compared<S: BuildHasher + Drop>(
    alloc: Global,
    hasher: S,
    texts: &[String],
) -> Result<u32, AllocError> {
    let compared = Cell::new(0);
    let table = filled(alloc, hasher, texts, &compared)?;
    let mut most = 0;
    for text in texts {
        compared.set(0);
        let key = Counted {
            text: text.as_str(),
            compared: &compared,
        };
        if table.contains_key(&key) {
            most = compared.get().max(most);
        }
    }
    Ok(most)
}

/// Under the seeds that everyone knows a look-up compares all of them; under a key that was drawn a few.
#[test]
fn who_knows_other_seeds_makes_no_collisions(rt: HostRuntime) -> Result<(), AllocError> {
    let known = BuildHasherDefault::<FoldHasher>::new();
    let texts = colliding(rt.alloc(), &known)?;
    assert_eq!(rt; most_compared(rt.alloc(), known, texts.as_slice())?, COUNT);
    for word in 0..20 {
        let key = HashKey::new(word, word.wrapping_mul(0x9fb2_1c65_1e98_df25));
        let most = most_compared(rt.alloc(), key, texts.as_slice())?;
        assert!(rt; 1 <= most && most <= 3, "word {word}: {most}");
    }
    Ok(())
}

/// Texts that collide by one key don't by another, whichever of its words differs.
#[test]
fn each_word_of_a_key_counts(rt: HostRuntime) -> Result<(), AllocError> {
    let texts = colliding(rt.alloc(), &HashKey::new(0, 0))?;
    let same = most_compared(rt.alloc(), HashKey::new(0, 0), texts.as_slice())?;
    assert_eq!(rt; same, COUNT);
    for (first, second) in [(1, 0), (0, 1), (1 << 63, 0), (0, 1 << 63)] {
        let key = HashKey::new(first, second);
        let most = most_compared(rt.alloc(), key, texts.as_slice())?;
        assert!(rt; 1 <= most && most <= 3, "{first} {second}: {most}");
    }
    Ok(())
}
