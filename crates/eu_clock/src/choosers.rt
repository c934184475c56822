//! Sources of words below a bound.
ghost use Rattle.std.specs.Prelude.{◌≡◌, ℕ, ◌<◌};
ghost use Rattle.eu_clock.specs.Words.{next_listed, next_drawn};
ghost use Rattle.rand_core.specs.Pcg32Seed.{pcg32_seed};
ghost use Rattle.rand_pcg.specs.Pcg.{pcg32_of_seed};

use rand_core::SeedableRng;
use rand_core::utils::NextWord;
use rand_pcg::Pcg32;
use std::marker::Model;

/// A source of words below a bound, by which the victims of an eviction are drawn.
///
/// `asks s n` is the word that a chooser in the state `s` answers below `n`, and the state that it leaves: both are
/// functions of the state and the bound.
pub trait Chooser {
    ghost asks: { Self → ℕ → ℕ × Self };

    /// The next word below `n`, which is above 0. Takes no memory.
    fn below(&mut self, n: u64) -> u64
        requires { 0 < n }
        ensures asked { (result, self.new) ≡ asks self.old n }
        ensures below { result < n };
}

/// A chooser that always answers 0, so that a draw takes the first of what it is drawn from.
#[derive(Clone, Copy, Debug)]
pub struct FirstChooser;

impl Chooser for FirstChooser {
    ghost asks = { λ s n. (0, s) };

    fn below(&mut self, _n: u64) -> u64 {
        0
    }
}

/// A chooser that answers the words of a list, each modulo its bound, and 0 once the list is used up. Contracts see the words
/// that are left.
#[derive(Debug, Drop)]
pub struct ListChooser {
    words: Vec<u64>,
    next: usize,
}

impl Model for ListChooser {
    ghost use Rattle.std.specs.Prelude.{ℕ, List, drop};

    ghost Value = { List ℕ };

    ghost view = { λ a. drop a.next a.words.items };
}

impl ListChooser {
    /// The chooser of these words. Takes no memory.
    pub fn new(words: Vec<u64>) -> ListChooser
        ensures { result ≡ words.items }
    {
        ListChooser { words, next: 0 }
    }
}

impl Chooser for ListChooser {
    ghost asks = { next_listed };

    fn below(&mut self, n: u64) -> u64 {
        if self.next < self.words.len() {
            let word = self.words[self.next];
            self.next += 1;
            word % n
        } else {
            0
        }
    }
}

/// A chooser that answers the words of a seeded generator, PCG XSH RR 64/32 (O'Neill 2014), each modulo its bound. Two of one
/// seed answer alike. Contracts see the generator.
///
/// The words of 32 bits aren't spread evenly over a bound that doesn't divide 2^32, and a bound above 2^32 isn't reached; none
/// that the registry asks for is above 65,536.
#[derive(Debug, Drop)]
pub struct RngChooser {
    generator: Pcg32,
}

impl Model for RngChooser {
    ghost use Rattle.rand_pcg.specs.Lcg.{Lcg};

    ghost Value = { Lcg };

    ghost view = { λ a. a.generator };
}

impl RngChooser {
    /// The chooser of that seed. Takes no memory.
    pub fn seeded(seed: u64) -> RngChooser
        ensures { result ≡ pcg32_of_seed (pcg32_seed 16 seed) }
    {
        RngChooser {
            generator: Pcg32::seed_from_u64(seed),
        }
    }
}

impl Chooser for RngChooser {
    ghost asks = { next_drawn };

    fn below(&mut self, n: u64) -> u64 {
        u64::from(self.generator.next_word()) % n
    }
}
