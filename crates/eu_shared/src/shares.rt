//! Four ledgers that are moved together: one for each number of a tally.
//!
//! The tokens of `std::sync::ledger` take no memory, and do nothing at run time. The totals of a ledger are always what all its
//! shares count together.
ghost use Rattle.std.specs.Prelude.{◌≡◌, ℕ, ◌+◌, ◌<◌};
ghost use Rattle.eu_model.specs.Delta.{nothing, plus};
ghost use Rattle.eu_shared.specs.Shares.{HasNames, HasParts, IsAtMost, Part};

use eu_base::MOST_PASSES;
use eu_model::Tally;
use std::marker::{Brand, Model, PhantomData};
use std::sync::ledger::{Blank, Book, Ledger, Share};

/// The parts of each ledger: one for each pass, and one for the book.
pub const PARTS: u64 = MOST_PASSES + 1;

/// Which four ledgers they are: their names, and the parts of each. A call names them by `Brand`.
pub trait Label {
    ghost steps: { ℕ };

    ghost counted: { ℕ };

    ghost added: { ℕ };

    ghost removed: { ℕ };

    ghost parts: { ℕ };
}

impl Label for Brand {
    ghost steps = { 0 };

    ghost counted = { 0 };

    ghost added = { 0 };

    ghost removed = { 0 };

    ghost parts = { 0 };
}

/// The ledger of the commands that were answered.
pub(crate) struct OfSteps<K> {
    of: PhantomData<K>,
}

/// The ledger of the renewals that were counted.
pub(crate) struct OfCounted<K> {
    of: PhantomData<K>,
}

/// The ledger of the leases that came.
pub(crate) struct OfAdded<K> {
    of: PhantomData<K>,
}

/// The ledger of the leases that went.
pub(crate) struct OfRemoved<K> {
    of: PhantomData<K>,
}

impl<K: Label> Ledger for OfSteps<K> {
    ghost name = { K.steps };

    ghost parts = { K.parts };
}

impl<K: Label> Ledger for OfCounted<K> {
    ghost name = { K.counted };

    ghost parts = { K.parts };
}

impl<K: Label> Ledger for OfAdded<K> {
    ghost name = { K.added };

    ghost parts = { K.parts };
}

impl<K: Label> Ledger for OfRemoved<K> {
    ghost name = { K.removed };

    ghost parts = { K.parts };
}

/// Four new ledgers, which no type stands for yet.
#[derive(Drop)]
pub struct Blanks {
    /// That of the commands that are answered.
    pub steps: Blank,
    /// That of the renewals that are counted.
    pub counted: Blank,
    /// That of the leases that come.
    pub added: Blank,
    /// That of the leases that go.
    pub removed: Blank,
}

impl Blanks {
    /// Four new ledgers with 1,025 parts each.
    pub fn new() -> Blanks
        ensures { HasParts result PARTS }
    {
        Blanks {
            steps: Blank::new(PARTS),
            counted: Blank::new(PARTS),
            added: Blank::new(PARTS),
            removed: Blank::new(PARTS),
        }
    }

    /// Begins the four ledgers: the totals are 0, and one share has all the parts.
    pub(crate) fn open<K: Label>(self) -> (Totals<K>, Shares<K>)
        requires names { HasNames self K.steps K.counted K.added K.removed }
        requires parts { HasParts self K.parts }
        ensures totals { result.0 ≡ nothing }
        ensures shares { result.1 ≡ record { parts = K.parts; tally = nothing } }
    {
        let (steps, of_steps) = self.steps.open::<OfSteps<K>>();
        let (counted, of_counted) = self.counted.open::<OfCounted<K>>();
        let (added, of_added) = self.added.open::<OfAdded<K>>();
        let (removed, of_removed) = self.removed.open::<OfRemoved<K>>();
        (
            Totals {
                steps,
                counted,
                added,
                removed,
            },
            Shares {
                steps: of_steps,
                counted: of_counted,
                added: of_added,
                removed: of_removed,
            },
        )
    }
}

/// The totals of the four ledgers. Contracts see the tally.
#[derive(Drop)]
pub(crate) struct Totals<K: Label> {
    steps: Book<OfSteps<K>>,
    counted: Book<OfCounted<K>>,
    added: Book<OfAdded<K>>,
    removed: Book<OfRemoved<K>>,
}

impl<K: Label> Model for Totals<K> {
    ghost use Rattle.eu_model.specs.declared.tallies.Tally.{Tally};
    ghost use Rattle.eu_model.specs.contracts.tallies.Tally as tally;

    ghost Value = { Tally };

    ghost coded = { tally.the_row.coded };

    ghost view = { λ t. record { steps = t.steps.total; counted = t.counted.total; added = t.added.total; removed = t.removed.total } };
}

/// So many parts of each of the four ledgers, and what they count.
#[derive(Drop)]
pub(crate) struct Shares<K: Label> {
    steps: Share<OfSteps<K>>,
    counted: Share<OfCounted<K>>,
    added: Share<OfAdded<K>>,
    removed: Share<OfRemoved<K>>,
}

impl<K: Label> Model for Shares<K> {
    ghost use Rattle.std.specs.Prelude.{◌≡◌};
    ghost use Rattle.eu_shared.specs.Shares.{Part};

    ghost Value = { Part };

    ghost view = { λ s. record { parts = s.steps.parts; tally = record { steps = s.steps.amount; counted = s.counted.amount; added = s.added.amount; removed = s.removed.amount } } };

    ghost invariant = { λ s. (s.counted.parts ≡ s.steps.parts) × (s.added.parts ≡ s.steps.parts) × (s.removed.parts ≡ s.steps.parts) };
}

impl<K: Label> Totals<K> {
    /// Adds a tally to the totals and to a share that has a part.
    pub(crate) fn add(&mut self, shares: &mut Shares<K>, tally: Tally)
        requires { 0 < shares.old.parts }
        ensures totals { self.new ≡ plus self.old tally }
        ensures shares { shares.new ≡ record { parts = shares.old.parts; tally = plus shares.old.tally tally } }
    {
        self.steps.add(&mut shares.steps, tally.steps);
        self.counted.add(&mut shares.counted, tally.counted);
        self.added.add(&mut shares.added, tally.added);
        self.removed.add(&mut shares.removed, tally.removed);
    }

    /// How a share stands to the totals: it counts no more, and just as much where it has all the parts. Changes nothing.
    pub(crate) fn audit(&mut self, shares: &mut Shares<K>)
        ensures totals { self.new ≡ self.old }
        ensures shares { shares.new ≡ shares.old }
        ensures most { IsAtMost shares.old.tally self.old }
        ensures whole { shares.old.parts ≡ K.parts → shares.old.tally ≡ self.old }
    {
        self.steps.audit(&mut shares.steps);
        self.counted.audit(&mut shares.counted);
        self.added.audit(&mut shares.added);
        self.removed.audit(&mut shares.removed);
    }
}

impl<K: Label> Shares<K> {
    /// Cuts off so many parts, which count nothing. Fewer than it has.
    pub(crate) fn split_off(&mut self, parts: u64) -> Shares<K>
        requires { parts < self.old.parts }
        ensures given { result ≡ record { parts = parts; tally = nothing } }
        ensures parts { self.new.parts + parts ≡ self.old.parts }
        ensures tally { self.new.tally ≡ self.old.tally }
    {
        Shares {
            steps: self.steps.split_off(parts, 0),
            counted: self.counted.split_off(parts, 0),
            added: self.added.split_off(parts, 0),
            removed: self.removed.split_off(parts, 0),
        }
    }

    /// Lends all that it has to another share: so many parts with this tally.
    pub(crate) fn lend(&mut self, to: &mut Shares<K>, parts: u64, tally: Tally)
        requires some { 0 < parts }
        requires all { self.old ≡ record { parts = parts; tally = tally } }
        ensures left { self.new ≡ record { parts = 0; tally = nothing } }
        ensures lent { to.new ≡ record { parts = to.old.parts + parts; tally = plus to.old.tally tally } }
    {
        self.steps.give(&mut to.steps, parts, tally.steps);
        self.counted.give(&mut to.counted, parts, tally.counted);
        self.added.give(&mut to.added, parts, tally.added);
        self.removed.give(&mut to.removed, parts, tally.removed);
    }

    /// Takes back what it had lent: fewer parts than the other has, and no more than that counts.
    pub(crate) fn take_back(&mut self, from: &mut Shares<K>, parts: u64, tally: Tally)
        requires empty { self.old ≡ record { parts = 0; tally = nothing } }
        requires parts { (0 < parts) × (parts < from.old.parts) }
        requires enough { IsAtMost tally from.old.tally }
        ensures taken { self.new ≡ record { parts = parts; tally = tally } }
        ensures parts { from.new.parts + parts ≡ from.old.parts }
        ensures tally { plus from.new.tally tally ≡ from.old.tally }
    {
        from.steps.give(&mut self.steps, parts, tally.steps);
        from.counted.give(&mut self.counted, parts, tally.counted);
        from.added.give(&mut self.added, parts, tally.added);
        from.removed.give(&mut self.removed, parts, tally.removed);
    }
}
