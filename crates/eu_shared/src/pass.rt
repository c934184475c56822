//! Passes: by each, one caller asks the shared book.
ghost use Rattle.std.specs.Prelude.{◌≡◌, ◌≤◌, ◌||◌, false, max, nat_lt, IfOk};
ghost use Rattle.eu_settle.specs.Settled.{from_first};
ghost use Rattle.eu_shared.specs.Closing.{log_of, logged_by};
ghost use Rattle.eu_shared.specs.Passes.{trimmed};

use crate::shares::{Label, Shares};
use eu_base::MOST_ENTRIES;
use eu_book::Logged;
use eu_model::{Command, Tally};
use eu_settle::PassLog;
use std::alloc::{AllocError, Global};
use std::marker::Model;

/// The pass of one caller of a shared book: by its number the entries of the journal name it. It keeps a log of its own, and the
/// shares of what was done for it.
///
/// Its tallies are its shares of the four ledgers, whose totals are the book's. So they move only where the book's do.
#[derive(Drop)]
pub struct Pass<K: Label> {
    pub(crate) number: u64,
    pub(crate) log: Vec<Logged>,
    pub(crate) tally: Tally,
    /// The greatest number with which it has seen the journal begin.
    pub(crate) journal_first: u64,
    /// Whether its log may have what is numbered below that.
    pub(crate) is_stale: bool,
    pub(crate) shares: Shares<K>,
}

impl<K: Label> Model for Pass<K> {
    ghost use Rattle.std.specs.Prelude.{◌≡◌, false};
    ghost use Rattle.eu_settle.specs.Settled.{from_first};
    ghost use Rattle.eu_shared.specs.Passes.{PassAccount};
    ghost use Rattle.eu_shared.specs.PassCode.{coded_pass};

    ghost Value = { PassAccount };

    ghost coded = { coded_pass };

    ghost view = { λ p. record { number = p.number; log = p.log.items; tally = p.tally; journal_first = p.journal_first } };

    ghost invariant = { λ p. (p.shares ≡ record { parts = 1; tally = p.tally }) × (p.is_stale ≡ false → from_first p.journal_first p.log.items ≡ p.log.items) };
}

impl<K: Label> Pass<K> {
    /// Its number, from 0: how many passes were made before it. Takes no memory.
    pub fn number(&self) -> u64
        ensures { result ≡ self.now.number }
    {
        self.number
    }

    /// What it was answered, one after the other, but for what was trimmed. Takes no memory.
    pub fn log(&self) -> &[Logged]
        ensures { result.now ≡ self.now.log }
    {
        self.log.as_slice()
    }

    /// What was done for it in all. Takes no memory.
    pub fn tallies(&self) -> Tally
        ensures { result ≡ self.now.tally }
    {
        self.tally
    }

    /// Drops from its log what lies before the journal, as far as it knows: what is numbered below the greatest number with which it
    /// has seen the journal begin, at its asks, reads and checkpoints that weren't refused. Its tallies stay. Takes no memory.
    pub fn trim(&mut self)
        ensures { self.new ≡ trimmed self.old }
    {
        trim_log(&mut self.log, self.journal_first, &mut self.is_stale);
    }

    /// Makes room in its log for as many items as the journal has entries. Where it is trimmed after each that the journal begins anew, hardly an ask
    /// wants memory for it then. The pass stays as it is. `AllocError` where no memory is left.
    pub fn reserve_log(&mut self) -> Result<(), AllocError>
        ensures { self.new ≡ self.old }
    {
        self.log.reserve(MOST_ENTRIES)
    }

    /// Makes room in its log for what it is answered next, and gives the command once more, to be kept there. `AllocError` where no
    /// memory is left.
    pub(crate) fn prepare(
        &mut self,
        alloc: Global,
        command: &Command,
    ) -> Result<Command, AllocError>
        ensures same { IfOk result (λ mine. mine ≡ command.now) }
        ensures pass { self.new ≡ self.old }
    {
        self.log.reserve(1)?;
        command.copy(alloc)
    }

    /// Its number and its log.
    pub(crate) fn into_log(self) -> PassLog
        ensures { logged_by result ≡ log_of self }
    {
        let Pass {
            number,
            log,
            tally: _,
            journal_first: _,
            is_stale: _,
            shares: _,
        } = self;
        PassLog { pass: number, log }
    }
}

/// Keeps that the journal was seen to begin with `first`, where that is the greatest number so far: then a log may have what is
/// numbered below it.
pub(crate) fn see(journal_first: &mut u64, is_stale: &mut bool, first: u64)
    ensures journal_first { journal_first.new ≡ max journal_first.old first }
    ensures stale { is_stale.new ≡ false → (is_stale.old ≡ false) × (journal_first.new ≡ journal_first.old) }
    ensures exact { is_stale.new ≡ (is_stale.old || nat_lt journal_first.old first) }
{
    *is_stale = *is_stale || *journal_first < first;
    *journal_first = (*journal_first).max(first);
}

/// Whether a log may have what is numbered below `journal_first`, once it has an entry of that number more.
pub(crate) fn is_stale_with(is_stale: bool, journal_first: u64, number: u64) -> bool
    ensures fresh { result ≡ false → (is_stale ≡ false) × (journal_first ≤ number) }
    ensures exact { result ≡ (is_stale || nat_lt number journal_first) }
{
    is_stale || number < journal_first
}

/// Drops from a log what is numbered below `first`, where it may have such. Afterwards it has none.
fn trim_log(log: &mut Vec<Logged>, first: u64, is_stale: &mut bool)
    requires { is_stale.old ≡ false → from_first first log.old.items ≡ log.old.items }
    ensures log { log.new.items ≡ from_first first log.old.items }
    ensures stale { is_stale.new ≡ false }
{
    if *is_stale {
        log.retain(|logged| first <= logged.number);
        *is_stale = false;
    }
}
