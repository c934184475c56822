//! The book behind the lock, with its part of the ledgers.
ghost use Rattle.std.specs.Prelude.{◌≡◌, ◌↔◌, ◌+◌, ◌<◌, ◌≤◌, Err, None, vec_len, IfOk, IfErr, OnOk, OnErr};
ghost use Rattle.eu_book.specs.Account.{cleared, entry, known_fault, logged, Applies, IsLawful, Refuses};
ghost use Rattle.eu_book.specs.Checkpoint.{IsJournal, IsRoom};
ghost use Rattle.eu_book.specs.Snapshot.{view_of};
ghost use Rattle.eu_model.specs.Answers.{Shows};
ghost use Rattle.eu_model.specs.View.{view};
ghost use Rattle.eu_shared.specs.Passes.{after_answer, done_for, new_pass, opening, after_view};
ghost use Rattle.eu_shared.specs.Shares.{HasNames, HasParts};

use crate::pass::{Pass, is_stale_with, see};
use crate::shares::{Blanks, Label, PARTS, Shares, Totals};
use crate::sums::sum_up;
use eu_base::{Config, Fault, MOST_PASSES, MOST_PEERS, Moment};
use eu_book::{Book, Dropped, Journal, Receipt, ViewSnapshot};
use eu_clock::Chooser;
use eu_hash::HashKey;
use eu_model::{Command, Query, Tally, View};
use std::alloc::{AllocError, Global};
use std::marker::Model;

/// A book with its part of four ledgers: what lies behind the lock. None of its calls waits for anybody.
///
/// The totals of the ledgers are the book's. Each pass has one part of the ledgers, and the book the rest, which counts nothing.
#[derive(Drop)]
pub struct Held<K: Label> {
    book: Book,
    pass_count: u64,
    totals: Totals<K>,
    rest: Shares<K>,
}

impl<K: Label> Model for Held<K> {
    ghost use Rattle.std.specs.Prelude.{◌≡◌, ◌+◌, ◌≤◌};
    ghost use Rattle.eu_base.specs.Limits.{most_passes};
    ghost use Rattle.eu_model.specs.Delta.{nothing};
    ghost use Rattle.eu_shared.specs.Passes.{Holding};
    ghost use Rattle.eu_shared.specs.PassCode.{coded_holding};

    ghost Value = { Holding };

    ghost coded = { coded_holding };

    ghost view = { λ h. record { book = h.book; pass_count = h.pass_count } };

    ghost invariant = { λ h. (h.totals ≡ h.book.totals) × (h.rest.tally ≡ nothing) × (h.rest.parts + h.pass_count ≡ most_passes + 1) × (h.pass_count ≤ most_passes) × (K.parts ≡ most_passes + 1) };
}

impl<K: Label> Held<K> {
    /// A book that is opened now (`Book::open`) for no more than 8 peers, over four new ledgers of 1,025 parts each (`Blanks::new`),
    /// and no pass. It keeps the order of its leases from the start, so that no listing sorts them under the lock, and has room for all that it may
    /// hold, so that no table grows under it. All tables are to hash by that key. `AllocError` where no memory is left.
    pub fn open(
        alloc: Global,
        config: Config,
        expected: u32,
        peers: u32,
        hash_key: HashKey,
        blanks: Blanks,
    ) -> Result<Held<K>, AllocError>
        requires peers { peers ≤ MOST_PEERS }
        requires names { HasNames blanks K.steps K.counted K.added K.removed }
        requires parts { HasParts blanks K.parts × (K.parts ≡ PARTS) }
        ensures { IfOk result (λ held. held ≡ opening config expected peers) }
    {
        let mut book = Book::open(alloc, config, expected, peers, hash_key)?;
        // The order of the keys is kept from the first snapshot on. So the first one is taken while there is nothing to sort.
        let nothing = book.snapshot(alloc, &Query::All, Moment::new(0).unwrap())?;
        drop(nothing);
        book.reserve_all()?;
        let (totals, rest) = blanks.open::<K>();
        Ok(Held {
            book,
            pass_count: 0,
            totals,
            rest,
        })
    }

    /// The book, to be looked at. It is lawful, as each book is.
    pub fn book(&self) -> &Book
        ensures book { result.now ≡ self.now.book }
        ensures lawful { IsLawful self.now.book }
    {
        let _entries = self.book.entries();
        &self.book
    }

    /// The book alone.
    pub(crate) fn into_book(self) -> Book
        ensures { result ≡ self.book }
    {
        let Held {
            book,
            pass_count: _,
            totals: _,
            rest: _,
        } = self;
        book
    }

    /// How many passes were made. Takes no memory.
    pub fn pass_count(&self) -> u64
        ensures { result ≡ self.now.pass_count }
    {
        self.pass_count
    }

    /// A new pass: the first has the number 0, and each further one the next number. Takes no memory.
    ///
    /// `TooManyPasses` exactly where 1,024 were made. It changes nothing.
    pub fn pass(&mut self, alloc: Global) -> Result<Pass<K>, Fault>
        ensures pass { IfOk result (λ pass. pass ≡ new_pass self.old.pass_count) }
        ensures pass_count { OnOk result (self.new ≡ record { book = self.old.book; pass_count = self.old.pass_count + 1 }) }
        ensures many { (result ≡ Err Fault.TooManyPasses) ↔ (self.old.pass_count ≡ MOST_PASSES) }
        ensures no_other { IfErr result (λ f. f ≡ Fault.TooManyPasses) }
        ensures err { OnErr result (self.new ≡ self.old) }
    {
        if self.pass_count == MOST_PASSES {
            return Err(Fault::TooManyPasses);
        }
        let number = self.pass_count;
        self.pass_count += 1;
        Ok(Pass {
            number,
            log: Vec::new(alloc),
            tally: Tally::nothing(),
            journal_first: 0,
            is_stale: false,
            shares: self.rest.split_off(1),
        })
    }

    /// What was done for these passes: all that was done, where they are as many as were made. Changes nothing.
    pub(crate) fn sums(&mut self, passes: &mut Vec<Pass<K>>) -> Tally
        ensures sums { result ≡ done_for passes.old.items }
        ensures whole { vec_len passes.old ≡ self.old.pass_count → result ≡ self.old.book.totals }
        ensures passes { (passes.new.items ≡ passes.old.items) × (vec_len passes.new ≡ vec_len passes.old) }
        ensures same { self.new ≡ self.old }
    {
        let _totals = self.book.totals();
        sum_up(passes, &mut self.rest, &mut self.totals, Tally::nothing())
    }

    /// Tells the book a command for a pass, at a moment: `Book::apply` with the pass's number, and with its refusals, of which want of
    /// memory hides none that it doesn't hide there.
    ///
    /// The pass logs what it is answered, and what was done is added to its tallies. The number of the entry is at least that of
    /// the steps that were made for this pass. A refusal changes neither the book nor the pass, and asks no word.
    pub fn ask<C: Chooser>(
        &mut self,
        alloc: Global,
        pass: &mut Pass<K>,
        command: Command,
        moment: Moment,
        chooser: &mut C,
    ) -> Result<Receipt, Fault>
        ensures applied { IfOk result (λ r. Applies C.asks self.old.book chooser.old (entry pass.old.number r.number command moment r.reply) self.new.book chooser.new) }
        ensures pass { IfOk result (λ r. pass.new ≡ after_answer pass.old (logged command moment r.reply r.number) self.new.book.first) }
        ensures after_own { IfOk result (λ r. pass.old.tally.steps ≤ r.number) }
        ensures before { IsLawful self.old.book }
        ensures after { OnOk result (IsLawful self.new.book) }
        ensures pass_count { self.new.pass_count ≡ self.old.pass_count }
        ensures refused { IfErr result (λ f. Refuses self.old.book command moment f) }
        ensures memory { IfErr result (λ f. f ≡ Fault.OutOfMemory → known_fault self.old.book.totals.steps self.old.book.state.queues command moment ≡ None) }
        ensures err { OnErr result ((self.new ≡ self.old) × (pass.new ≡ pass.old)) }
        ensures unasked { OnErr result (chooser.new ≡ chooser.old) }
    {
        let _before = self.book.entries();
        let Ok(mine) = command.copy(alloc) else {
            let fault = self.book.refusal_without_memory(&command, moment);
            drop(command);
            return Err(fault);
        };
        let outcome = self.ask_with(alloc, pass, command, mine, moment, chooser);
        drop(self.let_go(alloc));
        outcome
    }

    /// `Book::let_go`, for who holds a lock.
    pub(crate) fn let_go(&mut self, alloc: Global) -> Dropped
        ensures { self.new ≡ self.old }
    {
        self.book.let_go(alloc)
    }

    /// As `ask`, where the command was copied before: `mine` is for the pass's log. No entry is let go of.
    pub(crate) fn ask_with<C: Chooser>(
        &mut self,
        alloc: Global,
        pass: &mut Pass<K>,
        command: Command,
        mine: Command,
        moment: Moment,
        chooser: &mut C,
    ) -> Result<Receipt, Fault>
        requires same { mine ≡ command }
        ensures applied { IfOk result (λ t. Applies C.asks self.old.book chooser.old (entry pass.old.number t.number command moment t.reply) self.new.book chooser.new) }
        ensures pass { IfOk result (λ t. pass.new ≡ after_answer pass.old (logged command moment t.reply t.number) self.new.book.first) }
        ensures after_own { IfOk result (λ t. pass.old.tally.steps ≤ t.number) }
        ensures before { IsLawful self.old.book }
        ensures after { OnOk result (IsLawful self.new.book) }
        ensures pass_count { self.new.pass_count ≡ self.old.pass_count }
        ensures refused { IfErr result (λ f. Refuses self.old.book command moment f) }
        ensures memory { IfErr result (λ f. f ≡ Fault.OutOfMemory → known_fault self.old.book.totals.steps self.old.book.state.queues command moment ≡ None) }
        ensures err { OnErr result ((self.new ≡ self.old) × (pass.new ≡ pass.old)) }
        ensures unasked { OnErr result (chooser.new ≡ chooser.old) }
    {
        let _lawful = self.book.entries();
        if pass.log.reserve(1).is_err() {
            let fault = self.book.refusal_without_memory(&command, moment);
            drop((command, mine));
            return Err(fault);
        }
        let outcome = self
            .book
            .apply_logged(alloc, pass.number, command, mine, moment, chooser)?;
        let done = Tally::of(&outcome.logged.command, &outcome.logged.reply);
        self.totals.audit(&mut pass.shares);
        self.totals.add(&mut pass.shares, done);
        self.totals.audit(&mut pass.shares);
        let _totals = self.book.totals();
        pass.tally = pass.tally.plus(done);
        see(
            &mut pass.journal_first,
            &mut pass.is_stale,
            self.book.first(),
        );
        pass.is_stale = is_stale_with(pass.is_stale, pass.journal_first, outcome.logged.number);
        pass.log.push_reserved(outcome.logged);
        Ok(outcome.receipt)
    }

    /// What a query sees at a moment (`Book::read`), for a pass, which has seen then where the journal begins. The pass's log and tallies
    /// stay. No fewer steps than were made for the pass had been made. `AllocError` where no memory is left, which leaves the pass as it
    /// was.
    pub fn read(
        &mut self,
        alloc: Global,
        pass: &mut Pass<K>,
        query: &Query,
        moment: Moment,
    ) -> Result<View, AllocError>
        ensures view { IfOk result (λ v. Shows self.old.book.state.registry (λ s. view s query.now moment) v) }
        ensures pass { OnOk result (pass.new ≡ after_view pass.old self.old.book.first) }
        ensures after_own { pass.old.tally.steps ≤ self.old.book.totals.steps }
        ensures same { self.new ≡ self.old }
        ensures err { OnErr result (pass.new ≡ pass.old) }
    {
        let (snapshot, first) = self.snapshot(alloc, pass, query, moment)?;
        let view = snapshot.into_view(alloc)?;
        see(&mut pass.journal_first, &mut pass.is_stale, first);
        Ok(view)
    }

    /// What a query sees at a moment, as far as the lock is held for it (`Book::snapshot`): `ViewSnapshot::into_view` makes the view of
    /// it once the lock is let go. With it the number at which the journal begins.
    pub(crate) fn snapshot(
        &mut self,
        alloc: Global,
        pass: &mut Pass<K>,
        query: &Query,
        moment: Moment,
    ) -> Result<(ViewSnapshot, u64), AllocError>
        ensures view { IfOk result (λ r. Shows self.old.book.state.registry (λ s. view s query.now moment) (view_of r.0)) }
        ensures first { IfOk result (λ r. r.1 ≡ self.old.book.first) }
        ensures after_own { pass.old.tally.steps ≤ self.old.book.totals.steps }
        ensures before { IsLawful self.old.book }
        ensures same { (self.new ≡ self.old) × (pass.new ≡ pass.old) }
    {
        let first = self.book.first();
        self.totals.audit(&mut pass.shares);
        let snapshot = self.book.snapshot(alloc, query, moment)?;
        Ok((snapshot, first))
    }

    /// Begins the journal anew (`Book::checkpoint`), for a pass, which has seen then where it begins. Registry, queues, totals, and
    /// the pass's log and tallies stay. Gives the journal, its entries as they were. `AllocError` where no memory is left, which changes neither the book
    /// nor the pass.
    pub fn checkpoint(
        &mut self,
        alloc: Global,
        pass: &mut Pass<K>,
    ) -> Result<Box<Journal>, AllocError>
        ensures book { OnOk result (self.new ≡ record { book = cleared self.old.book; pass_count = self.old.pass_count }) }
        ensures pass { OnOk result (pass.new ≡ after_view pass.old self.old.book.totals.steps) }
        ensures after_own { OnOk result (pass.old.tally.steps ≤ self.old.book.totals.steps) }
        ensures before { IsLawful self.old.book }
        ensures retired { IfOk result (λ j. IsJournal self.old.book j.value) }
        ensures err { OnErr result ((self.new ≡ self.old) × (pass.new ≡ pass.old)) }
    {
        let _as_it_was = self.book.entries();
        let room = Journal::room(alloc)?;
        self.checkpoint_in(alloc, pass, room)
    }

    /// As `checkpoint`, for who holds a lock: the room for the next journal was made before (`Journal::room`). `AllocError` where no memory
    /// is left for a copy of what waits for the peers, which changes neither the book nor the pass; then the room is let go of.
    pub fn checkpoint_in(
        &mut self,
        alloc: Global,
        pass: &mut Pass<K>,
        room: Box<Journal>,
    ) -> Result<Box<Journal>, AllocError>
        requires { IsRoom room.value }
        ensures book { OnOk result (self.new ≡ record { book = cleared self.old.book; pass_count = self.old.pass_count }) }
        ensures pass { OnOk result (pass.new ≡ after_view pass.old self.old.book.totals.steps) }
        ensures after_own { OnOk result (pass.old.tally.steps ≤ self.old.book.totals.steps) }
        ensures before { IsLawful self.old.book }
        ensures retired { IfOk result (λ j. IsJournal self.old.book j.value) }
        ensures err { OnErr result ((self.new ≡ self.old) × (pass.new ≡ pass.old)) }
    {
        let _as_it_was = self.book.entries();
        let retired = self.book.checkpoint_in(alloc, room)?;
        self.totals.audit(&mut pass.shares);
        see(
            &mut pass.journal_first,
            &mut pass.is_stale,
            self.book.first(),
        );
        Ok(retired)
    }
}
