//! The book behind its lock.
//!
//! Each call takes the lock once, makes the one call of its name on what lies behind it (`Held`), and releases it. An ask copies
//! its command before, and under the lock lets go of an entry in the end, which is dropped after. A read of all makes its listing after, and a
//! checkpoint the room for the next journal before. What is behind a lock is known
//! by its type alone: so a clause says of an answer that some lawful book gives it, and not which.
ghost use Rattle.std.specs.Prelude.{◌≡◌, ◌∷◌, ◌++◌, ◌≤◌, [], map, vec_len, IfOk, IfErr, OnErr, OnOk, IsPermutation, true};
ghost use Rattle.std.specs.Option.{option_copied};
ghost use Rattle.std.specs.List.Sorted.{IsNonDecreasingBy};
ghost use Rattle.std.specs.Sync.Mutex.{mutex_guard_value};
ghost use Rattle.eu_book.specs.Account.{entry, logged, IsLawful};
ghost use Rattle.eu_book.specs.Peers.{state_of};
ghost use Rattle.eu_model.specs.Delta.{delta, plus};
ghost use Rattle.eu_settle.specs.declared.closed.PassLog.{PassLog};
ghost use Rattle.eu_shared.specs.Closing.{account_of, log_of, logged_by, IsReason};
ghost use Rattle.eu_shared.specs.Passes.{done_for, new_pass, IsAnsweredBySome, IsBegunBySome, IsBriefInSome, IsDoneInSome, IsRefusedBySome, IsSeenOfSome, IsShownBySome};
ghost use Rattle.eu_shared.specs.Shares.{HasNames, HasParts};

use crate::closing::Unclosed;
use crate::held::Held;
use crate::pass::{Pass, see};
use crate::shares::{Blanks, Label, PARTS};
use eu_base::{App, Config, Fault, MOST_PEERS, Moment};
use eu_book::{Journal, Receipt};
use eu_clock::Chooser;
use eu_hash::HashKey;
use eu_model::{Command, Gauges, Query, Tally, View};
use eu_settle::Closed;
use std::alloc::{AllocError, Global};
use std::hint::spin_loop;
use std::sync::{Mutex, MutexGuard, Wait};

/// How often one looks whether the lock is free before one sleeps: some 0.14 ms.
const MOST_LOOKS: u32 = 1_000;

/// A book that threads share, behind one lock.
///
/// Whenever the lock is free, the book is lawful: its entries are a run of the lease machine from the base to its state, the base is
/// where those led that were dropped before, its totals are what all of them did, and as many leases are held as were added and not
/// removed.
#[derive(Drop)]
pub struct Shared<K: Label> {
    held: Mutex<Held<K>>,
}

impl<K: Label> Shared<K> {
    /// As `Held::open`, behind a lock: for no more than 8 peers, over four new ledgers of 1,025 parts each. `AllocError` where no
    /// memory is left.
    pub fn open(
        alloc: Global,
        config: Config,
        expected: u32,
        peers: u32,
        hash_key: HashKey,
        blanks: Blanks,
    ) -> Result<Shared<K>, AllocError>
        requires peers { peers ≤ MOST_PEERS }
        requires names { HasNames blanks K.steps K.counted K.added K.removed }
        requires parts { HasParts blanks K.parts × (K.parts ≡ PARTS) }
    {
        let held = Held::open(alloc, config, expected, peers, hash_key, blanks)?;
        Ok(Shared {
            held: Mutex::new(held),
        })
    }

    /// Takes the lock. The book behind it is lawful: its invariant says so once it is looked at.
    ///
    /// A heartbeat holds it for some 2,000 instructions, and to sleep and be woken takes many times as long. So it is looked for first.
    fn lock<R: Wait>(&self, rt: &R) -> MutexGuard<'_, Held<K>>
        ensures { IsLawful (mutex_guard_value result).book }
    {
        let guard = match self.look() {
            Some(guard) => guard,
            None => self.held.lock(rt),
        };
        let _book = guard.book();
        guard
    }

    /// Takes the lock where it is free at one of `MOST_LOOKS` looks.
    fn look(&self) -> Option<MutexGuard<'_, Held<K>>> {
        for _look in 0..MOST_LOOKS {
            if let Some(guard) = self.held.try_lock() {
                return Some(guard);
            }
            spin_loop();
        }
        None
    }

    /// The counts of the shared book, and how many leases are due at the moment (`Registry::gauges`). `AllocError` where no memory is left.
    pub fn gauges<R: Wait>(
        &self,
        rt: &R,
        alloc: Global,
        moment: Moment,
    ) -> Result<Gauges, AllocError>
        ensures { IfOk result (λ g. IsSeenOfSome moment g) }
    {
        self.lock(rt).book().registry().gauges(alloc, moment)
    }

    /// What the steps of the shared book did so far, all together (`Book::totals`). Takes no memory.
    pub fn totals<R: Wait>(&self, rt: &R) -> Tally
        ensures { IsDoneInSome result }
    {
        self.lock(rt).book().totals()
    }

    /// Whether it is known that the shared book holds few leases of an application, or in all where none is given, and that each is short
    /// (`Registry::is_brief`). Takes no memory.
    pub fn is_brief<R: Wait>(&self, rt: &R, app: Option<&App>, few: usize, short: usize) -> bool
        ensures { result ≡ true → IsBriefInSome few short (option_copied app.entry) }
    {
        self.lock(rt).book().registry().is_brief(app, few, short)
    }

    /// A new pass (`Held::pass`). Its number is how many were made before it. Takes no memory.
    ///
    /// `TooManyPasses` where 1,024 were made.
    pub fn pass<R: Wait>(&self, rt: &R, alloc: Global) -> Result<Pass<K>, Fault>
        ensures pass { IfOk result (λ pass. pass ≡ new_pass pass.number) }
        ensures no_other { IfErr result (λ f. f ≡ Fault.TooManyPasses) }
    {
        self.lock(rt).pass(alloc)
    }
}

impl<K: Label> Pass<K> {
    /// Tells the shared book a command, at a moment (`Held::ask`). The command's copy for the log, and its room there, are made before
    /// the lock is taken.
    ///
    /// What it is answered is logged, and what was done is added to the tallies. The number of the entry is at least that of the
    /// steps that were made for this pass. A refusal is one of `Book::apply`; it leaves the pass as it was, and asks no word.
    pub fn ask<C: Chooser, R: Wait>(
        &mut self,
        rt: &R,
        shared: &Shared<K>,
        alloc: Global,
        command: Command,
        moment: Moment,
        chooser: &mut C,
    ) -> Result<Receipt, Fault>
        ensures log { IfOk result (λ r. self.new.log ≡ self.old.log ++ logged command moment r.reply r.number ∷ []) }
        ensures tally { IfOk result (λ r. self.new.tally ≡ plus self.old.tally (delta command r.reply)) }
        ensures number { self.new.number ≡ self.old.number }
        ensures journal_first { self.old.journal_first ≤ self.new.journal_first }
        ensures after_own { IfOk result (λ r. self.old.tally.steps ≤ r.number) }
        ensures answer { IfOk result (λ r. IsAnsweredBySome C.asks chooser.old self.old (entry self.old.number r.number command moment r.reply) chooser.new self.new) }
        ensures refused { IfErr result (λ f. IsRefusedBySome command moment f) }
        ensures err { OnErr result (self.new ≡ self.old) }
        ensures unasked { OnErr result (chooser.new ≡ chooser.old) }
    {
        let Ok(mine) = self.prepare(alloc, &command) else {
            let fault = shared
                .lock(rt)
                .book()
                .refusal_without_memory(&command, moment);
            drop(command);
            return Err(fault);
        };
        let mut held = shared.lock(rt);
        let outcome = held.ask_with(alloc, self, command, mine, moment, chooser);
        let dropped = held.let_go(alloc);
        drop(held);
        drop(dropped);
        outcome
    }

    /// What a query sees of the shared book, at a moment (`Held::read`). No fewer steps than were made for the pass had been made by then.
    /// For a listing of all, the lock is held while the instances' pointers are taken, and the listing is made of them after; any other
    /// view is made under it. `AllocError` where no memory is left, which leaves the pass as it was.
    pub fn read<R: Wait>(
        &mut self,
        rt: &R,
        shared: &Shared<K>,
        alloc: Global,
        query: &Query,
        moment: Moment,
    ) -> Result<View, AllocError>
        ensures view { IfOk result (λ v. IsShownBySome self.old query.now moment v self.new) }
        ensures pass { (self.new.number ≡ self.old.number) × (self.new.log ≡ self.old.log) × (self.new.tally ≡ self.old.tally) × (self.old.journal_first ≤ self.new.journal_first) }
        ensures err { OnErr result (self.new ≡ self.old) }
    {
        let (snapshot, first) = shared.lock(rt).snapshot(alloc, self, query, moment)?;
        let view = snapshot.into_view(alloc)?;
        see(&mut self.journal_first, &mut self.is_stale, first);
        Ok(view)
    }

    /// Begins the shared book's journal anew (`Held::checkpoint`): what it and its peers' queues are becomes its base, and it has no
    /// entries. The pass has then seen where it begins, and its log and tallies stay. The room for the next journal is made before the
    /// lock is taken, and the journal as it was is let go of after. `AllocError` where no memory is left, which changes nothing.
    pub fn checkpoint<R: Wait>(
        &mut self,
        rt: &R,
        shared: &Shared<K>,
        alloc: Global,
    ) -> Result<(), AllocError>
        ensures pass { (self.new.number ≡ self.old.number) × (self.new.log ≡ self.old.log) × (self.new.tally ≡ self.old.tally) × (self.old.journal_first ≤ self.new.journal_first) }
        ensures begun { OnOk result (IsBegunBySome self.old self.new) }
        ensures after_own { OnOk result (self.old.tally.steps ≤ self.new.journal_first) }
        ensures err { OnErr result (self.new ≡ self.old) }
    {
        let room = Journal::room(alloc)?;
        let retired = shared.lock(rt).checkpoint_in(alloc, self, room)?;
        drop(retired);
        Ok(())
    }
}

/// Closes a shared book (`Held::close`), for which nobody waits any more: its entries lead from the base to the end, and its totals
/// are what was done for the passes.
///
/// `PassMissing` exactly where what was done for these passes isn't what was done in all; never where as many passes are handed
/// in as were made. Else `OutOfMemory`. Either hands back the book, without its lock, and the passes, as they were.
pub fn close<K: Label>(
    shared: Shared<K>,
    alloc: Global,
    passes: Vec<Pass<K>>,
) -> Result<Closed, Unclosed<K>>
    ensures lawful { IfOk result (λ c. IsLawful (account_of c)) }
    ensures plain { IfOk result (λ c. (c.base ≡ state_of (account_of c).base) × (c.end ≡ state_of (account_of c).state)) }
    ensures sums { IfOk result (λ c. c.totals ≡ done_for passes.items) }
    ensures logs { IfOk result (λ c. IsPermutation (map log_of passes.items) (map logged_by c.logs.items)) }
    ensures ascending { IfOk result (λ c. IsNonDecreasingBy (λ (l : PassLog). l.pass) c.logs.items) }
    ensures unclosed { IfErr result (λ u. (u.sums ≡ done_for passes.items) × IsReason u.fault u.sums u.totals × (u.passes.items ≡ passes.items)) }
    ensures book { IfErr result (λ u. (u.totals ≡ u.held.book.totals) × (u.pass_count ≡ u.held.pass_count)) }
    ensures whole { IfErr result (λ u. vec_len passes ≡ u.pass_count → u.sums ≡ u.totals) }
{
    let Shared { held } = shared;
    held.into_inner().close(alloc, passes)
}
