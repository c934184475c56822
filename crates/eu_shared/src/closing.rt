//! Closing a shared book.
ghost use Rattle.std.specs.Prelude.{◌≡◌, ◌≤◌, [], map, vec_len, IfErr, IfOk, IsPermutation};
ghost use Rattle.std.specs.List.Sorted.{IsNonDecreasingBy};
ghost use Rattle.std.specs.Vec.{vec_capacity};
ghost use Rattle.eu_book.specs.Account.{IsLawful};
ghost use Rattle.eu_book.specs.Peers.{state_of};
ghost use Rattle.eu_shared.specs.Closing.{account_of, log_of, logged_by, IsClosed, IsReason, IsUnclosed};
ghost use Rattle.eu_shared.specs.Passes.{done_for};
ghost use Rattle.eu_settle.specs.declared.closed.PassLog.{PassLog};

use crate::held::Held;
use crate::pass::Pass;
use crate::shares::Label;
use eu_base::Fault;
use eu_model::{State, Tally};
use eu_settle::{Closed, PassLog};
use std::alloc::Global;

/// What is handed back where a book isn't closed.
#[derive(Drop)]
pub struct Unclosed<K: Label> {
    /// Why it isn't closed.
    pub fault: Fault,
    /// What was done for the passes that are there.
    pub sums: Tally,
    /// What was done in all.
    pub totals: Tally,
    /// How many passes were made.
    pub pass_count: u64,
    /// The passes, as they were.
    pub passes: Vec<Pass<K>>,
    /// The book, as it was.
    pub held: Held<K>,
}

impl<K: Label> Held<K> {
    /// Closes the book: its journal leads from the base to the end, and its totals are what was done for the passes.
    ///
    /// `PassMissing`, which takes no memory, exactly where what was done for these passes isn't what was done in all; never where as
    /// many passes are handed in as were made. Else `OutOfMemory`. Either hands back the book and the passes, as they were.
    pub fn close(self, alloc: Global, passes: Vec<Pass<K>>) -> Result<Closed, Unclosed<K>>
        ensures whole { vec_len passes ≡ self.pass_count → done_for passes.items ≡ self.book.totals }
        ensures closed { IfOk result (IsClosed self passes.items) }
        ensures lawful { IfOk result (λ c. IsLawful (account_of c)) }
        ensures unclosed { IfErr result (λ u. IsUnclosed self passes.items u.fault u.sums u.totals u.pass_count u.passes.items u.held) }
    {
        let mut held = self;
        let mut passes = passes;
        let sums = held.sums(&mut passes);
        let totals = held.book().totals();
        if sums != totals {
            return Err(hand_back(Fault::PassMissing, sums, passes, held));
        }
        let Ok(logs) = Vec::with_capacity(alloc, passes.len()) else {
            return Err(hand_back(Fault::OutOfMemory, sums, passes, held));
        };
        let Ok(base) = held.book().base(alloc) else {
            return Err(hand_back(Fault::OutOfMemory, sums, passes, held));
        };
        let Ok(end) = held.book().state(alloc) else {
            return Err(hand_back(Fault::OutOfMemory, sums, passes, held));
        };
        Ok(plain(held, base, end, sorted_logs(passes, logs)))
    }
}

/// The book as plain data, with its base, its state and the logs of its passes.
fn plain<K: Label>(held: Held<K>, base: State, end: State, logs: Vec<PassLog>) -> Closed
    requires base { base ≡ state_of held.book.base }
    requires end { end ≡ state_of held.book.state }
    ensures whole { account_of result ≡ held.book }
    ensures base { result.base ≡ base }
    ensures end { result.end ≡ end }
    ensures logs { result.logs ≡ logs }
    ensures lawful { IsLawful (account_of result) }
{
    let first = held.book().first();
    let totals = held.book().totals();
    Closed {
        base,
        first,
        entries: held.into_book().into_entries(),
        end,
        totals,
        logs,
    }
}

/// What is handed back where a book isn't closed.
fn hand_back<K: Label>(
    fault: Fault,
    sums: Tally,
    passes: Vec<Pass<K>>,
    held: Held<K>,
) -> Unclosed<K>
    requires sums { sums ≡ done_for passes.items }
    requires reason { IsReason fault sums held.book.totals }
    ensures { IsUnclosed held passes.items result.fault result.sums result.totals result.pass_count result.passes.items result.held }
{
    Unclosed {
        fault,
        sums,
        totals: held.book().totals(),
        pass_count: held.pass_count(),
        passes,
        held,
    }
}

/// The logs of the passes by their numbers, put where there is room for them.
fn sorted_logs<K: Label>(passes: Vec<Pass<K>>, logs: Vec<PassLog>) -> Vec<PassLog>
    requires empty { logs.items ≡ [] }
    requires room { vec_len passes ≤ vec_capacity logs }
    ensures logs { IsPermutation (map log_of passes.items) (map logged_by result.items) }
    ensures ascending { IsNonDecreasingBy (λ (l : PassLog). l.pass) result.items }
{
    let mut logs = logs_of(passes, logs);
    sort(logs.as_mut_slice());
    logs
}

/// Sorts logs by their passes' numbers.
fn sort(logs: &mut [PassLog])
    ensures logs { IsPermutation (map logged_by logs.old) (map logged_by logs.new) }
    ensures ascending { IsNonDecreasingBy (λ (l : PassLog). l.pass) logs.new }
{
    logs.sort_unstable_by_key(|log| log.pass);
}

/// The logs of the passes, put where there is room for them.
fn logs_of<K: Label>(passes: Vec<Pass<K>>, logs: Vec<PassLog>) -> Vec<PassLog>
    requires empty { logs.items ≡ [] }
    requires room { vec_len passes ≤ vec_capacity logs }
    ensures { map logged_by result.items ≡ map log_of passes.items }
{
    let mut logs = logs;
    for pass in passes {
        logs.push_reserved(pass.into_log());
    }
    logs
}
