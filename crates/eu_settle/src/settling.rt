//! Settling.
ghost use Rattle.std.specs.Prelude.{◌≡◌, ◌<◌, IfSome, IfNone, IfErr, OnOk};
ghost use Rattle.eu_settle.specs.Settled.{log_at, from_first, part_of, IsSettled, IsMismatch, DiffersFirst};

use crate::closed::{Closed, PassLog};
use crate::parts::{first_kept, first_own, is_same, next_entry, next_log};
use eu_book::Logged;
use eu_model::Entry;

/// A pass whose log isn't its part of the entries.
#[derive(Clone, Copy, Debug, PartialEq, Eq)]
pub struct Mismatch {
    /// The number of the pass.
    pub pass: u64,
    /// The first place, from 0, where they differ.
    pub place: usize,
}

/// Judges whether each pass logged its part of the entries: from the number `first` on, its log is the entries of that pass, in
/// order. A number with entries and no log counts as one with an empty log; of two logs of one number the first is looked at.
///
/// Takes no memory, and for each number a time in proportion to the entries, to how many logs there are, and to the items of its own log.
///
/// # Errors
///
/// `Mismatch` exactly where a pass's log isn't its part: the least number of such a pass, and the first place where they differ.
pub fn settle(closed: &Closed) -> Result<(), Mismatch>
    ensures ok { OnOk result (IsSettled closed.now.first closed.now.logs.items closed.now.entries.items) }
    ensures mismatch { IfErr result (λ m. IsMismatch closed.now.first closed.now.logs.items closed.now.entries.items m.pass m.place) }
{
    let logs = closed.logs.as_slice();
    let entries = closed.entries.as_slice();
    let mut from: u128 = 0;
    while from < 1 << 64 {
        let next = next_log(logs, from).min(next_entry(entries, from));
        if next >= 1 << 64 {
            return Ok(());
        }
        let pass = next as u64;
        if let Some(place) = first_difference(log_of(logs, pass), entries, closed.first, pass) {
            return Err(Mismatch { pass, place });
        }
        from = next + 1;
    }
    Ok(())
}

/// The log of a pass: the first of its number, or an empty one.
fn log_of(logs: &[PassLog], pass: u64) -> &[Logged]
    ensures { result.now ≡ log_at pass logs.now }
{
    let mut logs = logs;
    while let Some((one, rest)) = logs.split_first() {
        if one.pass == pass {
            return one.log.as_slice();
        }
        logs = rest;
    }
    &[]
}

/// Where a log, from a number on, and the entries of a pass first differ, if they do.
fn first_difference(log: &[Logged], entries: &[Entry], first: u64, pass: u64) -> Option<usize>
    ensures none { IfNone result (from_first first log.now ≡ part_of pass entries.now) }
    ensures some { IfSome result (λ k. DiffersFirst k (from_first first log.now) (part_of pass entries.now)) }
{
    let mut log = log;
    let mut entries = entries;
    let mut place = 0;
    loop {
        let Some((one, rest)) = first_kept(log, first) else {
            return match first_own(entries, pass) {
                None => None,
                Some(_) => Some(place),
            };
        };
        let Some((other, more)) = first_own(entries, pass) else {
            return Some(place);
        };
        if !is_same(one, other) {
            return Some(place);
        }
        log = rest;
        entries = more;
        place += 1;
    }
}
