//! The parts of logs and entries.
ghost use Rattle.std.specs.Prelude.{◌≡◌, ◌↔◌, ◌≤◌, ◌<◌, ◌∷◌, [], All, IsTrue, MatchOption, length};
ghost use Rattle.eu_model.specs.declared.commands.Entry.{Entry};
ghost use Rattle.eu_settle.specs.declared.closed.PassLog.{PassLog};
ghost use Rattle.eu_settle.specs.Settled.{from_first, logged_of, part_of};

use crate::closed::PassLog;
use eu_book::Logged;
use eu_model::Entry;

/// Whether an item of a log is what is logged of an entry.
pub(crate) fn is_same(logged: &Logged, entry: &Entry) -> bool
    ensures { IsTrue result ↔ (logged.now ≡ logged_of entry.now) }
{
    logged.number == entry.number
        && logged.moment.ms() == entry.moment.ms()
        && logged.command.same(&entry.command)
        && logged.reply.same(&entry.reply)
}

/// The least number from `from` on that a log has, or 2^64, which is more than each.
pub(crate) fn next_log(logs: &[PassLog], from: u128) -> u128
    requires { from ≤ 18446744073709551616 }
    ensures least { All (λ (l : PassLog). from ≤ l.pass → result ≤ l.pass) logs.now }
    ensures bound { (from ≤ result) × (result ≤ 18446744073709551616) }
{
    let mut least = 1 << 64;
    for log in logs {
        let pass = u128::from(log.pass);
        if from <= pass && pass < least {
            least = pass;
        }
    }
    least
}

/// The least number from `from` on that an entry has, or 2^64, which is more than each.
pub(crate) fn next_entry(entries: &[Entry], from: u128) -> u128
    requires { from ≤ 18446744073709551616 }
    ensures least { All (λ (e : Entry). from ≤ e.pass → result ≤ e.pass) entries.now }
    ensures bound { (from ≤ result) × (result ≤ 18446744073709551616) }
{
    let mut least = 1 << 64;
    for entry in entries {
        let pass = u128::from(entry.pass);
        if from <= pass && pass < least {
            least = pass;
        }
    }
    least
}

/// The first item of a log that has the number `first` or a later one, and what follows it.
pub(crate) fn first_kept(log: &[Logged], first: u64) -> Option<(&Logged, &[Logged])>
    ensures { MatchOption result (from_first first log.now ≡ []) (λ p. (from_first first log.now ≡ p.0.now ∷ from_first first p.1.now) × (length p.1.now < length log.now)) }
{
    let mut log = log;
    while let Some((one, rest)) = log.split_first() {
        if first <= one.number {
            return Some((one, rest));
        }
        log = rest;
    }
    None
}

/// The first entry of a pass, and what follows it.
pub(crate) fn first_own(entries: &[Entry], pass: u64) -> Option<(&Entry, &[Entry])>
    ensures { MatchOption result (part_of pass entries.now ≡ []) (λ p. (part_of pass entries.now ≡ logged_of p.0.now ∷ part_of pass p.1.now) × (length p.1.now < length entries.now)) }
{
    let mut entries = entries;
    while let Some((one, rest)) = entries.split_first() {
        if one.pass == pass {
            return Some((one, rest));
        }
        entries = rest;
    }
    None
}
