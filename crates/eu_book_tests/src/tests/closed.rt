//! Books that were closed, and books that weren't: what their lines say, and what comes of each.
use eu_base::Fault;
use eu_fixtures::{Told, first_wrong, renewal, tell_done, tell_fault, tell_state};
use eu_settle::{Closed, PassLog, settle};
use eu_shared::{Label, Pass, Shared, Unclosed, close};
use std::alloc::{AllocError, Global};
use std::mem::replace;

/// Writes the number of a pass, and how long its log is.
fn tell_log(out: &mut String, log: Option<&PassLog>) -> Result<(), AllocError> {
    match log {
        Some(log) => write!(out, " {}:{}", log.pass, log.log.len()),
        None => Ok(()),
    }
}

/// Writes the number of the first entry and how many there are, what was done in all, how many logs there are, and the first and the last of
/// them.
fn tell_account(out: &mut String, closed: &Closed) -> Result<(), AllocError> {
    let (entries, logs) = (closed.entries.len(), closed.logs.len());
    write!(out, "{} {entries} {:?} {logs}", closed.first, closed.totals)?;
    tell_log(out, closed.logs.first())?;
    tell_log(out, closed.logs.last())
}

/// Has the third item of the first log renew i2.
fn turn(alloc: Global, closed: &mut Closed) -> Result<(), Fault> {
    let renewal = renewal(alloc, "i2")?;
    match closed.logs.first_mut().and_then(|log| log.log.get_mut(2)) {
        Some(item) => drop(replace(&mut item.command, renewal)),
        None => drop(renewal),
    }
    Ok(())
}

/// Drops the last item of the last log.
fn cut(closed: &mut Closed) {
    if let Some(log) = closed.logs.last_mut() {
        drop(log.log.pop());
    }
}

/// Drops the first entry.
fn forget(closed: &mut Closed) {
    if !closed.entries.is_empty() {
        drop(closed.entries.remove(0));
        closed.first = closed.first.saturating_add(1);
    }
}

fn change(alloc: Global, closed: &mut Closed, said: &str) -> Result<(), Fault> {
    match said {
        "turn" => return turn(alloc, closed),
        "cut" => cut(closed),
        "lose" => drop(closed.logs.pop()),
        "forget" => forget(closed),
        _ => return Err(Fault::BadValue),
    }
    Ok(())
}

/// Tells a book that was closed what is to be made of its logs and its entries.
fn tell_closed(
    alloc: Global,
    closed: &mut Closed,
    said: &str,
    out: &mut String,
) -> Result<(), Fault> {
    match said {
        "account" => Ok(tell_account(out, closed)?),
        "base" => Ok(tell_state(out, &closed.base)?),
        "end" => Ok(tell_state(out, &closed.end)?),
        "settle" => Ok(write!(out, "{:?}", settle(closed))?),
        _ => tell_done(out, change(alloc, closed, said)),
    }
}

/// Asks a book that wasn't.
fn tell_unclosed<K: Label>(
    unclosed: &Unclosed<K>,
    said: &str,
    out: &mut String,
) -> Result<(), Fault> {
    match said {
        "fault" => Ok(tell_fault(out, unclosed.fault)?),
        "sums" => Ok(write!(out, "{:?}", unclosed.sums)?),
        "totals" => Ok(write!(out, "{:?}", unclosed.totals)?),
        "passes" => Ok(write!(out, "{} of {}", unclosed.passes.len(), unclosed.pass_count)?),
        _ => Err(Fault::BadValue),
    }
}

/// What comes of a close.
#[derive(Drop)]
struct End<K: Label> {
    outcome: Result<Closed, Unclosed<K>>,
}

impl<K: Label> Told for End<K> {
    fn tell(&mut self, alloc: Global, said: &str, out: &mut String) -> Result<(), Fault> {
        match &mut self.outcome {
            Ok(closed) => tell_closed(alloc, closed, said, out),
            Err(unclosed) => tell_unclosed(unclosed, said, out),
        }
    }
}

/// The first wrong line of a text, as it is told to what comes of a close.
pub fn first_wrong_closed<K: Label>(
    alloc: Global,
    outcome: Result<Closed, Unclosed<K>>,
    text: &str,
) -> Option<usize> {
    let mut end = End { outcome };
    let wrong = first_wrong(alloc, &mut end, text);
    drop(end);
    wrong
}

/// The same of a shared book that is closed.
pub fn first_wrong_end<K: Label>(
    alloc: Global,
    shared: Shared<K>,
    passes: Vec<Pass<K>>,
    text: &str,
) -> Option<usize> {
    first_wrong_closed(alloc, close(shared, alloc, passes), text)
}
