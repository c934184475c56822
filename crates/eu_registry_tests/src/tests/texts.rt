//! What calls are given, from text, and what comes of them, as text.
use eu_base::{App, Config, Fault, Moment, SharedInstance};
use eu_core::Stepped;
use eu_fixtures::{cut, read_config, small_of, tell_fault, tell_reply};
use eu_model::{Listed, Reply, State, Times};
use std::alloc::{AllocError, Global};

/// An application, if there is one in these words.
pub fn read_app(alloc: Global, words: &str) -> Result<Option<App>, Fault> {
    if words.is_empty() {
        return Ok(None);
    }
    Ok(Some(App::read(alloc, words)?))
}

/// A number of clients, and the settings that a line `config T on P I M` behind it has.
pub fn read_opening(alloc: Global, words: &str) -> Result<(u32, Config), Fault> {
    let (expected, words) = cut(words);
    Ok((small_of(expected)?, read_config(alloc, words)?))
}

/// Writes what a call is answered, but for a want of memory, which stays a fault.
pub fn tell_answer(out: &mut String, answer: Result<Reply, Fault>) -> Result<(), Fault> {
    match answer {
        Ok(reply) => Ok(tell_reply(out, &reply)?),
        Err(Fault::OutOfMemory) => Err(Fault::OutOfMemory),
        Err(fault) => Ok(tell_fault(out, fault)?),
    }
}

/// Writes the reply as a journal keeps it and, where it owns memory, as who asked is told it, and as their log keeps it, where they have one; and
/// the status, the stamp and the duration of each copy.
pub fn tell_step(out: &mut String, stepped: &Stepped) -> Result<(), AllocError> {
    tell_reply(out, &stepped.answered.reply)?;
    for other in stepped.answered.others.as_slice() {
        out.push_str(", ")?;
        tell_reply(out, other)?;
    }
    for held in stepped.held.as_slice() {
        let (last_dirty, secs) = (held.last_dirty().value(), held.secs().secs());
        write!(out, "; {} {last_dirty} {secs}", held.status().name())?;
    }
    Ok(())
}

/// Writes the status, the stamp, the duration and the last update of a lease, if there is one.
pub fn tell_lease(
    out: &mut String,
    lease: Option<(&SharedInstance, Times)>,
) -> Result<(), AllocError> {
    let Some((instance, times)) = lease else {
        return out.push_str("none");
    };
    let (status, updated) = (instance.status().name(), times.updated);
    let (last_dirty, secs) = (instance.last_dirty().value(), instance.secs().secs());
    write!(out, "{status} {last_dirty} {secs} {updated}")
}

/// Writes how many leases there are, and the id, the status and the last update of each.
pub fn tell_listing(out: &mut String, leases: &[Listed]) -> Result<(), AllocError> {
    write!(out, "{}", leases.len())?;
    for listed in leases {
        let (id, status) = (listed.instance.key().id.as_str(), listed.instance.status());
        write!(out, " {id} {} {}", status.name(), listed.times.updated)?;
    }
    Ok(())
}

/// Writes how many clients are expected, the renewals of the last minute and of this one, the leases and the rows.
pub fn tell_plain(out: &mut String, state: &State) -> Result<(), AllocError> {
    let (expected, last, since) = (state.expected, state.last, state.since);
    write!(out, "{expected} {last} {since}; ")?;
    tell_listing(out, state.leases.as_slice())?;
    for row in state.overrides.as_slice() {
        write!(out, " {}={}", row.0.as_str(), row.1.name())?;
    }
    Ok(())
}

/// Writes when the previous eviction was, if there was one.
pub fn tell_previous(out: &mut String, previous: Option<Moment>) -> Result<(), AllocError> {
    match previous {
        Some(moment) => write!(out, "; evicted at {}", moment.ms()),
        None => Ok(()),
    }
}
