//! What comes of calls, as text.
use eu_base::{Fault, Id, Key, Status, Task};
use eu_model::{Listed, Queue, Reply, State, View};
use std::alloc::AllocError;

/// Writes the ids of these keys, each after a space.
pub fn tell_ids(out: &mut String, keys: &[Key]) -> Result<(), AllocError> {
    for key in keys {
        write!(out, " {}", key.id.as_str())?;
    }
    Ok(())
}

fn tell_tasks(out: &mut String, tasks: &[Task]) -> Result<(), AllocError> {
    for task in tasks {
        write!(out, " {} {}", task.action.name(), task.key.id.as_str())?;
    }
    Ok(())
}

/// Writes a reply: of a conflict the stamp that is held, of an eviction the ids, of a batch the actions and the ids.
pub fn tell_reply(out: &mut String, reply: &Reply) -> Result<(), AllocError> {
    match reply {
        Reply::Conflict(held) => write!(out, "Conflict {}", held.last_dirty().value()),
        Reply::Evicted(victims) => {
            out.push_str("Evicted")?;
            tell_ids(out, victims.as_slice())
        }
        Reply::Batch(tasks) => {
            out.push_str("Batch")?;
            tell_tasks(out, tasks.as_slice())
        }
        other => write!(out, "{other:?}"),
    }
}

/// Writes that something is done, if it is.
pub fn tell_done(out: &mut String, done: Result<(), Fault>) -> Result<(), Fault> {
    done?;
    Ok(out.push_str("done")?)
}

/// Writes the number of a fault.
pub fn tell_fault(out: &mut String, fault: Fault) -> Result<(), AllocError> {
    write!(out, "refused {}", fault.number())
}

/// Writes the id, the statuses, the stamp, the durations and what else the client gave; and when it was registered and updated, and came up.
fn tell_lease(out: &mut String, listed: &Listed) -> Result<(), AllocError> {
    let (instance, times) = (&listed.instance, listed.times);
    write!(
        out,
        "{}/{} {} {}",
        instance.key().app.as_str(),
        instance.key().id.as_str(),
        instance.status().name(),
        instance.overridden().name()
    )?;
    write!(
        out,
        " {} {} {} {:?}",
        instance.last_dirty().value(),
        instance.secs().secs(),
        instance.interval().secs(),
        instance.rest()
    )?;
    write!(out, " {} {} {};", times.registered, times.updated, times.up)
}

fn tell_leases(out: &mut String, leases: &[Listed]) -> Result<(), AllocError> {
    for listed in leases {
        tell_lease(out, listed)?;
    }
    Ok(())
}

/// Writes what is seen: counts, or leases.
fn tell_view(out: &mut String, view: &View) -> Result<(), AllocError> {
    match view {
        View::One(Some(listed)) => tell_lease(out, listed),
        View::One(None) => out.push_str("none"),
        View::OfApp(leases) | View::All(leases) => tell_leases(out, leases.as_slice()),
        View::Counts(counts) => write!(out, "{counts:?}"),
        View::Page(counts, statuses) => write!(out, "{counts:?} {statuses:?}"),
    }
}

/// Writes what a query is answered.
pub fn tell_read(out: &mut String, view: Result<View, AllocError>) -> Result<(), AllocError> {
    let view = view?;
    let told = tell_view(out, &view);
    drop(view);
    told
}

fn tell_rows(out: &mut String, rows: &[(Id, Status)]) -> Result<(), AllocError> {
    for row in rows {
        write!(out, "{}={};", row.0.as_str(), row.1.name())?;
    }
    Ok(())
}

/// Writes how many tasks wait for each peer and are in flight to it.
pub fn tell_queues(out: &mut String, queues: &[Queue]) -> Result<(), AllocError> {
    for queue in queues {
        let waiting = queue.waiting.as_slice().len();
        let flight = queue.flight.as_slice().len();
        write!(out, "{waiting}+{flight};")?;
    }
    Ok(())
}

/// Writes the settings and the counts, and each lease, override row and queue.
pub fn tell_state(out: &mut String, state: &State) -> Result<(), AllocError> {
    let (config, previous) = (state.config, state.previous.map(|moment| moment.ms()));
    write!(
        out,
        "{} {} {} {}",
        config.preservation,
        config.percent.value(),
        config.interval.secs(),
        config.evict_ms
    )?;
    write!(
        out,
        " expected {} last {} since {} previous {previous:?};",
        state.expected, state.last, state.since
    )?;
    tell_leases(out, state.leases.as_slice())?;
    tell_rows(out, state.overrides.as_slice())?;
    tell_queues(out, state.queues.as_slice())
}
