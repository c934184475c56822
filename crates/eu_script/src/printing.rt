//! What is printed.
ghost use Rattle.std.specs.Prelude.{◌≡◌, ◌++◌, OnOk, codes, string_bytes};
ghost use Rattle.eu_script.specs.Audit.{audit_text};
ghost use Rattle.eu_script.specs.Texts.{reply_text, conflict_text, evicted_text, keys_text, batch_text, tasks_text, refused_text, found_text, look_text, counts_text};
ghost use Rattle.eu_core.specs.Shown.{shown};
ghost use Rattle.eu_page.specs.Page.{shown_page};
ghost use Rattle.eu_base.specs.Values.{action_name};

use eu_base::{Fault, Key, SharedInstance, Task};
use eu_model::{Counts, Reply, StatusCounts, Times};
use eu_page::{page_of, status_page};
use std::alloc::{AllocError, Global};

/// Prints the line of a reply: its HTTP status and, of a conflict, the held instance's status, overridden status and stamp.
/// `settled` is what is printed where a batch is in flight no more.
#[inline(always)]
pub fn print_reply(out: &mut String, settled: &str, reply: &Reply) -> Result<(), AllocError>
    ensures { OnOk result (string_bytes out.new ≡ string_bytes out.old ++ reply_text settled.now reply.now) }
{
    match reply {
        Reply::Registered { .. } => out.push_str("204\n"),
        Reply::Done => out.push_str("200\n"),
        Reply::NotFound | Reply::Stale => out.push_str("404\n"),
        Reply::Conflict(instance) => print_conflict(out, instance),
        Reply::Last(renewals) => writeln!(out, "last {renewals}"),
        Reply::Expected(clients) => writeln!(out, "expected {clients}"),
        Reply::Evicted(victims) => print_victims(out, victims.as_slice()),
        Reply::Batch(tasks) => print_batch(out, tasks.as_slice()),
        Reply::Settled => out.push_str(settled),
    }
}

fn print_conflict(out: &mut String, held: &SharedInstance) -> Result<(), AllocError>
    ensures { OnOk result (string_bytes out.new ≡ string_bytes out.old ++ conflict_text held.now) }
{
    let status = held.status().name();
    let overridden = held.overridden().name();
    let last_dirty = held.last_dirty().value();
    writeln!(out, "409 {status} {overridden} {last_dirty}")
}

fn print_victims(out: &mut String, victims: &[Key]) -> Result<(), AllocError>
    ensures { OnOk result (string_bytes out.new ≡ string_bytes out.old ++ evicted_text victims.now) }
{
    let number = victims.len();
    write!(out, "evicted {number}")?;
    print_keys(out, victims)?;
    out.push_str("\n")
}

fn print_keys(out: &mut String, keys: &[Key]) -> Result<(), AllocError>
    ensures { OnOk result (string_bytes out.new ≡ string_bytes out.old ++ keys_text keys.now) }
{
    for key in keys {
        print_key(out, key)?;
    }
    Ok(())
}

fn print_key(out: &mut String, key: &Key) -> Result<(), AllocError>
    ensures { OnOk result (string_bytes out.new ≡ string_bytes out.old ++ (codes " " ++ (key.now.app ++ (codes " " ++ key.now.id)))) }
{
    out.push_str(" ")?;
    out.push_str(key.app.as_str())?;
    out.push_str(" ")?;
    out.push_str(key.id.as_str())
}

fn print_batch(out: &mut String, tasks: &[Task]) -> Result<(), AllocError>
    ensures { OnOk result (string_bytes out.new ≡ string_bytes out.old ++ batch_text tasks.now) }
{
    let number = tasks.len();
    write!(out, "batch {number}")?;
    print_tasks(out, tasks)?;
    out.push_str("\n")
}

fn print_tasks(out: &mut String, tasks: &[Task]) -> Result<(), AllocError>
    ensures { OnOk result (string_bytes out.new ≡ string_bytes out.old ++ tasks_text tasks.now) }
{
    for task in tasks {
        print_task(out, task)?;
    }
    Ok(())
}

fn print_task(out: &mut String, task: &Task) -> Result<(), AllocError>
    ensures { OnOk result (string_bytes out.new ≡ string_bytes out.old ++ (codes " " ++ (action_name task.now.action ++ (codes " " ++ (task.now.key.app ++ (codes " " ++ task.now.key.id)))))) }
{
    out.push_str(" ")?;
    out.push_str(task.action.name())?;
    print_key(out, &task.key)
}

/// Prints the line of a command that is refused: the fault's number.
pub fn print_refusal(out: &mut String, fault: Fault) -> Result<(), AllocError>
    ensures { OnOk result (string_bytes out.new ≡ string_bytes out.old ++ refused_text fault) }
{
    let number = fault.number();
    writeln!(out, "refused {number}")
}

/// Prints the line of a lease that is looked at: its instance and its moments, or `404`.
pub fn print_look(
    out: &mut String,
    lease: Option<(&SharedInstance, Times)>,
) -> Result<(), AllocError>
    ensures { OnOk result (string_bytes out.new ≡ string_bytes out.old ++ look_text (shown lease.entry)) }
{
    match lease {
        Some((instance, times)) => print_found(out, instance, times),
        None => out.push_str("404\n"),
    }
}

fn print_found(out: &mut String, instance: &SharedInstance, times: Times) -> Result<(), AllocError>
    ensures { OnOk result (string_bytes out.new ≡ string_bytes out.old ++ found_text instance.now times) }
{
    let status = instance.status().name();
    let overridden = instance.overridden().name();
    let (last_dirty, secs) = (instance.last_dirty().value(), instance.secs().secs());
    let (registered, up, updated) = (times.registered, times.up, times.updated);
    writeln!(
        out,
        "found {status} {overridden} dirty {last_dirty} secs {secs} registered {registered} up {up} updated {updated}"
    )
}

/// Prints the line of the counts.
pub fn print_counts(out: &mut String, counts: &Counts) -> Result<(), AllocError>
    ensures { OnOk result (string_bytes out.new ≡ string_bytes out.old ++ counts_text counts.now) }
{
    let held = counts.held;
    let expected = counts.expected;
    let threshold = counts.threshold;
    let last = counts.last;
    let permitted = if counts.permitted { "yes" } else { "no" };
    writeln!(
        out,
        "held {held} expected {expected} threshold {threshold} last {last} permitted {permitted}"
    )
}

/// Prints the status page of a registry with these counts, so many of whose leases have each status.
pub fn print_page(
    alloc: Global,
    out: &mut String,
    counts: &Counts,
    statuses: &StatusCounts,
) -> Result<(), AllocError>
    ensures { OnOk result (string_bytes out.new ≡ string_bytes out.old ++ shown_page counts.now statuses.now) }
{
    let page = page_of(alloc, counts, statuses)?;
    let text = status_page(alloc, &page)?;
    out.push_str(text.as_str())
}

/// Prints the line of an audit: its answer, and how many entries it judged.
pub fn print_audit(out: &mut String, is_run: bool, entries: usize) -> Result<(), AllocError>
    ensures { OnOk result (string_bytes out.new ≡ string_bytes out.old ++ audit_text is_run entries) }
{
    let answer = if is_run { "yes" } else { "no" };
    writeln!(out, "audit {answer} {entries}")
}
