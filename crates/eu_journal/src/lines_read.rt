//! Lines from JSON.
ghost use Rattle.std.specs.Prelude.{◌≡◌};
ghost use Rattle.serde_json.specs.View.{view};
ghost use Rattle.eu_journal_values.specs.Answered.{Gives};
ghost use Rattle.eu_journal.specs.LineReading.{answered_line, asked_line, digest_line, first_format, flight_line, head_line, head_of, lease_line, line_named, line_of, row_line, sent_line, task_in, victim_line, waiting_line};
ghost use Rattle.eu_journal_values.specs.Members.{moment_in, optional_in};

use crate::lines::{DigestText, Head, JournalLine};
use eu_base::{Moment, Task};
use eu_journal_values::{
    LineFault, command_of, config_from, id_of, instance_in, key_in, member_in, moment_in,
    number_in, reply_of, status_in, task_of, text_in, times_of,
};
use eu_model::Listed;
use serde_json::Value;
use std::alloc::Global;

/// The moment of a member that may be null. `NotALine` where it is neither.
fn optional_moment_in(object: &Value, name: &str) -> Result<Option<Moment>, LineFault>
    ensures { result ≡ optional_in moment_in name.now (view object.now) }
{
    match member_in(object, name)? {
        Value::Null => Ok(None),
        _ => Ok(Some(moment_in(object, name)?)),
    }
}

/// `NotALine` where it isn't the number of the only format, 1.
fn first_format(number: u64) -> Result<(), LineFault>
    ensures { result ≡ first_format number }
{
    if number == 1 {
        Ok(())
    } else {
        Err(LineFault::NotALine)
    }
}

/// The beginning of a state. `NotALine` where it is none.
#[tactic(auto, unfolding(crate::specs::LineReading::head_of))]
fn head_of(object: &Value) -> Result<Head, LineFault>
    ensures { result ≡ head_of (view object.now) }
{
    first_format(number_in(object, "journal")?)?;
    let config = config_from(member_in(object, "config")?)?;
    let expected = number_in(object, "expected")?;
    let last = number_in(object, "last")?;
    let since = number_in(object, "since")?;
    let previous = optional_moment_in(object, "previous")?;
    Ok(Head {
        config,
        expected,
        last,
        since,
        previous,
    })
}

/// The line with which a state begins. `NotALine` where it is none.
#[tactic(auto, unfolding(crate::specs::LineReading::head_line))]
fn head_line(object: &Value) -> Result<JournalLine, LineFault>
    ensures { Gives result (head_line (view object.now)) }
{
    let head = head_of(object)?;
    Ok(JournalLine::Head(head))
}

/// The line of a lease. `NotALine` where it is none; `OutOfMemory`.
#[tactic(auto, unfolding(crate::specs::LineReading::lease_line))]
fn lease_line(alloc: Global, object: &Value) -> Result<JournalLine, LineFault>
    ensures { Gives result (lease_line (view object.now)) }
{
    let rest = member_in(object, "rest")?;
    let instance = instance_in(alloc, rest, object)?;
    let times = times_of(member_in(object, "times")?)?;
    Ok(JournalLine::Lease(Listed { instance, times }))
}

/// The line of an override row. `NotALine` where it is none; `OutOfMemory`.
#[tactic(auto, unfolding(crate::specs::LineReading::row_line))]
fn row_line(alloc: Global, object: &Value) -> Result<JournalLine, LineFault>
    ensures { Gives result (row_line (view object.now)) }
{
    let id = id_of(alloc, text_in(object, "id")?)?;
    let status = status_in(object, "status")?;
    Ok(JournalLine::Row { id, status })
}

/// The task of a line. `NotALine` where it is none; `OutOfMemory`.
#[tactic(auto, unfolding(crate::specs::LineReading::task_in))]
fn task_in(alloc: Global, object: &Value) -> Result<Task, LineFault>
    ensures { Gives result (task_in (view object.now)) }
{
    let rest = member_in(object, "rest")?;
    task_of(alloc, rest, member_in(object, "task")?)
}

/// The line of a task that waits. `NotALine` where it is none; `OutOfMemory`.
#[tactic(auto, unfolding(crate::specs::LineReading::waiting_line))]
fn waiting_line(alloc: Global, object: &Value) -> Result<JournalLine, LineFault>
    ensures { Gives result (waiting_line (view object.now)) }
{
    let task = task_in(alloc, object)?;
    Ok(JournalLine::Waiting(task))
}

/// The line of a task in flight. `NotALine` where it is none; `OutOfMemory`.
#[tactic(auto, unfolding(crate::specs::LineReading::flight_line))]
fn flight_line(alloc: Global, object: &Value) -> Result<JournalLine, LineFault>
    ensures { Gives result (flight_line (view object.now)) }
{
    let task = task_in(alloc, object)?;
    Ok(JournalLine::Flight(task))
}

/// The line with which an entry begins. `NotALine` where it is none; `OutOfMemory`.
#[tactic(auto, unfolding(crate::specs::LineReading::asked_line))]
fn asked_line(alloc: Global, object: &Value) -> Result<JournalLine, LineFault>
    ensures { Gives result (asked_line (view object.now)) }
{
    let pass = number_in(object, "pass")?;
    let number = number_in(object, "number")?;
    let moment = moment_in(object, "moment")?;
    let rest = member_in(object, "rest")?;
    let command = command_of(alloc, rest, member_in(object, "command")?)?;
    Ok(JournalLine::Asked {
        pass,
        number,
        moment,
        command,
    })
}

/// The line of a reply. `NotALine` where it is none; `OutOfMemory`.
#[tactic(auto, unfolding(crate::specs::LineReading::answered_line))]
fn answered_line(alloc: Global, object: &Value) -> Result<JournalLine, LineFault>
    ensures { Gives result (answered_line (view object.now)) }
{
    let rest = member_in(object, "rest")?;
    let reply = reply_of(alloc, rest, member_in(object, "reply")?)?;
    Ok(JournalLine::Answered(reply))
}

/// The line of a victim. `NotALine` where it is none; `OutOfMemory`.
#[tactic(auto, unfolding(crate::specs::LineReading::victim_line))]
fn victim_line(alloc: Global, object: &Value) -> Result<JournalLine, LineFault>
    ensures { Gives result (victim_line (view object.now)) }
{
    let key = key_in(alloc, object)?;
    Ok(JournalLine::Victim(key))
}

/// The line of a task of a batch. `NotALine` where it is none; `OutOfMemory`.
#[tactic(auto, unfolding(crate::specs::LineReading::sent_line))]
fn sent_line(alloc: Global, object: &Value) -> Result<JournalLine, LineFault>
    ensures { Gives result (sent_line (view object.now)) }
{
    let task = task_in(alloc, object)?;
    Ok(JournalLine::Sent(task))
}

/// The line of a digest. `NotALine` where it is none; `OutOfMemory`.
#[tactic(auto, unfolding(crate::specs::LineReading::digest_line))]
fn digest_line(alloc: Global, object: &Value) -> Result<JournalLine, LineFault>
    ensures { Gives result (digest_line (view object.now)) }
{
    let text = String::from_str(alloc, text_in(object, "sha256")?)?;
    Ok(JournalLine::Digest(DigestText::new(text)))
}

/// The line of that kind. `NotALine` where it is none; `OutOfMemory`.
fn line_named(alloc: Global, kind: &str, object: &Value) -> Result<JournalLine, LineFault>
    ensures { Gives result (line_named kind.now (view object.now)) }
{
    match kind {
        "head" => head_line(object),
        "lease" => lease_line(alloc, object),
        "row" => row_line(alloc, object),
        "peer" => Ok(JournalLine::Peer),
        "waiting" => waiting_line(alloc, object),
        "flight" => flight_line(alloc, object),
        "asked" => asked_line(alloc, object),
        "answered" => answered_line(alloc, object),
        "victim" => victim_line(alloc, object),
        "sent" => sent_line(alloc, object),
        "digest" => digest_line(alloc, object),
        _ => Err(LineFault::NotALine),
    }
}

/// The line that a JSON value says, by its member `line`, the kind. Members that the kind doesn't have aren't read.
///
/// `NotALine` where the kind is none, or a member that it has is absent or isn't such a value as is written there; `OutOfMemory` may
/// come in place of it.
#[tactic(auto, unfolding(crate::specs::LineReading::line_of))]
pub fn line_of(alloc: Global, value: &Value) -> Result<JournalLine, LineFault>
    ensures { Gives result (line_of (view value.now)) }
{
    let kind = text_in(value, "line")?;
    line_named(alloc, kind, value)
}
