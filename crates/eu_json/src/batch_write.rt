//! Batches of tasks, and their answers, to JSON text.
ghost use Rattle.std.specs.Prelude.{◌≡◌, ◌≤◌, ◌++◌, ◌∷◌, ℕ, List, map, codes, string_bytes, Some, None, IfOk, OnOk};
ghost use Rattle.json.specs.Print.{quoted};
ghost use Rattle.serde_json.specs.Data.{depth};
ghost use Rattle.serde_json.specs.Read.{max_depth};
ghost use Rattle.serde_json.specs.Written.{compact_text};
ghost use Rattle.eu_text.specs.Text.{led};
ghost use Rattle.eu_json.specs.Batch.{answer_tree, answers_tree, batch_tree, entity_tree, instance_members, task_tree};
ghost use Rattle.eu_json.specs.BatchLaw.{IsBatch, SaysTasks};
ghost use Rattle.eu_json.specs.Tree.{instance_tree, list_tree};

use crate::write::{append_instance, append_number};
use eu_base::{Action, SharedInstance, Status, Task};
use eu_text::append_quoted;
use itoa::Buffer;
use std::alloc::{AllocError, Global};

/// Appends what leads to a text, and the text in quotes. `AllocError` where no memory is left.
fn append_led_text(
    alloc: Global,
    out: &mut Vec<u8>,
    lead: &str,
    text: &str,
) -> Result<(), AllocError>
    ensures { OnOk result ((s : List ℕ) → out.new.items ++ s ≡ out.old.items ++ (lead.now ++ (quoted text.now ++ s))) }
{
    out.extend_from_slice(lead.as_bytes())?;
    append_quoted(alloc, out, text)?;
    Ok(())
}

/// Appends the instance as a whole, as a registration tells it. `AllocError` where no memory is left.
fn append_info(
    alloc: Global,
    out: &mut Vec<u8>,
    instance: &SharedInstance,
) -> Result<(), AllocError>
    ensures { OnOk result ((s : List ℕ) → out.new.items ++ s ≡ out.old.items ++ (codes ",\"instanceInfo\":" ++ (compact_text (instance_tree instance.now None) ++ s))) }
{
    out.extend_from_slice(b",\"instanceInfo\":")?;
    append_instance(alloc, out, instance, None)?;
    Ok(())
}

/// Appends what every task that has an instance tells of it, as a heartbeat does: its stamp and its statuses, a comma before each.
/// `AllocError` where no memory is left.
fn append_statuses(
    alloc: Global,
    out: &mut Vec<u8>,
    status: Status,
    instance: &SharedInstance,
) -> Result<(), AllocError>
    ensures { OnOk result (out.new.items ≡ out.old.items ++ led (instance_members Action.Heartbeat (Some status) (Some instance.now))) }
{
    let mut digits = Buffer::new();
    let stamp = digits.format(instance.last_dirty().value());
    append_led_text(alloc, out, ",\"lastDirtyTimestamp\":", stamp)?;
    append_led_text(
        alloc,
        out,
        ",\"overriddenStatus\":",
        instance.overridden().name(),
    )?;
    append_led_text(alloc, out, ",\"status\":", status.name())?;
    Ok(())
}

/// Appends what a registration tells of its instance: the instance as a whole before that. `AllocError` where no memory is left.
fn append_registration(
    alloc: Global,
    out: &mut Vec<u8>,
    status: Status,
    instance: &SharedInstance,
) -> Result<(), AllocError>
    ensures { OnOk result (out.new.items ≡ out.old.items ++ led (instance_members Action.Register (Some status) (Some instance.now))) }
{
    append_info(alloc, out, instance)?;
    append_statuses(alloc, out, status, instance)?;
    Ok(())
}

/// Appends the members by which a task tells of its instance, a comma before each. `AllocError` where no memory is left.
fn append_parts(
    alloc: Global,
    out: &mut Vec<u8>,
    action: Action,
    status: Option<Status>,
    instance: &SharedInstance,
) -> Result<(), AllocError>
    ensures { OnOk result (out.new.items ≡ out.old.items ++ led (instance_members action status (Some instance.now))) }
{
    let status = status.unwrap_or(instance.status());
    match action {
        Action::Register => append_registration(alloc, out, status, instance),
        Action::Heartbeat | Action::Cancel | Action::StatusUpdate | Action::DeleteStatusOverride =>
            append_statuses(alloc, out, status, instance),
    }
}

/// Appends the members by which a task tells of its instance, where it has one. `AllocError` where no memory is left.
fn append_task_parts(alloc: Global, out: &mut Vec<u8>, task: &Task) -> Result<(), AllocError>
    ensures { OnOk result (out.new.items ≡ out.old.items ++ led (instance_members task.now.action task.now.status task.now.instance)) }
{
    match &task.instance {
        None => Ok(()),
        Some(instance) => append_parts(alloc, out, task.action, task.status, instance),
    }
}

/// Appends the item of a task. `AllocError` where no memory is left.
fn append_task(alloc: Global, out: &mut Vec<u8>, task: &Task) -> Result<(), AllocError>
    ensures { OnOk result (out.new.items ≡ out.old.items ++ compact_text (task_tree task.now)) }
{
    append_led_text(alloc, out, "{\"action\":", task.action.name())?;
    append_led_text(alloc, out, ",\"appName\":", task.key.app.as_str())?;
    append_led_text(alloc, out, ",\"id\":", task.key.id.as_str())?;
    append_task_parts(alloc, out, task)?;
    out.extend_from_slice(b"}")?;
    Ok(())
}

/// Appends the items of tasks, in order. `AllocError` where no memory is left.
fn append_tasks(alloc: Global, out: &mut Vec<u8>, tasks: &[Task]) -> Result<(), AllocError>
    ensures { OnOk result (out.new.items ≡ out.old.items ++ compact_text (list_tree (map task_tree tasks.now))) }
{
    out.push(b'[')?;
    let mut first = true;
    for task in tasks {
        if !first {
            out.push(b',')?;
        }
        append_task(alloc, out, task)?;
        first = false;
    }
    out.extend_from_slice(b"]")
}

/// Appends the JSON of a batch of tasks. `AllocError` where no memory is left.
fn append_batch(alloc: Global, out: &mut Vec<u8>, tasks: &[Task]) -> Result<(), AllocError>
    ensures { OnOk result (out.new.items ≡ out.old.items ++ compact_text (batch_tree tasks.now)) }
{
    out.extend_from_slice(b"{\"replicationList\":")?;
    append_tasks(alloc, out, tasks)?;
    out.extend_from_slice(b"}")?;
    Ok(())
}

/// These bytes as a text. `AllocError` where they aren't UTF-8: all that is written is, but no proof says so, and so it is checked.
fn text_of(bytes: Vec<u8>) -> Result<String, AllocError>
    ensures { IfOk result (λ s. string_bytes s ≡ bytes.items) }
{
    match String::from_utf8(bytes) {
        Ok(text) => Ok(text),
        Err(_) => Err(AllocError),
    }
}

/// The JSON text of a batch of tasks, with no space, as it is sent to a peer (`ReplicationList` in Eureka, by its JSON encoder): an
/// object with the one member `replicationList`, with an item for each task, in order.
///
/// An item has `action`, `appName` and `id`. Where the task has an instance, it also has `lastDirtyTimestamp`, a text in decimal
/// digits, `overriddenStatus`, and `status`, which is the task's, or the instance's where the task has none; and for a
/// `Register`, `instanceInfo`, the instance as it is listed, without moments of a lease.
///
/// `read_batch` of it gives what the tasks ask their receiver for, where there are at most 250, the text nests at most 127 deep,
/// and the tasks are as the law `batches_come_back` has them.
///
/// `AllocError` where no memory is left.
pub fn batch_text(alloc: Global, tasks: &[Task]) -> Result<String, AllocError>
    ensures text { IfOk result (λ s. string_bytes s ≡ compact_text (batch_tree tasks.now)) }
    ensures comes_back { IfOk result (λ s. IsBatch tasks.now → depth (batch_tree tasks.now) ≤ max_depth → SaysTasks (string_bytes s) tasks.now) }
{
    let mut out = Vec::new(alloc);
    append_batch(alloc, &mut out, tasks)?;
    text_of(out)
}

/// What an item of a batch is answered (`ReplicationInstanceResponse` in Eureka).
#[derive(Debug, Drop)]
pub struct ItemAnswer {
    /// The HTTP status.
    pub code: u16,
    /// The instance that is held, for a conflict.
    pub instance: Option<SharedInstance>,
}

/// Appends an answer that tells a code alone. `AllocError` where no memory is left.
fn append_code(out: &mut Vec<u8>, code: u64) -> Result<(), AllocError>
    ensures { OnOk result (out.new.items ≡ out.old.items ++ compact_text (entity_tree code None)) }
{
    append_number(out, "{\"statusCode\":", code)?;
    out.extend_from_slice(b"}")?;
    Ok(())
}

/// Appends an answer that tells an instance, too. `AllocError` where no memory is left.
fn append_conflict(
    alloc: Global,
    out: &mut Vec<u8>,
    code: u64,
    instance: &SharedInstance,
) -> Result<(), AllocError>
    ensures { OnOk result (out.new.items ≡ out.old.items ++ compact_text (entity_tree code (Some instance.now))) }
{
    out.extend_from_slice(b"{\"responseEntity\":")?;
    append_instance(alloc, out, instance, None)?;
    append_number(out, ",\"statusCode\":", code)?;
    out.extend_from_slice(b"}")?;
    Ok(())
}

/// Appends the JSON of an item's answer. `AllocError` where no memory is left.
fn append_answer(alloc: Global, out: &mut Vec<u8>, answer: &ItemAnswer) -> Result<(), AllocError>
    ensures { OnOk result (out.new.items ≡ out.old.items ++ compact_text (answer_tree answer.now)) }
{
    let code = u64::from(answer.code);
    match &answer.instance {
        None => append_code(out, code),
        Some(instance) => append_conflict(alloc, out, code, instance),
    }
}

/// Appends the items of answers, in order. `AllocError` where no memory is left.
fn append_answer_list(
    alloc: Global,
    out: &mut Vec<u8>,
    answers: &[ItemAnswer],
) -> Result<(), AllocError>
    ensures { OnOk result (out.new.items ≡ out.old.items ++ compact_text (list_tree (map answer_tree answers.now))) }
{
    out.push(b'[')?;
    let mut first = true;
    for answer in answers {
        if !first {
            out.push(b',')?;
        }
        append_answer(alloc, out, answer)?;
        first = false;
    }
    out.extend_from_slice(b"]")
}

/// Appends the JSON that answers a batch (`ReplicationListResponse` in Eureka): an object with the one member `responseList`, with
/// an item for each answer, in order. An item has `statusCode`, a number, and where there is an instance `responseEntity`, the
/// instance as it is listed, without moments of a lease.
///
/// `AllocError` where no memory is left: then nothing is said of `out`.
pub fn append_answers(
    alloc: Global,
    out: &mut Vec<u8>,
    answers: &[ItemAnswer],
) -> Result<(), AllocError>
    ensures { OnOk result (out.new.items ≡ out.old.items ++ compact_text (answers_tree answers.now)) }
{
    out.extend_from_slice(b"{\"responseList\":")?;
    append_answer_list(alloc, out, answers)?;
    out.extend_from_slice(b"}")?;
    Ok(())
}
