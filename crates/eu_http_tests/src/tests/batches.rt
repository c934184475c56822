//! Batches that are read and written, by bodies as peers send them.
ghost use Rattle.std.specs.Prelude.{◌≤◌};

use crate::tests::instances::is_instance;
use crate::tests::responses::instance;
use eu_base::{Action, App, Fault, Id, Instance, Key, SharedInstance, Stamp, Status, Task};
use eu_fixtures::{joined, moment};
use eu_json::{ItemAnswer, append_answers, batch_text, read_batch};
use eu_model::Command;
use std::alloc::{AllocError, Global};
use std::slice;

/// The instance that a client registers, as it is written.
const WRITTEN: &str =
    r#"{"app":"A","dataCenterInfo":{"name":"MyOwn"},"hostName":"h","instanceId":"i1","ipAddr":"10.0.0.1","lastDirtyTimestamp":"5","leaseInfo":{"durationInSecs":90,"renewalIntervalInSecs":30},"overriddenStatus":"UNKNOWN","status":"UP"}"#;

/// A text at moment 1000.
fn read(alloc: Global, text: &str) -> Result<Vec<Command>, Fault> {
    read_batch(alloc, text, moment(1000)?)
}

/// How many commands it has.
pub fn count(alloc: Global, text: &str) -> Result<usize, Fault> {
    Ok(read(alloc, text)?.len())
}

fn is_refused(alloc: Global, text: &str) -> bool {
    read(alloc, text).err() == Some(Fault::BadBatch)
}

/// A batch of one item with these members beside its names.
fn item(alloc: Global, action: &str, members: &str) -> Result<String, AllocError> {
    joined(
        alloc,
        &[
            r#"{"replicationList":[{"action":""#,
            action,
            r#"","appName":"a","id":"i1""#,
            members,
            "}]}",
        ],
    )
}

fn read_item(alloc: Global, action: &str, members: &str) -> Result<Vec<Command>, Fault> {
    let text = item(alloc, action, members)?;
    read(alloc, &text)
}

/// Whether it is application A's lease of that id.
fn is_own(key: &Key, id: &str) -> bool {
    key.app.as_str() == "A" && key.id.as_str() == id
}

/// Whether this is one renewal of A's lease of that id by a peer, with that stamp and overridden status.
fn is_renewal(commands: &[Command], id: &str, stamp: Option<u64>, status: Option<Status>) -> bool {
    match commands {
        [
            Command::Renew {
                key,
                last_dirty,
                overridden,
                replicated,
            },
        ] => {
            *replicated && is_own(key, id) && value(*last_dirty) == stamp && *overridden == status
        }
        _ => false,
    }
}

/// Whether this is one cancel of A's lease of that id by a peer.
fn is_cancel(commands: &[Command], id: &str) -> bool {
    match commands {
        [Command::Cancel { key, replicated }] => *replicated && is_own(key, id),
        _ => false,
    }
}

/// Whether this is one override of the status of A's lease of that id by a peer, with that stamp.
fn is_override(commands: &[Command], id: &str, given: Status, stamp: Option<u64>) -> bool {
    match commands {
        [
            Command::SetStatus {
                key,
                status,
                last_dirty,
                replicated,
            },
        ] => *replicated && is_own(key, id) && *status == given && value(*last_dirty) == stamp,
        _ => false,
    }
}

/// Whether this is one end of such an override by a peer, with that status and stamp.
fn is_override_end(
    commands: &[Command],
    id: &str,
    given: Option<Status>,
    stamp: Option<u64>,
) -> bool {
    match commands {
        [
            Command::UnsetStatus {
                key,
                status,
                last_dirty,
                replicated,
            },
        ] => *replicated && is_own(key, id) && *status == given && value(*last_dirty) == stamp,
        _ => false,
    }
}

fn value(stamp: Option<Stamp>) -> Option<u64> {
    match stamp {
        Some(stamp) => Some(stamp.value()),
        None => None,
    }
}

/// Whether this is one registration by a peer, of an instance of which that is written.
fn is_registration(alloc: Global, commands: &[Command], text: &str) -> Result<bool, AllocError> {
    match commands {
        [
            Command::Register {
                instance,
                replicated: true,
            },
        ] => is_instance(alloc, instance, text),
        _ => Ok(false),
    }
}

/// The instance that a client registers, or none.
fn held(alloc: Global, is_held: bool) -> Result<Option<SharedInstance>, Fault> {
    if is_held {
        Ok(Some(instance(alloc)?))
    } else {
        Ok(None)
    }
}

/// Lease A/i1.
fn own(alloc: Global) -> Result<Key, Fault> {
    let app = App::read(alloc, "A")?;
    let id = Id::read(alloc, "i1")?;
    Ok(Key { app, id })
}

/// Whether a text is read as the renewal of A's lease zz that tells nothing.
fn renews_zz(alloc: Global, text: &str) -> bool {
    match read(alloc, text) {
        Ok(commands) => is_renewal(&commands, "zz", None, None),
        Err(_) => false,
    }
}

#[test]
fn a_heartbeat_is_a_renewal(rt: HostRuntime) {
    let text = r#"{"replicationList":[{"action":"Heartbeat","appName":"A","id":"zz"}]}"#;
    assert!(rt; text.len() == 68);
    assert!(rt; renews_zz(rt.alloc(), text));
}

/// Members of heartbeats, with the stamp and the status that they tell.
const HEARTBEATS: [(&str, Option<u64>, Option<Status>); 3] = [
    (
        r#","lastDirtyTimestamp":"7","overriddenStatus":"out_of_service","status":5"#,
        Some(7),
        Some(Status::OutOfService),
    ),
    (
        r#","lastDirtyTimestamp":7,"overriddenStatus":null"#,
        Some(7),
        None,
    ),
    (
        r#","lastDirtyTimestamp":null,"overriddenStatus":"GONE""#,
        None,
        Some(Status::Unknown),
    ),
];

/// Whether a heartbeat with these members is read as a renewal with that stamp and overridden status.
fn renews(alloc: Global, members: &str, stamp: Option<u64>, status: Option<Status>) -> bool {
    match read_item(alloc, "Heartbeat", members) {
        Ok(commands) => is_renewal(&commands, "i1", stamp, status),
        Err(_) => false,
    }
}

#[test]
fn a_heartbeat_tells_what_its_sender_knows(rt: HostRuntime) {
    for (members, stamp, status) in &HEARTBEATS {
        assert!(rt;
            renews(rt.alloc(), members, *stamp, *status),
            "at {members}"
        );
    }
}

/// Whether a cancel with these members is read.
fn cancels(alloc: Global, members: &str) -> bool {
    match read_item(alloc, "Cancel", members) {
        Ok(commands) => is_cancel(&commands, "i1"),
        Err(_) => false,
    }
}

#[test]
fn a_cancel_reads_nothing_else(rt: HostRuntime) {
    let members = r#","lastDirtyTimestamp":1.5,"status":[],"instanceInfo":7"#;
    assert!(rt; cancels(rt.alloc(), members));
}

/// Whether a status update with these members is read as an override with that status and stamp.
fn overrides(alloc: Global, members: &str, status: Status, stamp: Option<u64>) -> bool {
    match read_item(alloc, "StatusUpdate", members) {
        Ok(commands) => is_override(&commands, "i1", status, stamp),
        Err(_) => false,
    }
}

#[test]
fn overrides_are_set(rt: HostRuntime) {
    let members = r#","status":"down","lastDirtyTimestamp":9"#;
    assert!(rt; overrides(rt.alloc(), members, Status::Down, Some(9)));
}

/// Members that end an override, with the status and the stamp that they tell.
const ENDS: [(&str, Option<Status>, Option<u64>); 2] = [
    (
        r#","status":"down","lastDirtyTimestamp":9"#,
        Some(Status::Down),
        Some(9),
    ),
    ("", None, None),
];

/// Whether the end of an override with these members is read with that status and stamp.
fn takes_back(alloc: Global, members: &str, status: Option<Status>, stamp: Option<u64>) -> bool {
    match read_item(alloc, "DeleteStatusOverride", members) {
        Ok(commands) => is_override_end(&commands, "i1", status, stamp),
        Err(_) => false,
    }
}

#[test]
fn overrides_are_taken_back(rt: HostRuntime) {
    for (members, status, stamp) in &ENDS {
        assert!(rt;
            takes_back(rt.alloc(), members, *status, *stamp),
            "at {members}"
        );
    }
}

/// Texts that are no batch.
const NO_BATCHES: [&str; 15] = [
    "",
    "{",
    "[]",
    "{}",
    r#"{"replicationList":null}"#,
    r#"{"replicationList":{}}"#,
    r#"{"replicationList":[5]}"#,
    r#"{"replicationList":[{"action":"Forget","appName":"A","id":"i1"}]}"#,
    r#"{"replicationList":[{"action":"cancel","appName":"A","id":"i1"}]}"#,
    r#"{"replicationList":[{"appName":"A","id":"i1"}]}"#,
    r#"{"replicationList":[{"action":"Cancel","id":"i1"}]}"#,
    r#"{"replicationList":[{"action":"Cancel","appName":"A"}]}"#,
    r#"{"replicationList":[{"action":"Cancel","appName":"","id":"i1"}]}"#,
    r#"{"replicationList":[{"action":"Cancel","appName":"A","id":7}]}"#,
    r#"{"replicationList":[{"action":"Cancel","appName":"A","id":"i1"},{}]}"#,
];

#[test]
fn what_is_no_batch_is_refused(rt: HostRuntime) {
    for text in &NO_BATCHES {
        assert!(rt; is_refused(rt.alloc(), text), "at {text}");
    }
}

/// Items that lack what their action needs, by the action and the members beside the names.
const LACKING: [(&str, &str); 11] = [
    ("Register", ""),
    ("Register", r#","instanceInfo":null"#),
    (
        "Register",
        r#","instanceInfo":{"instanceId":"i1","hostName":"h","app":"B","ipAddr":"x","dataCenterInfo":{"name":"MyOwn"}}"#,
    ),
    (
        "Register",
        r#","instanceInfo":{"instanceId":"i1","hostName":"h","app":"A","ipAddr":"x","dataCenterInfo":{"name":"MyOwn"},"x":1.5}"#,
    ),
    ("StatusUpdate", ""),
    ("StatusUpdate", r#","status":null"#),
    ("StatusUpdate", r#","status":"GONE""#),
    (
        "StatusUpdate",
        r#","status":"UP","lastDirtyTimestamp":true"#,
    ),
    ("Heartbeat", r#","lastDirtyTimestamp":"x""#),
    ("Heartbeat", r#","lastDirtyTimestamp":1.5"#),
    ("DeleteStatusOverride", r#","lastDirtyTimestamp":-1"#),
];

/// Whether a batch of that item is refused.
fn lacks(alloc: Global, action: &str, members: &str) -> bool {
    read_item(alloc, action, members).err() == Some(Fault::BadBatch)
}

#[test]
fn what_an_action_needs_is_there(rt: HostRuntime) {
    for (action, members) in &LACKING {
        assert!(rt; lacks(rt.alloc(), action, members), "at {action} {members}");
    }
}

/// How many commands a batch of one item has, whose id has so many bytes.
fn count_named(alloc: Global, len: usize) -> Result<usize, Fault>
    requires { len ≤ 256 }
{
    let id = "x".repeat(alloc, len)?;
    let head = r#"{"replicationList":[{"action":"Cancel","appName":"A","id":""#;
    let text = joined(alloc, &[head, &id, r#""}]}"#])?;
    count(alloc, &text)
}

#[test]
fn names_have_255_bytes_at_most(rt: HostRuntime) {
    assert!(rt; count_named(rt.alloc(), 255) == Ok(1));
    assert!(rt; count_named(rt.alloc(), 256) == Err(Fault::BadBatch));
}

/// How many commands a batch has that says a cancel so many times and once more.
fn count_cancels(alloc: Global, times: usize) -> Result<usize, Fault>
    requires { times ≤ 250 }
{
    let items = r#"{"action":"Cancel","appName":"A","id":"i1"},"#.repeat(alloc, times)?;
    let item = r#"{"action":"Cancel","appName":"A","id":"i1"}"#;
    let text = joined(alloc, &[r#"{"replicationList":["#, &items, item, "]}"])?;
    count(alloc, &text)
}

#[test]
fn a_batch_has_250_items_at_most(rt: HostRuntime) {
    assert!(rt; count_cancels(rt.alloc(), 249) == Ok(250));
    assert!(rt; count_cancels(rt.alloc(), 250) == Err(Fault::BadBatch));
}

/// Whether that is what is written of no task.
fn is_empty_batch(alloc: Global, text: &str) -> Result<bool, AllocError> {
    let written = batch_text(alloc, &[])?;
    Ok(written.as_str() == text)
}

#[test]
fn no_task_is_a_batch(rt: HostRuntime) {
    let text = r#"{"replicationList":[]}"#;
    assert!(rt; is_empty_batch(rt.alloc(), text) == Ok(true));
    assert!(rt; count(rt.alloc(), text) == Ok(0));
}

/// One task on lease A/i1.
fn task(
    alloc: Global,
    action: Action,
    status: Option<Status>,
    is_held: bool,
) -> Result<Task, Fault> {
    let queued = moment(1000)?;
    let key = own(alloc)?;
    let instance = held(alloc, is_held)?;
    Ok(Task {
        action,
        key,
        status,
        instance,
        queued,
    })
}

/// Whether that is what is written of one task on lease A/i1.
fn is_task(
    alloc: Global,
    action: Action,
    status: Option<Status>,
    is_held: bool,
    text: &str,
) -> Result<bool, Fault> {
    let task = task(alloc, action, status, is_held)?;
    let written = batch_text(alloc, slice::from_ref(&task));
    drop(task);
    Ok(written?.as_str() == text)
}

#[test]
fn tasks_are_written(rt: HostRuntime) {
    let text = r#"{"replicationList":[{"action":"Cancel","appName":"A","id":"i1"}]}"#;
    assert!(rt; is_task(rt.alloc(), Action::Cancel, None, false, text) == Ok(true));
    let down = Some(Status::Down);
    let text =
        r#"{"replicationList":[{"action":"StatusUpdate","appName":"A","id":"i1","lastDirtyTimestamp":"5","overriddenStatus":"UNKNOWN","status":"DOWN"}]}"#;
    assert!(rt; is_task(rt.alloc(), Action::StatusUpdate, down, true, text) == Ok(true));
}

/// Whether that is what is written of three tasks on lease A/i1: a heartbeat, the end of an override, and a cancel.
fn are_tasks(alloc: Global, text: &str) -> Result<bool, Fault> {
    let mut tasks = Vec::new(alloc);
    tasks.push(task(alloc, Action::Heartbeat, None, true)?)?;
    tasks.push(task(
        alloc,
        Action::DeleteStatusOverride,
        Some(Status::Starting),
        true,
    )?)?;
    tasks.push(task(alloc, Action::Cancel, None, false)?)?;
    let written = batch_text(alloc, &tasks);
    drop(tasks);
    Ok(written?.as_str() == text)
}

#[test]
fn tasks_are_written_in_order(rt: HostRuntime) {
    let text =
        r#"{"replicationList":[{"action":"Heartbeat","appName":"A","id":"i1","lastDirtyTimestamp":"5","overriddenStatus":"UNKNOWN","status":"UP"},{"action":"DeleteStatusOverride","appName":"A","id":"i1","lastDirtyTimestamp":"5","overriddenStatus":"UNKNOWN","status":"STARTING"},{"action":"Cancel","appName":"A","id":"i1"}]}"#;
    assert!(rt; are_tasks(rt.alloc(), text) == Ok(true));
}

/// Whether a batch is one registration by a peer, of an instance of which that is written.
fn registers(alloc: Global, batch: &str, text: &str) -> Result<bool, Fault> {
    let commands = read(alloc, batch)?;
    let is_registration = is_registration(alloc, &commands, text);
    drop(commands);
    Ok(is_registration?)
}

/// Whether what is written of the task to register is read again.
pub fn comes_back(alloc: Global) -> Result<bool, Fault> {
    let head =
        r#"{"replicationList":[{"action":"Register","appName":"A","id":"i1","instanceInfo":"#;
    let tail = r#","lastDirtyTimestamp":"5","overriddenStatus":"UNKNOWN","status":"UP"}]}"#;
    let text = joined(alloc, &[head, WRITTEN, tail])?;
    let is_task = is_task(alloc, Action::Register, None, true, &text)?;
    Ok(is_task && registers(alloc, &text, WRITTEN)?)
}

#[test]
fn a_registration_comes_back(rt: HostRuntime) {
    assert!(rt; comes_back(rt.alloc()) == Ok(true));
}

/// Whether this is a cancel and then a renewal.
fn is_cancel_then_renewal(commands: &[Command]) -> bool {
    matches!(commands, [Command::Cancel { .. }, Command::Renew { .. }])
}

/// Whether a text is read as a cancel and then a renewal.
fn cancels_then_renews(alloc: Global, text: &str) -> bool {
    match read(alloc, text) {
        Ok(commands) => is_cancel_then_renewal(&commands),
        Err(_) => false,
    }
}

#[test]
fn items_are_read_in_order(rt: HostRuntime) {
    let text =
        r#"{"replicationList":[{"action":"Cancel","appName":"A","id":"i1"},{"action":"Heartbeat","appName":"A","id":"i1"}]}"#;
    assert!(rt; cancels_then_renews(rt.alloc(), text));
}

/// Whether that is what is written of one answer.
pub fn is_answer(alloc: Global, code: u16, is_held: bool, text: &str) -> Result<bool, Fault> {
    let instance = held(alloc, is_held)?;
    let answer = ItemAnswer { code, instance };
    let mut out = Vec::new(alloc);
    append_answers(alloc, &mut out, slice::from_ref(&answer))?;
    Ok(out.as_slice() == text.as_bytes())
}

#[test]
fn answers_are_written(rt: HostRuntime) {
    let text = r#"{"responseList":[{"statusCode":404}]}"#;
    assert!(rt; text.len() == 37);
    assert!(rt; is_answer(rt.alloc(), 404, false, text) == Ok(true));
    let text =
        r#"{"responseList":[{"responseEntity":{"app":"A","dataCenterInfo":{"name":"MyOwn"},"hostName":"h","instanceId":"i1","ipAddr":"10.0.0.1","lastDirtyTimestamp":"5","leaseInfo":{"durationInSecs":90,"renewalIntervalInSecs":30},"overriddenStatus":"UNKNOWN","status":"UP"},"statusCode":409}]}"#;
    assert!(rt; is_answer(rt.alloc(), 409, true, text) == Ok(true));
}
