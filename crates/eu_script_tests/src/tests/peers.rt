//! Scripts of a registry with peers, line by line with what each prints, by the rules of Eureka's replication.
use crate::tests::examples::prints;
use crate::tests::scripts::prints as prints_text;
use std::alloc::{AllocError, Global};

const FLIGHTS: [(&str, &str); 15] = [
    ("open 0 1", "opened"),
    ("register 0 A i1 90 UP UNKNOWN 0 c", "204"),
    ("renew 1 A i1 - - c", "200"),
    ("renew 2 A i1 - - c", "200"),
    ("drain 3 0", "batch 2 Register A i1 Heartbeat A i1"),
    ("drain 3 0", "refused 8"),
    ("landed 4 0 200", "refused 10"),
    ("landed 4 0 200 404", "landed"),
    ("drain 5 0", "batch 1 Register A i1"),
    ("lost 5 0", "lost"),
    // a task is worth sending for 30 s: the registration was queued at moment 4
    ("drain 30004 0", "batch 1 Register A i1"),
    ("lost 30005 0", "lost"),
    ("drain 30005 0", "refused 9"),
    ("lost 30005 0", "refused 11"),
    ("drain 30005 1", "refused 15"),
];

#[test]
fn batches_fly_land_and_are_lost(rt: HostRuntime) {
    assert!(rt; prints(rt.alloc(), FLIGHTS.as_slice()) == Ok(true));
}

const EIGHT: [(&str, &str); 11] = [
    ("open 0 8", "opened"),
    ("register 0 A i1 90 UP UNKNOWN 0 c", "204"),
    ("drain 1 0", "batch 1 Register A i1"),
    ("drain 1 1", "batch 1 Register A i1"),
    ("drain 1 2", "batch 1 Register A i1"),
    ("drain 1 3", "batch 1 Register A i1"),
    ("drain 1 4", "batch 1 Register A i1"),
    ("drain 1 5", "batch 1 Register A i1"),
    ("drain 1 6", "batch 1 Register A i1"),
    ("drain 1 7", "batch 1 Register A i1"),
    ("drain 1 8", "refused 15"),
];

#[test]
fn each_of_eight_peers_is_told(rt: HostRuntime) {
    assert!(rt; prints(rt.alloc(), EIGHT.as_slice()) == Ok(true));
}

const RENEWED: [(&str, &str); 11] = [
    ("open 0 1", "opened"),
    ("register 0 A i1 90 UP UNKNOWN 0 c", "204"),
    ("register 0 A i2 90 UP UNKNOWN 0 c", "204"),
    ("register 20000 A i1 90 UP UNKNOWN 0 c", "204"),
    ("cancel 20000 A zz c", "404"),
    ("renew 20000 A zz - - c", "404"),
    ("renew 20000 A i2 5 - c", "404"),
    ("update 20000", "expected 2"),
    (
        "drain 25000 0",
        "batch 3 Register A i1 Register A i2 Heartbeat A i2",
    ),
    ("lost 25000 0", "lost"),
    ("drain 40000 0", "batch 2 Register A i1 Heartbeat A i2"),
];

#[test]
fn a_task_takes_the_place_of_one_of_its_name(rt: HostRuntime) {
    assert!(rt; prints(rt.alloc(), RENEWED.as_slice()) == Ok(true));
}

const ACTIONS: [(&str, &str); 9] = [
    ("open 0 1", "opened"),
    ("register 0 A i1 90 UP UNKNOWN 0 c", "204"),
    ("set 1 A i1 OUT_OF_SERVICE - c", "200"),
    ("unset 2 A i1 UP - c", "200"),
    ("renew 3 A i1 - - c", "200"),
    ("cancel 4 A i1 c", "200"),
    (
        "drain 5 0",
        "batch 5 Register A i1 StatusUpdate A i1 DeleteStatusOverride A i1 Heartbeat A i1 Cancel A i1",
    ),
    ("landed 6 0 200 200 200 200 404", "landed"),
    ("drain 7 0", "refused 9"),
];

#[test]
fn each_action_is_told(rt: HostRuntime) {
    assert!(rt; prints(rt.alloc(), ACTIONS.as_slice()) == Ok(true));
}

const REPLICATED: [(&str, &str); 8] = [
    ("open 0 1", "opened"),
    ("register 0 A i1 90 UP UNKNOWN 0 c", "204"),
    ("drain 1 0", "batch 1 Register A i1"),
    ("landed 2 0 200", "landed"),
    ("renew 3 A i1 - - r", "200"),
    ("adopt 3 A i1 90 UP UNKNOWN 0", "204"),
    ("drain 4 0", "refused 9"),
    ("landed 4 0", "refused 11"),
];

#[test]
fn what_a_peer_sends_is_not_sent_on(rt: HostRuntime) {
    assert!(rt; prints(rt.alloc(), REPLICATED.as_slice()) == Ok(true));
}

const ALONE: [(&str, &str); 4] = [
    ("open 0", "opened"),
    ("drain 0 0", "refused 15"),
    ("landed 0 0 200", "refused 15"),
    ("lost 0 4294967295", "refused 15"),
];

const TWO: [(&str, &str); 9] = [
    ("open 0 2", "opened"),
    ("drain 0 1", "refused 9"),
    ("register 0 A i1 90 UP UNKNOWN 0 c", "204"),
    ("drain 1 1", "batch 1 Register A i1"),
    ("drain 1 0", "batch 1 Register A i1"),
    ("landed 2 1 200", "landed"),
    ("lost 2 1", "refused 11"),
    ("lost 2 0", "lost"),
    ("drain 2 0", "batch 1 Register A i1"),
];

#[test]
fn each_peer_is_told_apart(rt: HostRuntime) {
    assert!(rt; prints(rt.alloc(), ALONE.as_slice()) == Ok(true));
    assert!(rt; prints(rt.alloc(), TWO.as_slice()) == Ok(true));
}

/// The printed line of a batch of so many registrations.
fn batch(alloc: Global, tasks: u32) -> Result<String, AllocError> {
    let mut text = String::new(alloc);
    write!(text, "batch {tasks}")?;
    for i in 0..tasks {
        write!(text, " Register A i{i}")?;
    }
    Ok(text)
}

/// The line by which a batch landed, and so many of its tasks were done.
fn landed(alloc: Global, tasks: u32) -> Result<String, AllocError> {
    let mut text = String::new(alloc);
    text.push_str("landed 3 0")?;
    for _ in 0..tasks {
        text.push_str(" 200")?;
    }
    Ok(text)
}

/// 251 registrations, of which 250 go in flight twice, and land.
fn crowd(alloc: Global) -> Result<String, AllocError> {
    let mut text = String::new(alloc);
    text.push_str("open 0 1\n")?;
    for i in 0..251 {
        writeln!(text, "register 0 A i{i} 90 UP UNKNOWN - c")?;
    }
    text.push_str("drain 1 0\ndrain 1 0\nlost 1 0\ndrain 2 0\n")?;
    text.push_str(landed(alloc, 249)?.as_str())?;
    text.push_str("\n")?;
    text.push_str(landed(alloc, 250)?.as_str())?;
    text.push_str("\ndrain 4 0\n")?;
    Ok(text)
}

/// What that prints.
fn crowd_printed(alloc: Global) -> Result<String, AllocError> {
    let batch = batch(alloc, 250)?;
    let mut text = String::new(alloc);
    text.push_str("opened\n")?;
    for _ in 0..251 {
        text.push_str("204\n")?;
    }
    text.push_str(batch.as_str())?;
    text.push_str("\nrefused 8\nlost\n")?;
    text.push_str(batch.as_str())?;
    text.push_str("\nrefused 10\nlanded\nbatch 1 Register A i250\n")?;
    Ok(text)
}

/// Whether that script prints that.
fn crowd_prints(alloc: Global) -> Result<bool, AllocError> {
    let text = crowd(alloc)?;
    let printed = crowd_printed(alloc)?;
    Ok(prints_text(alloc, true, text.as_bytes(), printed.as_bytes()))
}

#[test]
fn a_batch_has_250_tasks_at_most(rt: HostRuntime) {
    assert!(rt; crowd_prints(rt.alloc()) == Ok(true));
}
