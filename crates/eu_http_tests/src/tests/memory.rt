//! Want of memory. In a usual run no allocation is refused; `tools/sweep_memory.sh` refuses one after another.
use crate::tests::batches::{comes_back, count, is_answer};
use crate::tests::instances::{comes_again, fault_of, is_all, is_of_app};
use eu_base::Fault;
use eu_fixtures::are_so;
use std::alloc::Global;

/// What is written where nothing is held.
const NOTHING: &str =
    r#"{"applications":{"application":[],"apps__hashcode":"","versions__delta":"1"}}"#;

/// What is written of application A, of which i1 is held.
const ONE: &str =
    r#"{"application":{"instance":[{"app":"A","dataCenterInfo":{"name":"MyOwn"},"hostName":"h","instanceId":"i1","ipAddr":"x","lastDirtyTimestamp":"5","leaseInfo":{"durationInSecs":90,"evictionTimestamp":0,"lastRenewalTimestamp":90005,"registrationTimestamp":5,"renewalIntervalInSecs":30,"serviceUpTimestamp":0},"overriddenStatus":"UNKNOWN","status":"UP"}],"name":"A"}}"#;

/// Whether a text without a byte is no instance and no batch: that is known without memory, but for the name of the application.
fn is_nothing(alloc: Global) -> Result<bool, Fault> {
    match fault_of(alloc, "") {
        Some(Fault::OutOfMemory) => Err(Fault::OutOfMemory),
        fault => Ok(fault == Some(Fault::NotJson) && count(alloc, "") == Err(Fault::BadBatch)),
    }
}

fn are_read(alloc: Global) -> bool {
    are_so(comes_again(alloc), comes_again(alloc))
        && are_so(comes_back(alloc), comes_back(alloc))
        && are_so(is_nothing(alloc), is_nothing(alloc))
}

/// What is written of an item that met a greater stamp.
const CONFLICT: &str =
    r#"{"responseList":[{"responseEntity":{"app":"A","dataCenterInfo":{"name":"MyOwn"},"hostName":"h","instanceId":"i1","ipAddr":"10.0.0.1","lastDirtyTimestamp":"5","leaseInfo":{"durationInSecs":90,"renewalIntervalInSecs":30},"overriddenStatus":"UNKNOWN","status":"UP"},"statusCode":409}]}"#;

fn is_conflict(alloc: Global) -> Result<bool, Fault> {
    is_answer(alloc, 409, true, CONFLICT)
}

fn are_written(alloc: Global) -> bool {
    let one = [("A", "i1", "UP")];
    let nothing = is_all(alloc, &[], NOTHING);
    let again = is_all(alloc, &[], NOTHING);
    let first = is_of_app(alloc, &one, ONE);
    let second = is_of_app(alloc, &one, ONE);
    are_so(nothing, again)
        && are_so(first, second)
        && are_so(is_conflict(alloc), is_conflict(alloc))
}

#[test]
fn memory_json(rt: HostRuntime) {
    assert!(rt; are_read(rt.alloc()));
    assert!(rt; are_written(rt.alloc()));
}
