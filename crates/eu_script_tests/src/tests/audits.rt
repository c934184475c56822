//! The audit of a script with more entries than the others leave.
use crate::tests::scripts::joined;
use eu_base::Fault;
use eu_clock::FirstChooser;
use eu_fixtures::settings;
use eu_script::run_audit;
use std::alloc::Global;

/// Whether the audit of a script, in which a client registers and renews its lease so many times, finds a run and writes this.
fn finds_a_run(alloc: Global, renewals: usize, written: &[u8]) -> Result<bool, Fault> {
    let mut script = joined(alloc, 0, 1, 90)?;
    script.push_str(&"renew 1 A i0 - - c\n".repeat(alloc, renewals)?)?;
    let mut reader = script.as_bytes();
    let mut out = Vec::new(alloc);
    let result = run_audit(alloc, &mut reader, &mut out, settings()?, &mut FirstChooser);
    Ok(result == Ok(true) && out.as_slice() == written)
}

#[test]
fn an_audit_has_many_entries(rt: HostRuntime) {
    assert!(rt; finds_a_run(rt.alloc(), 3_000, b"audit yes 3001\n") == Ok(true));
}
