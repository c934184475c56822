//! What is told where memory may be wanting. In a usual run no allocation is refused; `tools/sweep_memory.sh` refuses one after another.
use crate::tests::replies::{judged_end, judged_reply, verdict};
use eu_base::Fault;
use eu_fixtures::are_so;
use std::alloc::Global;

/// Where an allocation is refused, want of memory is told, and never that the journal is no run. With memory the same journal is one.
#[test]
fn a_refused_allocation_is_no_verdict(rt: HostRuntime) {
    assert!(rt; are_so(verdict(rt.alloc()), verdict(rt.alloc())));
}

/// Lines of the journal, each with a reply that it hasn't.
const WRONG: [(&str, &str); 3] = [
    ("renew 2000 A i1 - - c = done", "missing"),
    ("landed 4000 0 200 404 = settled", "done"),
    ("config 9900 off 50 15 7 = done", "settled"),
];

/// Whether the journal with another reply is told to be no run.
fn is_reply_told(alloc: Global, line: &str, reply: &str) -> Result<bool, Fault> {
    Ok(!judged_reply(alloc, line, reply)?)
}

/// Whether the journal with another end is told to be no run.
fn is_end_told(alloc: Global) -> Result<bool, Fault> {
    Ok(!judged_end(alloc, "previous 9000", "previous 9001")?)
}

/// The same of a journal that is none: never that it is a run.
#[test]
fn memory_no_run(rt: HostRuntime) {
    let alloc = rt.alloc();
    for (line, reply) in WRONG {
        assert!(rt;
            are_so(
                is_reply_told(alloc, line, reply),
                is_reply_told(alloc, line, reply)
            )
        );
    }
    assert!(rt; are_so(is_end_told(alloc), is_end_told(alloc)));
}
