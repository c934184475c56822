//! Queues at their limits: 10,000 tasks wait, and 250 go in flight.
use crate::tests::cases::judge;

/// One task more comes to a full queue of tasks, each of which cancels another lease: the first is dropped.
const PUTS: &str = "
    from
        peer
        waits Cancel 1000 - A i{0..10000}
    by
        register 1000 A i1 90 UP UNKNOWN 5 c = fresh
    to
        lease 1000 1000 1000 A i1 90 UP UNKNOWN 5
        peer
        waits Cancel 1000 - A i{1..10000}
        waits Register 1000 - A i1 of A i1 90 UP UNKNOWN 5
    yes
    to
        lease 1000 1000 1000 A i1 90 UP UNKNOWN 5
        peer
        waits Cancel 1000 - A i{0..9999}
        waits Register 1000 - A i1 of A i1 90 UP UNKNOWN 5
    no
    to
        lease 1000 1000 1000 A i1 90 UP UNKNOWN 5
        peer
        waits Cancel 1000 - A i{0..10000}
        waits Register 1000 - A i1 of A i1 90 UP UNKNOWN 5
    no
";

#[test]
fn the_first_of_a_full_queue_is_dropped(rt: HostRuntime) {
    assert!(rt; judge(rt.alloc(), PUTS) == Ok(3));
}

/// 251 tasks wait: 250 go in flight.
const DRAINS: &str = "
    from
        peer
        waits Cancel 1000 - A i{0..251}
    by
        drain 1000 0 = batch Cancel 1000 - A i{0..249}
    to
        peer
        waits Cancel 1000 - A i{249..251}
        flies Cancel 1000 - A i{0..249}
    no
    by
        drain 1000 0 = batch Cancel 1000 - A i{0..250}
    to
        peer
        waits Cancel 1000 - A i250
        flies Cancel 1000 - A i{0..250}
    yes
    by
        drain 1000 0 = batch Cancel 1000 - A i{0..251}
    to
        peer
        flies Cancel 1000 - A i{0..251}
    no
";

#[test]
fn a_batch_is_of_250(rt: HostRuntime) {
    assert!(rt; judge(rt.alloc(), DRAINS) == Ok(3));
}

/// Two tasks that were in flight are lost, where the queue is full: they come back before the others, and the first of all are dropped.
const LOSSES: &str = "
    from
        peer
        waits Cancel 1000 - A i{2..10002}
        flies Cancel 1000 - A i{0..2}
    by
        lost 1000 0 = settled
    to
        peer
        waits Cancel 1000 - A i{2..10002}
    yes
    to
        peer
        waits Cancel 1000 - A i{0..10000}
    no
    to
        peer
        waits Cancel 1000 - A i{0..10002}
    no
";

#[test]
fn a_full_queue_loses_what_comes_back(rt: HostRuntime) {
    assert!(rt; judge(rt.alloc(), LOSSES) == Ok(3));
}
