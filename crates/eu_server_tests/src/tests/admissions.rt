//! Tests of what is counted, and of threads that wait for each other.
use eu_accept::{Admission, Entry, Limits, Message, SPARE, Told, can_gather};
use eu_gate::News;
use std::test::Fail;
use std::time::{Duration, Instant};

/// Two are admitted where two may be open, the next ones are refused, as far as there is spare room, and then dropped. One of the two that leaves makes room for
/// another, also while one is open that was refused.
#[test]
fn connections_are_admitted_refused_and_dropped(rt: HostRuntime) {
    let mut admission = Admission::new(5, 1);
    assert!(rt; admission.admit(2) == Entry::Admitted && admission.admit(2) == Entry::Admitted);
    for _ in 0..SPARE {
        assert!(rt; admission.admit(2) == Entry::Refused);
    }
    assert!(rt; admission.admit(2) == Entry::Dropped);
    assert_eq!(rt;
        (
            admission.left,
            admission.came,
            admission.refused,
            admission.here
        ),
        (3, 2, 65, 66)
    );
    for _ in 0..SPARE {
        admission.let_out(true);
    }
    assert!(rt; admission.admit(2) == Entry::Refused);
    admission.let_out(false);
    assert!(rt; admission.admit(2) == Entry::Admitted);
    assert_eq!(rt;
        (
            admission.left,
            admission.came,
            admission.refused,
            admission.here
        ),
        (2, 3, 66, 3)
    );
    assert_eq!(rt; admission.refused_here, 1);
}

/// So many operators are let in beside clients as there is spare room, and counted as nothing else.
#[test]
fn operators_are_admitted_beside_clients(rt: HostRuntime) {
    let mut admission = Admission::new(1, 1);
    assert!(rt; admission.admit(1) == Entry::Admitted && !admission.is_open());
    for _ in 0..SPARE {
        assert!(rt; admission.admit_operator());
    }
    assert!(rt; !admission.admit_operator());
    admission.let_out_operator();
    assert!(rt; admission.admit_operator());
    assert_eq!(rt;
        (admission.came, admission.here, admission.operators),
        (1, 1, 64)
    );
    admission.close(false);
    admission.let_out_operator();
    assert!(rt; !admission.admit_operator());
}

#[test]
fn a_server_is_open_until_enough_have_come_or_it_is_closed(rt: HostRuntime) {
    let mut admission = Admission::new(1, 2);
    assert!(rt; admission.is_open());
    admission.admit(10);
    assert!(rt; !admission.is_open());
    let mut closed = Admission::new(1, 2);
    closed.close(true);
    closed.close(false);
    assert!(rt; !closed.is_open() && closed.has_failed);
    assert!(rt; !closed.end_loop() && closed.end_loop());
}

#[test]
fn an_ordinary_server_has_ten_thousand_connections(rt: HostRuntime) {
    let limits = Limits::of_server();
    assert_eq!(rt;
        (limits.connections, limits.places(), limits.bytes),
        (10_000, 10_064, 268_435_456)
    );
    assert_eq!(rt;
        (limits.patience.idle, limits.patience.request),
        (90_000, 10_000)
    );
}

/// Three calls are made at once in three threads, and can't be in two; that is known when the time is up.
#[test]
fn threads_gather_where_there_are_enough(rt: HostRuntime) -> Result<(), Fail> {
    let long = Duration::from_secs(20);
    let short = Duration::from_millis(100);
    let began = Instant::now(&rt)?;
    assert!(rt; can_gather(&rt, rt.alloc(), 3, 3, long)?);
    assert!(rt; began.elapsed(&rt)? < Duration::from_secs(15));
    assert!(rt; !can_gather(&rt, rt.alloc(), 3, 2, short)?);
    assert!(rt; !can_gather(&rt, rt.alloc(), 2, 0, short)?);
    assert!(rt;
        can_gather(&rt, rt.alloc(), 0, 1, short)? && can_gather(&rt, rt.alloc(), 1, 1, short)?
    );
    Ok(())
}

/// What the evictor sees at a turn where so many are due and so many go.
fn news(permitted: bool, due: u64, evicted: u64) -> News {
    News {
        permitted,
        renewals: 12,
        threshold: 20,
        due,
        evicted,
    }
}

/// A pass is told where it evicted, and a change where there is one.
#[test]
fn passes_and_changes_are_told(rt: HostRuntime) {
    let mut told = Told::new(false);
    assert_eq!(rt; Message::of_pass(&news(true, 7, 0)), None);
    assert_eq!(rt;
        Message::of_pass(&news(true, 7, 3)),
        Some(Message::Evicted { evicted: 3, due: 7 })
    );
    assert_eq!(rt; told.change(&news(false, 7, 0)), None);
    assert_eq!(rt;
        told.change(&news(true, 7, 0)),
        Some(Message::Permitted {
            renewals: 12,
            threshold: 20
        })
    );
    assert_eq!(rt; told.change(&news(true, 7, 3)), None);
    assert_eq!(rt;
        told.change(&news(false, 4, 0)),
        Some(Message::HeldBack {
            renewals: 12,
            threshold: 20
        })
    );
}

/// Refusals are told once a second: all that came since.
#[test]
fn refusals_are_told_once_a_second(rt: HostRuntime) {
    let mut told = Told::new(true);
    assert_eq!(rt; told.refusals(0, 5), None);
    assert_eq!(rt; told.refusals(2, 10), Some(Message::Refused(2)));
    assert_eq!(rt; told.refusals(5, 1_009), None);
    assert_eq!(rt; told.refusals(5, 1_010), Some(Message::Refused(3)));
    assert_eq!(rt; told.refusals(5, 9_000), None);
}
