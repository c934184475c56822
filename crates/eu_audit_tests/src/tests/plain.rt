//! Which servers are plain forms.
use crate::tests::cases::judge;
use crate::tests::forms::stands;
use eu_base::Fault;
use std::alloc::Global;

/// 4611686018427387904 is 2^62, 1099511627776 is 2^40, and 9223372036854775807 is 2^63 - 1.
const SERVERS: &str = "
    # Leases are in key order, each once.
    from
    plain
    from
        lease 1000 1000 1000 A i1 90 UP UNKNOWN 5
        lease 1000 1000 1000 A i2 90 UP UNKNOWN 5
    plain
    from
        lease 1000 1000 1000 A i2 90 UP UNKNOWN 5
        lease 1000 1000 1000 A i1 90 UP UNKNOWN 5
    not plain
    from
        lease 1000 1000 1000 A i1 90 UP UNKNOWN 5
        lease 1000 1000 1000 A i1 90 UP UNKNOWN 5
    not plain
    from
        lease 1000 1000 1000 A i1 90 UP UNKNOWN 5
        lease 1000 1000 1000 A i2 90 UP UNKNOWN 5
        lease 1000 1000 1000 A i1 90 UP UNKNOWN 5
    not plain

    # Moments have limits. The last update may be 90 s later than the other moments, which is the lease's duration. Each is judged alone
    # and before another lease.
    from
        lease 4611686018427387904 4611686018427477904 4611686018427387904 A i1 90 UP UNKNOWN 5
    plain
    from
        lease 4611686018427387904 4611686018427477904 4611686018427387904 A i1 90 UP UNKNOWN 5
        lease 1000 1000 1000 A i2 90 UP UNKNOWN 5
    plain
    from
        lease 4611686018427387905 1000 1000 A i1 90 UP UNKNOWN 5
    not plain
    from
        lease 4611686018427387905 1000 1000 A i1 90 UP UNKNOWN 5
        lease 1000 1000 1000 A i2 90 UP UNKNOWN 5
    not plain
    from
        lease 1000 4611686018427477905 1000 A i1 90 UP UNKNOWN 5
    not plain
    from
        lease 1000 4611686018427477905 1000 A i1 90 UP UNKNOWN 5
        lease 1000 1000 1000 A i2 90 UP UNKNOWN 5
    not plain
    from
        lease 1000 1000 4611686018427387905 A i1 90 UP UNKNOWN 5
    not plain
    from
        lease 1000 1000 4611686018427387905 A i1 90 UP UNKNOWN 5
        lease 1000 1000 1000 A i2 90 UP UNKNOWN 5
    not plain

    # Numbers have limits.
    from
        expected 1099511627776
        last 4611686018427387904
        since 4611686018427387904
    plain
    from
        expected 1099511627777
    not plain
    from
        last 4611686018427387905
    not plain
    from
        since 4611686018427387905
    not plain

    # Two rows in order, two that aren't, and one twice.
    from
        row i1 UP
        row i2 DOWN
    plain
    from
        row i2 UP
        row i1 DOWN
    not plain
    from
        row i1 UP
        row i1 DOWN
    not plain

    # The base or the end alone is no plain form, though both hold the same.
    from
        lease 1000 1000 1000 A i1 90 UP UNKNOWN 5
        lease 1000 1000 1000 A i2 90 UP UNKNOWN 5
        row i1 UP
        row i2 DOWN
    by
    to
        lease 1000 1000 1000 A i1 90 UP UNKNOWN 5
        lease 1000 1000 1000 A i2 90 UP UNKNOWN 5
        row i1 UP
        row i2 DOWN
    yes
    to
        lease 1000 1000 1000 A i2 90 UP UNKNOWN 5
        lease 1000 1000 1000 A i1 90 UP UNKNOWN 5
        row i1 UP
        row i2 DOWN
    no
    from
        lease 1000 1000 1000 A i2 90 UP UNKNOWN 5
        lease 1000 1000 1000 A i1 90 UP UNKNOWN 5
        row i1 UP
        row i2 DOWN
    to
        lease 1000 1000 1000 A i1 90 UP UNKNOWN 5
        lease 1000 1000 1000 A i2 90 UP UNKNOWN 5
        row i1 UP
        row i2 DOWN
    no
    from
        lease 1000 1000 1000 A i1 90 UP UNKNOWN 5
        lease 1000 1000 1000 A i2 90 UP UNKNOWN 5
        row i1 UP
        row i2 DOWN
    to
        lease 1000 1000 1000 A i1 90 UP UNKNOWN 5
        lease 1000 1000 1000 A i1 90 UP UNKNOWN 5
        lease 1000 1000 1000 A i2 90 UP UNKNOWN 5
        row i1 UP
        row i2 DOWN
    no
    from
        lease 1000 1000 1000 A i1 90 UP UNKNOWN 5
        lease 1000 1000 1000 A i1 90 UP UNKNOWN 5
        lease 1000 1000 1000 A i2 90 UP UNKNOWN 5
        row i1 UP
        row i2 DOWN
    to
        lease 1000 1000 1000 A i1 90 UP UNKNOWN 5
        lease 1000 1000 1000 A i2 90 UP UNKNOWN 5
        row i1 UP
        row i2 DOWN
    no
    from
        lease 1000 1000 1000 A i1 90 UP UNKNOWN 5
        lease 1000 1000 1000 A i2 90 UP UNKNOWN 5
        row i1 UP
        row i2 DOWN
    to
        lease 1000 1000 1000 A i1 90 UP UNKNOWN 5
        lease 1000 1000 1000 A i2 90 UP UNKNOWN 5
        row i2 DOWN
        row i1 UP
    no
    from
        lease 1000 1000 1000 A i1 90 UP UNKNOWN 5
        lease 1000 1000 1000 A i2 90 UP UNKNOWN 5
        row i2 DOWN
        row i1 UP
    to
        lease 1000 1000 1000 A i1 90 UP UNKNOWN 5
        lease 1000 1000 1000 A i2 90 UP UNKNOWN 5
        row i1 UP
        row i2 DOWN
    no
    from
        lease 1000 1000 1000 A i1 90 UP UNKNOWN 5
        lease 1000 1000 1000 A i2 90 UP UNKNOWN 5
        row i1 UP
        row i2 DOWN
    to
        lease 1000 1000 1000 A i1 90 UP UNKNOWN 5
        lease 1000 1000 1000 A i2 90 UP UNKNOWN 5
        row i1 UP
        row i1 UP
        row i2 DOWN
    no
    from
        lease 1000 1000 1000 A i1 90 UP UNKNOWN 5
        lease 1000 1000 1000 A i2 90 UP UNKNOWN 5
        row i1 UP
        row i1 UP
        row i2 DOWN
    to
        lease 1000 1000 1000 A i1 90 UP UNKNOWN 5
        lease 1000 1000 1000 A i2 90 UP UNKNOWN 5
        row i1 UP
        row i2 DOWN
    no

    # There are eight peers at most.
    from
        peer
        peer
        peer
        peer
        peer
        peer
        peer
        peer
    plain
    from
        peer
        peer
        peer
        peer
        peer
        peer
        peer
        peer
        peer
    not plain

    # One task of a name waits and one is in flight.
    from
        peer
        waits Heartbeat 1000 - A i1 of A i1 90 UP UNKNOWN 5
        waits Cancel 1000 - A i1
        flies Cancel 1000 - A i1
        flies Heartbeat 2000 - A i1 of A i1 90 UP UNKNOWN 5
    plain
    from
        peer
        waits Heartbeat 1000 - A i1 of A i1 90 UP UNKNOWN 5
        waits Cancel 1000 - A i1
        waits Heartbeat 2000 - A i1 of A i1 90 UP UNKNOWN 5
    not plain
    from
        peer
        flies Heartbeat 1000 - A i1 of A i1 90 UP UNKNOWN 5
        flies Cancel 1000 - A i1
        flies Heartbeat 2000 - A i1 of A i1 90 UP UNKNOWN 5
    not plain
";

#[test]
fn each_thing_is_once_in_its_place_and_within_its_limit(rt: HostRuntime) {
    assert!(rt; judge(rt.alloc(), SERVERS) == Ok(34));
}

/// Tasks for i1, and whether each has what its action has.
const TASKS: &str = "\
yes Register 1000 - A i1 of A i1 90 UP UNKNOWN 5
no Register 1000 - A i1
no Register 1000 UP A i1 of A i1 90 UP UNKNOWN 5
no Register 1000 - A i1 of A i2 90 UP UNKNOWN 5
yes Heartbeat 1000 - A i1 of A i1 90 UP UNKNOWN 5
no Heartbeat 1000 - A i1
no Heartbeat 1000 UP A i1 of A i1 90 UP UNKNOWN 5
no Heartbeat 1000 - A i1 of A i2 90 UP UNKNOWN 5
yes Cancel 1000 - A i1
no Cancel 1000 - A i1 of A i1 90 UP UNKNOWN 5
no Cancel 1000 UP A i1
no Cancel 1000 UP A i1 of A i1 90 UP UNKNOWN 5
yes StatusUpdate 1000 UP A i1 of A i1 90 UP UNKNOWN 5
no StatusUpdate 1000 - A i1 of A i1 90 UP UNKNOWN 5
no StatusUpdate 1000 UP A i1
no StatusUpdate 1000 UP A i1 of A i2 90 UP UNKNOWN 5
yes DeleteStatusOverride 1000 UP A i1 of A i1 90 UP UNKNOWN 5
no DeleteStatusOverride 1000 - A i1 of A i1 90 UP UNKNOWN 5
no DeleteStatusOverride 1000 UP A i1
no DeleteStatusOverride 1000 UP A i1 of A i2 90 UP UNKNOWN 5";

/// The verdict on a server of whose only peer this is told.
fn judged_peer(alloc: Global, place: &str, task: &str) -> Result<bool, Fault> {
    let server = format!(in alloc; "peer\n{place} {task}")?;
    stands(alloc, server.as_str())
}

#[test]
fn tasks_have_what_their_action_has(rt: HostRuntime) {
    let mut count = 0usize;
    for row in TASKS.lines() {
        let (word, task) = row.split_once(' ').unwrap_or(("", row));
        let wanted = word == "yes";
        assert!(rt;
            judged_peer(rt.alloc(), "waits", task) == Ok(wanted),
            "{row}"
        );
        assert!(rt;
            judged_peer(rt.alloc(), "flies", task) == Ok(wanted),
            "{row}"
        );
        count = count.saturating_add(1);
    }
    assert!(rt; count == 20);
}

/// 10,000 tasks wait at most, and 250 are in flight.
const QUEUES: &str = "
    from
        peer
        waits Cancel 1000 - A i{0..10000}
        flies Cancel 1000 - A i{0..250}
    plain
    from
        peer
        waits Cancel 1000 - A i{0..10001}
    not plain
    from
        peer
        flies Cancel 1000 - A i{0..251}
    not plain
";

#[test]
fn queues_have_limits(rt: HostRuntime) {
    assert!(rt; judge(rt.alloc(), QUEUES) == Ok(3));
}

/// All numbers are the greatest. 65,536 leases are held at most; each of these lasts 2147483 s.
const GREATEST: &str = "
    from
        config on 100 3600 4294967295
        expected 1099511627776
        lease 4611686018427387904 4611686020574870904 4611686018427387904 A i{100000..165536} 2147483 UP OUT_OF_SERVICE 9223372036854775807
        last 4611686018427387904
        since 4611686018427387904
        previous 4611686018427387904
        peer
        peer
        peer
        peer
        peer
        peer
        peer
        peer
    plain
    from
        config on 100 3600 4294967295
        expected 1099511627776
        lease 4611686018427387904 4611686020574870904 4611686018427387904 A i{100000..165537} 2147483 UP OUT_OF_SERVICE 9223372036854775807
        last 4611686018427387904
        since 4611686018427387904
        previous 4611686018427387904
        peer
        peer
        peer
        peer
        peer
        peer
        peer
        peer
    not plain
";

#[test]
fn a_server_at_its_limits_stands(rt: HostRuntime) {
    assert!(rt; judge(rt.alloc(), GREATEST) == Ok(2));
}

/// A full server has the first of its leases renewed, at the moment at which it was; but one more may not come, and go.
const FULL: &str = "
    from
        lease 4611686018427387904 4611686020574870904 4611686018427387904 A i{100000..165536} 2147483 UP OUT_OF_SERVICE 9223372036854775807
    by
        renew 4611686018427387904 A i100000 - - c = done
    to
        lease 4611686018427387904 4611686020574870904 4611686018427387904 A i{100000..165536} 2147483 UP OUT_OF_SERVICE 9223372036854775807
        since 1
    yes
    by
        register 4611686018427387904 A i1 90 UP UNKNOWN 5 c = fresh
        cancel 4611686018427387904 A i1 c = done
    to
        lease 4611686018427387904 4611686020574870904 4611686018427387904 A i{100000..165536} 2147483 UP OUT_OF_SERVICE 9223372036854775807
    no
";

#[test]
fn a_full_server_takes_none_more(rt: HostRuntime) {
    assert!(rt; judge(rt.alloc(), FULL) == Ok(2));
}
