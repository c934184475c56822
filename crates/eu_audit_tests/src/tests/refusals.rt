//! Entries whose command is refused at their moment, each beside one that isn't.
use crate::tests::cases::judge;

/// No more than 1099511627776 clients can be expected, which is 2^40, and no more than 4611686018427387904 renewals counted, which is 2^62.
/// A task that was queued at 1000 is worth sending up to 31000.
const REFUSALS: &str = "
    # A client more, where none more can be expected; and one that is held comes again.
    from
        expected 1099511627776
        lease 1000 1000 1000 A i1 90 UP UNKNOWN 5
        since 4611686018427387904
    by
        register 2000 A i2 90 UP UNKNOWN 5 c = fresh
    to
        expected 1099511627776
        lease 1000 1000 1000 A i1 90 UP UNKNOWN 5
        lease 2000 2000 2000 A i2 90 UP UNKNOWN 5
        since 4611686018427387904
    no
    by
        register 2000 A i1 90 UP UNKNOWN 5 c = again
    to
        expected 1099511627776
        lease 2000 2000 1000 A i1 90 UP UNKNOWN 5
        since 4611686018427387904
    yes

    # A renewal, where none more can be counted; one that isn't counted, since it finds nothing; and one after the minute has ended.
    from
        expected 1099511627776
        lease 1000 1000 1000 A i1 90 UP UNKNOWN 5
        since 4611686018427387904
    by
        renew 2000 A i1 - - c = done
    to
        expected 1099511627776
        lease 1000 92000 1000 A i1 90 UP UNKNOWN 5
        since 4611686018427387904
    no
    by
        renew 2000 A i2 - - c = missing
    to
        expected 1099511627776
        lease 1000 1000 1000 A i1 90 UP UNKNOWN 5
        since 4611686018427387904
    yes
    from
        expected 1099511627776
        lease 1000 1000 1000 A i1 90 UP UNKNOWN 5
    by
        renew 2000 A i1 - - c = done
    to
        expected 1099511627776
        lease 1000 92000 1000 A i1 90 UP UNKNOWN 5
        since 1
    yes

    # What waits is drained, unless it is too old, or a batch is in flight, or there is no such peer.
    from
        peer
        waits Cancel 1000 - A i1
    by
        drain 31000 0 = batch Cancel 1000 - A i1
    to
        peer
        flies Cancel 1000 - A i1
    yes
    by
        drain 31001 0 = batch Cancel 1000 - A i1
    no
    by
        drain 31001 0 = batch
    to
        peer
    no
    from
        peer
    by
        drain 2000 0 = batch
    no
    from
        peer
        flies Cancel 1000 - A i1
    by
        drain 2000 0 = batch Cancel 1000 - A i1
    to
        peer
        flies Cancel 1000 - A i1
    no
    from
        peer
        waits Cancel 1000 - A i1
    by
        drain 2000 1 = batch Cancel 1000 - A i1
    no

    # A batch has landed, unless none is in flight, or it was answered by another number of codes.
    from
        peer
        flies Cancel 1000 - A i1
    by
        landed 2000 0 200 = settled
    to
        peer
    yes
    by
        landed 2000 0 200 200 = settled
    no
    by
        landed 2000 0 = settled
    no
    from
        peer
        waits Cancel 1000 - A i1
    to
        peer
        waits Cancel 1000 - A i1
    no

    # A batch is lost, unless none is in flight; what is too old doesn't wait again.
    from
        peer
        flies Cancel 1000 - A i1
    by
        lost 31000 0 = settled
    to
        peer
        waits Cancel 1000 - A i1
    yes
    by
        lost 31001 0 = settled
    no
    to
        peer
    yes
    from
        peer
        waits Cancel 1000 - A i1
    by
        lost 2000 0 = settled
    to
        peer
        waits Cancel 1000 - A i1
    no
";

#[test]
fn what_is_refused_is_no_run(rt: HostRuntime) {
    assert!(rt; judge(rt.alloc(), REFUSALS) == Ok(19));
}
