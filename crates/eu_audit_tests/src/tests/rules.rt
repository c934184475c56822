//! What each command may leave of a lease, by the rules, each beside what it may not.
use crate::tests::cases::judge;

/// The last moment is 4611686018427387904, which is 2^62.
const RULES: &str = "
    # A renewal with a newer stamp brings an overridden status where a peer sends it, and the status isn't UNKNOWN.
    from
        lease 1000 1000 1000 A i1 90 UP UNKNOWN 5
    by
        renew 2000 A i1 6 OUT_OF_SERVICE r = stale
    to
        lease 1000 92000 1000 A i1 90 UP OUT_OF_SERVICE 5
        row i1 OUT_OF_SERVICE
        since 1
    yes
    to
        lease 1000 92000 1000 A i1 90 UP UNKNOWN 5
        since 1
    no
    by
        renew 2000 A i1 6 OUT_OF_SERVICE c = stale
    yes
    by
        renew 2000 A i1 6 UNKNOWN r = stale
    yes
    by
        renew 2000 A i1 5 OUT_OF_SERVICE r = done
    yes

    # A registration with an older stamp leaves the instance that is held, for as long as the newcomer says; one with the same stamp
    # doesn't.
    from
        lease 1000 1000 1000 A i1 90 UP UNKNOWN 5
    by
        register 5000 A i1 30 STARTING UNKNOWN 4 c = again
    to
        lease 5000 5000 1000 A i1 30 UP UNKNOWN 5
    yes
    to
        lease 5000 5000 1000 A i1 90 UP UNKNOWN 5
    no
    by
        register 7000 A i1 30 STARTING UNKNOWN 5 c = again
    to
        lease 7000 7000 1000 A i1 30 STARTING UNKNOWN 5
    yes

    # An overridden status becomes the row, which overrides the next registration too; an operator takes it back and says UP, which isn't
    # the moment from which the instance is up.
    from
    by
        register 2000 A i1 90 UP OUT_OF_SERVICE 5 c = fresh
    to
        lease 2000 2000 0 A i1 90 OUT_OF_SERVICE OUT_OF_SERVICE 5
        row i1 OUT_OF_SERVICE
    yes
    by
        register 1000 A i1 90 UP OUT_OF_SERVICE 5 c = fresh
        register 2000 A i1 90 UP UNKNOWN 5 c = again
    yes
    from
        lease 2000 2000 0 A i1 90 OUT_OF_SERVICE OUT_OF_SERVICE 5
        row i1 OUT_OF_SERVICE
    by
        unset 3000 A i1 UP - c = done
    to
        lease 2000 93000 0 A i1 90 UP UNKNOWN 5
    yes
    to
        lease 2000 93000 3000 A i1 90 UP UNKNOWN 5
    no

    # An adoption replaces the row, and overrides what is held.
    from
        lease 1000 1000 1000 A i1 90 UP UNKNOWN 5
        row i1 DOWN
    by
        adopt 2000 A i1 90 UP OUT_OF_SERVICE 4 = again
    to
        lease 2000 2000 1000 A i1 90 OUT_OF_SERVICE OUT_OF_SERVICE 5
        row i1 OUT_OF_SERVICE
    yes
    to
        lease 2000 2000 1000 A i1 90 OUT_OF_SERVICE OUT_OF_SERVICE 5
        row i1 DOWN
    no

    # A lease that has expired isn't found by an operator, unless eviction isn't permitted; but it may be renewed.
    from
        config off 85 30 60000
        lease 1000 1000 1000 A i1 10 UP UNKNOWN 5
    by
        set 11000 A i1 DOWN - c = done
    to
        config off 85 30 60000
        lease 1000 21000 1000 A i1 10 DOWN DOWN 5
        row i1 DOWN
    yes
    by
        set 11001 A i1 DOWN - c = done
    to
        config off 85 30 60000
        lease 1000 21001 1000 A i1 10 DOWN DOWN 5
        row i1 DOWN
    no
    by
        set 11001 A i1 DOWN - c = missing
        unset 11001 A i1 - - c = missing
    to
        config off 85 30 60000
        lease 1000 1000 1000 A i1 10 UP UNKNOWN 5
    yes
    by
        renew 11001 A i1 - - c = done
    to
        config off 85 30 60000
        lease 1000 21001 1000 A i1 10 UP UNKNOWN 5
        since 1
    yes
    from
        lease 1000 1000 1000 A i1 10 UP UNKNOWN 5
    by
        set 11001 A i1 DOWN - c = done
    to
        lease 1000 21001 1000 A i1 10 DOWN DOWN 5
        row i1 DOWN
    yes

    # i1 is set to the status that it has, or unset where no row is: it is renewed, and not counted.
    from
        lease 1000 1000 1000 A i1 90 UP UNKNOWN 5
    by
        set 2000 A i1 UP - c = done
    to
        lease 1000 92000 1000 A i1 90 UP UNKNOWN 5
    yes
    by
        unset 2000 A i1 DOWN - c = done
    yes
    by
        set 2000 A i1 UP - c = done
    to
        lease 1000 92000 1000 A i1 90 UP UNKNOWN 5
        since 1
    no

    # It expires after 110,000. An eviction at 110,001 comes 10,001 ms late after one at 40,000, so that it grants as much, and in time
    # after one at 50,001.
    from
        config off 85 30 60000
        lease 100000 100000 100000 A i1 10 UP UNKNOWN 5
    by
        evict 50000 = evicted
        evict 40000 = evicted
        evict 110001 = evicted
        evict 120001 = evicted i1
    to
        config off 85 30 60000
        previous 120001
    yes
    by
        evict 50000 = evicted
        evict 40000 = evicted
        evict 110001 = evicted i1
    to
        config off 85 30 60000
        previous 110001
    no
    by
        evict 50001 = evicted
        evict 110001 = evicted i1
    yes

    # The evictions that leave these leases.
    from
        config off 50 30 60000
        expected 4
        lease 1000 1000 1000 A i1 90 UP UNKNOWN 5
        lease 1000 2000 1000 A i2 90 UP UNKNOWN 5
        lease 1000 3000 1000 A i3 90 UP UNKNOWN 5
        lease 1000 140000 1000 A i4 90 UP UNKNOWN 5
    by
        evict 93001 = evicted i3 i1
    to
        config off 50 30 60000
        expected 2
        lease 1000 2000 1000 A i2 90 UP UNKNOWN 5
        lease 1000 140000 1000 A i4 90 UP UNKNOWN 5
        previous 93001
    yes
    by
        evict 93001 = evicted i2 i3
    to
        config off 50 30 60000
        expected 2
        lease 1000 1000 1000 A i1 90 UP UNKNOWN 5
        lease 1000 140000 1000 A i4 90 UP UNKNOWN 5
        previous 93001
    yes
    by
        evict 93001 = evicted i1
    to
        config off 50 30 60000
        expected 3
        lease 1000 2000 1000 A i2 90 UP UNKNOWN 5
        lease 1000 3000 1000 A i3 90 UP UNKNOWN 5
        lease 1000 140000 1000 A i4 90 UP UNKNOWN 5
        previous 93001
    no
    by
        evict 93001 = evicted i1 i2 i3
    to
        config off 50 30 60000
        expected 1
        lease 1000 140000 1000 A i4 90 UP UNKNOWN 5
        previous 93001
    no
    by
        evict 93001 = evicted i1 i4
    to
        config off 50 30 60000
        expected 2
        lease 1000 2000 1000 A i2 90 UP UNKNOWN 5
        lease 1000 3000 1000 A i3 90 UP UNKNOWN 5
        previous 93001
    no

    from
        config on 50 30 60000
        expected 2
        lease 1000 1000 1000 A i1 90 UP UNKNOWN 5
    by
        update 2000 = expected 2
    to
        config on 50 30 60000
        expected 2
        lease 1000 1000 1000 A i1 90 UP UNKNOWN 5
    yes
    by
        update 2000 = expected 1
    to
        config on 50 30 60000
        expected 1
        lease 1000 1000 1000 A i1 90 UP UNKNOWN 5
    no
    by
        config 2000 on 49 30 60000 = done
        update 2000 = expected 1
    to
        config on 49 30 60000
        expected 1
        lease 1000 1000 1000 A i1 90 UP UNKNOWN 5
    yes
    by
        config 2000 off 50 30 60000 = done
        update 2000 = expected 1
    to
        config off 50 30 60000
        expected 1
        lease 1000 1000 1000 A i1 90 UP UNKNOWN 5
    yes

    # i1 at the last moment.
    from
        lease 1000 1000 1000 A i1 90 UP UNKNOWN 5
    by
        renew 4611686018427387904 A i1 - - c = done
    to
        lease 1000 4611686018427477904 1000 A i1 90 UP UNKNOWN 5
        since 1
    yes
    by
        register 4611686018427387904 A i1 90 UP UNKNOWN 5 c = again
    to
        lease 4611686018427387904 4611686018427387904 1000 A i1 90 UP UNKNOWN 5
    yes
    from
        config off 85 30 60000
        lease 1000 1000 1000 A i1 10 UP UNKNOWN 5
    by
        renew 4611686018427387904 A i1 - - c = done
        evict 4611686018427387904 = evicted
    to
        config off 85 30 60000
        lease 1000 4611686018427397904 1000 A i1 10 UP UNKNOWN 5
        since 1
        previous 4611686018427387904
    yes

    # What a peer sends is told to none.
    from
        peer
    by
        register 1000 A i1 90 UP UNKNOWN 5 r = fresh
    to
        lease 1000 1000 1000 A i1 90 UP UNKNOWN 5
        peer
    yes
    to
        lease 1000 1000 1000 A i1 90 UP UNKNOWN 5
        peer
        waits Register 1000 - A i1 of A i1 90 UP UNKNOWN 5
    no
    by
        adopt 1000 A i1 90 UP UNKNOWN 5 = fresh
    to
        lease 1000 1000 1000 A i1 90 UP UNKNOWN 5
        peer
    yes
    to
        lease 1000 1000 1000 A i1 90 UP UNKNOWN 5
        peer
        waits Register 1000 - A i1 of A i1 90 UP UNKNOWN 5
    no
    by
        register 1000 A i1 90 UP UNKNOWN 5 c = fresh
    yes
    to
        lease 1000 1000 1000 A i1 90 UP UNKNOWN 5
        peer
    no
";

#[test]
fn each_command_leaves_what_its_rule_says(rt: HostRuntime) {
    assert!(rt; judge(rt.alloc(), RULES) == Ok(43));
}
