//! Leases of several applications, whose order is by application and then by id, and override rows, which are by id alone.
use crate::tests::cases::judge;

/// Names that are the same but for their application, their id, or a letter.
const NAMES: &str = "
    # By the bytes of the application, then by those of the id, where a name that another begins with is the smaller one.
    from
        lease 1000 1000 1000 A z 90 UP UNKNOWN 5
        lease 1000 1000 1000 B a 90 UP UNKNOWN 5
    plain
    from
        lease 1000 1000 1000 B a 90 UP UNKNOWN 5
        lease 1000 1000 1000 A z 90 UP UNKNOWN 5
    not plain
    from
        lease 1000 1000 1000 A z 90 UP UNKNOWN 5
        lease 1000 1000 1000 AB a 90 UP UNKNOWN 5
    plain
    from
        lease 1000 1000 1000 AB a 90 UP UNKNOWN 5
        lease 1000 1000 1000 A z 90 UP UNKNOWN 5
    not plain
    from
        lease 1000 1000 1000 A i 90 UP UNKNOWN 5
        lease 1000 1000 1000 A i1 90 UP UNKNOWN 5
    plain
    from
        lease 1000 1000 1000 A i1 90 UP UNKNOWN 5
        lease 1000 1000 1000 A i 90 UP UNKNOWN 5
    not plain
    from
        lease 1000 1000 1000 A i10 90 UP UNKNOWN 5
        lease 1000 1000 1000 A i2 90 UP UNKNOWN 5
    plain
    from
        lease 1000 1000 1000 A i2 90 UP UNKNOWN 5
        lease 1000 1000 1000 A i10 90 UP UNKNOWN 5
    not plain
    from
        lease 1000 1000 1000 A I 90 UP UNKNOWN 5
        lease 1000 1000 1000 A i 90 UP UNKNOWN 5
    plain
    from
        lease 1000 1000 1000 A i 90 UP UNKNOWN 5
        lease 1000 1000 1000 A I 90 UP UNKNOWN 5
    not plain
    from
        lease 1000 1000 1000 A z 90 UP UNKNOWN 5
        lease 1000 1000 1000 A é 90 UP UNKNOWN 5
    plain
    from
        lease 1000 1000 1000 A é 90 UP UNKNOWN 5
        lease 1000 1000 1000 A z 90 UP UNKNOWN 5
    not plain

    # An operator sets A/x out of service, and B/x renews under the row of its id; unless a cancel of C/x, which nobody holds, takes the row
    # out in between.
    from
        lease 1000 1000 1000 A x 90 UP UNKNOWN 5
        lease 1000 1000 1000 B x 90 UP UNKNOWN 5
    by
        set 2000 A x OUT_OF_SERVICE - c = done
        renew 4000 B x - - c = done
    to
        lease 1000 92000 1000 A x 90 OUT_OF_SERVICE OUT_OF_SERVICE 5
        lease 1000 94000 1000 B x 90 OUT_OF_SERVICE UNKNOWN 5
        row x OUT_OF_SERVICE
        since 1
    yes
    to
        lease 1000 92000 1000 A x 90 OUT_OF_SERVICE OUT_OF_SERVICE 5
        lease 1000 94000 1000 B x 90 UP UNKNOWN 5
        row x OUT_OF_SERVICE
        since 1
    no
    by
        set 2000 A x OUT_OF_SERVICE - c = done
        cancel 3000 C x c = missing
        renew 4000 B x - - c = done
    to
        lease 1000 92000 1000 A x 90 OUT_OF_SERVICE OUT_OF_SERVICE 5
        lease 1000 94000 1000 B x 90 UP UNKNOWN 5
        since 1
    yes
    to
        lease 1000 92000 1000 A x 90 OUT_OF_SERVICE OUT_OF_SERVICE 5
        lease 1000 94000 1000 B x 90 OUT_OF_SERVICE UNKNOWN 5
        row x OUT_OF_SERVICE
        since 1
    no

    # The row of an id goes with the lease that an eviction takes, also where another lease of that id is left.
    from
        config off 50 30 60000
        expected 2
        lease 1000 1000 1000 A x 90 UP UNKNOWN 5
        lease 1000 1000 1000 B x 90 UP UNKNOWN 5
        row x OUT_OF_SERVICE
    by
        evict 91001 = evicted B/x
    to
        config off 50 30 60000
        expected 1
        lease 1000 1000 1000 A x 90 UP UNKNOWN 5
        previous 91001
    yes
    to
        config off 50 30 60000
        expected 1
        lease 1000 1000 1000 A x 90 UP UNKNOWN 5
        row x OUT_OF_SERVICE
        previous 91001
    no
    from
        config off 0 30 60000
        expected 2
        lease 1000 1000 1000 A x 90 UP UNKNOWN 5
        lease 1000 1000 1000 B x 90 UP UNKNOWN 5
        row x OUT_OF_SERVICE
    by
        evict 91001 = evicted B/x x
    to
        config off 0 30 60000
        previous 91001
    yes
    by
        evict 91001 = evicted x
    to
        config off 0 30 60000
        expected 1
        lease 1000 1000 1000 B x 90 UP UNKNOWN 5
        previous 91001
    no
    by
        evict 91001 = evicted C/x x
    to
        config off 0 30 60000
        lease 1000 1000 1000 B x 90 UP UNKNOWN 5
        previous 91001
    no
";

#[test]
fn leases_are_by_application_and_id_and_rows_by_id(rt: HostRuntime) {
    assert!(rt; judge(rt.alloc(), NAMES) == Ok(21));
}
