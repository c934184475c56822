//! Ten clients i0 to i9 come at 1,000 ms, for 90 s each, and i9 alone renews, at 50,000. Then two evictions are made, the first at
//! 100,000.
//!
//! One client was expected before they came, so that eleven are then. The nine that are silent have expired after 91,000, and i9 hasn't
//! until 230,000, which is two durations after its renewal. At 85% an eviction takes two of ten, and two of eight; at 50% five of ten,
//! and three of five.
use crate::tests::cases::judge;

/// Evictions of ten clients.
const EVICTIONS: &str = "
    # Each takes its share.
    from
        config off 85 30 60000
        expected 1
    by
        register 1000 A i{0..10} 90 UP UNKNOWN 5 c = fresh
        renew 50000 A i9 - - c = done
        evict 100000 = evicted i3 i7
        evict 160000 = evicted i0 i1
    to
        config off 85 30 60000
        expected 7
        lease 1000 1000 1000 A i{2,4,5,6,8} 90 UP UNKNOWN 5
        lease 1000 140000 1000 A i9 90 UP UNKNOWN 5
        since 1
        previous 160000
    yes

    # Each takes half.
    from
        config off 50 30 60000
        expected 1
    by
        register 1000 A i{0..10} 90 UP UNKNOWN 5 c = fresh
        renew 50000 A i9 - - c = done
        evict 100000 = evicted i0 i1 i2 i3 i4
        evict 160000 = evicted i5 i6 i7
    to
        config off 50 30 60000
        expected 3
        lease 1000 1000 1000 A i8 90 UP UNKNOWN 5
        lease 1000 140000 1000 A i9 90 UP UNKNOWN 5
        since 1
        previous 160000
    yes

    # The second takes two others that had expired, and then the first two the other way round.
    from
        config off 85 30 60000
        expected 1
    by
        register 1000 A i{0..10} 90 UP UNKNOWN 5 c = fresh
        renew 50000 A i9 - - c = done
        evict 100000 = evicted i3 i7
        evict 160000 = evicted i4 i8
    to
        config off 85 30 60000
        expected 7
        lease 1000 1000 1000 A i{0,1,2,5,6} 90 UP UNKNOWN 5
        lease 1000 140000 1000 A i9 90 UP UNKNOWN 5
        since 1
        previous 160000
    yes
    by
        register 1000 A i{0..10} 90 UP UNKNOWN 5 c = fresh
        renew 50000 A i9 - - c = done
        evict 100000 = evicted i3 i7
        evict 160000 = evicted i1 i0
    to
        config off 85 30 60000
        expected 7
        lease 1000 1000 1000 A i{2,4,5,6,8} 90 UP UNKNOWN 5
        lease 1000 140000 1000 A i9 90 UP UNKNOWN 5
        since 1
        previous 160000
    yes

    # Its victims are held at the end.
    from
        config off 85 30 60000
        expected 1
    by
        register 1000 A i{0..10} 90 UP UNKNOWN 5 c = fresh
        renew 50000 A i9 - - c = done
        evict 100000 = evicted i3 i7
        evict 160000 = evicted i4 i8
    to
        config off 85 30 60000
        expected 7
        lease 1000 1000 1000 A i{2,4,5,6,8} 90 UP UNKNOWN 5
        lease 1000 140000 1000 A i9 90 UP UNKNOWN 5
        since 1
        previous 160000
    no

    # It takes one fewer, and one more.
    from
        config off 85 30 60000
        expected 1
    by
        register 1000 A i{0..10} 90 UP UNKNOWN 5 c = fresh
        renew 50000 A i9 - - c = done
        evict 100000 = evicted i3 i7
        evict 160000 = evicted i0
    to
        config off 85 30 60000
        expected 8
        lease 1000 1000 1000 A i{1,2,4,5,6,8} 90 UP UNKNOWN 5
        lease 1000 140000 1000 A i9 90 UP UNKNOWN 5
        since 1
        previous 160000
    no
    by
        register 1000 A i{0..10} 90 UP UNKNOWN 5 c = fresh
        renew 50000 A i9 - - c = done
        evict 100000 = evicted i3 i7
        evict 160000 = evicted i0 i1 i2
    to
        config off 85 30 60000
        expected 6
        lease 1000 1000 1000 A i{4,5,6,8} 90 UP UNKNOWN 5
        lease 1000 140000 1000 A i9 90 UP UNKNOWN 5
        since 1
        previous 160000
    no

    # It takes one twice.
    from
        config off 85 30 60000
        expected 1
    by
        register 1000 A i{0..10} 90 UP UNKNOWN 5 c = fresh
        renew 50000 A i9 - - c = done
        evict 100000 = evicted i3 i7
        evict 160000 = evicted i0 i0
    to
        config off 85 30 60000
        expected 7
        lease 1000 1000 1000 A i{1,2,4,5,6,8} 90 UP UNKNOWN 5
        lease 1000 140000 1000 A i9 90 UP UNKNOWN 5
        since 1
        previous 160000
    no

    # It takes i9, that hasn't expired.
    from
        config off 85 30 60000
        expected 1
    by
        register 1000 A i{0..10} 90 UP UNKNOWN 5 c = fresh
        renew 50000 A i9 - - c = done
        evict 100000 = evicted i3 i7
        evict 160000 = evicted i0 i9
    to
        config off 85 30 60000
        expected 7
        lease 1000 1000 1000 A i{1,2,4,5,6,8} 90 UP UNKNOWN 5
        since 1
        previous 160000
    no

    # It takes whom the first eviction took.
    from
        config off 85 30 60000
        expected 1
    by
        register 1000 A i{0..10} 90 UP UNKNOWN 5 c = fresh
        renew 50000 A i9 - - c = done
        evict 100000 = evicted i3 i7
        evict 160000 = evicted i0 i3
    to
        config off 85 30 60000
        expected 7
        lease 1000 1000 1000 A i{1,2,4,5,6,8} 90 UP UNKNOWN 5
        lease 1000 140000 1000 A i9 90 UP UNKNOWN 5
        since 1
        previous 160000
    no

    # At 400,000 it comes 300,000 after the first, and each lease is granted what that is beyond the settings' interval. So i9 has expired
    # where the interval is more than 130,000.
    from
        config off 85 30 60000
        expected 1
    by
        register 1000 A i{0..10} 90 UP UNKNOWN 5 c = fresh
        renew 50000 A i9 - - c = done
        evict 100000 = evicted i3 i7
        evict 400000 = evicted i0 i9
    to
        config off 85 30 60000
        expected 7
        lease 1000 1000 1000 A i{1,2,4,5,6,8} 90 UP UNKNOWN 5
        since 1
        previous 400000
    no
    from
        config off 85 30 130000
        expected 1
    to
        config off 85 30 130000
        expected 7
        lease 1000 1000 1000 A i{1,2,4,5,6,8} 90 UP UNKNOWN 5
        since 1
        previous 400000
    no
    from
        config off 85 30 130001
        expected 1
    to
        config off 85 30 130001
        expected 7
        lease 1000 1000 1000 A i{1,2,4,5,6,8} 90 UP UNKNOWN 5
        since 1
        previous 400000
    yes

    # With self-preservation: eleven are expected, and no minute has ended with more than eighteen renewals. So nobody goes, where somebody
    # has to without it.
    from
        config on 85 30 60000
        expected 1
    by
        register 1000 A i{0..10} 90 UP UNKNOWN 5 c = fresh
        renew 50000 A i9 - - c = done
        evict 100000 = evicted i3 i7
        evict 160000 = evicted i0 i1
    to
        config on 85 30 60000
        expected 7
        lease 1000 1000 1000 A i{2,4,5,6,8} 90 UP UNKNOWN 5
        lease 1000 140000 1000 A i9 90 UP UNKNOWN 5
        since 1
        previous 160000
    no
    by
        register 1000 A i{0..10} 90 UP UNKNOWN 5 c = fresh
        renew 50000 A i9 - - c = done
        evict 100000 = evicted
        evict 160000 = evicted
    to
        config on 85 30 60000
        expected 11
        lease 1000 1000 1000 A i{0..9} 90 UP UNKNOWN 5
        lease 1000 140000 1000 A i9 90 UP UNKNOWN 5
        since 1
        previous 160000
    yes
    from
        config off 85 30 60000
        expected 1
    to
        config off 85 30 60000
        expected 11
        lease 1000 1000 1000 A i{0..9} 90 UP UNKNOWN 5
        lease 1000 140000 1000 A i9 90 UP UNKNOWN 5
        since 1
        previous 160000
    no
";

#[test]
fn evictions_take_their_share_of_the_expired(rt: HostRuntime) {
    assert!(rt; judge(rt.alloc(), EVICTIONS) == Ok(16));
}
