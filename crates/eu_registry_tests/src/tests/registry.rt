//! Calls of a registry, with values from the rules of Eureka's registry, worked out by hand.
use crate::tests::desk::first_wrong_of_registry;

const COMING: &str = "
    # A client comes, comes again, and renews; one that isn't there can't.
    open 1 config 0 on 85 30 60000 = done
    register 0 A i1 90 UP UNKNOWN 0 c = Registered { fresh: true }
    register 0 A i1 90 UP UNKNOWN 0 c = Registered { fresh: false }
    renew 5 A i1 - - c = Done
    renew 5 A i2 - - c = NotFound
    counts 5 = Counts { held: 1, expected: 2, threshold: 3, last: 0, permitted: false, preservation: true }
    look 5 A i1 = UP 0 90 90005
    # Nobody is expected where none was. One whose status isn't known can't renew.
    open 0 config 0 off 85 30 60000 = done
    register 0 A i1 90 UNKNOWN UNKNOWN 0 c = Registered { fresh: true }
    renew 0 A i1 - - c = NotFound
    counts 0 = Counts { held: 1, expected: 0, threshold: 0, last: 0, permitted: true, preservation: false }
    # Minutes end.
    open 1 config 0 on 85 30 60000 = done
    register 0 A i1 90 UP UNKNOWN 0 c = Registered { fresh: true }
    renew 0 A i1 - - c = Done
    roll 1 = Last(1)
    roll 2 = Last(0)
    # As many are expected as are held where that is more than the percentage.
    open 1 config 0 on 50 30 60000 = done
    register 0 A i1 90 UP UNKNOWN 0 c = Registered { fresh: true }
    update 0 = Expected(2)
    open 1 config 0 on 49 30 60000 = done
    register 0 A i1 90 UP UNKNOWN 0 c = Registered { fresh: true }
    update 0 = Expected(1)
    # A full registry takes back who is held, and nobody else: 65,537 * 60 * 85 / 3000 is 111,412.9.
    open 1 config 0 on 85 30 60000 = done
    fill 65536 = done
    register 7 A stranger 90 UP UNKNOWN 0 c = refused 7
    counts 7 = Counts { held: 65536, expected: 65537, threshold: 111412, last: 0, permitted: false, preservation: true }
    register 7 A i65535 90 UP UNKNOWN 0 c = Registered { fresh: false }
    # What is held is listed in key order. At 10,001 all three leases have expired, and eviction is permitted.
    open 1 config 0 off 85 30 60000 = done
    register 0 A i2 10 UP UNKNOWN 0 c = Registered { fresh: true }
    register 0 A i10 10 DOWN UNKNOWN 0 c = Registered { fresh: true }
    register 0 A i1 10 STARTING UNKNOWN 0 c = Registered { fresh: true }
    look 10001 A i1 = none
    list = 3 i1 STARTING 0 i10 DOWN 0 i2 UP 0
    list a = 3 i1 STARTING 0 i10 DOWN 0 i2 UP 0
    list B = 0
    # A client leaves, and is expected no more; nor is it where none was.
    open 1 config 0 on 85 30 60000 = done
    register 0 A i1 90 UP UNKNOWN 0 c = Registered { fresh: true }
    cancel 0 A i1 c = Done
    cancel 0 A i1 c = NotFound
    counts 0 = Counts { held: 0, expected: 1, threshold: 1, last: 0, permitted: false, preservation: true }
    look 0 A i1 = none
    open 0 config 0 on 85 30 60000 = done
    register 0 A i1 90 UP UNKNOWN 0 c = Registered { fresh: true }
    cancel 0 A i1 c = Done
    cancel 0 A i1 c = NotFound
    counts 0 = Counts { held: 0, expected: 0, threshold: 0, last: 0, permitted: false, preservation: true }
    look 0 A i1 = none
";

#[test]
fn clients_come_renew_and_leave(rt: HostRuntime) {
    assert_eq!(rt; first_wrong_of_registry(rt.alloc(), COMING), Ok(None));
}

const STAMPS: &str = "
    # The greater stamp is kept, with the newcomer's duration.
    open 1 config 0 on 85 30 60000 = done
    register 5 A i1 90 STARTING UNKNOWN 2 c = Registered { fresh: true }
    register 6 A i1 30 DOWN UNKNOWN 1 c = Registered { fresh: false }
    look 6 A i1 = STARTING 2 30 6
    register 7 A i1 60 DOWN UNKNOWN 2 c = Registered { fresh: false }
    look 7 A i1 = DOWN 2 60 7
    # Stamps settle a quarrel.
    open 0 config 0 on 85 30 60000 = done
    register 0 A i1 90 UP UNKNOWN 10 c = Registered { fresh: true }
    renew 1 A i1 9 - c = Done
    renew 1 A i1 10 - c = Done
    renew 1 A i1 11 - c = Stale
    renew 1 A i1 9 - r = Conflict 10
    renew 1 A i1 10 - r = Done
    renew 1 A i1 11 - r = Stale
    roll 1 = Last(6)
    # An instance is adopted, with a peer's override.
    open 0 config 0 on 85 30 60000 = done
    register 0 A i1 90 UP UNKNOWN 3 c = Registered { fresh: true }
    adopt 1 A i1 30 UP OUT_OF_SERVICE 7 = Registered { fresh: false }
    look 1 A i1 = OUT_OF_SERVICE 7 30 1
";

#[test]
fn the_greater_stamp_is_kept(rt: HostRuntime) {
    assert_eq!(rt; first_wrong_of_registry(rt.alloc(), STAMPS), Ok(None));
}

const STATUSES: &str = "
    # A status is set and unset.
    open 0 config 0 on 85 30 60000 = done
    register 0 A i1 90 UP UNKNOWN 0 c = Registered { fresh: true }
    set 1 A i1 OUT_OF_SERVICE - c = Done
    renew 2 A i1 - - c = Done
    look 2 A i1 = OUT_OF_SERVICE 0 90 90002
    unset 3 A i1 - - c = Done
    renew 4 A i1 - - c = NotFound
    set 5 A i2 UP - c = NotFound
    roll 6 = Last(1)
    # A row goes with a cancel of the same id under another application.
    open 1 config 0 on 85 30 60000 = done
    register 0 A i1 90 UP OUT_OF_SERVICE 0 c = Registered { fresh: true }
    cancel 0 B i1 c = NotFound
    cancel 0 A i1 c = Done
    register 0 A i1 90 UP UNKNOWN 0 c = Registered { fresh: true }
    look 0 A i1 = UP 0 90 0
    # A peer's renewal brings a row.
    open 0 config 0 on 85 30 60000 = done
    register 0 A i1 90 UP UNKNOWN 0 c = Registered { fresh: true }
    renew 1 A i1 5 OUT_OF_SERVICE r = Stale
    renew 2 A i1 - - c = Done
    look 2 A i1 = OUT_OF_SERVICE 0 90 90002
";

#[test]
fn a_status_is_set_and_unset(rt: HostRuntime) {
    assert_eq!(rt; first_wrong_of_registry(rt.alloc(), STATUSES), Ok(None));
}

const EVICTED: &str = "
    # A lease that has expired is hidden where it may be evicted.
    open 1 config 0 off 85 30 60000 = done
    register 0 A i1 90 UP UNKNOWN 0 c = Registered { fresh: true }
    look 90000 A i1 = UP 0 90 0
    look 90001 A i1 = none
    # Half of those that have expired are drawn.
    open 0 config 0 off 50 30 60000 = done
    fill 4 = done
    draw 3 0 = done
    evict 90001 = Evicted i3 i1
    counts 90001 = Counts { held: 2, expected: 0, threshold: 0, last: 0, permitted: true, preservation: false }
    # Each victim is one fewer expected. Three and the four that come are seven; two of four go, then one, by a cancel of one that is held and
    # not of one that was evicted. The threshold is one for each.
    open 3 config 0 off 50 30 60000 = done
    fill 4 = done
    evict 90001 = Evicted i0 i1
    counts 90001 = Counts { held: 2, expected: 5, threshold: 5, last: 0, permitted: true, preservation: false }
    cancel 90001 A i0 c = NotFound
    counts 90001 = Counts { held: 2, expected: 5, threshold: 5, last: 0, permitted: true, preservation: false }
    cancel 90001 A i2 c = Done
    counts 90001 = Counts { held: 1, expected: 4, threshold: 4, last: 0, permitted: true, preservation: false }
    # Nobody is evicted while preservation forbids it.
    open 0 config 0 on 50 30 60000 = done
    fill 4 = done
    evict 90001 = Evicted
    counts 90001 = Counts { held: 4, expected: 0, threshold: 0, last: 0, permitted: false, preservation: true }
    open 3 config 0 on 50 30 60000 = done
    fill 4 = done
    evict 90001 = Evicted
    counts 90001 = Counts { held: 4, expected: 7, threshold: 7, last: 0, permitted: false, preservation: true }
";

#[test]
fn half_of_the_expired_are_drawn(rt: HostRuntime) {
    assert_eq!(rt; first_wrong_of_registry(rt.alloc(), EVICTED), Ok(None));
}

const SETTINGS: &str = "
    # All else stays. Two and the one that comes are three: 3 * 60 * 85 / 3000 = 5.1, 3 * 60 * 50 / 1500 = 6, and none at no percentage.
    open 2 config 0 on 85 30 60000 = done
    register 0 A i1 90 UP UNKNOWN 0 c = Registered { fresh: true }
    renew 0 A i1 - - c = Done
    roll 0 = Last(1)
    renew 0 A i1 - - c = Done
    counts 0 = Counts { held: 1, expected: 3, threshold: 5, last: 1, permitted: false, preservation: true }
    config 0 off 50 15 90000 = Done
    counts 0 = Counts { held: 1, expected: 3, threshold: 6, last: 1, permitted: true, preservation: false }
    roll 0 = Last(1)
    evict 0 = Evicted
    config 270000 on 0 30 90001 = Done
    counts 270000 = Counts { held: 1, expected: 3, threshold: 0, last: 1, permitted: false, preservation: true }
    # An eviction's extra time is that of the new interval. 90,000 and the extra time are before 200,000 where that is less than 110,000: it is
    # 200,000 less the new interval.
    open 0 config 0 off 85 30 60000 = done
    register 0 A i1 90 UP UNKNOWN 0 c = Registered { fresh: true }
    evict 0 = Evicted
    config 0 off 0 30 90001 = Done
    evict 200000 = Evicted i1
    open 0 config 0 off 85 30 60000 = done
    register 0 A i1 90 UP UNKNOWN 0 c = Registered { fresh: true }
    evict 0 = Evicted
    config 0 off 0 30 90000 = Done
    evict 200000 = Evicted
    open 0 config 0 off 85 30 60000 = done
    register 0 A i1 90 UP UNKNOWN 0 c = Registered { fresh: true }
    evict 0 = Evicted
    config 0 off 0 30 0 = Done
    evict 200000 = Evicted
    open 0 config 0 off 85 30 60000 = done
    register 0 A i1 90 UP UNKNOWN 0 c = Registered { fresh: true }
    evict 0 = Evicted
    config 0 off 0 30 4294967295 = Done
    evict 200000 = Evicted i1
";

#[test]
fn settings_change_and_all_else_stays(rt: HostRuntime) {
    assert_eq!(rt; first_wrong_of_registry(rt.alloc(), SETTINGS), Ok(None));
}
