//! Want of memory in a registry.
use crate::tests::desk::Desk;
use crate::tests::twins::{Twin, plays_long, plays_twice};
use eu_base::Fault;
use std::alloc::Global;

const PLAYED: &str = "
    open 0 config 0 off 0 30 60000 = done
    register 0 A i1 90 UP UNKNOWN 5 c = Registered { fresh: true }
    # A status is set, and taken back.
    set 1 A i1 OUT_OF_SERVICE - c = Done
    renew 2 A i1 - - c = Done
    unset 3 A i1 - - c = Done
    renew 4 A i1 - - c = NotFound
    roll 5 = Last(1)
    # A peer's heartbeat is told of a newer instance, an instance is adopted with its override, and both leases are evicted.
    renew 6 A i1 3 - r = NotFound
    adopt 7 A i2 90 UP OUT_OF_SERVICE 7 = Registered { fresh: true }
    renew 8 A i2 3 - r = Conflict 7
    list = 2 i1 UNKNOWN 90003 i2 OUT_OF_SERVICE 90008
    list A = 2 i1 UNKNOWN 90003 i2 OUT_OF_SERVICE 90008
    list B = 0
    undone evict 1000000 = 0 1 1; 2 i1 UNKNOWN 90003 i2 OUT_OF_SERVICE 90008 i2=OUT_OF_SERVICE
    evict 1000000 = Evicted i1 i2
    # The same in steps, each with a reply for each use and a copy: a client registers twice, a peer's heartbeat is told of the newer instance,
    # a status is set and taken back, and the client leaves.
    log register 2000000 A i1 90 UP UNKNOWN 5 c = Registered { fresh: true }; UP 5 90
    log register 2000000 A i1 90 UP UNKNOWN 5 c = Registered { fresh: false }; UP 5 90
    log renew 2000000 A i1 3 - r = Conflict 5, Conflict 5, Conflict 5; UP 5 90
    log set 2000000 A i1 DOWN 9 c = Done; DOWN 9 90
    log renew 2000000 A i1 - - r = Done; DOWN 9 90
    log unset 2000000 A i1 UP - c = Done; UP 9 90
    log cancel 2000000 A i1 c = Done
    # A peer's instance is adopted, the minute ends, an update is made, the settings are changed, and an eviction comes.
    log adopt 2000000 A i1 30 UP UNKNOWN 10 = Registered { fresh: true }; UP 10 30
    log roll 2000000 = Last(3)
    log update 2000000 = Expected(1)
    log config 2000000 off 85 15 0 = Done
    log evict 3000000 = Evicted, Evicted, Evicted
    reserve = done
";

impl Twin for Desk {
    fn fresh(alloc: Global) -> Result<Desk, Fault> {
        Desk::new(alloc)
    }

    fn whole() -> &'static str {
        "shown"
    }
}

#[test]
fn memory_core(rt: HostRuntime) {
    assert_eq!(rt; plays_twice::<Desk>(rt.alloc(), PLAYED), Ok(None));
    assert_eq!(rt; plays_long::<Desk>(rt.alloc(), PLAYED), Ok(None));
}
