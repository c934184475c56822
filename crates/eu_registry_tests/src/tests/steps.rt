//! Steps with two replies and a copy. Values from the rules of Eureka's registry, worked out by hand.
use crate::tests::desk::first_wrong_of_registry;

const STEPS: &str = "
    # A newcomer meets a greater stamp.
    open 1 config 0 on 85 30 60000 = done
    step register 0 A i1 90 UP UNKNOWN 5 c = Registered { fresh: true }; UP 5 90
    step renew 0 A i1 3 - r = Conflict 5, Conflict 5; UP 5 90
    step register 0 A i1 60 DOWN UNKNOWN 3 c = Registered { fresh: false }; UP 5 60
    # Copies are of the status after the step.
    open 1 config 0 on 85 30 60000 = done
    step register 0 A i1 90 UP UNKNOWN 5 c = Registered { fresh: true }; UP 5 90
    step set 0 A i1 DOWN 9 c = Done; DOWN 9 90
    step unset 0 A i1 UP - c = Done; UP 9 90
    # Nothing is copied of nobody.
    open 1 config 0 on 85 30 60000 = done
    step adopt 0 A i1 30 UP UNKNOWN 10 = Registered { fresh: true }; UP 10 30
    step cancel 0 A i1 c = Done
    step renew 0 A i1 - - r = NotFound
    # Minutes, updates and settings are steps.
    open 1 config 0 on 50 30 60000 = done
    step register 0 A i1 90 UP UNKNOWN 5 c = Registered { fresh: true }; UP 5 90
    step renew 0 A i1 - - r = Done; UP 5 90
    step roll 0 = Last(1)
    step update 0 = Expected(2)
    step config 0 off 85 15 0 = Done
    # Three leases have expired, of which all may go: in key order, or as they are drawn.
    open 1 config 0 off 0 30 60000 = done
    step register 0 A i3 90 UP UNKNOWN 0 c = Registered { fresh: true }; UP 0 90
    step register 0 A i1 90 UP UNKNOWN 0 c = Registered { fresh: true }; UP 0 90
    step register 0 A i2 90 UP UNKNOWN 0 c = Registered { fresh: true }; UP 0 90
    step evict 200000 = Evicted i1 i2 i3, Evicted i1 i2 i3
    open 1 config 0 off 0 30 60000 = done
    step register 0 A i3 90 UP UNKNOWN 0 c = Registered { fresh: true }; UP 0 90
    step register 0 A i1 90 UP UNKNOWN 0 c = Registered { fresh: true }; UP 0 90
    step register 0 A i2 90 UP UNKNOWN 0 c = Registered { fresh: true }; UP 0 90
    draw 1 1 = done
    step evict 200000 = Evicted i2 i3 i1, Evicted i2 i3 i1
";

#[test]
fn a_step_has_two_replies_and_a_copy(rt: HostRuntime) {
    assert_eq!(rt; first_wrong_of_registry(rt.alloc(), STEPS), Ok(None));
}

const PLAIN: &str = "
    open 1 config 0 on 85 30 60000 = done
    step register 0 A i2 90 UP UNKNOWN 5 c = Registered { fresh: true }; UP 5 90
    step set 0 A i2 DOWN - c = Done; DOWN 5 90
    step register 0 A i1 90 UP UNKNOWN 5 c = Registered { fresh: true }; UP 5 90
    step set 0 A i1 DOWN - c = Done; DOWN 5 90
    step renew 0 A i1 - - r = Done; DOWN 5 90
    plain = 3 0 1; 2 i1 DOWN 90000 i2 DOWN 90000 i1=DOWN i2=DOWN
";

#[test]
fn a_registry_is_plain_data(rt: HostRuntime) {
    assert_eq!(rt; first_wrong_of_registry(rt.alloc(), PLAIN), Ok(None));
}

const UNDONE: &str = "
    # A newcomer goes again, and who came again is who it was.
    open 1 config 0 off 0 30 60000 = done
    undone register 0 A i1 90 UP UNKNOWN 5 c = 1 0 0; 0
    register 0 A i1 90 UP UNKNOWN 5 c = Registered { fresh: true }
    undone register 7 A i1 60 DOWN UNKNOWN 6 c = 2 0 0; 1 i1 UP 0
    undone adopt 7 A i1 60 DOWN UNKNOWN 6 = 2 0 0; 1 i1 UP 0
    # So are a renewal's moment and its count, a cancelled lease, and a status with its row.
    undone renew 1 A i1 - - c = 2 0 0; 1 i1 UP 0
    renew 1 A i1 - - c = Done
    undone renew 10 A i1 - - c = 2 0 1; 1 i1 UP 90001
    undone cancel 10 A i1 c = 2 0 1; 1 i1 UP 90001
    undone set 10 A i1 DOWN 9 c = 2 0 1; 1 i1 UP 90001
    set 10 A i1 DOWN 9 c = Done
    plain = 2 0 1; 1 i1 DOWN 90010 i1=DOWN
    undone set 20 A i1 OUT_OF_SERVICE 9 c = 2 0 1; 1 i1 DOWN 90010 i1=DOWN
    undone unset 20 A i1 UP - c = 2 0 1; 1 i1 DOWN 90010 i1=DOWN
    undone cancel 20 A i1 c = 2 0 1; 1 i1 DOWN 90010 i1=DOWN
    # A minute, an update and settings are undone.
    undone roll 20 = 2 0 1; 1 i1 DOWN 90010 i1=DOWN
    undone update 20 = 2 0 1; 1 i1 DOWN 90010 i1=DOWN
    undone config 20 on 85 15 0 = 2 0 1; 1 i1 DOWN 90010 i1=DOWN
    # Two leases that go come back, one with its row; and the eviction before is again the previous one.
    register 20 A i2 90 UP UNKNOWN 5 c = Registered { fresh: true }
    undone evict 1000000 = 3 0 1; 2 i1 DOWN 90010 i2 UP 20 i1=DOWN
    evict 60000 = Evicted
    undone evict 120000 = 3 0 1; 2 i1 DOWN 90010 i2 UP 20 i1=DOWN; evicted at 60000
    evict 120000 = Evicted i2
    plain = 2 0 1; 1 i1 DOWN 90010 i1=DOWN
";

#[test]
fn a_step_is_undone_in_a_copy(rt: HostRuntime) {
    assert_eq!(rt; first_wrong_of_registry(rt.alloc(), UNDONE), Ok(None));
}
