//! Want of memory in a table of leases.
use crate::tests::store::Desk;
use crate::tests::twins::{Twin, plays_long, plays_twice};
use eu_base::Fault;
use std::alloc::Global;

const PLAYED: &str = "
    put i3 = done
    put i0 = done
    put i1 = done
    put i2 = done
    put i9 = done
    put i8 = done
    put i4 = done
    put i5 = done
    put i7 = done
    put i6 = done
    expired 100000 = 10 10: i0 i1 i2 i3 i4 i5 i6 i7 i8 i9
    list A = 10 i0 UP 0 i1 UP 0 i2 UP 0 i3 UP 0 i4 UP 0 i5 UP 0 i6 UP 0 i7 UP 0 i8 UP 0 i9 UP 0
    list B = 0
    sweep i3 i8 ix i0 = 4: i3 i8 - i0
    list A = 7 i1 UP 0 i2 UP 0 i4 UP 0 i5 UP 0 i6 UP 0 i7 UP 0 i9 UP 0
    reserve = done
    put i3 = done
    # A snapshot stays as it was where a lease is amended, put or taken behind it; a copy has what is held.
    snap = done
    set 5 A i3 DOWN - c = true
    snapshot 0 = 8 i1 UP 0 i2 UP 0 i3 UP 0 i4 UP 0 i5 UP 0 i6 UP 0 i7 UP 0 i9 UP 0
    copied = 8 i1 UP 0 i2 UP 0 i3 DOWN 10005 i4 UP 0 i5 UP 0 i6 UP 0 i7 UP 0 i9 UP 0
    snap = done
    put i0 = done
    cancel 0 A i5 c = true
    sweep i2 i9 ix = 3: i2 i9 -
    snap = done
    snapshot 2 = 6 i0 UP 0 i1 UP 0 i3 DOWN 10005 i4 UP 0 i6 UP 0 i7 UP 0
    snapshot 1 = 8 i1 UP 0 i2 UP 0 i3 DOWN 10005 i4 UP 0 i5 UP 0 i6 UP 0 i7 UP 0 i9 UP 0
    copied = 6 i0 UP 0 i1 UP 0 i3 DOWN 10005 i4 UP 0 i6 UP 0 i7 UP 0
    list A = 6 i0 UP 0 i1 UP 0 i3 DOWN 10005 i4 UP 0 i6 UP 0 i7 UP 0
";

impl Twin for Desk {
    fn fresh(alloc: Global) -> Result<Desk, Fault> {
        Ok(Desk::new(alloc))
    }

    fn whole() -> &'static str {
        "list"
    }
}

#[test]
fn memory_store(rt: HostRuntime) {
    assert_eq!(rt; plays_twice::<Desk>(rt.alloc(), PLAYED), Ok(None));
    assert_eq!(rt; plays_long::<Desk>(rt.alloc(), PLAYED), Ok(None));
}
