//! Scripts whose settings change while the registry runs, with the text that each prints.
use crate::tests::scripts::{ends, joined, joined_printed, prints};
use eu_lines::ScriptFault;
use std::alloc::{AllocError, Global};

/// 10 * 60 * 85 / 3000 is 17, at 50 percent it is 10, and at none it is 0. At 101 percent nothing is changed.
const THRESHOLDS: &[u8] =
    b"open 10\ncounts 0\nconfig 0 on 50 30 60000\ncounts 0\nconfig 0 off 0 60 0\ncounts 0\nconfig 0 on 101 30 0\ncounts 0\n";

const THRESHOLDS_PRINTED: &[u8] =
    b"opened\nheld 0 expected 10 threshold 17 last 0 permitted no\n200\nheld 0 expected 10 threshold 10 last 0 permitted no\n200\nheld 0 expected 10 threshold 0 last 0 permitted yes\n";

#[test]
fn the_threshold_is_that_of_the_new_settings_at_once(rt: HostRuntime) {
    let mut reader = THRESHOLDS;
    let wanted = Err(ScriptFault::BadLine(7));
    assert!(rt; ends(rt.alloc(), &mut reader, wanted, THRESHOLDS_PRINTED));
}

/// Ten leases of 10 s, of which the first is renewed fourteen times, a minute's end, and two evictions, between which the percentage falls.
fn falling(alloc: Global) -> Result<String, AllocError> {
    let mut text = joined(alloc, 0, 10, 10)?;
    text.push_str("update 0\n")?;
    for _ in 0..14 {
        text.push_str("renew 0 A i0 - - c\n")?;
    }
    text.push_str(
        "roll 0\nevict 100000\nconfig 100000 on 50 30 60000\nevict 100000\ncounts 100000\n",
    )?;
    Ok(text)
}

/// Fourteen aren't more than 17; they are more than 10, and half of the leases may go then. 5 * 60 * 50 / 3000 is 5.
fn falling_printed(alloc: Global) -> Result<String, AllocError> {
    let mut text = joined_printed(alloc, 10)?;
    text.push_str("expected 10\n")?;
    for _ in 0..14 {
        text.push_str("200\n")?;
    }
    text.push_str(
        "last 14\nevicted 0\n200\nevicted 5 A i0 A i1 A i2 A i3 A i4\nheld 5 expected 5 threshold 5 last 14 permitted yes\n",
    )?;
    Ok(text)
}

/// Whether the one prints the other.
fn falls(alloc: Global) -> Result<bool, AllocError> {
    let text = falling(alloc)?;
    let printed = falling_printed(alloc)?;
    Ok(prints(alloc, true, text.as_bytes(), printed.as_bytes()))
}

#[test]
fn a_lower_percentage_permits_an_eviction(rt: HostRuntime) {
    assert!(rt; falls(rt.alloc()) == Ok(true));
}

/// A lease of 90 s, an eviction at 0, other settings, and an eviction. The lease goes where 90,000 and the extra time are before the
/// latter.
const INTERVALS: [(&[u8], &[u8]); 5] = [
    // 60,000 ms between evictions: an extra time of 140,000
    (
        b"open 0\nregister 0 A i1 90 UP UNKNOWN - c\nevict 0\nconfig 100000 off 85 30 60000\nevict 200000\n",
        b"opened\n204\nevicted 0\n200\nevicted 0\n",
    ),
    // longer: 110,000, and then 109,999
    (
        b"open 0\nregister 0 A i1 90 UP UNKNOWN - c\nevict 0\nconfig 100000 off 85 30 90000\nevict 200000\n",
        b"opened\n204\nevicted 0\n200\nevicted 0\n",
    ),
    (
        b"open 0\nregister 0 A i1 90 UP UNKNOWN - c\nevict 0\nconfig 100000 off 85 30 90001\nevict 200000\n",
        b"opened\n204\nevicted 0\n200\nevicted 1 A i1\n",
    ),
    // 120,000 ms: none at 100,000
    (
        b"open 0\nregister 0 A i1 90 UP UNKNOWN - c\nconfig 0 off 85 30 120000\nevict 0\nevict 100000\n",
        b"opened\n204\n200\nevicted 0\nevicted 1 A i1\n",
    ),
    // shorter: 70,000
    (
        b"open 0\nregister 0 A i1 90 UP UNKNOWN - c\nconfig 0 off 85 30 120000\nevict 0\nconfig 50000 off 85 30 30000\nevict 100000\n",
        b"opened\n204\n200\nevicted 0\n200\nevicted 0\n",
    ),
];

#[test]
fn extra_time_is_that_of_the_new_interval(rt: HostRuntime) {
    for (text, printed) in INTERVALS.as_slice() {
        assert!(rt; prints(rt.alloc(), false, text, printed));
    }
}

/// What is counted in a minute stays, and the minute before it; nothing waits for a peer.
const STAYING: [(&[u8], &[u8]); 2] = [
    (
        b"open 0\nregister 0 A i1 90 UP UNKNOWN - c\nrenew 0 A i1 - - c\nroll 0\nrenew 0 A i1 - - c\nrenew 0 A i1 - - c\nconfig 0 on 85 30 60000\ncounts 0\nroll 0\n",
        b"opened\n204\n200\nlast 1\n200\n200\n200\nheld 1 expected 0 threshold 0 last 1 permitted no\nlast 2\n",
    ),
    (
        b"open 0 1\nconfig 0 on 50 30 60000\ndrain 0 0\n",
        b"opened\n200\nrefused 9\n",
    ),
];

#[test]
fn all_else_stays(rt: HostRuntime) {
    for (text, printed) in STAYING.as_slice() {
        assert!(rt; prints(rt.alloc(), true, text, printed));
    }
}
