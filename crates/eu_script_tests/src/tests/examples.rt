//! The scripts of `examples/`, line by line with what each prints.
use crate::tests::scripts::prints as prints_text;
use std::alloc::{AllocError, Global};

/// A script of these lines, without what they print.
fn script(alloc: Global, lines: &[(&str, &str)]) -> Result<String, AllocError> {
    let mut text = String::new(alloc);
    for (line, _) in lines {
        writeln!(text, "{line}")?;
    }
    Ok(text)
}

/// What they print.
fn printed(alloc: Global, lines: &[(&str, &str)]) -> Result<String, AllocError> {
    let mut text = String::new(alloc);
    for (_, answer) in lines {
        writeln!(text, "{answer}")?;
    }
    Ok(text)
}

/// Whether a script of these lines, with the default settings, prints these lines.
pub fn prints(alloc: Global, lines: &[(&str, &str)]) -> Result<bool, AllocError> {
    let text = script(alloc, lines)?;
    let printed = printed(alloc, lines)?;
    Ok(prints_text(alloc, true, text.as_bytes(), printed.as_bytes()))
}

const FIRST: [(&str, &str); 5] = [
    ("open 1", "opened"),
    ("register 0 A i1 90 UP UNKNOWN 0 c", "204"),
    ("renew 30000 A i1 - - c", "200"),
    (
        "counts 30000",
        "held 1 expected 2 threshold 3 last 0 permitted no",
    ),
    (
        "page 30000",
        "held 1\nexpected 2\nthreshold 3\nlast 0\npreservation on\npermitted no\nstatuses UP_1_",
    ),
];

#[test]
fn the_first_example_prints_what_stands_beside_it(rt: HostRuntime) {
    assert!(rt; prints(rt.alloc(), FIRST.as_slice()) == Ok(true));
}

const PRESERVATION: [(&str, &str); 29] = [
    ("open 0", "opened"),
    ("register 0 PAYMENTS p1 90 UP UNKNOWN - c", "204"),
    ("register 0 PAYMENTS p2 90 UP UNKNOWN - c", "204"),
    ("register 0 PAYMENTS p3 90 UP UNKNOWN - c", "204"),
    ("register 0 PAYMENTS p4 30 UP UNKNOWN - c", "204"),
    ("update 1000", "expected 4"),
    ("renew 30000 PAYMENTS p1 - - c", "200"),
    ("renew 30000 PAYMENTS p2 - - c", "200"),
    ("renew 30000 PAYMENTS p3 - - c", "200"),
    ("renew 60000 PAYMENTS p1 - - c", "200"),
    ("renew 60000 PAYMENTS p2 - - c", "200"),
    ("renew 60000 PAYMENTS p3 - - c", "200"),
    ("roll 60000", "last 6"),
    (
        "counts 60000",
        "held 4 expected 4 threshold 6 last 6 permitted no",
    ),
    ("evict 60000", "evicted 0"),
    (
        "look 60000 PAYMENTS p4",
        "found UP UNKNOWN dirty 0 secs 30 registered 0 up 0 updated 0",
    ),
    ("renew 90000 PAYMENTS p1 - - c", "200"),
    ("renew 90000 PAYMENTS p2 - - c", "200"),
    ("renew 90000 PAYMENTS p3 - - c", "200"),
    ("renew 110000 PAYMENTS p1 - - c", "200"),
    ("renew 120000 PAYMENTS p1 - - c", "200"),
    ("renew 120000 PAYMENTS p2 - - c", "200"),
    ("renew 120000 PAYMENTS p3 - - c", "200"),
    ("roll 120000", "last 7"),
    (
        "counts 120000",
        "held 4 expected 4 threshold 6 last 7 permitted yes",
    ),
    ("look 120000 PAYMENTS p4", "404"),
    ("evict 120000", "evicted 1 PAYMENTS p4"),
    (
        "counts 120000",
        "held 3 expected 3 threshold 5 last 7 permitted yes",
    ),
    ("update 120000", "expected 3"),
];

#[test]
fn the_preservation_example_prints_what_stands_beside_it(rt: HostRuntime) {
    assert!(rt; prints(rt.alloc(), PRESERVATION.as_slice()) == Ok(true));
}

const SHRINKING: [(&str, &str); 52] = [
    ("open 0", "opened"),
    ("register 0 SHOP s0 30 UP UNKNOWN - c", "204"),
    ("register 0 SHOP s1 30 UP UNKNOWN - c", "204"),
    ("register 0 SHOP s2 30 UP UNKNOWN - c", "204"),
    ("register 0 SHOP s3 30 UP UNKNOWN - c", "204"),
    ("register 0 SHOP s4 30 UP UNKNOWN - c", "204"),
    ("register 0 SHOP s5 30 UP UNKNOWN - c", "204"),
    ("register 0 SHOP s6 30 UP UNKNOWN - c", "204"),
    ("register 0 SHOP s7 30 UP UNKNOWN - c", "204"),
    ("register 0 SHOP s8 30 UP UNKNOWN - c", "204"),
    ("register 0 SHOP s9 30 UP UNKNOWN - c", "204"),
    ("update 0", "expected 10"),
    ("renew 30000 SHOP s0 - - c", "200"),
    ("renew 30000 SHOP s1 - - c", "200"),
    ("renew 30000 SHOP s2 - - c", "200"),
    ("renew 30000 SHOP s3 - - c", "200"),
    ("renew 30000 SHOP s4 - - c", "200"),
    ("renew 30000 SHOP s5 - - c", "200"),
    ("renew 30000 SHOP s6 - - c", "200"),
    ("renew 30000 SHOP s7 - - c", "200"),
    ("renew 45000 SHOP s0 - - c", "200"),
    ("renew 45000 SHOP s1 - - c", "200"),
    ("renew 60000 SHOP s0 - - c", "200"),
    ("renew 60000 SHOP s1 - - c", "200"),
    ("renew 60000 SHOP s2 - - c", "200"),
    ("renew 60000 SHOP s3 - - c", "200"),
    ("renew 60000 SHOP s4 - - c", "200"),
    ("renew 60000 SHOP s5 - - c", "200"),
    ("renew 60000 SHOP s6 - - c", "200"),
    ("renew 60000 SHOP s7 - - c", "200"),
    ("roll 60000", "last 18"),
    (
        "counts 61000",
        "held 10 expected 10 threshold 17 last 18 permitted yes",
    ),
    ("evict 61000", "evicted 2 SHOP s8 SHOP s9"),
    (
        "counts 61000",
        "held 8 expected 8 threshold 13 last 18 permitted yes",
    ),
    ("renew 90000 SHOP s0 - - c", "200"),
    ("renew 90000 SHOP s1 - - c", "200"),
    ("renew 90000 SHOP s2 - - c", "200"),
    ("renew 90000 SHOP s3 - - c", "200"),
    ("renew 90000 SHOP s4 - - c", "200"),
    ("renew 90000 SHOP s5 - - c", "200"),
    ("renew 105000 SHOP s0 - - c", "200"),
    ("renew 105000 SHOP s1 - - c", "200"),
    ("renew 120000 SHOP s0 - - c", "200"),
    ("renew 120000 SHOP s1 - - c", "200"),
    ("renew 120000 SHOP s2 - - c", "200"),
    ("renew 120000 SHOP s3 - - c", "200"),
    ("renew 120000 SHOP s4 - - c", "200"),
    ("renew 120000 SHOP s5 - - c", "200"),
    ("roll 120000", "last 14"),
    (
        "counts 121000",
        "held 8 expected 8 threshold 13 last 14 permitted yes",
    ),
    ("evict 121000", "evicted 2 SHOP s6 SHOP s7"),
    (
        "counts 121000",
        "held 6 expected 6 threshold 10 last 14 permitted yes",
    ),
];

#[test]
fn the_shrinking_example_prints_what_stands_beside_it(rt: HostRuntime) {
    assert!(rt; prints(rt.alloc(), SHRINKING.as_slice()) == Ok(true));
}

const OVERRIDES: [(&str, &str); 14] = [
    ("open 0", "opened"),
    ("register 1000 ORDERS o1 90 UP UNKNOWN - c", "204"),
    ("set 2000 ORDERS o1 OUT_OF_SERVICE - c", "200"),
    (
        "look 2000 ORDERS o1",
        "found OUT_OF_SERVICE OUT_OF_SERVICE dirty 1000 secs 90 registered 1000 up 1000 updated 92000",
    ),
    ("renew 30000 ORDERS o1 - - c", "200"),
    ("register 31000 ORDERS o1 90 UP UNKNOWN - c", "204"),
    (
        "look 31000 ORDERS o1",
        "found OUT_OF_SERVICE OUT_OF_SERVICE dirty 31000 secs 90 registered 31000 up 1000 updated 31000",
    ),
    ("unset 60000 ORDERS o1 UP - c", "200"),
    (
        "look 60000 ORDERS o1",
        "found UP UNKNOWN dirty 31000 secs 90 registered 31000 up 1000 updated 150000",
    ),
    ("set 70000 ORDERS o1 OUT_OF_SERVICE - c", "200"),
    ("unset 80000 ORDERS o1 - - c", "200"),
    ("renew 90000 ORDERS o1 - - c", "404"),
    ("register 91000 ORDERS o1 90 UP UNKNOWN - c", "204"),
    (
        "look 91000 ORDERS o1",
        "found UP UNKNOWN dirty 91000 secs 90 registered 91000 up 1000 updated 91000",
    ),
];

#[test]
fn the_overrides_example_prints_what_stands_beside_it(rt: HostRuntime) {
    assert!(rt; prints(rt.alloc(), OVERRIDES.as_slice()) == Ok(true));
}

const STAMPS: [(&str, &str); 12] = [
    ("open 0", "opened"),
    ("register 1000 STOCK s1 90 UP UNKNOWN 10 c", "204"),
    ("renew 31000 STOCK s1 9 - c", "200"),
    ("renew 31000 STOCK s1 11 - c", "404"),
    ("renew 31000 STOCK s1 9 - r", "409 UP UNKNOWN 10"),
    ("renew 31000 STOCK s1 11 OUT_OF_SERVICE r", "404"),
    (
        "look 31000 STOCK s1",
        "found UP OUT_OF_SERVICE dirty 10 secs 90 registered 1000 up 1000 updated 121000",
    ),
    ("register 32000 STOCK s1 90 UP UNKNOWN 8 c", "204"),
    (
        "look 32000 STOCK s1",
        "found OUT_OF_SERVICE OUT_OF_SERVICE dirty 10 secs 90 registered 32000 up 1000 updated 32000",
    ),
    ("adopt 33000 STOCK s1 30 DOWN UNKNOWN 12", "204"),
    (
        "look 33000 STOCK s1",
        "found DOWN OUT_OF_SERVICE dirty 12 secs 30 registered 33000 up 1000 updated 33000",
    ),
    ("roll 60000", "last 4"),
];

#[test]
fn the_stamps_example_prints_what_stands_beside_it(rt: HostRuntime) {
    assert!(rt; prints(rt.alloc(), STAMPS.as_slice()) == Ok(true));
}
