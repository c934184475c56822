//! A registration whose bytes end early.
use crate::tests::fakes::{CHUNKED, SIZED};
use crate::tests::rows::is_told_twice;
use eu_base::Fault;
use std::alloc::Global;

/// From how many bytes on, and below how many, that is told.
type Cuts = (usize, usize, &'static str);

const SIZED_CUTS: [Cuts; 4] = [
    (0, 1, "requests 0 next 1000 "),
    (1, 65, "400 (32)"),
    (65, 215, "400 (35)"),
    (
        215,
        216,
        "requests 1 next 1001 HTTP/1.1 204 No Content\r\n\r\nregister 5 at 1000;",
    ),
];

const CHUNKED_CUTS: [Cuts; 4] = [
    (0, 1, "requests 0 next 1000 "),
    (1, 72, "400 (32)"),
    (72, 233, "400 (36)"),
    (
        233,
        234,
        "requests 1 next 1001 HTTP/1.1 204 No Content\r\n\r\nregister 5 at 1000;",
    ),
];

/// Whether that is told of each of these fronts of a text.
fn are_told(alloc: Global, text: &str, cuts: &Cuts) -> Result<bool, Fault> {
    let (from, to, wanted) = *cuts;
    for count in from..to {
        let (first, _) = text
            .as_bytes()
            .split_at_checked(count)
            .ok_or(Fault::BadValue)?;
        if !is_told_twice(alloc, first, wanted)? {
            return Ok(false);
        }
    }
    Ok(true)
}

#[test]
fn a_registration_with_a_length_is_cut(rt: HostRuntime) {
    for cuts in &SIZED_CUTS {
        assert!(rt; are_told(rt.alloc(), SIZED, cuts) == Ok(true), "{cuts:?}");
    }
}

#[test]
fn a_registration_in_chunks_is_cut(rt: HostRuntime) {
    for cuts in &CHUNKED_CUTS {
        assert!(rt; are_told(rt.alloc(), CHUNKED, cuts) == Ok(true), "{cuts:?}");
    }
}
