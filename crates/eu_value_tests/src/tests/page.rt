//! Hash codes and status pages, with what they say worked out by hand.
use eu_base::{Fault, Status};
use eu_fixtures::instance;
use eu_model::{Counts, Listed, StatusCounts, Times};
use eu_page::{hash_code, page_of, status_page};
use std::alloc::Global;

/// Leases with these statuses.
fn listed(alloc: Global, statuses: &[Status]) -> Result<Vec<Listed>, Fault> {
    let mut held = Vec::new(alloc);
    for status in statuses {
        let mut instance = instance(alloc, "i1", 0, 90)?;
        instance.set_statuses(*status, Status::Unknown);
        held.push(Listed {
            instance,
            times: Times {
                registered: 0,
                updated: 0,
                up: 0,
            },
        })?;
    }
    Ok(held)
}

/// How many of leases with these statuses have each.
fn counted(alloc: Global, statuses: &[Status]) -> Result<StatusCounts, Fault> {
    let held = listed(alloc, statuses)?;
    let counts = StatusCounts::of(held.as_slice());
    drop(held);
    Ok(counts)
}

/// Whether leases with these statuses have that hash code.
pub fn has_code(alloc: Global, statuses: &[Status], code: &str) -> Result<bool, Fault> {
    let told = hash_code(alloc, &counted(alloc, statuses)?)?;
    Ok(told.as_str() == code)
}

#[test]
fn statuses_stand_in_the_order_of_their_bytes_where_somebody_has_them(rt: HostRuntime) {
    let all = [
        Status::Up,
        Status::Unknown,
        Status::Up,
        Status::Starting,
        Status::OutOfService,
        Status::Down,
        Status::Up,
    ];
    let one = [Status::OutOfService; 12];
    for (statuses, code) in [
        (
            all.as_slice(),
            "DOWN_1_OUT_OF_SERVICE_1_STARTING_1_UNKNOWN_1_UP_3_",
        ),
        (one.as_slice(), "OUT_OF_SERVICE_12_"),
        ([].as_slice(), ""),
    ] {
        assert!(rt;
            has_code(rt.alloc(), statuses, code) == Ok(true),
            "at {code}"
        );
    }
}

/// Whether the page of leases with these statuses is that text.
pub fn is_page(
    alloc: Global,
    counts: &Counts,
    statuses: &[Status],
    text: &str,
) -> Result<bool, Fault> {
    let page = page_of(alloc, counts, &counted(alloc, statuses)?)?;
    let told = status_page(alloc, &page);
    drop(page);
    Ok(told?.as_str() == text)
}

#[test]
fn a_page_has_seven_lines_of_which_the_last_may_end_with_a_space(rt: HostRuntime) {
    let few = Counts {
        held: 1,
        expected: 2,
        threshold: 3,
        last: 0,
        permitted: false,
        preservation: true,
    };
    let many = Counts {
        held: 0,
        expected: 18_446_744_073_709_551_615,
        threshold: 0,
        last: 7,
        permitted: true,
        preservation: false,
    };
    for (counts, statuses, text) in [
        (
            few,
            [Status::Up].as_slice(),
            "held 1\nexpected 2\nthreshold 3\nlast 0\npreservation on\npermitted no\nstatuses UP_1_\n",
        ),
        (
            many,
            [].as_slice(),
            "held 0\nexpected 18446744073709551615\nthreshold 0\nlast 7\npreservation off\npermitted yes\nstatuses \n",
        ),
    ] {
        assert!(rt; is_page(rt.alloc(), &counts, statuses, text) == Ok(true));
    }
}

#[test]
fn leases_are_counted_by_their_status(rt: HostRuntime) {
    let mut counts = StatusCounts {
        up: 3,
        down: 0,
        starting: 0,
        out_of_service: 1,
        unknown: 0,
    };
    let statuses = [Status::Up, Status::OutOfService, Status::Up, Status::Up];
    assert!(rt; counted(rt.alloc(), statuses.as_slice()) == Ok(counts));
    counts.remove(Status::OutOfService);
    counts.add(Status::Down);
    let statuses = [Status::Up, Status::Down, Status::Up, Status::Up];
    assert!(rt; counted(rt.alloc(), statuses.as_slice()) == Ok(counts));
}
