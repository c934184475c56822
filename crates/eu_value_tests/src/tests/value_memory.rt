//! Want of memory in values. In a usual run no allocation is refused; `tools/sweep_memory.sh` refuses one after another.
use crate::tests::base::{Names, Plain};
use crate::tests::model::Machine;
use crate::tests::page::{has_code, is_page};
use crate::tests::texts::{is_kept_as, is_put, is_quoted_as, read_again};
use eu_base::{Fault, Rest, Status};
use eu_fixtures::{Told, are_so, content_of};
use eu_model::Counts;
use std::alloc::Global;

/// Whether that comes of what is said. Of a fault its name comes.
fn comes<T: Told>(alloc: Global, told: &mut T, said: &str, wanted: &str) -> Result<bool, Fault> {
    let mut out = String::new(alloc);
    match told.tell(alloc, said, &mut out) {
        Err(Fault::OutOfMemory) => return Err(Fault::OutOfMemory),
        Err(fault) => write!(out, "{fault:?}")?,
        Ok(()) => {}
    }
    Ok(out.as_str() == wanted)
}

/// Whether each line of a table is answered so, at the second try where the first finds no memory.
fn are_told<T: Told>(alloc: Global, told: &mut T, table: &str) -> bool {
    for line in table.lines() {
        let Some((said, wanted)) = content_of(line).and_then(|line| line.split_once(" = ")) else {
            return false;
        };
        let first = comes(alloc, told, said, wanted);
        if !are_so(first, comes(alloc, told, said, wanted)) {
            return false;
        }
    }
    true
}

/// Names of more than forty bytes, which take memory of their own.
const NAMES: &str =
    "app an-application-of-more-than-forty-bytes-in-all = AN-APPLICATION-OF-MORE-THAN-FORTY-BYTES-IN-ALL AN-APPLICATION-OF-MORE-THAN-FORTY-BYTES-IN-ALL
id An-instance-of-more-than-40-bytes:in-all:8080 = An-instance-of-more-than-40-bytes:in-all:8080 An-instance-of-more-than-40-bytes:in-all:8080
key-copy an-application-of-more-than-forty-bytes-in-all/An-instance-of-more-than-40-bytes:in-all:8080 = false false true
ids 256 = TooLong";

const VALUES: &str = "share OUT_OF_SERVICE = A i1 STARTING OUT_OF_SERVICE 7 90 30 3 true
tasks 5 5 = true
codes 404 404 = true";

const COPIES: &str = "copy-reply conflict 7 = conflict 7 true
copy-reply evicted A/i1 B/An-instance-of-more-than-40-bytes:in-all:8080 = evicted A/i1 B/An-instance-of-more-than-40-bytes:in-all:8080 true
copy-reply batch UP = batch i1 UP 5 true
copy renew 0 A An-instance-of-more-than-40-bytes:in-all:8080 9 DOWN r = renew An-instance-of-more-than-40-bytes:in-all:8080 9 DOWN true true
copy register 0 A An-instance-of-more-than-40-bytes:in-all:8080 90 UP UNKNOWN 7 c = register An-instance-of-more-than-40-bytes:in-all:8080 90 false true
copy landed 0 0 200 404 = another true";

#[test]
fn memory_values(rt: HostRuntime) {
    assert!(rt; are_told(rt.alloc(), &mut Names, NAMES));
    assert!(rt; are_told(rt.alloc(), &mut Plain, VALUES));
    assert!(rt; are_told(rt.alloc(), &mut Machine, COPIES));
}

/// Whether the text of a host's rest is that.
fn is_of_host(alloc: Global, host: &str, text: &str) -> Result<bool, Fault> {
    let rest = Rest::of_host(alloc, host)?;
    let object = rest.to_text(alloc)?;
    drop(rest);
    Ok(object.pieces().bytes == text.as_bytes())
}

const READ: &str = "{\"b\":[1,{\"x\":null}],\"a\":\"q\\\"\\u0001\"}";

const KEPT: &str = ",\"a\":\"q\\\"\\u0001\",\"b\":[1,{\"x\":null}]";

const OF_HOST: &str =
    ",\"dataCenterInfo\":{\"name\":\"MyOwn\"},\"hostName\":\"h\\\"\",\"ipAddr\":\"0.0.0.0\"";

#[test]
fn memory_texts(rt: HostRuntime) {
    let alloc = rt.alloc();
    assert!(rt; are_so(is_kept_as(alloc, READ, KEPT), is_kept_as(alloc, READ, KEPT)));
    assert!(rt;
        are_so(
            read_again(alloc, READ).map(|count| count == 2),
            read_again(alloc, READ).map(|count| count == 2),
        )
    );
    assert!(rt; are_so(is_put(alloc), is_put(alloc)));
    assert!(rt;
        are_so(
            is_quoted_as(alloc, "a\"\\\n", "\"a\\\"\\\\\\n\""),
            is_quoted_as(alloc, "a\"\\\n", "\"a\\\"\\\\\\n\""),
        )
    );
    assert!(rt;
        are_so(
            is_of_host(alloc, "h\"", OF_HOST),
            is_of_host(alloc, "h\"", OF_HOST)
        )
    );
}

const COUNTS: Counts = Counts {
    held: 1,
    expected: 2,
    threshold: 3,
    last: 0,
    permitted: false,
    preservation: true,
};

const PAGE: &str =
    "held 1\nexpected 2\nthreshold 3\nlast 0\npreservation on\npermitted no\nstatuses UP_1_\n";

#[test]
fn memory_pages(rt: HostRuntime) {
    let alloc = rt.alloc();
    let up = [Status::Up];
    assert!(rt; are_so(has_code(alloc, &up, "UP_1_"), has_code(alloc, &up, "UP_1_")));
    assert!(rt;
        are_so(
            is_page(alloc, &COUNTS, &up, PAGE),
            is_page(alloc, &COUNTS, &up, PAGE),
        )
    );
}
