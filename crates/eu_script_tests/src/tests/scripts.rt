//! Scripts with the text that each prints, by the rules of Eureka's registry.
ghost use Rattle.std.specs.Prelude.{None};

use crate::tests::examples::prints as prints_lines;
use eu_base::Config;
use eu_clock::FirstChooser;
use eu_fixtures::settings;
use eu_lines::ScriptFault;
use eu_script::run_script;
use std::alloc::{AllocError, Global};
use std::io;
use std::io::Read;

/// Whether a script of these settings ends so and prints this.
fn ends_by<R: Read>(
    alloc: Global,
    config: Config,
    reader: &mut R,
    wanted: Result<(), ScriptFault>,
    printed: &[u8],
) -> bool {
    let mut out = Vec::new(alloc);
    let result = run_script(alloc, reader, &mut out, config, &mut FirstChooser);
    result == wanted && out.as_slice() == printed
}

/// The same where self-preservation is on, at 85%, with a renewal each 30 s and an eviction each minute.
pub fn ends<R: Read>(
    alloc: Global,
    reader: &mut R,
    wanted: Result<(), ScriptFault>,
    printed: &[u8],
) -> bool {
    match settings() {
        Ok(config) => ends_by(alloc, config, reader, wanted, printed),
        Err(_) => false,
    }
}

/// Whether a script, with self-preservation or without, and with a share of the renewals that are expected, prints this to its end.
fn prints_at(alloc: Global, preserves: bool, percent: u32, text: &[u8], printed: &[u8]) -> bool {
    let mut reader = text;
    match Config::new(preserves, percent, 30, 60_000) {
        Ok(config) => ends_by(alloc, config, &mut reader, Ok(()), printed),
        Err(_) => false,
    }
}

/// The same at 85%.
pub fn prints(alloc: Global, preserves: bool, text: &[u8], printed: &[u8]) -> bool {
    prints_at(alloc, preserves, 85, text, printed)
}

/// A script that opens a registry, and registers so many clients at moment 0, each for so many seconds.
pub fn joined(alloc: Global, expected: u32, clients: u32, secs: u32) -> Result<String, AllocError> {
    let mut text = String::new(alloc);
    writeln!(text, "open {expected}")?;
    for i in 0..clients {
        writeln!(text, "register 0 A i{i} {secs} UP UNKNOWN - c")?;
    }
    Ok(text)
}

/// What that prints.
pub fn joined_printed(alloc: Global, clients: u32) -> Result<String, AllocError> {
    let mut text = String::new(alloc);
    text.push_str("opened\n")?;
    for _ in 0..clients {
        text.push_str("204\n")?;
    }
    Ok(text)
}

/// That script, each client being registered for 90 seconds, with these lines after it.
fn joined_and(
    alloc: Global,
    expected: u32,
    clients: u32,
    lines: &str,
) -> Result<String, AllocError> {
    let mut text = joined(alloc, expected, clients, 90)?;
    text.push_str(lines)?;
    Ok(text)
}

/// What that prints, where the lines after it print this.
fn printed_and(alloc: Global, clients: u32, replies: &str) -> Result<String, AllocError> {
    let mut text = joined_printed(alloc, clients)?;
    text.push_str(replies)?;
    Ok(text)
}

/// Whether it prints that, with self-preservation or without.
fn joined_prints(
    alloc: Global,
    preserves: bool,
    expected: u32,
    clients: u32,
    lines: &str,
    replies: &str,
) -> Result<bool, AllocError> {
    let text = joined_and(alloc, expected, clients, lines)?;
    let printed = printed_and(alloc, clients, replies)?;
    Ok(prints(alloc, preserves, text.as_bytes(), printed.as_bytes()))
}

/// Gives a text one byte at a time.
#[derive(Drop)]
struct Single<'a> {
    text: &'a [u8],
}

impl Read for Single<'_> {
    ghost remaining = { λ _. None };

    fn read(&mut self, buf: &mut [u8]) -> io::Result<usize> {
        if self.text.is_empty() || buf.is_empty() {
            return Ok(0);
        }
        buf[0] = self.text[0];
        self.text = &self.text[1..];
        Ok(1)
    }
}

const ANSWERED: [(&[u8], &[u8]); 7] = [
    (
        b"open 1\nregister 0 A i1 90 UP UNKNOWN 0 c\nrenew 30000 A i1 - - c\ncounts 30000\n",
        b"opened\n204\n200\nheld 1 expected 2 threshold 3 last 0 permitted no\n",
    ),
    (b"", b""),
    (b"\n\n", b""),
    (
        b"open 0\nregister 0 a i1 0 UP UNKNOWN - c\nrenew 1 A i1 - - r\nrenew 1 A i2 - - c\ncounts 1\n",
        b"opened\n204\n200\n404\nheld 1 expected 0 threshold 0 last 0 permitted no\n",
    ),
    // the last line needs no LF, and blank ones are skipped
    (b"\nopen 7\n\nrenew 0 A i1 - - c", b"opened\n404\n"),
    // the greatest of each number, with 20 digits, and each status
    (
        b"open 4294967295\nregister 04611686018427387904 A i1 2147483 DOWN UNKNOWN 9223372036854775807 r\n",
        b"opened\n204\n",
    ),
    (
        b"open 00000000000000000001\nregister 0 A i1 1 STARTING UNKNOWN - c\nregister 0 A i2 1 OUT_OF_SERVICE UNKNOWN - c\nregister 0 A i3 1 UNKNOWN UNKNOWN - c\nrenew 1 A i3 - - c\n",
        b"opened\n204\n204\n204\n404\n",
    ),
];

#[test]
fn scripts_are_answered(rt: HostRuntime) {
    for (text, printed) in ANSWERED.as_slice() {
        let mut reader = *text;
        assert!(rt; ends(rt.alloc(), &mut reader, Ok(()), printed));
        let mut single = Single { text };
        assert!(rt; ends(rt.alloc(), &mut single, Ok(()), printed));
    }
}

const PAGES: [(&[u8], &[u8]); 3] = [
    (
        b"open 1\nregister 0 A i1 90 UP UNKNOWN 0 c\nrenew 30000 A i1 - - c\ncounts 30000\npage 30000\n",
        b"opened\n204\n200\nheld 1 expected 2 threshold 3 last 0 permitted no\nheld 1\nexpected 2\nthreshold 3\nlast 0\npreservation on\npermitted no\nstatuses UP_1_\n",
    ),
    (
        b"open 0\npage 0",
        b"opened\nheld 0\nexpected 0\nthreshold 0\nlast 0\npreservation on\npermitted no\nstatuses \n",
    ),
    // two applications, and a status that overrides the instance's own
    (
        b"open 0\nregister 0 B b1 90 STARTING UNKNOWN - c\nregister 0 A a2 90 UP UNKNOWN - c\nregister 0 A a1 90 UP DOWN - c\nregister 0 A a3 90 UP UNKNOWN - c\npage 1\ncancel 1 A a1 c\npage 1\n",
        b"opened\n204\n204\n204\n204\nheld 4\nexpected 0\nthreshold 0\nlast 0\npreservation on\npermitted no\nstatuses DOWN_1_STARTING_1_UP_2_\n200\nheld 3\nexpected 0\nthreshold 0\nlast 0\npreservation on\npermitted no\nstatuses STARTING_1_UP_2_\n",
    ),
];

#[test]
fn the_status_page_is_printed(rt: HostRuntime) {
    for (text, printed) in PAGES.as_slice() {
        assert!(rt; prints(rt.alloc(), true, text, printed));
    }
}

#[test]
fn the_status_page_tells_of_the_expired(rt: HostRuntime) {
    let text =
        b"open 0\nregister 0 A i1 10 UP UNKNOWN - c\nlook 10001 A i1\npage 10001\nevict 10001\n".as_slice();
    let printed =
        b"opened\n204\n404\nheld 1\nexpected 0\nthreshold 0\nlast 0\npreservation off\npermitted yes\nstatuses UP_1_\nevicted 1 A i1\n".as_slice();
    assert!(rt; prints(rt.alloc(), false, text, printed));
}

const LEASES: [(&[u8], &[u8]); 4] = [
    // the greater stamp stays, and of equal ones the newcomer's
    (
        b"open 0\nregister 1 A i1 90 UP UNKNOWN 10 c\nregister 5 A i1 30 STARTING UNKNOWN 9 c\nlook 5 A i1\nregister 7 A i1 30 STARTING UNKNOWN 10 c\nlook 7 A i1\n",
        b"opened\n204\n204\nfound UP UNKNOWN dirty 10 secs 30 registered 5 up 1 updated 5\n204\nfound STARTING UNKNOWN dirty 10 secs 30 registered 7 up 1 updated 7\n",
    ),
    (
        b"open 0\ncancel 0 A i1 c\nregister 0 A i1 90 UP UNKNOWN - c\ncancel 1 A i1 c\ncancel 1 A i1 c\ncounts 1\n",
        b"opened\n404\n204\n200\n404\nheld 0 expected 0 threshold 0 last 0 permitted no\n",
    ),
    // one fewer is expected where a lease goes, also where a peer says so
    (
        b"open 2\nregister 0 A i1 90 UP UNKNOWN - c\ncancel 1 A i2 r\ncancel 1 A i1 r\nlook 1 A i1\ncounts 1\n",
        b"opened\n204\n404\n200\n404\nheld 0 expected 2 threshold 3 last 0 permitted no\n",
    ),
    // a renewal counts from one duration later: 1000 + 90,000
    (
        b"open 1\nregister 0 a i1 90 UP UNKNOWN 4 c\nrenew 1000 A i1 - - c\nlook 1000 a i1\n",
        b"opened\n204\n200\nfound UP UNKNOWN dirty 4 secs 90 registered 0 up 0 updated 91000\n",
    ),
];

#[test]
fn leases_are_looked_at_and_cancelled(rt: HostRuntime) {
    for (text, printed) in LEASES.as_slice() {
        assert!(rt; prints(rt.alloc(), true, text, printed));
    }
}

#[test]
fn an_expired_lease_is_hidden_while_eviction_is_permitted(rt: HostRuntime) {
    let text =
        b"open 5\nregister 0 A i1 1 UP UNKNOWN - c\nlook 1000 A i1\nlook 1001 A i1\n".as_slice();
    let found =
        b"opened\n204\nfound UP UNKNOWN dirty 0 secs 1 registered 0 up 0 updated 0\nfound UP UNKNOWN dirty 0 secs 1 registered 0 up 0 updated 0\n".as_slice();
    let hidden =
        b"opened\n204\nfound UP UNKNOWN dirty 0 secs 1 registered 0 up 0 updated 0\n404\n".as_slice();
    assert!(rt; prints(rt.alloc(), true, text, found));
    assert!(rt; prints(rt.alloc(), false, text, hidden));
}

const COMPARED: [(&[u8], &[u8]); 3] = [
    (
        b"open 0\nregister 0 A i1 90 UP UNKNOWN 10 c\nrenew 1 A i1 9 - c\nrenew 1 A i1 10 - c\nrenew 1 A i1 11 - c\nrenew 1 A i1 9 - r\nrenew 1 A i1 10 - r\nrenew 1 A i1 11 - r\nroll 2\n",
        b"opened\n204\n200\n200\n404\n409 UP UNKNOWN 10\n200\n404\nlast 6\n",
    ),
    // the status that a peer brings with a newer stamp overrides the held one
    (
        b"open 0\nregister 0 A i1 90 UP UNKNOWN 3 c\nadopt 1 A i1 90 UP OUT_OF_SERVICE 7\nlook 1 A i1\nadopt 2 A i1 30 STARTING UNKNOWN 5\nlook 2 A i1\n",
        b"opened\n204\n204\nfound OUT_OF_SERVICE OUT_OF_SERVICE dirty 7 secs 90 registered 1 up 0 updated 1\n204\nfound OUT_OF_SERVICE OUT_OF_SERVICE dirty 7 secs 30 registered 2 up 0 updated 2\n",
    ),
    // a greater stamp comes with a status, and a smaller one doesn't
    (
        b"open 0\nregister 1 A x 90 UP UNKNOWN 3 c\nset 2 A x DOWN 7 c\nlook 2 A x\nunset 3 A x UP 8 r\nlook 3 A x\nset 4 A x DOWN 2 r\nlook 4 A x\n",
        b"opened\n204\n200\nfound DOWN DOWN dirty 7 secs 90 registered 1 up 1 updated 90002\n200\nfound UP UNKNOWN dirty 8 secs 90 registered 1 up 1 updated 90003\n200\nfound DOWN DOWN dirty 8 secs 90 registered 1 up 1 updated 90004\n",
    ),
];

#[test]
fn stamps_are_compared(rt: HostRuntime) {
    for (text, printed) in COMPARED.as_slice() {
        assert!(rt; prints(rt.alloc(), true, text, printed));
    }
}

const SET: [(&[u8], &[u8]); 5] = [
    // one override takes the place of another
    (
        b"open 0\nregister 0 A x 90 UP UNKNOWN - c\nset 1 A x DOWN - c\nset 2 A x OUT_OF_SERVICE - c\nlook 2 A x\n",
        b"opened\n204\n200\n200\nfound OUT_OF_SERVICE OUT_OF_SERVICE dirty 0 secs 90 registered 0 up 0 updated 90002\n",
    ),
    // without a status of its own the instance is UNKNOWN, and isn't renewed
    (
        b"open 0\nregister 0 A i1 90 UP UNKNOWN - c\nset 1 A i1 OUT_OF_SERVICE - c\nrenew 2 A i1 - - c\nunset 3 A i1 - - c\nrenew 4 A i1 - - c\nroll 5\n",
        b"opened\n204\n200\n200\n200\n404\nlast 1\n",
    ),
    // an override goes by the id, whichever the application
    (
        b"open 0\nregister 0 A x 90 UP UNKNOWN - c\nregister 0 B x 90 UP UNKNOWN - c\nset 1 A x OUT_OF_SERVICE - c\nrenew 3 B x - - c\nlook 3 B x\n",
        b"opened\n204\n204\n200\n200\nfound OUT_OF_SERVICE UNKNOWN dirty 0 secs 90 registered 0 up 0 updated 90003\n",
    ),
    (
        b"open 0\nregister 0 A x 90 UP UNKNOWN - c\nregister 0 B x 90 UP UNKNOWN - c\nset 1 A x OUT_OF_SERVICE - c\ncancel 2 C x c\nrenew 3 B x - - c\nlook 3 B x\n",
        b"opened\n204\n204\n200\n404\n200\nfound UP UNKNOWN dirty 0 secs 90 registered 0 up 0 updated 90003\n",
    ),
    // a registration again stays overridden
    (
        b"open 0\nregister 1 A i1 90 UP OUT_OF_SERVICE 1 c\nregister 2 A i1 90 UP UNKNOWN 2 c\nlook 2 A i1\nunset 3 A i1 UP - c\nlook 3 A i1\n",
        b"opened\n204\n204\nfound OUT_OF_SERVICE OUT_OF_SERVICE dirty 2 secs 90 registered 2 up 0 updated 2\n200\nfound UP UNKNOWN dirty 2 secs 90 registered 2 up 0 updated 90003\n",
    ),
];

#[test]
fn statuses_are_set_and_unset(rt: HostRuntime) {
    for (text, printed) in SET.as_slice() {
        assert!(rt; prints(rt.alloc(), true, text, printed));
    }
}

#[test]
fn a_status_is_set_on_a_visible_lease_alone(rt: HostRuntime) {
    let text =
        b"open 0\nregister 0 A i1 10 UP UNKNOWN 0 c\nlook 10000 A i1\nlook 10001 A i1\nset 10001 A i1 DOWN - c\nrenew 10001 A i1 - - c\nlook 10001 A i1\n".as_slice();
    let printed =
        b"opened\n204\nfound UP UNKNOWN dirty 0 secs 10 registered 0 up 0 updated 0\n404\n404\n200\nfound UP UNKNOWN dirty 0 secs 10 registered 0 up 0 updated 20001\n".as_slice();
    assert!(rt; prints(rt.alloc(), false, text, printed));
}

const MINUTES: [(&[u8], &[u8]); 2] = [
    (
        b"open 1\nregister 0 A i1 90 UP UNKNOWN 0 c\nrenew 30000 A i1 - - c\ncounts 30000\nroll 60000\ncounts 60000\n",
        b"opened\n204\n200\nheld 1 expected 2 threshold 3 last 0 permitted no\nlast 1\nheld 1 expected 2 threshold 3 last 1 permitted no\n",
    ),
    // eviction is permitted above the threshold alone, which is 1 for one client: 1 * 60 * 85 / 3000 = 1.7
    (
        b"open 0\nregister 0 A i1 90 UP UNKNOWN 0 c\nupdate 0\nrenew 1 A i1 - - c\nroll 1\ncounts 1\nrenew 2 A i1 - - c\nrenew 2 A i1 - - c\nroll 2\ncounts 2\nroll 3\ncounts 3\n",
        b"opened\n204\nexpected 1\n200\nlast 1\nheld 1 expected 1 threshold 1 last 1 permitted no\n200\n200\nlast 2\nheld 1 expected 1 threshold 1 last 2 permitted yes\nlast 0\nheld 1 expected 1 threshold 1 last 0 permitted no\n",
    ),
];

#[test]
fn minutes_end(rt: HostRuntime) {
    for (text, printed) in MINUTES.as_slice() {
        assert!(rt; prints(rt.alloc(), true, text, printed));
    }
}

const CLIENTS: [(u32, u32, &str, &str); 4] = [
    (
        0,
        3,
        "counts 0\nupdate 0\ncounts 0\n",
        "held 3 expected 0 threshold 0 last 0 permitted no\nexpected 3\nheld 3 expected 3 threshold 5 last 0 permitted no\n",
    ),
    (
        3,
        17,
        "counts 0\nupdate 0\n",
        "held 17 expected 20 threshold 34 last 0 permitted no\nexpected 20\n",
    ),
    (
        2,
        18,
        "update 0\ncounts 0\n",
        "expected 18\nheld 18 expected 18 threshold 30 last 0 permitted no\n",
    ),
    (
        5,
        0,
        "update 0\ncounts 0\n",
        "expected 5\nheld 0 expected 5 threshold 8 last 0 permitted no\n",
    ),
];

#[test]
fn clients_are_counted_anew(rt: HostRuntime) {
    for (expected, clients, lines, replies) in CLIENTS {
        assert!(rt;
            joined_prints(rt.alloc(), true, expected, clients, lines, replies) == Ok(true),
            "at {clients}"
        );
    }
}

const SETTINGS: [(bool, u32, &[u8], &[u8]); 7] = [
    (
        false,
        85,
        b"open 5\nupdate 0\ncounts 0\n",
        b"opened\nexpected 0\nheld 0 expected 0 threshold 0 last 0 permitted yes\n",
    ),
    (
        true,
        0,
        b"open 5\nregister 0 A i1 90 UP UNKNOWN - c\nrenew 1 A i1 - - c\nroll 2\ncounts 2\n",
        b"opened\n204\n200\nlast 1\nheld 1 expected 6 threshold 0 last 1 permitted no\n",
    ),
    // at 100 percent none may go, also where eviction is permitted
    (
        false,
        100,
        b"open 1\nregister 0 A i1 1 UP UNKNOWN - c\nevict 10000\ncounts 10000\n",
        b"opened\n204\nevicted 0\nheld 1 expected 2 threshold 4 last 0 permitted yes\n",
    ),
    // at none all may go
    (
        false,
        0,
        b"open 0\nregister 0 A i0 10 UP UNKNOWN - c\nregister 0 A i1 10 UP UNKNOWN - c\nregister 0 A i2 10 UP UNKNOWN - c\nregister 0 A i3 10 UP UNKNOWN - c\nevict 100000\ncounts 100000\n",
        b"opened\n204\n204\n204\n204\nevicted 4 A i0 A i1 A i2 A i3\nheld 0 expected 0 threshold 0 last 0 permitted yes\n",
    ),
    // where more are evicted than are expected, none are, and who comes then doesn't raise that
    (
        false,
        50,
        b"open 0\nregister 0 A i0 10 UP UNKNOWN - c\nregister 0 A i1 10 UP UNKNOWN - c\nregister 0 A i2 10 UP UNKNOWN - c\nregister 0 A i3 10 UP UNKNOWN - c\nevict 100000\ncounts 100000\nregister 100000 A i9 90 UP UNKNOWN - c\ncounts 100000\n",
        b"opened\n204\n204\n204\n204\nevicted 2 A i0 A i1\nheld 2 expected 0 threshold 0 last 0 permitted yes\n204\nheld 3 expected 0 threshold 0 last 0 permitted yes\n",
    ),
    // each victim is one fewer expected, and isn't once more where it is cancelled: 4 less 1 is 3, and 3 * 60 * 85 / 3000 = 5.1
    (
        false,
        85,
        b"open 3\nregister 0 A i1 10 UP UNKNOWN - c\ncounts 10001\nevict 10001\ncounts 10001\ncancel 10001 A i1 c\ncounts 10001\n",
        b"opened\n204\nheld 1 expected 4 threshold 6 last 0 permitted yes\nevicted 1 A i1\nheld 0 expected 3 threshold 5 last 0 permitted yes\n404\nheld 0 expected 3 threshold 5 last 0 permitted yes\n",
    ),
    // an eviction without a victim leaves the number
    (
        false,
        85,
        b"open 3\nregister 0 A i1 10 UP UNKNOWN - c\nevict 10000\ncounts 10000\n",
        b"opened\n204\nevicted 0\nheld 1 expected 4 threshold 6 last 0 permitted yes\n",
    ),
];

#[test]
fn settings_change_the_threshold(rt: HostRuntime) {
    for (preserves, percent, text, printed) in SETTINGS {
        assert!(rt; prints_at(rt.alloc(), preserves, percent, text, printed));
    }
}

const PASSES: [(&[u8], &[u8]); 4] = [
    (
        b"open 0\nregister 0 A i1 90 UP UNKNOWN 0 c\nevict 90000\nevict 90001\n",
        b"opened\n204\nevicted 0\nevicted 1 A i1\n",
    ),
    (
        b"open 0\nregister 0 A i1 90 UP UNKNOWN 0 c\nrenew 30000 A i1 - - c\nevict 210000\nevict 210001\n",
        b"opened\n204\n200\nevicted 0\nevicted 1 A i1\n",
    ),
    // the second eviction comes 140,000 ms later than an interval after the first
    (
        b"open 0\nregister 0 A i1 90 UP UNKNOWN 0 c\nevict 0\nevict 200000\nevict 230001\n",
        b"opened\n204\nevicted 0\nevicted 0\nevicted 1 A i1\n",
    ),
    (
        b"open 0\nregister 100000 A i1 10 UP UNKNOWN 0 c\nevict 50000\nevict 40000\nevict 110001\nevict 120001\n",
        b"opened\n204\nevicted 0\nevicted 0\nevicted 0\nevicted 1 A i1\n",
    ),
];

#[test]
fn evictions_take_what_expired(rt: HostRuntime) {
    for (text, printed) in PASSES.as_slice() {
        assert!(rt; prints(rt.alloc(), false, text, printed));
    }
}

/// A minute's end, and four evictions with counts after each.
const FOUR_PASSES: &str =
    "roll 0\nevict 100000\ncounts 100000\nevict 100000\ncounts 100000\nevict 100000\ncounts 100000\nevict 100000\ncounts 100000\n";

/// Ten leases of 10 s, of which the first is renewed so often, and these lines.
fn waves(alloc: Global, renewals: u32, lines: &str) -> Result<String, AllocError> {
    let mut text = joined(alloc, 0, 10, 10)?;
    text.push_str("update 0\n")?;
    for _ in 0..renewals {
        text.push_str("renew 0 A i0 - - c\n")?;
    }
    text.push_str(lines)?;
    Ok(text)
}

/// What the lines before these print, and this.
fn waves_printed(alloc: Global, renewals: u32, replies: &str) -> Result<String, AllocError> {
    let mut text = joined_printed(alloc, 10)?;
    text.push_str("expected 10\n")?;
    for _ in 0..renewals {
        text.push_str("200\n")?;
    }
    text.push_str(replies)?;
    Ok(text)
}

/// Whether the waves of so many renewals, with these lines, print that.
fn waves_print(
    alloc: Global,
    renewals: u32,
    lines: &str,
    replies: &str,
) -> Result<bool, AllocError> {
    let text = waves(alloc, renewals, lines)?;
    let printed = waves_printed(alloc, renewals, replies)?;
    Ok(prints(alloc, true, text.as_bytes(), printed.as_bytes()))
}

/// Each victim is one fewer expected, and one client owes 1.7 renewals: 13.6, 10.2, 8.5 and 6.8, rounded down.
const SHARED: &str =
    "last 18\nevicted 2 A i0 A i1\nheld 8 expected 8 threshold 13 last 18 permitted yes\nevicted 2 A i2 A i3\nheld 6 expected 6 threshold 10 last 18 permitted yes\nevicted 1 A i4\nheld 5 expected 5 threshold 8 last 18 permitted yes\nevicted 1 A i5\nheld 4 expected 4 threshold 6 last 18 permitted yes\n";

#[test]
fn evictions_keep_the_share(rt: HostRuntime) {
    assert!(rt; waves_print(rt.alloc(), 18, FOUR_PASSES, SHARED) == Ok(true));
}

const FORBIDDEN: &str =
    "last 17\nevicted 0\nheld 10 expected 10 threshold 17 last 17 permitted no\nevicted 0\nheld 10 expected 10 threshold 17 last 17 permitted no\nevicted 0\nheld 10 expected 10 threshold 17 last 17 permitted no\nevicted 0\nheld 10 expected 10 threshold 17 last 17 permitted no\n";

#[test]
fn preservation_forbids_evictions(rt: HostRuntime) {
    assert!(rt; waves_print(rt.alloc(), 17, FOUR_PASSES, FORBIDDEN) == Ok(true));
}

/// Between two evictions fourteen renewals, which are no more than the threshold was before the first one.
const FEWER: &str =
    "roll 0\nevict 100000\nrenew 100000 A i9 - - c\nrenew 100000 A i9 - - c\nrenew 100000 A i9 - - c\nrenew 100000 A i9 - - c\nrenew 100000 A i9 - - c\nrenew 100000 A i9 - - c\nrenew 100000 A i9 - - c\nrenew 100000 A i9 - - c\nrenew 100000 A i9 - - c\nrenew 100000 A i9 - - c\nrenew 100000 A i9 - - c\nrenew 100000 A i9 - - c\nrenew 100000 A i9 - - c\nrenew 100000 A i9 - - c\nroll 100000\nevict 100000\ncounts 100000\n";

/// They are more than the threshold of the eight clients that are expected after it.
const FEWER_PRINTED: &str =
    "last 18\nevicted 2 A i0 A i1\n200\n200\n200\n200\n200\n200\n200\n200\n200\n200\n200\n200\n200\n200\nlast 14\nevicted 2 A i2 A i3\nheld 6 expected 6 threshold 10 last 14 permitted yes\n";

#[test]
fn an_eviction_lowers_the_threshold_of_the_next(rt: HostRuntime) {
    assert!(rt; waves_print(rt.alloc(), 18, FEWER, FEWER_PRINTED) == Ok(true));
}

/// Of three hundred expired leases 45 go, the first ones by the bytes of their ids.
const MANY: &str = "evict 100000\ncounts 100000\n";

const MANY_PRINTED: &str =
    "evicted 45 A i0 A i1 A i10 A i100 A i101 A i102 A i103 A i104 A i105 A i106 A i107 A i108 A i109 A i11 A i110 A i111 A i112 A i113 A i114 A i115 A i116 A i117 A i118 A i119 A i12 A i120 A i121 A i122 A i123 A i124 A i125 A i126 A i127 A i128 A i129 A i13 A i130 A i131 A i132 A i133 A i134 A i135 A i136 A i137 A i138\nheld 255 expected 0 threshold 0 last 0 permitted yes\n";

#[test]
fn an_eviction_takes_many(rt: HostRuntime) {
    assert!(rt; joined_prints(rt.alloc(), false, 0, 300, MANY, MANY_PRINTED) == Ok(true));
}

const BAD: [(&[u8], &[u8], u64); 64] = [
    (
        b"open 1\nregister 0 A i1 90 UP UNKNOWN 0 c\nrenew 0 A\n",
        b"opened\n204\n",
        3,
    ),
    (b"open 1\nopen 1\n", b"opened\n", 2),
    (b"counts 0\n", b"", 1),
    (b"renew 0 A i1 - - c\n", b"", 1),
    (b"register 0 A i1 90 UP UNKNOWN 0 c\n", b"", 1),
    (b"\n\nopen 1\n\nclose\n", b"opened\n", 5),
    (b"open 1\r\n", b"", 1),
    (b"open  1\n", b"", 1),
    (b" open 1\n", b"", 1),
    (b"open 1 \n", b"", 1),
    (b"   \n", b"", 1),
    (b"open\n", b"", 1),
    (b"Open 1\n", b"", 1),
    (b"open +1\n", b"", 1),
    (b"open 4294967296\n", b"", 1),
    (b"open 000000000000000000001\n", b"", 1),
    (b"open 1\nregister 0 A i1 90 UP - 0 c\n", b"opened\n", 2),
    (
        b"open 1\nregister 0 A i1 90 up UNKNOWN 0 c\n",
        b"opened\n",
        2,
    ),
    (
        b"open 1\nregister 0  i1 90 UP UNKNOWN 0 c\n",
        b"opened\n",
        2,
    ),
    (
        b"open 1\nregister 0 A \xff 90 UP UNKNOWN 0 c\n",
        b"opened\n",
        2,
    ),
    (
        b"open 1\nregister 0 A i1 2147484 UP UNKNOWN 0 c\n",
        b"opened\n",
        2,
    ),
    (
        b"open 1\nregister 0 A i1 90 UP UNKNOWN 9223372036854775808 c\n",
        b"opened\n",
        2,
    ),
    (
        b"open 1\nregister 4611686018427387905 A i1 90 UP UNKNOWN 0 c\n",
        b"opened\n",
        2,
    ),
    (
        b"open 1\nregister 0 A i1 90 UP UNKNOWN 0 x\n",
        b"opened\n",
        2,
    ),
    (
        b"open 1\nregister 0 A i1 90 UP UNKNOWN 0 c c\n",
        b"opened\n",
        2,
    ),
    (b"open 1\nrenew 0 A i1 -5 - c\n", b"opened\n", 2),
    (b"open 1\nrenew 0 A i1 - up c\n", b"opened\n", 2),
    (b"open 1\nset 0 A i1 - - c\n", b"opened\n", 2),
    (b"open 1\nset 0 A i1 UP - c c\n", b"opened\n", 2),
    (b"open 1\nunset 0 A i1 - c\n", b"opened\n", 2),
    (b"open 1\nunset 0 A i1 UP -\n", b"opened\n", 2),
    (b"open 1\nadopt 0 A i1 90 UP UNKNOWN 0 r\n", b"opened\n", 2),
    (b"open 1\ncancel 0 A i1\n", b"opened\n", 2),
    (b"open 1\ncancel 0 A i1 c c\n", b"opened\n", 2),
    (b"open 1\nroll\n", b"opened\n", 2),
    (b"open 1\nroll 0 0\n", b"opened\n", 2),
    (b"open 1\nupdate c\n", b"opened\n", 2),
    (b"open 1\nlook 0 A\n", b"opened\n", 2),
    (b"open 1\nlook 0 A \n", b"opened\n", 2),
    (b"open 1\nlook 0  i1\n", b"opened\n", 2),
    (b"open 1\nlook 0 \xff i1\n", b"opened\n", 2),
    (b"open 1\nlook 0 A i1 c\n", b"opened\n", 2),
    (b"open 1\nevict 0 0\n", b"opened\n", 2),
    (b"open 1\npage\n", b"opened\n", 2),
    (b"open 1\npage 0 A\n", b"opened\n", 2),
    (b"open 1\npage x\n", b"opened\n", 2),
    (b"open 1\npage 4611686018427387905\n", b"opened\n", 2),
    (b"open 0 9\n", b"", 1),
    (b"open 0 1 1\n", b"", 1),
    (b"open 0 1\nopen 0 1\n", b"opened\n", 2),
    (b"open 0 1\ndrain 0\n", b"opened\n", 2),
    (b"open 0 1\ndrain 0 4294967296\n", b"opened\n", 2),
    (b"open 0 1\nlanded 0 0 99\n", b"opened\n", 2),
    (b"open 0 1\nlanded 0 0 200 1000\n", b"opened\n", 2),
    (b"open 0 1\nlost 0 0 200\n", b"opened\n", 2),
    (b"drain 0 0\n", b"", 1),
    (b"landed 0 0\n", b"", 1),
    (b"lost 0 0\n", b"", 1),
    (b"page 0\n", b"", 1),
    (b"look 0 A i1\n", b"", 1),
    (b"set 0 A i1 UP - c\n", b"", 1),
    (b"unset 0 A i1 UP - c\n", b"", 1),
    (b"adopt 0 A i1 90 UP UNKNOWN 0\n", b"", 1),
    (b"roll 0\n", b"", 1),
];

#[test]
fn bad_lines_are_told(rt: HostRuntime) {
    for (text, printed, line) in BAD.as_slice() {
        let mut reader = *text;
        assert!(rt;
            ends(
                rt.alloc(),
                &mut reader,
                Err(ScriptFault::BadLine(*line)),
                printed
            ),
            "at {line}"
        );
    }
}

/// A script that registers a client, whose application and id have names of so many bytes.
fn named(alloc: Global, app: usize, id: usize) -> Result<Vec<u8>, AllocError> {
    let mut text = Vec::from_slice(alloc, b"open 1\nregister 0 ")?;
    text.extend_from_slice(vec![in alloc; b'x'; app]?.as_slice())?;
    text.push(b' ')?;
    text.extend_from_slice(vec![in alloc; b'y'; id]?.as_slice())?;
    text.extend_from_slice(b" 90 UP UNKNOWN 0 c\n")?;
    Ok(text)
}

/// Whether that ends so and prints this.
fn named_ends(
    alloc: Global,
    app: usize,
    id: usize,
    wanted: Result<(), ScriptFault>,
    printed: &[u8],
) -> Result<bool, AllocError> {
    let text = named(alloc, app, id)?;
    Ok(ends(alloc, &mut text.as_slice(), wanted, printed))
}

#[test]
fn names_have_a_longest(rt: HostRuntime) {
    let cases = [
        (255usize, 255usize, Ok(()), b"opened\n204\n".as_slice()),
        (256, 1, Err(ScriptFault::BadLine(2)), b"opened\n"),
        (1, 256, Err(ScriptFault::BadLine(2)), b"opened\n"),
    ];
    for (app, id, wanted, printed) in cases {
        assert!(rt;
            named_ends(rt.alloc(), app, id, wanted, printed) == Ok(true),
            "at {app}, {id}"
        );
    }
}

#[test]
fn an_endless_script_is_cut(rt: HostRuntime) {
    assert!(rt;
        ends(
            rt.alloc(),
            &mut io::repeat(b'x'),
            Err(ScriptFault::Read),
            b""
        )
    );
}

/// A conflict counts as a renewal, and each client that registers is one more that is expected.
const TOLD: [(&str, &str); 9] = [
    ("open 8", "opened"),
    ("register 0 A i1 90 OUT_OF_SERVICE UNKNOWN 7 c", "204"),
    ("renew 1 A i1 6 - r", "409 OUT_OF_SERVICE UNKNOWN 7"),
    ("drain 1 0", "refused 15"),
    ("renew 2 A i1 - - c", "200"),
    ("renew 3 A i1 - - c", "200"),
    ("renew 4 A i1 - - c", "200"),
    ("roll 60000", "last 4"),
    ("update 60000", "expected 9"),
];

#[test]
fn conflicts_and_refusals_are_told(rt: HostRuntime) {
    assert!(rt; prints_lines(rt.alloc(), TOLD.as_slice()) == Ok(true));
}

const FULL: &str =
    "register 1 A more 90 UP UNKNOWN - c\nregister 1 A i0 90 UP UNKNOWN - c\nevict 90001\nroll 90001\nlook 1 A i0\ncounts 1\n";

const FULL_PRINTED: &str =
    "refused 7\n204\nevicted 0\nlast 0\nfound UP UNKNOWN dirty 1 secs 90 registered 1 up 1 updated 1\nheld 65536 expected 0 threshold 0 last 0 permitted no\n";

#[test]
fn a_full_registry_refuses_and_the_script_goes_on(rt: HostRuntime) {
    assert!(rt; joined_prints(rt.alloc(), true, 0, 65_536, FULL, FULL_PRINTED) == Ok(true));
}

/// Whether so many lines that ask for the counts are each answered: for one client that is expected, 1.7 renewals, rounded down.
fn counts_print(alloc: Global, times: usize) -> Result<bool, AllocError> {
    let lines = "counts 0\n".repeat(alloc, times)?;
    let replies = "held 0 expected 1 threshold 1 last 0 permitted no\n".repeat(alloc, times)?;
    joined_prints(alloc, true, 1, 0, &lines, &replies)
}

#[test]
fn a_long_script_is_answered_to_its_end(rt: HostRuntime) {
    assert!(rt; counts_print(rt.alloc(), 20_000) == Ok(true));
}
