//! Lines with what each says, by the table of lines and the limits of their fields.
use eu_base::{Config, Key, Moment, SharedInstance, Stamp};
use eu_lines::LineError;
use eu_model::Command;
use eu_words::{Line, read_line};
use std::alloc::{AllocError, Global};

/// Writes a verb, a moment and a key.
fn tell_key(text: &mut String, verb: &str, moment: &Moment, key: &Key) -> Result<(), AllocError> {
    let (ms, app, id) = (moment.ms(), key.app.as_str(), key.id.as_str());
    write!(text, "{verb} {ms} {app} {id}")
}

/// Writes a verb, a moment and an instance.
fn tell_instance(
    text: &mut String,
    verb: &str,
    moment: &Moment,
    instance: &SharedInstance,
) -> Result<(), AllocError> {
    tell_key(text, verb, moment, instance.key())?;
    let (secs, last_dirty) = (instance.secs().secs(), instance.last_dirty().value());
    let (status, overridden) = (instance.status(), instance.overridden());
    write!(text, " {secs} {status:?} {overridden:?} {last_dirty}")
}

fn number(stamp: &Option<Stamp>) -> Option<u64> {
    stamp.map(|stamp| stamp.value())
}

/// Writes a moment and settings.
fn tell_settings(text: &mut String, moment: &Moment, config: &Config) -> Result<(), AllocError> {
    let (preservation, percent) = (config.preservation, config.percent.value());
    let (interval, evict_ms) = (config.interval.secs(), config.evict_ms);
    write!(
        text,
        "config {} {preservation} {percent} {interval} {evict_ms}",
        moment.ms()
    )
}

/// Writes a moment and a command on a status, or a heartbeat.
fn tell_stamped(text: &mut String, moment: &Moment, command: &Command) -> Result<(), AllocError> {
    match command {
        Command::Renew {
            key,
            last_dirty,
            overridden,
            replicated,
        } => {
            tell_key(text, "renew", moment, key)?;
            let last_dirty = number(last_dirty);
            write!(text, " {last_dirty:?} {overridden:?} {replicated}")
        }
        Command::SetStatus {
            key,
            status,
            last_dirty,
            replicated,
        } => {
            tell_key(text, "set", moment, key)?;
            let last_dirty = number(last_dirty);
            write!(text, " {status:?} {last_dirty:?} {replicated}")
        }
        Command::UnsetStatus {
            key,
            status,
            last_dirty,
            replicated,
        } => {
            tell_key(text, "unset", moment, key)?;
            let last_dirty = number(last_dirty);
            write!(text, " {status:?} {last_dirty:?} {replicated}")
        }
        _ => Ok(()),
    }
}

/// Writes a moment and a command on the tasks for a peer, or on a status.
fn tell_peer(text: &mut String, moment: &Moment, command: &Command) -> Result<(), AllocError> {
    match command {
        Command::Drain { peer } => write!(text, "drain {} {peer}", moment.ms()),
        Command::Landed { peer, codes } => {
            let codes = codes.as_slice();
            write!(text, "landed {} {peer} {codes:?}", moment.ms())
        }
        Command::Lost { peer } => write!(text, "lost {} {peer}", moment.ms()),
        _ => tell_stamped(text, moment, command),
    }
}

/// Writes a moment and a command.
fn tell_command(text: &mut String, moment: &Moment, command: &Command) -> Result<(), AllocError> {
    match command {
        Command::Register {
            instance,
            replicated,
        } => {
            tell_instance(text, "register", moment, instance)?;
            write!(text, " {replicated}")
        }
        Command::Cancel { key, replicated } => {
            tell_key(text, "cancel", moment, key)?;
            write!(text, " {replicated}")
        }
        Command::Adopt { instance } => tell_instance(text, "adopt", moment, instance),
        Command::EndMinute => write!(text, "roll {}", moment.ms()),
        Command::Update => write!(text, "update {}", moment.ms()),
        Command::Reconfigure { config } => tell_settings(text, moment, config),
        Command::Evict => write!(text, "evict {}", moment.ms()),
        _ => tell_peer(text, moment, command),
    }
}

/// Writes what a line says, field by field.
fn tell(text: &mut String, line: &Line) -> Result<(), AllocError> {
    match line {
        Line::Open(opening) => {
            write!(text, "open {} {}", opening.expected, opening.peers.count())
        }
        Line::Apply { moment, command } => tell_command(text, moment, command),
        Line::Look { moment, key } => tell_key(text, "look", moment, key),
        Line::Counts { moment } => write!(text, "counts {}", moment.ms()),
        Line::Page { moment } => write!(text, "page {}", moment.ms()),
    }
}

/// Whether a line says this, field by field.
fn says(alloc: Global, line: &Line, wanted: &str) -> Result<bool, AllocError> {
    let mut text = String::new(alloc);
    tell(&mut text, line)?;
    Ok(text.as_str() == wanted)
}

/// Whether a line is read, and says this.
fn reads(alloc: Global, line: &str, wanted: &str) -> Result<bool, LineError> {
    let read = read_line(alloc, line.as_bytes())?;
    let says = says(alloc, &read, wanted);
    drop(read);
    Ok(says?)
}

/// Why a line is refused.
fn refusal(alloc: Global, line: &str) -> Option<LineError> {
    read_line(alloc, line.as_bytes()).err()
}

const READ: [(&str, &str); 34] = [
    // there is no peer where none is told
    ("open 0", "open 0 0"),
    ("open 4294967295", "open 4294967295 0"),
    ("open 1 0", "open 1 0"),
    ("open 1 00000000000000000008", "open 1 8"),
    (
        "register 5 my-app I-1 30 UP UNKNOWN 7 c",
        "register 5 MY-APP I-1 30 Up Unknown 7 false",
    ),
    // no seconds are 90, and no stamp is the moment
    (
        "register 4611686018427387904 A i 0 STARTING OUT_OF_SERVICE - r",
        "register 4611686018427387904 A i 90 Starting OutOfService 4611686018427387904 true",
    ),
    (
        "renew 5 a i 7 DOWN r",
        "renew 5 A i Some(7) Some(Down) true",
    ),
    (
        "renew 5 A i - UNKNOWN c",
        "renew 5 A i None Some(Unknown) false",
    ),
    (
        "renew 5 A i 9223372036854775807 - c",
        "renew 5 A i Some(9223372036854775807) None false",
    ),
    ("cancel 5 a i c", "cancel 5 A i false"),
    ("cancel 5 A i r", "cancel 5 A i true"),
    (
        "set 5 a i OUT_OF_SERVICE 7 r",
        "set 5 A i OutOfService Some(7) true",
    ),
    ("set 5 A i UP - c", "set 5 A i Up None false"),
    ("unset 5 a i UP 7 r", "unset 5 A i Some(Up) Some(7) true"),
    ("unset 5 A i - - c", "unset 5 A i None None false"),
    (
        "adopt 5 a i 2147483 DOWN UP 7",
        "adopt 5 A i 2147483 Down Up 7",
    ),
    ("adopt 5 A i 0 UP UNKNOWN -", "adopt 5 A i 90 Up Unknown 5"),
    ("roll 00000000000000000005", "roll 5"),
    ("update 5", "update 5"),
    ("evict 5", "evict 5"),
    ("config 5 on 50 30 60000", "config 5 true 50 30 60000"),
    ("config 5 off 0 1 0", "config 5 false 0 1 0"),
    (
        "config 4611686018427387904 on 100 3600 4294967295",
        "config 4611686018427387904 true 100 3600 4294967295",
    ),
    (
        "config 0 off 00000000000000000085 030 00",
        "config 0 false 85 30 0",
    ),
    ("drain 5 0", "drain 5 0"),
    (
        "drain 00000000000000000005 04294967295",
        "drain 5 4294967295",
    ),
    ("landed 5 1", "landed 5 1 []"),
    ("landed 5 1 100", "landed 5 1 [100]"),
    ("landed 5 1 999 0404 200", "landed 5 1 [999, 404, 200]"),
    ("lost 5 7", "lost 5 7"),
    ("look 5 a i", "look 5 A i"),
    ("counts 0", "counts 0"),
    ("page 00000000000000000007", "page 7"),
    ("page 4611686018427387904", "page 4611686018427387904"),
];

#[test]
fn lines_are_read(rt: HostRuntime) {
    for (line, wanted) in READ.as_slice() {
        assert!(rt; reads(rt.alloc(), line, wanted) == Ok(true), "at {line}");
    }
}

const BAD: [&str; 78] = [
    "",
    "open",
    "open 4294967296",
    "open +1",
    "open 1 ",
    "open 1 9",
    "open 1 -",
    "open 1 8 0",
    "open 1  1",
    " open 1",
    "OPEN 1",
    "close",
    "register 5 A i 90 UP UNKNOWN 5",
    "register 5 A i 90 UP - 5 c",
    "register 5 A i 90 - UP 5 c",
    "register 5 A i 2147484 UP UNKNOWN 5 c",
    "register 4611686018427387905 A i 90 UP UNKNOWN 5 c",
    "register 5  i 90 UP UNKNOWN 5 c",
    "renew 5 A i - c",
    "renew 5 A i - - -",
    "renew 5 A i - up c",
    "renew 5 A i 9223372036854775808 - c",
    "renew 5 A i - - c c",
    "cancel 5 A c",
    "set 5 A i - - c",
    "set 5 A i UP c",
    "unset 5 A i - c",
    "unset 5 A i GONE - c",
    "adopt 5 A i 90 UP UNKNOWN 5 r",
    "adopt 5 A i 90 UP UNKNOWN",
    "adopt - A i 90 UP UNKNOWN 5",
    "roll 000000000000000000005",
    "update",
    "evict 5 5",
    "config",
    "config 5",
    "config 5 on 85 30",
    "config 5 on 85 30 60000 0",
    "config 5 on 85 30 60000 ",
    "config 5 On 85 30 60000",
    "config 5 true 85 30 60000",
    "config 5 - 85 30 60000",
    "config 5 85 30 60000",
    "config on 85 30 60000",
    "config 4611686018427387905 on 85 30 60000",
    "config 5 on 101 30 60000",
    "config 5 on 4294967296 30 60000",
    "config 5 on 85 0 60000",
    "config 5 on 85 3601 60000",
    "config 5 on 85 30 4294967296",
    "config 5 on 85 30 -",
    "drain 5",
    "drain 4611686018427387905 0",
    "drain 5 4294967296",
    "drain 5 -1",
    "drain 5 0 0",
    "drain 5 0 ",
    "drain 5  0",
    "landed 5",
    "landed 5 4294967296 200",
    "landed 5 0 99",
    "landed 5 0 1000",
    "landed 5 0 200 x",
    "landed 5 0 200  404",
    "landed 5 0 ",
    "lost 5",
    "lost 5 4294967296",
    "lost 5 0 200",
    "lost 5  0",
    "look 5 A",
    "counts 5\r",
    "page",
    "page ",
    "page -",
    "page 5 A",
    "page 5 ",
    "page 4611686018427387905",
    "Page 5",
];

#[test]
fn bad_lines_are_refused(rt: HostRuntime) {
    for line in BAD.as_slice() {
        assert!(rt;
            refusal(rt.alloc(), line) == Some(LineError::Bad),
            "at {line}"
        );
    }
}
