//! Whole runs of the program, as text.
//!
//! A line has the words of a command line, ` = `, and what is to come of them: the exit status, and what is written to standard output and to
//! standard error, as Rust writes texts; a `*` stands for anything, and there is one at most. Other lines tell what the runs behind them have:
//!
//! - `< LINE; LINE` has these lines on standard input, as long as no other are told;
//! - `broken output`, in the words of `Broken`, has something not work.
use crate::tests::client::{Client, Step};
use crate::tests::files::Place;
use crate::tests::fits::fits;
use crate::tests::machine::{Broken, Machine, Told};
use eu_base::Fault;
use eu_program::start;
use std::alloc::{AllocError, Global};
use std::io::{Error, ErrorKind};
use std::net::{Ipv4Addr, Net, SocketAddr, TcpListener, TcpStream};
use std::sync::{Mutex, Wait};
use std::test::Fail;
use std::thread::Threads;
use std::time::{Clock, Duration};
use std::{io, str, thread};

/// What the runs behind a line have.
#[derive(Drop)]
struct Setting {
    input: String,
    broken: Broken,
}

fn broken_of(name: &str) -> Result<Broken, Fault> {
    match name {
        "words" => Ok(Broken::Words),
        "accept" => Ok(Broken::Accept),
        "clock" => Ok(Broken::Clock),
        "output" => Ok(Broken::Output),
        "input" => Ok(Broken::Input),
        "random" => Ok(Broken::Random),
        _ => Err(Fault::BadValue),
    }
}

impl Setting {
    fn put_input(&mut self, lines: &str) -> Result<(), AllocError> {
        self.input.clear();
        for line in lines.split("; ") {
            self.input.push_str(line)?;
            self.input.push_str("\n")?;
        }
        Ok(())
    }

    /// Takes a line that tells what the runs behind it have. Whether it is one.
    fn take(&mut self, line: &str) -> Result<bool, Fault> {
        if let Some(lines) = line.strip_prefix("< ") {
            self.put_input(lines)?;
            return Ok(true);
        }
        match line.strip_prefix("broken ") {
            Some(name) => {
                self.broken = broken_of(name)?;
                Ok(true)
            }
            None => Ok(false),
        }
    }
}

/// Behind what a server tells the port of its clients, and that of operators.
const CLIENTS: &str = "listening on 127.0.0.1:";

const OPERATORS: &str = "admin on 127.0.0.1:";

/// The port of the line that a server writes so once it listens.
fn port_of(told: &[u8], front: &str) -> Option<u16> {
    for line in str::from_utf8(told).unwrap_or("").lines() {
        if let Some(port) = line.strip_prefix(front) {
            return port.parse::<u16>().ok();
        }
    }
    None
}

/// Whether a server tells such a line at its start: where it listens, a seed, or by which limit it has fewer connections than were asked for.
fn is_of_start(line: &str) -> bool {
    let is_limit = line.starts_with("at most ") && line.contains(": the limit of descriptors is ");
    is_limit
        || line.starts_with("listening on ")
        || line.starts_with("admin on ")
        || line.starts_with("seed ")
}

/// Whether a server tells such a line later, unless it is quiet.
fn is_message(line: &str) -> bool {
    line.starts_with("leases evicted: ")
        || line.starts_with("evictions ")
        || line.starts_with("connections refused: ")
}

/// Whether a server tells nothing but its start, and what one tells that isn't quiet.
fn tells_no_more(told: &[u8], is_quiet: bool) -> bool {
    for line in str::from_utf8(told).unwrap_or("?").lines() {
        if !is_of_start(line) && (is_quiet || !is_message(line)) {
            return false;
        }
    }
    port_of(told, CLIENTS).is_some()
}

/// The address at which a machine's server tells so to listen, once it does.
fn address_told<R: Wait + Clock>(machine: &Machine<'_, R>, front: &str) -> io::Result<SocketAddr> {
    for _turn in 0..1_000 {
        if let Some(port) = port_of(&machine.told.err.lock(machine.rt), front) {
            return Ok(SocketAddr::from((Ipv4Addr::LOCALHOST, port)));
        }
        thread::sleep(machine.rt, Duration::from_millis(10));
    }
    Err(Error::from(ErrorKind::TimedOut))
}

/// Whether a client of a machine's server reads all that it is to.
fn is_served<R: Wait + Clock + Net<Stream = TcpStream>>(
    machine: &Machine<'_, R>,
    steps: &[Step],
) -> io::Result<bool> {
    if steps.is_empty() {
        return Ok(true);
    }
    let address = address_told(machine, CLIENTS)?;
    let operators = if machine.words.contains(&"--admin-port") {
        address_told(machine, OPERATORS)?
    } else {
        address
    };
    let mut client = Client::new(machine.rt, machine.alloc, address, operators)?;
    Ok(client.first_wrong(steps).is_none())
}

/// Writes what was written.
fn tell<R: Wait>(rt: &R, kept: &Mutex<Vec<u8>>, out: &mut String) -> Result<(), AllocError> {
    let kept = kept.lock(rt);
    let text = str::from_utf8(&kept).unwrap_or("no text");
    write!(out, " {text:?}")
}

/// Runs the program with these words, and a client beside it. The exit status, and whether the client reads all that it is to.
fn run<'a, R: Threads + Wait + Clock + Net<Listener = TcpListener, Stream = TcpStream> + Sync>(
    rt: &'a R,
    alloc: Global,
    place: &'a Place,
    steps: &[Step],
    setting: &'a Setting,
    words: &'a [&'a str],
    told: &'a Told,
) -> (u8, bool) {
    let machine = Machine {
        rt,
        alloc,
        words,
        input: setting.input.as_str(),
        broken: setting.broken,
        place,
        told,
    };
    thread::join(
        rt,
        || start(&machine),
        || is_served(&machine, steps).unwrap_or(false),
    )
}

/// Whether a run with these words is as it is to be. Of a server with a client, standard error is told its start and messages alone, and of a quiet one
/// no message.
fn is_so<R: Threads + Wait + Clock + Net<Listener = TcpListener, Stream = TcpStream> + Sync>(
    rt: &R,
    alloc: Global,
    place: &Place,
    steps: &[Step],
    setting: &Setting,
    line: (&str, &str),
) -> Result<bool, Fault> {
    let words: Vec<&str> = line.0.split(' ').collect(alloc)?;
    let told = Told::new(alloc);
    let (status, is_served) = run(rt, alloc, place, steps, setting, words.as_slice(), &told);
    let is_quiet = words.as_slice().contains(&"--quiet");
    let is_alone = steps.is_empty() || tells_no_more(&told.err.lock(rt), is_quiet);
    let mut out = format!(in alloc; "{status}")?;
    tell(rt, &told.out, &mut out)?;
    tell(rt, &told.err, &mut out)?;
    Ok(is_served && is_alone && fits(&out, line.1))
}

/// Whether a line is so.
fn comes<R: Threads + Wait + Clock + Net<Listener = TcpListener, Stream = TcpStream> + Sync>(
    rt: &R,
    alloc: Global,
    place: &Place,
    steps: &[Step],
    setting: &mut Setting,
    line: &str,
) -> Result<bool, Fault> {
    match line.split_once(" = ") {
        Some(line) => is_so(rt, alloc, place, steps, setting, line),
        None => setting.take(line),
    }
}

/// The number, from 1, of the first line of a text that can't be read, or of which something else comes: at machines with this file, and with
/// a client that does these steps, where there are any.
pub fn first_wrong<
    R: Threads + Wait + Clock + Net<Listener = TcpListener, Stream = TcpStream> + Sync,
>(rt: &R, alloc: Global, place: &Place, text: &str, steps: &[Step]) -> Option<usize> {
    let mut setting = Setting {
        input: String::new(alloc),
        broken: Broken::Nothing,
    };
    let mut number = 0usize;
    for line in text.lines() {
        number = number.saturating_add(1);
        if comes(rt, alloc, place, steps, &mut setting, line) != Ok(true) {
            return Some(number);
        }
    }
    None
}

/// The same at machines without a file at first.
pub fn plays<R: Threads + Wait + Clock + Net<Listener = TcpListener, Stream = TcpStream> + Sync>(
    rt: &R,
    alloc: Global,
    text: &str,
    steps: &[Step],
) -> Option<usize> {
    let place: Place = Mutex::new(None);
    first_wrong(rt, alloc, &place, text, steps)
}

/// Four leases that have expired, an eviction by which two of them may go, and the status page, where 4 + 4 - 2 are expected. The words of PCG
/// XSH RR 64/32 for the seeds, as another program computes them, draw the victims; without a seed the first go.
///
/// Then an eviction that comes later after the one before than `--evict-ms` says, which gives each lease as much time more; and the status
/// page without options.
const SCRIPTS: &str =
    r#"< open 4; register 0 A i0 1 UP UNKNOWN 0 c; register 0 A i1 1 UP UNKNOWN 0 c; register 0 A i2 1 UP UNKNOWN 0 c; register 0 A i3 1 UP UNKNOWN 0 c; evict 10000; page 10000
eureka script --preservation off --percent 50 --interval 20 --seed 3 = 0 "opened\n204\n204\n204\n204\nevicted 2 A i3 A i1\nheld 2\nexpected 6\nthreshold 9\nlast 0\npreservation off\npermitted yes\nstatuses UP_2_\n" ""
eureka script --preservation off --percent 50 --interval 20 --seed 42 = 0 "opened\n204\n204\n204\n204\nevicted 2 A i0 A i2\nheld 2\nexpected 6\nthreshold 9\nlast 0\npreservation off\npermitted yes\nstatuses UP_2_\n" ""
eureka script --preservation off --percent 50 --interval 20 --seed 7 = 0 "opened\n204\n204\n204\n204\nevicted 2 A i1 A i3\nheld 2\nexpected 6\nthreshold 9\nlast 0\npreservation off\npermitted yes\nstatuses UP_2_\n" ""
eureka script --preservation off --percent 50 --interval 20 --seed 3 --journal kept.journal = 0 "opened\n204\n204\n204\n204\nevicted 2 A i3 A i1\nheld 2\nexpected 6\nthreshold 9\nlast 0\npreservation off\npermitted yes\nstatuses UP_2_\n" ""
eureka script --preservation off --percent 50 --interval 20 = 0 "opened\n204\n204\n204\n204\nevicted 2 A i0 A i1\nheld 2\nexpected 6\nthreshold 9\nlast 0\npreservation off\npermitted yes\nstatuses UP_2_\n" ""
< open 1; evict 0; register 0 A i0 1 UP UNKNOWN 0 c; evict 10000
eureka script --preservation off --evict-ms 500 = 0 "opened\nevicted 0\n204\nevicted 0\n" ""
< open 1; page 0
eureka script = 0 "opened\nheld 0\nexpected 1\nthreshold 1\nlast 0\npreservation on\npermitted no\nstatuses \n" """#;

#[test]
fn a_script_goes_by_its_options(rt: HostRuntime) {
    assert_eq!(rt; plays(&rt, rt.alloc(), SCRIPTS, &[]), None);
}

/// A script of no line; and such a script as above, with a renewal of i0, and what a peer is to be told of it. Where i0 went, nothing is to be told,
/// and the last line is refused. What isn't refused is an entry: seven where i0 stays, as by the words of the seed 3, and six where it goes, as
/// by those of 42.
const AUDITS: &str = r#"eureka audit = 0 "audit yes 0\n" ""
< open 4 1; register 0 A i0 1 UP UNKNOWN 0 r; register 0 A i1 1 UP UNKNOWN 0 r; register 0 A i2 1 UP UNKNOWN 0 r; register 0 A i3 1 UP UNKNOWN 0 r; evict 10000; renew 10000 A i0 - - c; drain 10000 0
eureka audit --preservation off --percent 50 --interval 20 --seed 3 = 0 "audit yes 7\n" ""
eureka audit --preservation off --percent 50 --interval 20 --seed 42 = 0 "audit yes 6\n" ""
eureka audit --preservation off --percent 50 --interval 20 = 0 "audit yes 6\n" ""
< open 1; register 0 A i1 90 UP UNKNOWN 0 c; renew 30000 A i1 - - c; counts 30000; page 30000
eureka audit --seed 3 = 0 "audit yes 2\n" """#;

#[test]
fn an_audit_goes_by_its_options(rt: HostRuntime) {
    assert_eq!(rt; plays(&rt, rt.alloc(), AUDITS, &[]), None);
}

/// Help, words that are refused, bad lines, and words that are no text.
const MISTAKES: &str =
    r#"eureka --help = 0 "A proved lease registry\n\nUsage: eureka <COMMAND>\n*" ""
eureka --version = 0 "eureka 1.0.0\n" ""
eureka script --interval 0 = 2 "" "error: invalid value '0' for '--interval <SECONDS>': *"
eureka script --seed system = 2 "" "error: invalid value 'system' for '--seed <N>': *"
eureka serve --sessions 0 = 2 "" "error: the following required arguments were not provided:\n  --port <N>\n*"
eureka serve --port 0 = 2 "" "error: the following required arguments were not provided:\n  --sessions <N>\n*"
eureka serve --port 0 --sessions 0 --forever = 2 "" "error: the argument '--sessions <N>' cannot be used with '--forever'\n*"
eureka serve --port 0 --sessions 0 --bind localhost = 2 "" "error: invalid value 'localhost' for '--bind <ADDRESS>': not an IP address\n\nFor more information, try '--help'.\n"
eureka serve --port 0 --sessions 0 --admin-bind localhost = 2 "" "error: invalid value 'localhost' for '--admin-bind <ADDRESS>': not an IP address\n\nFor more information, try '--help'.\n"
eureka serve --port 0 --sessions 0 --seed x = 2 "" "error: invalid value 'x' for '--seed <N|system>': neither a u64 nor `system`\n\nFor more information, try '--help'.\n"
eureka serve --port 0 --sessions 0 --accept-peers maybe = 2 "" "error: invalid value 'maybe' for '--accept-peers <on|off>'*"
eureka serve --port 0 --sessions 0 --connections 0 = 2 "" "error: invalid value '0' for '--connections <N>': *"
eureka serve --port 0 --sessions 0 --idle-ms 0 = 2 "" "error: invalid value '0' for '--idle-ms <MS>': *"
eureka serve --port 0 --sessions 0 --request-ms 0 = 2 "" "error: invalid value '0' for '--request-ms <MS>': *"
< open 1; counts x
eureka audit = 2 "" "line 2: bad line\n"
eureka script = 2 "opened\n" "line 2: bad line\n"
< open 1
broken words
eureka script = 2 "" "error: a word is not UTF-8\n""#;

#[test]
fn bad_words_and_bad_lines_are_told(rt: HostRuntime) {
    assert_eq!(rt; plays(&rt, rt.alloc(), MISTAKES, &[]), None);
}

/// What isn't accepted, read or taken.
const FAULTS: &str = r#"broken accept
eureka serve --port 0 --sessions 1 = 3 "" "listening on 127.0.0.1:*\nfault 40\n"
broken clock
eureka serve --port 0 --sessions 0 = 3 "" "listening on 127.0.0.1:*\nfault 40\n"
eureka serve --port 0 --forever = 3 "" "listening on 127.0.0.1:*\nfault 40\n"
broken random
eureka serve --port 0 --sessions 0 --seed 3 = 3 "" "the system draws no key for the tables: *\nfault 40\n"
eureka serve --port 0 --sessions 0 --seed system = 3 "" "the system draws no seed: *\nfault 40\n"
broken output
eureka serve --port 0 --sessions 0 = 3 "" "listening on 127.0.0.1:*\nfault 41\n"
< open 1
eureka script = 3 "" "fault 41\n"
eureka audit = 3 "" "fault 41\n"
broken input
eureka script = 3 "" "fault 40\n"
eureka audit = 3 "" "fault 40\n""#;

#[test]
fn what_does_not_work_is_told_by_its_fault(rt: HostRuntime) {
    assert_eq!(rt; plays(&rt, rt.alloc(), FAULTS, &[]), None);
}

/// Whether a port that is taken is told by its fault.
fn is_told<R: Threads + Wait + Clock + Net<Listener = TcpListener, Stream = TcpStream> + Sync>(
    rt: &R,
    alloc: Global,
    taken: &TcpListener,
) -> io::Result<bool> {
    let port = taken.local_addr()?.port();
    let line = format!(in alloc;
        "eureka serve --port {port} --sessions 0 = 3 \"\" \"127.0.0.1:{port}: Address already in use (os error 98)\\nfault 40\\n\""
    )?;
    Ok(plays(rt, alloc, &line, &[]).is_none())
}

#[test]
fn a_port_that_is_taken_is_told_by_its_fault(rt: HostRuntime) -> Result<(), Fail> {
    let taken = TcpListener::bind(&rt, "127.0.0.1:0")?;
    assert!(rt; is_told(&rt, rt.alloc(), &taken)?);
    Ok(())
}
