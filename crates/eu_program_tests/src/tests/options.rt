//! The command line, from words to settings.
//!
//! A line has words, with a comma between them, ` = `, and what they say: the command; whether preservation is on, the percentage, the
//! interval and the time between evictions; the seed; the file of the journal; and of a server what its options say, how victims are drawn, and
//! the origin that is allowed.
use clap::ArgMatches;
use clap::error::ErrorKind;
use eu_base::{Config, Fault};
use eu_fixtures::{Told, are_so, first_wrong};
use eu_options::{
    command, config_of, connections_within, drawing_of, journal_of, origin_of, seed_of, serving_of,
};
use std::alloc::{AllocError, Global};

fn tell_settings(out: &mut String, config: Config) -> Result<(), AllocError> {
    write!(
        out,
        " {} {} {} {}",
        config.preservation,
        config.percent.value(),
        config.interval.secs(),
        config.evict_ms
    )
}

/// Writes what the words of a command say.
fn tell_command(out: &mut String, name: &str, found: &ArgMatches<'_>) -> Result<(), AllocError> {
    out.push_str(name)?;
    if let Some(config) = config_of(found) {
        tell_settings(out, config)?;
    }
    write!(out, " {:?} {:?}", seed_of(found), journal_of(found))?;
    match name {
        "serve" => {
            let (serving, drawing) = (serving_of(found), drawing_of(found));
            write!(out, " {serving:?} {drawing:?} {:?}", origin_of(found))
        }
        _ => Ok(()),
    }
}

/// Writes what the words say that were found.
fn tell_found(out: &mut String, matches: &ArgMatches<'_>) -> Result<(), AllocError> {
    match matches.subcommand() {
        Some((name, found)) => tell_command(out, name, found),
        None => out.push_str("no command"),
    }
}

/// Writes what words say.
fn tell_words<'a>(alloc: Global, words: &'a [&'a str], out: &mut String) -> Result<(), Fault> {
    match command(alloc)?.try_get_matches_from(words) {
        Ok(matches) => Ok(tell_found(out, &matches)?),
        Err(error) if error.kind() == ErrorKind::OutOfMemory => Err(Fault::OutOfMemory),
        Err(_) => Ok(out.push_str("refused")?),
    }
}

/// The command line.
#[derive(Drop)]
struct Options;

impl Told for Options {
    fn tell(&mut self, alloc: Global, said: &str, out: &mut String) -> Result<(), Fault> {
        let words: Vec<&str> = said.split(", ").collect(alloc)?;
        tell_words(alloc, words.as_slice(), out)
    }
}

/// An audit has the options of a script.
const SCRIPTS: &str = r#"eureka, script = script true 85 30 60000 None None
eureka, script, --preservation, off, --percent, 50, --interval, 10, --evict-ms, 5000 = script false 50 10 5000 None None
eureka, script, --seed, 18446744073709551615 = script true 85 30 60000 Some(18446744073709551615) None
eureka, script, --journal, day one.jsonl = script true 85 30 60000 None Some("day one.jsonl")
eureka, audit = audit true 85 30 60000 None None
eureka, audit, --percent, 50, --interval, 10 = audit true 50 10 60000 None None
eureka, audit, --journal, day one.jsonl = audit true 85 30 60000 None Some("day one.jsonl")"#;

#[test]
fn options_set_what_they_name(rt: HostRuntime) {
    assert_eq!(rt; first_wrong(rt.alloc(), &mut Options, SCRIPTS), None);
}

/// A server needs a port and just one of a number of sessions and `--forever`; it has one to sixteen workers, 1 to 1,000,000 connections, and
/// waits for 1 ms at least. A script's seed is a number.
const REFUSED: &str = r#"eureka = refused
eureka, listen = refused
eureka, script, --percent, 101 = refused
eureka, script, --interval, 0 = refused
eureka, script, --interval, 3601 = refused
eureka, script, --preservation, maybe = refused
eureka, script, --unknown, 1 = refused
eureka, script, --forever = refused
eureka, script, --seed, system = refused
eureka, audit, --seed, system = refused
eureka, serve, --sessions, 7 = refused
eureka, serve, --forever = refused
eureka, serve, --port, 8761 = refused
eureka, serve, --port, 8761, --sessions, 7, --forever = refused
eureka, serve, --port, 8761, --forever, 7 = refused
eureka, serve, --port, 8761, --until-input-ends = refused
eureka, serve, --port, 8761, --forever, --until-input-ends, 7 = refused
eureka, script, --until-input-ends = refused
eureka, serve, --port, 8761, --sessions, 7, --workers, 0 = refused
eureka, serve, --port, 8761, --sessions, 7, --workers, 17 = refused
eureka, serve, --port, 8761, --sessions, 7, --connections, 0 = refused
eureka, serve, --port, 8761, --sessions, 7, --connections, 1000001 = refused
eureka, serve, --port, 8761, --sessions, 7, --idle-ms, 0 = refused
eureka, serve, --port, 8761, --sessions, 7, --idle-ms, 4294967296 = refused
eureka, serve, --port, 8761, --sessions, 7, --request-ms, 0 = refused
eureka, serve, --port, 8761, --sessions, 7, --request-ms, 4294967296 = refused
eureka, serve, --port, 8761, --sessions, 7, --bind = refused
eureka, serve, --port, 8761, --sessions, 7, --accept-peers, maybe = refused
eureka, serve, --port, 8761, --sessions, 7, --accept-peers = refused
eureka, serve, --port, 8761, --sessions, 7, --max-body, 0 = refused
eureka, serve, --port, 8761, --sessions, 7, --max-body, 1048577 = refused
eureka, serve, --port, 8761, --sessions, 7, --max-body, 64k = refused
eureka, serve, --port, 8761, --sessions, 7, --allow-origin = refused
eureka, serve, --port, 8761, --sessions, 7, --allow-origin, https://a.example, --allow-origin, https://b.example = refused
eureka, script, --accept-peers, off = refused
eureka, serve, --port, 8761, --sessions, 7, --admin-port, 65536 = refused
eureka, serve, --port, 8761, --sessions, 7, --admin-port, x = refused
eureka, serve, --port, 8761, --sessions, 7, --admin-port = refused
eureka, script, --admin-port, 0 = refused
eureka, serve, --port, 8761, --sessions, 7, --warm-up-ms, 4294967296 = refused
eureka, audit, --allow-origin, https://a.example = refused"#;

#[test]
fn other_words_are_refused(rt: HostRuntime) {
    assert_eq!(rt; first_wrong(rt.alloc(), &mut Options, REFUSED), None);
}

const SERVERS: &str =
    r#"eureka, serve, --port, 8761, --sessions, 7 = serve true 85 30 60000 None None Some(Serving { port: 8761, bind: 127.0.0.1, admin_port: None, admin_bind: 127.0.0.1, sessions: Some(7), workers: 2, expected: 1, connections: 10000, idle_ms: 90000, request_ms: 10000, warm_up_ms: 0, until_input_ends: false, is_quiet: false, accepts_peers: true, most_body: 1048576 }) Some(FirstOnes) None
eureka, serve, --port, 0, --sessions, 0, --workers, 16, --expected, 500 = serve true 85 30 60000 None None Some(Serving { port: 0, bind: 127.0.0.1, admin_port: None, admin_bind: 127.0.0.1, sessions: Some(0), workers: 16, expected: 500, connections: 10000, idle_ms: 90000, request_ms: 10000, warm_up_ms: 0, until_input_ends: false, is_quiet: false, accepts_peers: true, most_body: 1048576 }) Some(FirstOnes) None
eureka, serve, --journal=x, --port, 0, --sessions, 0 = serve true 85 30 60000 None Some("x") Some(Serving { port: 0, bind: 127.0.0.1, admin_port: None, admin_bind: 127.0.0.1, sessions: Some(0), workers: 2, expected: 1, connections: 10000, idle_ms: 90000, request_ms: 10000, warm_up_ms: 0, until_input_ends: false, is_quiet: false, accepts_peers: true, most_body: 1048576 }) Some(FirstOnes) None
eureka, serve, --port, 0, --forever = serve true 85 30 60000 None None Some(Serving { port: 0, bind: 127.0.0.1, admin_port: None, admin_bind: 127.0.0.1, sessions: None, workers: 2, expected: 1, connections: 10000, idle_ms: 90000, request_ms: 10000, warm_up_ms: 0, until_input_ends: false, is_quiet: false, accepts_peers: true, most_body: 1048576 }) Some(FirstOnes) None
eureka, serve, --port, 0, --forever, --until-input-ends = serve true 85 30 60000 None None Some(Serving { port: 0, bind: 127.0.0.1, admin_port: None, admin_bind: 127.0.0.1, sessions: None, workers: 2, expected: 1, connections: 10000, idle_ms: 90000, request_ms: 10000, warm_up_ms: 0, until_input_ends: true, is_quiet: false, accepts_peers: true, most_body: 1048576 }) Some(FirstOnes) None
eureka, serve, --port, 0, --forever, --quiet = serve true 85 30 60000 None None Some(Serving { port: 0, bind: 127.0.0.1, admin_port: None, admin_bind: 127.0.0.1, sessions: None, workers: 2, expected: 1, connections: 10000, idle_ms: 90000, request_ms: 10000, warm_up_ms: 0, until_input_ends: false, is_quiet: true, accepts_peers: true, most_body: 1048576 }) Some(FirstOnes) None
eureka, serve, --port, 0, --sessions, 1, --bind, 10.0.0.7 = serve true 85 30 60000 None None Some(Serving { port: 0, bind: 10.0.0.7, admin_port: None, admin_bind: 127.0.0.1, sessions: Some(1), workers: 2, expected: 1, connections: 10000, idle_ms: 90000, request_ms: 10000, warm_up_ms: 0, until_input_ends: false, is_quiet: false, accepts_peers: true, most_body: 1048576 }) Some(FirstOnes) None
eureka, serve, --port, 0, --sessions, 1, --bind, 0.0.0.0 = serve true 85 30 60000 None None Some(Serving { port: 0, bind: 0.0.0.0, admin_port: None, admin_bind: 127.0.0.1, sessions: Some(1), workers: 2, expected: 1, connections: 10000, idle_ms: 90000, request_ms: 10000, warm_up_ms: 0, until_input_ends: false, is_quiet: false, accepts_peers: true, most_body: 1048576 }) Some(FirstOnes) None
eureka, serve, --port, 0, --sessions, 1, --bind, ::1 = serve true 85 30 60000 None None Some(Serving { port: 0, bind: ::1, admin_port: None, admin_bind: 127.0.0.1, sessions: Some(1), workers: 2, expected: 1, connections: 10000, idle_ms: 90000, request_ms: 10000, warm_up_ms: 0, until_input_ends: false, is_quiet: false, accepts_peers: true, most_body: 1048576 }) Some(FirstOnes) None
eureka, serve, --port, 0, --sessions, 1, --bind, :: = serve true 85 30 60000 None None Some(Serving { port: 0, bind: ::, admin_port: None, admin_bind: 127.0.0.1, sessions: Some(1), workers: 2, expected: 1, connections: 10000, idle_ms: 90000, request_ms: 10000, warm_up_ms: 0, until_input_ends: false, is_quiet: false, accepts_peers: true, most_body: 1048576 }) Some(FirstOnes) None
eureka, serve, --port, 0, --sessions, 1, --warm-up-ms, 4294967295 = serve true 85 30 60000 None None Some(Serving { port: 0, bind: 127.0.0.1, admin_port: None, admin_bind: 127.0.0.1, sessions: Some(1), workers: 2, expected: 1, connections: 10000, idle_ms: 90000, request_ms: 10000, warm_up_ms: 4294967295, until_input_ends: false, is_quiet: false, accepts_peers: true, most_body: 1048576 }) Some(FirstOnes) None
eureka, serve, --port, 0, --sessions, 1, --admin-port, 0 = serve true 85 30 60000 None None Some(Serving { port: 0, bind: 127.0.0.1, admin_port: Some(0), admin_bind: 127.0.0.1, sessions: Some(1), workers: 2, expected: 1, connections: 10000, idle_ms: 90000, request_ms: 10000, warm_up_ms: 0, until_input_ends: false, is_quiet: false, accepts_peers: true, most_body: 1048576 }) Some(FirstOnes) None
eureka, serve, --port, 8761, --sessions, 1, --bind, 0.0.0.0, --admin-port=65535, --admin-bind=::1 = serve true 85 30 60000 None None Some(Serving { port: 8761, bind: 0.0.0.0, admin_port: Some(65535), admin_bind: ::1, sessions: Some(1), workers: 2, expected: 1, connections: 10000, idle_ms: 90000, request_ms: 10000, warm_up_ms: 0, until_input_ends: false, is_quiet: false, accepts_peers: true, most_body: 1048576 }) Some(FirstOnes) None
eureka, serve, --port, 0, --sessions, 1, --connections, 1, --idle-ms, 1, --request-ms, 1 = serve true 85 30 60000 None None Some(Serving { port: 0, bind: 127.0.0.1, admin_port: None, admin_bind: 127.0.0.1, sessions: Some(1), workers: 2, expected: 1, connections: 1, idle_ms: 1, request_ms: 1, warm_up_ms: 0, until_input_ends: false, is_quiet: false, accepts_peers: true, most_body: 1048576 }) Some(FirstOnes) None
eureka, serve, --port, 0, --sessions, 1, --connections, 1000000, --idle-ms, 4294967295, --request-ms, 4294967294 = serve true 85 30 60000 None None Some(Serving { port: 0, bind: 127.0.0.1, admin_port: None, admin_bind: 127.0.0.1, sessions: Some(1), workers: 2, expected: 1, connections: 1000000, idle_ms: 4294967295, request_ms: 4294967294, warm_up_ms: 0, until_input_ends: false, is_quiet: false, accepts_peers: true, most_body: 1048576 }) Some(FirstOnes) None
eureka, serve, --port, 0, --sessions, 1, --seed, 7 = serve true 85 30 60000 Some(7) None Some(Serving { port: 0, bind: 127.0.0.1, admin_port: None, admin_bind: 127.0.0.1, sessions: Some(1), workers: 2, expected: 1, connections: 10000, idle_ms: 90000, request_ms: 10000, warm_up_ms: 0, until_input_ends: false, is_quiet: false, accepts_peers: true, most_body: 1048576 }) Some(Seeded(7)) None
eureka, serve, --port, 0, --sessions, 1, --seed, system = serve true 85 30 60000 None None Some(Serving { port: 0, bind: 127.0.0.1, admin_port: None, admin_bind: 127.0.0.1, sessions: Some(1), workers: 2, expected: 1, connections: 10000, idle_ms: 90000, request_ms: 10000, warm_up_ms: 0, until_input_ends: false, is_quiet: false, accepts_peers: true, most_body: 1048576 }) Some(FromSystem) None
eureka, serve, --port, 0, --sessions, 1, --max-body, 65536 = serve true 85 30 60000 None None Some(Serving { port: 0, bind: 127.0.0.1, admin_port: None, admin_bind: 127.0.0.1, sessions: Some(1), workers: 2, expected: 1, connections: 10000, idle_ms: 90000, request_ms: 10000, warm_up_ms: 0, until_input_ends: false, is_quiet: false, accepts_peers: true, most_body: 65536 }) Some(FirstOnes) None
eureka, serve, --port, 0, --sessions, 1, --max-body=1 = serve true 85 30 60000 None None Some(Serving { port: 0, bind: 127.0.0.1, admin_port: None, admin_bind: 127.0.0.1, sessions: Some(1), workers: 2, expected: 1, connections: 10000, idle_ms: 90000, request_ms: 10000, warm_up_ms: 0, until_input_ends: false, is_quiet: false, accepts_peers: true, most_body: 1 }) Some(FirstOnes) None
eureka, serve, --port, 0, --sessions, 1, --accept-peers, off = serve true 85 30 60000 None None Some(Serving { port: 0, bind: 127.0.0.1, admin_port: None, admin_bind: 127.0.0.1, sessions: Some(1), workers: 2, expected: 1, connections: 10000, idle_ms: 90000, request_ms: 10000, warm_up_ms: 0, until_input_ends: false, is_quiet: false, accepts_peers: false, most_body: 1048576 }) Some(FirstOnes) None
eureka, serve, --port, 0, --sessions, 1, --accept-peers, on, --preservation, off = serve false 85 30 60000 None None Some(Serving { port: 0, bind: 127.0.0.1, admin_port: None, admin_bind: 127.0.0.1, sessions: Some(1), workers: 2, expected: 1, connections: 10000, idle_ms: 90000, request_ms: 10000, warm_up_ms: 0, until_input_ends: false, is_quiet: false, accepts_peers: true, most_body: 1048576 }) Some(FirstOnes) None
eureka, serve, --port, 0, --sessions, 1, --allow-origin, https://site.example = serve true 85 30 60000 None None Some(Serving { port: 0, bind: 127.0.0.1, admin_port: None, admin_bind: 127.0.0.1, sessions: Some(1), workers: 2, expected: 1, connections: 10000, idle_ms: 90000, request_ms: 10000, warm_up_ms: 0, until_input_ends: false, is_quiet: false, accepts_peers: true, most_body: 1048576 }) Some(FirstOnes) Some("https://site.example")
eureka, serve, --port, 0, --sessions, 1, --allow-origin=null, --accept-peers=off = serve true 85 30 60000 None None Some(Serving { port: 0, bind: 127.0.0.1, admin_port: None, admin_bind: 127.0.0.1, sessions: Some(1), workers: 2, expected: 1, connections: 10000, idle_ms: 90000, request_ms: 10000, warm_up_ms: 0, until_input_ends: false, is_quiet: false, accepts_peers: false, most_body: 1048576 }) Some(FirstOnes) Some("null")"#;

#[test]
fn a_server_has_what_its_options_say(rt: HostRuntime) {
    assert_eq!(rt; first_wrong(rt.alloc(), &mut Options, SERVERS), None);
}

/// An address that is none, and a seed that is none.
const WRONG: &str =
    r#"eureka, serve, --port, 0, --sessions, 1, --bind, localhost = serve true 85 30 60000 None None None Some(FirstOnes) None
eureka, serve, --port, 0, --sessions, 1, --bind, 127.0.0.1:80 = serve true 85 30 60000 None None None Some(FirstOnes) None
eureka, serve, --port, 0, --sessions, 1, --bind, [::1] = serve true 85 30 60000 None None None Some(FirstOnes) None
eureka, serve, --port, 0, --sessions, 1, --bind, 127.0.0.256 = serve true 85 30 60000 None None None Some(FirstOnes) None
eureka, serve, --port, 0, --sessions, 1, --admin-bind, localhost = serve true 85 30 60000 None None None Some(FirstOnes) None
eureka, serve, --port, 0, --sessions, 1, --bind, 127.1 = serve true 85 30 60000 None None None Some(FirstOnes) None
eureka, serve, --port, 0, --sessions, 1, --bind, localhost, --seed, System = serve true 85 30 60000 None None None None None
eureka, serve, --port, 0, --sessions, 1, --bind, localhost, --seed, 18446744073709551616 = serve true 85 30 60000 None None None None None"#;

#[test]
fn an_address_and_a_seed_are_judged(rt: HostRuntime) {
    assert_eq!(rt; first_wrong(rt.alloc(), &mut Options, WRONG), None);
}

/// How many connections are wanted, how many descriptors there may be, whether operators connect, and how many connections there are at most then.
const WITHIN: [(u32, u64, bool, u32); 9] = [
    (10_000, 1_024, false, 960),
    (10_000, 1_024, true, 896),
    (960, 1_024, false, 960),
    (959, 1_024, false, 959),
    (10_000, 65, false, 1),
    (10_000, 64, false, 1),
    (10_000, 0, false, 1),
    (10_000, 128, true, 1),
    (1_000_000, u64::MAX, true, 1_000_000),
];

/// Each descriptor but 64 may be a connection's, or but 128 where operators connect.
#[test]
fn connections_are_as_many_as_descriptors_allow(rt: HostRuntime) {
    for (wanted, descriptors, has_operators, most) in WITHIN {
        assert_eq!(rt;
            connections_within(wanted, descriptors, has_operators),
            most
        );
    }
}

/// The line of a server, and what it says.
const SERVER: (&str, &str) = (
    "eureka, serve, --port, 8761, --sessions, 7",
    "serve true 85 30 60000 None None Some(Serving { port: 8761, bind: 127.0.0.1, admin_port: None, admin_bind: 127.0.0.1, sessions: Some(7), workers: 2, expected: 1, connections: 10000, idle_ms: 90000, request_ms: 10000, warm_up_ms: 0, until_input_ends: false, is_quiet: false, accepts_peers: true, most_body: 1048576 }) Some(FirstOnes) None",
);

/// What a line says, in room that was made for it before.
fn told(alloc: Global, said: &str) -> Result<String, Fault> {
    let mut out = String::with_capacity(alloc, 512)?;
    Options.tell(alloc, said, &mut out)?;
    Ok(out)
}

/// Whether a line says that.
fn is_said(alloc: Global, said: &str, wanted: &str) -> Result<bool, Fault> {
    let told = told(alloc, said)?;
    Ok(told.as_str() == wanted)
}

/// Whether it does at each of two calls, of which one may have found no memory.
fn is_said_twice(alloc: Global, said: &str, wanted: &str) -> bool {
    let first = is_said(alloc, said, wanted);
    are_so(first, is_said(alloc, said, wanted))
}

/// Want of memory is told as that. In a usual run no allocation is refused; `tools/sweep_memory.sh` refuses one after another.
#[test]
fn memory_options(rt: HostRuntime) {
    let (said, wanted) = SERVER;
    assert!(rt; is_said_twice(rt.alloc(), said, wanted));
}
