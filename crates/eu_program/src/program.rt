//! From the words of the command line to the exit status.
ghost use Rattle.std.specs.Prelude.{ℕ, ◌≡◌, ◌≢◌, ◌⊎◌, OnOk, Ok, Err, None, Some, true, false};
ghost use Rattle.clap.specs.Words.{kind_of};
ghost use Rattle.std.specs.declared.io.ErrorKind.TheVariants as io_kind;

use crate::end::{BAD_INPUT, DONE, End};
use crate::files::{create, open};
use crate::serving::serve;
use clap::error::ErrorKind;
use clap::{ArgMatches, Error};
use eu_base::{Config, Fault};
use eu_clock::{Chooser, FirstChooser, RngChooser};
use eu_http::Policy;
use eu_journal_audit::run_journal_audit;
use eu_options::{
    Drawing, Serving, address_of, command, config_of, drawing_of, journal_of, origin_of, seed_of,
    serving_of, text_of,
};
use eu_script::{run_audit, run_script, run_script_with_journal};
use std::net::{Net, TcpListener, TcpStream};
use std::random::RandomSource;
use std::rt::{Env, Files};
use std::sync::Wait;
use std::thread::Threads;
use std::time::Clock;
use std::{env, io};

/// Tells why the words were refused, or prints the help that they ask for. Gives the exit status.
fn tell_words<R: Print + Eprint>(rt: &R, error: &Error) -> u8
    ensures no_memory { kind_of error.now ≡ ErrorKind.OutOfMemory → result ≡ 3 }
    ensures help { kind_of error.now ≡ ErrorKind.DisplayHelp → result ≡ 0 }
    ensures version { kind_of error.now ≡ ErrorKind.DisplayVersion → result ≡ 0 }
    ensures mistake { kind_of error.now ≢ ErrorKind.OutOfMemory → kind_of error.now ≢ ErrorKind.DisplayHelp
        → kind_of error.now ≢ ErrorKind.DisplayVersion → result ≡ 2 }
{
    if error.kind() == ErrorKind::OutOfMemory {
        return End::Failed(Fault::OutOfMemory).tell(rt);
    }
    let _ = error.print(rt);
    if error.use_stderr() { BAD_INPUT } else { DONE }
}

/// Runs a script and writes its journal to that file, and gives the exit status. The file is created before anything is read.
fn run_with_journal<R: Files + Input + Print + Eprint + AllocGlobal, C: Chooser>(
    rt: &R,
    config: Config,
    path: &str,
    chooser: &mut C,
) -> u8
    ensures { (result ≡ 0) ⊎ ((result ≡ 2) ⊎ (result ≡ 3)) }
{
    let Some(mut journal) = create(rt, path) else {
        return End::Failed(Fault::Write).tell(rt);
    };
    let outcome = run_script_with_journal(
        rt.alloc(),
        &mut rt.reader(),
        &mut io::writer(rt),
        &mut journal,
        config,
        chooser,
    );
    End::of_script(outcome).tell(rt)
}

/// Runs a script, and gives the exit status. Its journal is written to the file of that path, where one is given.
fn run<R: Files + Input + Print + Eprint + AllocGlobal, C: Chooser>(
    rt: &R,
    config: Config,
    journal: Option<&str>,
    chooser: &mut C,
) -> u8
    ensures { (result ≡ 0) ⊎ ((result ≡ 2) ⊎ (result ≡ 3)) }
{
    if let Some(path) = journal {
        return run_with_journal(rt, config, path, chooser);
    }
    let ended = run_script(
        rt.alloc(),
        &mut rt.reader(),
        &mut io::writer(rt),
        config,
        chooser,
    );
    End::of_script(ended).tell(rt)
}

/// Audits a script, and gives the exit status.
fn audit<R: Input + Print + Eprint + AllocGlobal, C: Chooser>(
    rt: &R,
    config: Config,
    chooser: &mut C,
) -> u8
    ensures { (result ≡ 0) ⊎ ((result ≡ 2) ⊎ (result ≡ 3)) }
{
    let ended = run_audit(
        rt.alloc(),
        &mut rt.reader(),
        &mut io::writer(rt),
        config,
        chooser,
    );
    End::of_audit(ended).tell(rt)
}

/// Audits the journal in a file, and gives the exit status.
fn audit_file<R: Files + Print + Eprint + AllocGlobal>(rt: &R, path: &str) -> u8
    ensures { (result ≡ 0) ⊎ ((result ≡ 2) ⊎ (result ≡ 3)) }
{
    let Some(mut journal) = open(rt, path) else {
        return End::Failed(Fault::Read).tell(rt);
    };
    let ended = run_journal_audit(rt.alloc(), &mut journal, &mut io::writer(rt));
    End::of_journal_audit(ended).tell(rt)
}

/// The words of the command line. An error tells that there is no memory for them, or that one isn't UTF-8.
fn words_given<R: Env + AllocGlobal>(rt: &R) -> io::Result<Vec<String>> {
    let words = env::args(rt)?;
    Ok(words.collect(rt.alloc())?)
}

/// Tells why there are no words, if standard error takes it, and gives the exit status.
fn tell_no_words(rt: &impl Eprint, kind: io::ErrorKind) -> u8
    ensures no_memory { kind ≡ io_kind.OutOfMemory → result ≡ 3 }
    ensures mistake { kind ≢ io_kind.OutOfMemory → result ≡ 2 }
{
    match kind {
        io::ErrorKind::OutOfMemory => End::Failed(Fault::OutOfMemory).tell(rt),
        _ => {
            let _ = eprintln!(rt; "error: a word is not UTF-8");
            BAD_INPUT
        }
    }
}

/// Runs a script as the options say, and gives the exit status.
fn start_script<R: Files + Input + Print + Eprint + AllocGlobal>(
    rt: &R,
    matches: &ArgMatches<'_>,
) -> u8
    ensures { (result ≡ 0) ⊎ ((result ≡ 2) ⊎ (result ≡ 3)) }
{
    let Some(config) = config_of(matches) else {
        return BAD_INPUT;
    };
    let journal = journal_of(matches);
    match seed_of(matches) {
        Some(seed) => run(rt, config, journal, &mut RngChooser::seeded(seed)),
        None => run(rt, config, journal, &mut FirstChooser),
    }
}

/// Audits the journal of the file that the options name, or else a script, and gives the exit status.
fn start_audit<R: Files + Input + Print + Eprint + AllocGlobal>(
    rt: &R,
    matches: &ArgMatches<'_>,
) -> u8
    ensures { (result ≡ 0) ⊎ ((result ≡ 2) ⊎ (result ≡ 3)) }
{
    if let Some(path) = journal_of(matches) {
        return audit_file(rt, path);
    }
    let Some(config) = config_of(matches) else {
        return BAD_INPUT;
    };
    match seed_of(matches) {
        Some(seed) => audit(rt, config, &mut RngChooser::seeded(seed)),
        None => audit(rt, config, &mut FirstChooser),
    }
}

/// Tells why an option can't have the value that it was given, if standard error takes it, and gives the exit status.
fn tell_value(rt: &impl Eprint, option: &str, value: Option<&str>, why: &str) -> u8
    ensures { result ≡ 2 }
{
    let value = value.unwrap_or("");
    let _ = eprintln!(rt;
        "error: invalid value '{value}' for '{option}': {why}\n\nFor more information, try '--help'."
    );
    BAD_INPUT
}

/// Tells which of a server's two addresses isn't one, and gives the exit status.
fn tell_address(rt: &impl Eprint, matches: &ArgMatches<'_>) -> u8
    ensures { result ≡ 2 }
{
    let (name, option) = if address_of(matches, "bind").is_some() {
        ("admin-bind", "--admin-bind <ADDRESS>")
    } else {
        ("bind", "--bind <ADDRESS>")
    };
    tell_value(rt, option, text_of(matches, name), "not an IP address")
}

/// A seed that the system draws, which standard error is told. None where it draws none, and standard error is told why.
fn draw_seed<R: RandomSource + Eprint>(rt: &R) -> Option<u64> {
    let mut bytes = [0; 8];
    match rt.fill_bytes(&mut bytes) {
        Ok(()) => {
            let seed = u64::from_le_bytes(bytes);
            let _ = eprintln!(rt; "seed {seed}");
            Some(seed)
        }
        Err(error) => {
            let _ = eprintln!(rt; "the system draws no seed: {error}");
            None
        }
    }
}

/// Serves as the options say, with victims that are drawn so, and gives the exit status.
fn serve_drawing<
    R: Threads
        + Wait
        + Clock
        + Net<Listener = TcpListener, Stream = TcpStream>
        + Files
        + RandomSource
        + Print
        + Eprint
        + AllocGlobal
        + Sync,
>(
    rt: &R,
    config: Config,
    serving: Serving,
    policy: Policy,
    journal: Option<&str>,
    drawing: Drawing,
) -> u8
    ensures { (result ≡ 0) ⊎ ((result ≡ 2) ⊎ (result ≡ 3)) }
{
    let seed = match drawing {
        Drawing::FirstOnes => return serve(rt, config, serving, policy, journal, FirstChooser),
        Drawing::Seeded(seed) => Some(seed),
        Drawing::FromSystem => draw_seed(rt),
    };
    match seed {
        Some(seed) => serve(
            rt,
            config,
            serving,
            policy,
            journal,
            RngChooser::seeded(seed),
        ),
        None => End::Failed(Fault::Read).tell(rt),
    }
}

/// Serves as the options say, and gives the exit status.
fn start_server<
    R: Threads
        + Wait
        + Clock
        + Net<Listener = TcpListener, Stream = TcpStream>
        + Files
        + RandomSource
        + Print
        + Eprint
        + AllocGlobal
        + Sync,
>(rt: &R, matches: &ArgMatches<'_>) -> u8
    ensures { (result ≡ 0) ⊎ ((result ≡ 2) ⊎ (result ≡ 3)) }
{
    let Some(config) = config_of(matches) else {
        return BAD_INPUT;
    };
    let Some(serving) = serving_of(matches) else {
        return tell_address(rt, matches);
    };
    let Some(drawing) = drawing_of(matches) else {
        let seed = text_of(matches, "seed");
        return tell_value(rt, "--seed <N|system>", seed, "neither a u64 nor `system`");
    };
    let origin = origin_of(matches);
    let most_body = serving.most_body as usize;
    let Ok(policy) = Policy::new(rt.alloc(), serving.accepts_peers, most_body, origin) else {
        return End::Failed(Fault::OutOfMemory).tell(rt);
    };
    let journal = journal_of(matches);
    serve_drawing(rt, config, serving, policy, journal, drawing)
}

/// Judges the words, and then does what they say: `eureka script` runs a script from standard input to standard output, `eureka audit`
/// audits one, or the journal of a file that the words name, `eureka serve` serves HTTP. A script and a server write their journal at the
/// end to the file that the words name, if they do; it is created before anything is read, or a connection taken. Gives the exit status: 0 where that is done, of an audit with the
/// answer yes, 2 for bad words and for a bad line, 3 for any other fault, and where an audit's answer is no.
pub fn start<
    R: Threads
        + Wait
        + Clock
        + Net<Listener = TcpListener, Stream = TcpStream>
        + Files
        + Env
        + RandomSource
        + Input
        + Print
        + Eprint
        + AllocGlobal
        + Sync,
>(rt: &R) -> u8
    ensures { (result ≡ 0) ⊎ ((result ≡ 2) ⊎ (result ≡ 3)) }
{
    let words = match words_given(rt) {
        Ok(words) => words,
        Err(error) => return tell_no_words(rt, error.kind()),
    };
    let Ok(command) = command(rt.alloc()) else {
        return End::Failed(Fault::OutOfMemory).tell(rt);
    };
    let matches = match command.try_get_matches_from(words.as_slice()) {
        Ok(matches) => matches,
        Err(error) => return tell_words(rt, &error),
    };
    match matches.subcommand() {
        Some(("script", matches)) => start_script(rt, matches),
        Some(("audit", matches)) => start_audit(rt, matches),
        Some(("serve", matches)) => start_server(rt, matches),
        _ => BAD_INPUT,
    }
}
