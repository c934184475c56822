//! The options of the command line, and what their values say.
ghost use Rattle.std.specs.Prelude.{ℕ, Bool, [], ◌∷◌, ◌≡◌, ◌≤◌, ◌<◌, ◌^◌, false, codes, map, option_map, None, Some, IfOk, IfSome, IsSome};
ghost use Rattle.clap.specs.Words.{rule_of, app_of, new_app, first_value, found_of};
ghost use Rattle.clap.specs.declared.builder.command.Command.TheViews.{out-Command};
ghost use Rattle.std.specs.declared.net.ip_addr.IpAddr.{IpAddr};
ghost use Rattle.eu_options.specs.declared.serving.Drawing.{Drawing};
ghost use Rattle.eu_options.specs.declared.serving.Drawing.TheVariants.{FirstOnes, Seeded, FromSystem};
ghost use Rattle.eu_options.specs.declared.serving.Serving.{Serving};
ghost use Rattle.eu_options.specs.Options.{option_rule, needed_rule, address_rule, admin_port_rule, drawing_rule, forever_rule, until_rule, quiet_rule, sessions_rule, origin_rule, with_journal, with_address, with_limits, with_options, with_policy, with_quiet, with_server_options, with_settings, with_work, seed_rule, program_app, IsSwitch, IsSwitchParser, IsAddress, IsAdminPort, IsConfig, IsDrawing, IsEnd, IsFlag, IsNumber, IsServing};

use crate::serving::{Drawing, Serving};
use clap::builder::ValueParser;
use clap::{Arg, ArgAction, ArgMatches, Command, value_parser};
use eu_admin::VERSION;
use eu_base::Config;
use eu_gate::MOST_WORKERS;
use std::alloc::{AllocError, Global};
use std::net::IpAddr;

/// The words of an option that is on or off.
static SWITCH: [&str; 2] = ["on", "off"];

/// The most connections at once that a server may be asked to have.
const MOST_CONNECTIONS: u32 = 1_000_000;

/// The most bytes of a body that a server may be asked to take: as many as are read.
const MOST_BODY: u32 = 1_048_576;

/// What `--journal` does at a command that makes a journal.
const WRITES_JOURNAL: &str =
    "Writes the journal to this file at the end; what the file held before is lost";

/// The option `--NAME VALUE`, with the value that it has where it isn't given.
fn option<'a>(
    alloc: Global,
    name: &'a str,
    value_name: &'a str,
    parser: ValueParser<'a>,
    default: &'a str,
) -> Arg<'a>
    ensures rule { rule_of result ≡ option_rule name.entry.now parser.entry default.entry.now }
    ensures local { result.global ≡ false }
{
    Arg::new(alloc, name)
        .long(name)
        .value_name(value_name)
        .value_parser(parser)
        .default_value(default)
}

/// The option `--NAME N`, which has to be given.
fn needed<'a>(alloc: Global, name: &'a str, parser: ValueParser<'a>) -> Arg<'a>
    ensures rule { rule_of result ≡ needed_rule name.entry.now parser.entry }
    ensures local { result.global ≡ false }
{
    Arg::new(alloc, name)
        .long(name)
        .value_name("N")
        .value_parser(parser)
        .required(true)
}

/// The option `--seed N`, which may be left out.
fn seed_option<'a>(alloc: Global) -> Arg<'a>
    ensures rule { rule_of result ≡ seed_rule }
    ensures local { result.global ≡ false }
{
    Arg::new(alloc, "seed")
        .long("seed")
        .value_name("N")
        .value_parser(value_parser!(u64))
        .help(
            "Draws the victims of an eviction by a generator with this seed; without it, the first are taken",
        )
}

/// The options that say how a registry is set.
fn with_settings<'a>(alloc: Global, command: Command<'a>) -> Result<Command<'a>, AllocError>
    ensures app { IfOk result (λ c. (switch : _) × IsSwitchParser switch × (app_of c ≡ with_settings (app_of command.entry) switch)) }
    ensures local { (out-Command command.entry).has_globals ≡ false → IfOk result (λ c. (out-Command c).has_globals ≡ false) }
{
    let switch = ValueParser::from(SWITCH.as_slice());
    let preservation = option(alloc, "preservation", "on|off", switch, "on").help(
        "Whether eviction stops when too many renewals are missing",
    );
    let percent = option(
        alloc,
        "percent",
        "N",
        value_parser!(u32).range(0..=100),
        "85",
    )
    .help("The share of the expected renewals, in percent, above which eviction goes on");
    let interval = option(
        alloc,
        "interval",
        "SECONDS",
        value_parser!(u32).range(1..=3600),
        "30",
    )
    .help("The time between two renewals of a client");
    let evict_ms = option(alloc, "evict-ms", "MS", value_parser!(u32), "60000").help(
        "The time between two evictions",
    );
    command
        .arg(preservation)?
        .arg(percent)?
        .arg(interval)?
        .arg(evict_ms)
}

/// The options of a script: how a registry is set, and how the victims of an eviction are drawn.
fn with_options<'a>(alloc: Global, command: Command<'a>) -> Result<Command<'a>, AllocError>
    ensures app { IfOk result (λ c. (switch : _) × IsSwitchParser switch × (app_of c ≡ with_options (app_of command.entry) switch)) }
    ensures local { (out-Command command.entry).has_globals ≡ false → IfOk result (λ c. (out-Command c).has_globals ≡ false) }
{
    with_settings(alloc, command)?.arg(seed_option(alloc))
}

/// The option `--seed N|system` of a server, which may be left out.
fn drawing_option<'a>(alloc: Global) -> Arg<'a>
    ensures rule { rule_of result ≡ drawing_rule }
    ensures local { result.global ≡ false }
{
    Arg::new(alloc, "seed")
        .long("seed")
        .value_name("N|system")
        .help(
            "Draws the victims of an eviction by a generator with this seed, or with one that the system draws, which is told; without it, the first are taken",
        )
}

/// The option `--NAME ADDRESS`.
fn address_option<'a>(alloc: Global, name: &'a str) -> Arg<'a>
    ensures rule { rule_of result ≡ address_rule name.entry.now }
    ensures local { result.global ≡ false }
{
    Arg::new(alloc, name)
        .long(name)
        .value_name("ADDRESS")
        .default_value("127.0.0.1")
        .help("The IP address to listen on, as ::1; 0.0.0.0 and :: are all of this machine's")
}

/// The option `--admin-port N`, which may be left out.
fn admin_port_option<'a>(alloc: Global) -> Arg<'a>
    ensures rule { rule_of result ≡ admin_port_rule }
    ensures local { result.global ≡ false }
{
    Arg::new(alloc, "admin-port")
        .long("admin-port")
        .value_name("N")
        .value_parser(value_parser!(u16))
        .help(
            "The port of operators: a page, /metrics and /health; 0 has the system choose one, which is told; without it, there is none",
        )
}

/// The option `--sessions N`, which has to be given unless `--forever` is, and may not be given with it.
fn sessions_option<'a>(alloc: Global) -> Result<Arg<'a>, AllocError>
    ensures rule { IfOk result (λ a. rule_of a ≡ sessions_rule) }
    ensures local { IfOk result (λ a. a.global ≡ false) }
    ensures unless { IfOk result (λ a. map (λ s. s.now) a.r_unless.items ≡ codes "forever" ∷ []) }
    ensures conflicts { IfOk result (λ a. map (λ s. s.now) a.conflicts.items ≡ codes "forever" ∷ []) }
{
    Arg::new(alloc, "sessions")
        .long("sessions")
        .value_name("N")
        .value_parser(value_parser!(u32))
        .help("How many connections are served before the server ends")
        .required_unless_present("forever")?
        .conflicts_with("forever")
}

/// The option `--forever`.
fn forever_option<'a>(alloc: Global) -> Arg<'a>
    ensures rule { rule_of result ≡ forever_rule }
    ensures local { result.global ≡ false }
{
    Arg::new(alloc, "forever")
        .long("forever")
        .action(ArgAction::SetTrue)
        .help("Serves without an end by a number of connections")
}

/// The option `--until-input-ends`.
fn until_option<'a>(alloc: Global) -> Arg<'a>
    ensures rule { rule_of result ≡ until_rule }
    ensures local { result.global ≡ false }
{
    Arg::new(alloc, "until-input-ends")
        .long("until-input-ends")
        .action(ArgAction::SetTrue)
        .help("Ends at the end of standard input, too, which has to be a pipe or a socket")
}

/// The option `--quiet`.
fn quiet_option<'a>(alloc: Global) -> Arg<'a>
    ensures rule { rule_of result ≡ quiet_rule }
    ensures local { result.global ≡ false }
{
    Arg::new(alloc, "quiet")
        .long("quiet")
        .action(ArgAction::SetTrue)
        .help("Tells nothing of evictions and of connections that are refused")
}

/// The options that say where a server listens.
fn with_address<'a>(alloc: Global, command: Command<'a>) -> Result<Command<'a>, AllocError>
    ensures app { IfOk result (λ c. app_of c ≡ with_address (app_of command.entry)) }
    ensures local { (out-Command command.entry).has_globals ≡ false → IfOk result (λ c. (out-Command c).has_globals ≡ false) }
{
    let port = needed(alloc, "port", value_parser!(u16)).help(
        "The port to listen on; 0 has the system choose one, which is told",
    );
    command
        .arg(port)?
        .arg(address_option(alloc, "bind"))?
        .arg(admin_port_option(alloc))?
        .arg(address_option(alloc, "admin-bind"))
}

/// The options that say how much a server serves.
fn with_work<'a>(alloc: Global, command: Command<'a>) -> Result<Command<'a>, AllocError>
    ensures app { IfOk result (λ c. app_of c ≡ with_work (app_of command.entry)) }
    ensures local { (out-Command command.entry).has_globals ≡ false → IfOk result (λ c. (out-Command c).has_globals ≡ false) }
{
    let sessions = sessions_option(alloc)?;
    let forever = forever_option(alloc);
    let until = until_option(alloc);
    let workers = option(alloc, "workers", "N", value_parser!(u32).range(1..=16), "2").help(
        "How many loops serve the connections",
    );
    let expected = option(alloc, "expected", "N", value_parser!(u32), "1").help(
        "How many clients are expected at first",
    );
    command
        .arg(sessions)?
        .arg(forever)?
        .arg(until)?
        .arg(workers)?
        .arg(expected)
}

/// The options that limit the connections of a server, and what it shows at first.
fn with_limits<'a>(alloc: Global, command: Command<'a>) -> Result<Command<'a>, AllocError>
    ensures app { IfOk result (λ c. app_of c ≡ with_limits (app_of command.entry)) }
    ensures local { (out-Command command.entry).has_globals ≡ false → IfOk result (λ c. (out-Command c).has_globals ≡ false) }
{
    let most = value_parser!(u32).range(1..=1_000_000);
    let connections = option(alloc, "connections", "N", most, "10000").help(
        "The most connections at once; fewer, which is told, where the limit of descriptors is lower",
    );
    let idle = value_parser!(u32).range(1..=4_294_967_295);
    let idle_ms = option(alloc, "idle-ms", "MS", idle, "90000").help(
        "How long a connection may wait for the first byte of a request",
    );
    let request = value_parser!(u32).range(1..=4_294_967_295);
    let request_ms = option(alloc, "request-ms", "MS", request, "10000").help(
        "How long a request may take, from its first byte to its last",
    );
    let warm_up_ms = option(alloc, "warm-up-ms", "MS", value_parser!(u32), "0").help(
        "For how long listings are refused at first, so that clients keep what they know",
    );
    command
        .arg(connections)?
        .arg(idle_ms)?
        .arg(request_ms)?
        .arg(warm_up_ms)
}

/// The option `--allow-origin ORIGIN`, which may be left out.
fn origin_option<'a>(alloc: Global) -> Arg<'a>
    ensures rule { rule_of result ≡ origin_rule }
    ensures local { result.global ≡ false }
{
    Arg::new(alloc, "allow-origin")
        .long("allow-origin")
        .value_name("ORIGIN")
        .help(
            "Takes requests with this Origin field, as https://example.com; without it, none that has one",
        )
}

/// The options that say which requests a server takes.
fn with_policy<'a>(alloc: Global, command: Command<'a>) -> Result<Command<'a>, AllocError>
    ensures app { IfOk result (λ c. (switch : _) × IsSwitchParser switch × (app_of c ≡ with_policy (app_of command.entry) switch)) }
    ensures local { (out-Command command.entry).has_globals ≡ false → IfOk result (λ c. (out-Command c).has_globals ≡ false) }
{
    let switch = ValueParser::from(SWITCH.as_slice());
    let peers = option(alloc, "accept-peers", "on|off", switch, "on").help(
        "Whether requests that only peers send are taken: replicated ones, and batches",
    );
    let most = value_parser!(u32).range(1..=1_048_576);
    let body = option(alloc, "max-body", "BYTES", most, "1048576").help(
        "The most bytes of a request's body; a longer one is refused",
    );
    command.arg(peers)?.arg(body)?.arg(origin_option(alloc))
}

/// The option that names the file of a journal.
fn with_journal<'a>(
    alloc: Global,
    command: Command<'a>,
    help: &'a str,
) -> Result<Command<'a>, AllocError>
    ensures app { IfOk result (λ c. app_of c ≡ with_journal (app_of command.entry)) }
    ensures local { (out-Command command.entry).has_globals ≡ false → IfOk result (λ c. (out-Command c).has_globals ≡ false) }
{
    let journal = Arg::new(alloc, "journal")
        .long("journal")
        .value_name("FILE")
        .help(help);
    command.arg(journal)
}

/// The command `script` with its options.
fn script<'a>(alloc: Global) -> Result<Command<'a>, AllocError>
    ensures app { IfOk result (λ c. (switch : _) × IsSwitchParser switch × (app_of c ≡ with_journal (with_options (new_app (codes "script")) switch))) }
    ensures local { IfOk result (λ c. (out-Command c).has_globals ≡ false) }
{
    let script = Command::new(alloc, "script").about(
        "Runs a script from standard input and prints the replies",
    );
    with_journal(alloc, with_options(alloc, script)?, WRITES_JOURNAL)
}

/// The command `audit` with its options, which are those of `script`.
fn audit<'a>(alloc: Global) -> Result<Command<'a>, AllocError>
    ensures app { IfOk result (λ c. (switch : _) × IsSwitchParser switch × (app_of c ≡ with_journal (with_options (new_app (codes "audit")) switch))) }
    ensures local { IfOk result (λ c. (out-Command c).has_globals ≡ false) }
{
    let audit = Command::new(alloc, "audit").about(
        "Runs a script from standard input and tells whether what it did is a run of the lease machine",
    );
    let options = with_options(alloc, audit)?;
    with_journal(
        alloc,
        options,
        "Judges the journal in this file, and runs no script",
    )
}

/// A command with the option `--quiet` more.
fn with_quiet<'a>(alloc: Global, command: Command<'a>) -> Result<Command<'a>, AllocError>
    ensures app { IfOk result (λ c. app_of c ≡ with_quiet (app_of command.entry)) }
    ensures local { (out-Command command.entry).has_globals ≡ false → IfOk result (λ c. (out-Command c).has_globals ≡ false) }
{
    command.arg(quiet_option(alloc))
}

/// The options of a server.
fn with_server<'a>(alloc: Global, command: Command<'a>) -> Result<Command<'a>, AllocError>
    ensures app { IfOk result (λ c. (switch : _) × (peers : _) × IsSwitchParser switch × IsSwitchParser peers × (app_of c ≡ with_server_options (app_of command.entry) switch peers)) }
    ensures local { (out-Command command.entry).has_globals ≡ false → IfOk result (λ c. (out-Command c).has_globals ≡ false) }
{
    let settings = with_settings(alloc, command)?;
    let drawing = settings.arg(drawing_option(alloc))?;
    let address = with_address(alloc, drawing)?;
    let work = with_work(alloc, address)?;
    let limits = with_limits(alloc, work)?;
    let policy = with_policy(alloc, limits)?;
    with_quiet(alloc, policy)
}

/// The command `serve` with its options.
fn serve<'a>(alloc: Global) -> Result<Command<'a>, AllocError>
    ensures app { IfOk result (λ c. (switch : _) × (peers : _) × IsSwitchParser switch × IsSwitchParser peers × (app_of c ≡ with_journal (with_server_options (new_app (codes "serve")) switch peers))) }
    ensures local { IfOk result (λ c. (out-Command c).has_globals ≡ false) }
{
    let serve = Command::new(alloc, "serve").about("Serves clients over HTTP");
    with_journal(alloc, with_server(alloc, serve)?, WRITES_JOURNAL)
}

/// The command line: `eureka script`, `eureka audit` and `eureka serve` with their options. `AllocError` where no memory is left.
pub fn command<'a>(alloc: Global) -> Result<Command<'a>, AllocError>
    ensures { IfOk result (λ c. (one : _) × (other : _) × (third : _) × (peers : _) × IsSwitchParser one × IsSwitchParser other × IsSwitchParser third × IsSwitchParser peers × (app_of c ≡ program_app one other third peers)) }
{
    let script = script(alloc)?;
    let audit = audit(alloc)?;
    let serve = serve(alloc)?;
    Command::new(alloc, "eureka")
        .about("A proved lease registry")
        .version(VERSION)
        .subcommand_required(true)
        .subcommand(script)?
        .subcommand(audit)?
        .subcommand(serve)
}

/// The number that an option gives. None where it has none, or one that is no `u32`.
fn number(matches: &ArgMatches<'_>, name: &str) -> Option<u32>
    ensures some { IfSome result (IsNumber matches.now name.now) }
    ensures none { (n : ℕ) → n < 2 ^ 32 → IsNumber matches.now name.now n → IsSome result }
{
    matches.get_one::<u32>(name)
}

/// The settings that the options give. None where one is missing or out of its range, which the command line rules out.
pub fn config_of(matches: &ArgMatches<'_>) -> Option<Config>
    ensures some { IfSome result (IsConfig matches.now) }
    ensures none { (c : Config) → (c.percent ≤ 100) × ((1 ≤ c.interval) × (c.interval ≤ 3600)) → c.evict_ms < 2 ^ 32 → IsConfig matches.now c → IsSome result }
{
    let preservation = matches.get_str("preservation")? == "on";
    let percent = number(matches, "percent")?;
    let interval = number(matches, "interval")?;
    let evict_ms = number(matches, "evict-ms")?;
    Config::new(preservation, percent, interval, evict_ms).ok()
}

/// The seed that the options give, if they do.
pub fn seed_of(matches: &ArgMatches<'_>) -> Option<u64>
    ensures some { IfSome result (IsNumber matches.now (codes "seed")) }
    ensures none { (n : ℕ) → n < 2 ^ 64 → IsNumber matches.now (codes "seed") n → IsSome result }
{
    matches.get_one::<u64>("seed")
}

/// The file of the journal that the options give, if they do.
pub fn journal_of<'a>(matches: &ArgMatches<'a>) -> Option<&'a str>
    ensures { option_map (λ file. file.now) result ≡ first_value (found_of matches.now) (codes "journal") }
{
    matches.get_str("journal")
}

/// The port that the options give. None where they give none.
fn port_of(matches: &ArgMatches<'_>) -> Option<u16>
    ensures some { IfSome result (IsNumber matches.now (codes "port")) }
    ensures none { (n : ℕ) → n < 2 ^ 16 → IsNumber matches.now (codes "port") n → IsSome result }
{
    matches.get_one::<u16>("port")
}

/// The number that an option gives, within these bounds. None where it has none, or one outside.
fn number_within(matches: &ArgMatches<'_>, name: &str, least: u32, most: u32) -> Option<u32>
    ensures some { IfSome result (λ n. (least ≤ n) × ((n ≤ most) × IsNumber matches.now name.now n)) }
    ensures none { (n : ℕ) → least ≤ n → n ≤ most → IsNumber matches.now name.now n → IsSome result }
{
    let found = number(matches, name)?;
    if found < least || found > most {
        return None;
    }
    Some(found)
}

/// The IP address that an option gives. None where it gives none, or its text isn't one.
pub fn address_of(matches: &ArgMatches<'_>, name: &str) -> Option<IpAddr>
    ensures some { IfSome result (IsAddress matches.now name.now) }
    ensures none { (address : IpAddr) → IsAddress matches.now name.now address → IsSome result }
{
    matches.get_one::<IpAddr>(name)
}

/// The port of operators that the options give: `Some(None)` where there is none. None where the option's text is no port, which the command line rules out.
fn admin_port_of(matches: &ArgMatches<'_>) -> Option<Option<u16>>
    ensures some { IfSome result (IsAdminPort matches.now) }
    ensures without { IsAdminPort matches.now None → IsSome result }
    ensures given { (n : ℕ) → n < 2 ^ 16 → IsAdminPort matches.now (Some n) → IsSome result }
{
    if matches.get_str("admin-port").is_none() {
        return Some(None);
    }
    let port = matches.get_one::<u16>("admin-port")?;
    Some(Some(port))
}

/// After how many sessions a server ends as the options say: `Some(None)` where it ends by no number. None where they don't say it.
fn end_of(matches: &ArgMatches<'_>) -> Option<Option<u32>>
    ensures some { IfSome result (IsEnd matches.now) }
    ensures forever { IsEnd matches.now None → IsSome result }
    ensures counted { (n : ℕ) → n < 2 ^ 32 → IsEnd matches.now (Some n) → IsSome result }
{
    let is_forever = matches.get_str("forever")? == "true";
    if is_forever {
        return Some(None);
    }
    let sessions = number(matches, "sessions")?;
    Some(Some(sessions))
}

/// The text of the option of that name, if the options give one.
pub fn text_of<'a>(matches: &ArgMatches<'a>, name: &str) -> Option<&'a str>
    ensures { option_map (λ text. text.now) result ≡ first_value (found_of matches.now) name.now }
{
    matches.get_str(name)
}

/// The text of `--allow-origin`, if the options give one.
pub fn origin_of<'a>(matches: &ArgMatches<'a>) -> Option<&'a str>
    ensures { option_map (λ text. text.now) result ≡ first_value (found_of matches.now) (codes "allow-origin") }
{
    matches.get_str("allow-origin")
}

/// How the victims of a server's evictions are drawn as the options say. None where the text of `--seed` is neither `system` nor a `u64`.
pub fn drawing_of(matches: &ArgMatches<'_>) -> Option<Drawing>
    ensures some { IfSome result (IsDrawing matches.now) }
    ensures first { IsDrawing matches.now FirstOnes → IsSome result }
    ensures system { IsDrawing matches.now FromSystem → IsSome result }
    ensures seeded { (n : ℕ) → n < 2 ^ 64 → IsDrawing matches.now (Seeded n) → IsSome result }
{
    let Some(text) = text_of(matches, "seed") else {
        return Some(Drawing::FirstOnes);
    };
    if text == "system" {
        return Some(Drawing::FromSystem);
    }
    let seed = seed_of(matches)?;
    Some(Drawing::Seeded(seed))
}

/// Whether the option of that name is given, which has no value. None where the options don't say it.
fn flag_of(matches: &ArgMatches<'_>, name: &str) -> Option<bool>
    ensures some { IfSome result (IsFlag matches.now name.now) }
    ensures none { (b : Bool) → IsFlag matches.now name.now b → IsSome result }
{
    let text = matches.get_str(name)?;
    Some(text == "true")
}

/// Whether the option of that name, which is on or off, is on. None where the options don't say it.
fn switch_of(matches: &ArgMatches<'_>, name: &str) -> Option<bool>
    ensures some { IfSome result (IsSwitch matches.now name.now) }
    ensures none { (b : Bool) → IsSwitch matches.now name.now b → IsSome result }
{
    let text = matches.get_str(name)?;
    Some(text == "on")
}

/// What the options of a server say. None where the text of `--bind` or of `--admin-bind` is no IP address; or where one is missing or out of its range, which
/// the command line rules out.
pub fn serving_of(matches: &ArgMatches<'_>) -> Option<Serving>
    ensures some { IfSome result (IsServing matches.now) }
    ensures none { (s : Serving) → s.port < 2 ^ 16 → IfSome s.sessions (λ n. n < 2 ^ 32) → IfSome s.admin_port (λ n. n < 2 ^ 16) → s.expected < 2 ^ 32 → s.idle_ms < 2 ^ 32 → s.request_ms < 2 ^ 32 → s.warm_up_ms < 2 ^ 32 → IsServing matches.now s → IsSome result }
{
    let port = port_of(matches)?;
    let bind = address_of(matches, "bind")?;
    let admin_port = admin_port_of(matches)?;
    let admin_bind = address_of(matches, "admin-bind")?;
    let sessions = end_of(matches)?;
    let workers = number_within(matches, "workers", 1, MOST_WORKERS)?;
    let expected = number(matches, "expected")?;
    let connections = number_within(matches, "connections", 1, MOST_CONNECTIONS)?;
    let idle_ms = number_within(matches, "idle-ms", 1, u32::MAX)?;
    let request_ms = number_within(matches, "request-ms", 1, u32::MAX)?;
    let warm_up_ms = number(matches, "warm-up-ms")?;
    let until_input_ends = flag_of(matches, "until-input-ends")?;
    let is_quiet = flag_of(matches, "quiet")?;
    let accepts_peers = switch_of(matches, "accept-peers")?;
    let most_body = number_within(matches, "max-body", 1, MOST_BODY)?;
    Some(Serving {
        port,
        bind,
        admin_port,
        admin_bind,
        sessions,
        workers,
        expected,
        connections,
        idle_ms,
        request_ms,
        warm_up_ms,
        until_input_ends,
        is_quiet,
        accepts_peers,
        most_body,
    })
}
