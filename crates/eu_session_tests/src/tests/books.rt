//! Sessions with a book: what is said to it, line by line, and what comes of each.
//!
//! A line has what is said, ` = `, and what comes of it. It says a request, whose session has no other: by its method and its target, with
//! its body behind them, or whole. Or it says one of these:
//!
//! - `register`: a client registers, i1 of application A;
//! - `minutes`: 65,535 minutes end, and it is told how many steps were made;
//! - `drain`: the peer is given what waits for it, at the moment 3000, and the reply is told;
//! - `steps`: it is told how many steps were made.
use crate::tests::told::{spelled, told_by};
use eu_base::{Config, Fault, MOST_ENTRIES};
use eu_book::Book;
use eu_clock::FirstChooser;
use eu_fixtures::{at, push_number, settings, tell_fault, tell_reply};
use eu_hash::HashKey;
use eu_http::Policy;
use eu_model::Command;
use std::alloc::Global;

/// Self-preservation is on, at 85%, with a renewal each 30 s and an eviction each minute. Nobody is expected, and there is no peer.
pub const USUAL: &str = "usual";

/// The same with a peer.
pub const PEER: &str = "peer";

/// At 50%, where ten clients are expected.
pub const TEN: &str = "ten";

/// A book that is opened so.
pub fn opened(alloc: Global, opening: &str) -> Result<Book, Fault> {
    let (config, expected) = match opening {
        TEN => (Config::new(true, 50, 30, 60_000)?, 10),
        _ => (settings()?, 0),
    };
    let peers = if opening == USUAL { 0 } else { 1 };
    Ok(Book::open(alloc, config, expected, peers, HashKey::new(0, 0))?)
}

/// A registration of the client.
const REGISTRATION: &str =
    r#"POST /eureka/v2/apps/a {"instance":{"instanceId":"i1","hostName":"h","app":"a","ipAddr":"10.0.0.1","status":"UP","lastDirtyTimestamp":"5","dataCenterInfo":{"name":"MyOwn"}}}"#;

/// The bytes of a request that is told so.
pub fn request_of(alloc: Global, words: &str) -> Result<String, Fault> {
    if words.ends_with("\r\n") {
        return Ok(String::from_str(alloc, words)?);
    }
    let (method, rest) = words.split_once(' ').ok_or(Fault::BadValue)?;
    let (target, body) = rest.split_once(' ').unwrap_or((rest, ""));
    let head = "HTTP/1.1\r\nHost: x\r\n";
    let text = if body.is_empty() {
        format!(in alloc; "{method} {target} {head}\r\n")?
    } else {
        let len = body.len();
        format!(in alloc; "{method} {target} {head}Content-Length: {len}\r\n\r\n{body}")?
    };
    Ok(text)
}

/// Tells what a session of a request writes; more, where it isn't one of one request.
fn ask(
    alloc: Global,
    policy: &Policy,
    book: &mut Book,
    words: &str,
    out: &mut String,
) -> Result<(), Fault> {
    let request = request_of(alloc, words)?;
    let told = told_by(alloc, policy, book, &mut request.as_bytes(), usize::MAX)?;
    let told = told.as_str();
    out.push_str(told.strip_prefix("requests 1 next 1001 ").unwrap_or(told))?;
    Ok(())
}

fn tell_steps(book: &Book, out: &mut String) -> Result<(), Fault> {
    Ok(push_number(out, book.totals().steps)?)
}

fn end_minutes(alloc: Global, book: &mut Book, out: &mut String) -> Result<(), Fault> {
    for _ in 1..MOST_ENTRIES {
        drop(book.apply(alloc, 0, Command::EndMinute, at(0), &mut FirstChooser)?);
    }
    tell_steps(book, out)
}

fn drain(alloc: Global, book: &mut Book, out: &mut String) -> Result<(), Fault> {
    let drain = Command::Drain { peer: 0 };
    match book.apply(alloc, 0, drain, at(3000), &mut FirstChooser) {
        Ok(receipt) => {
            let told = tell_reply(out, &receipt.reply);
            drop(receipt);
            Ok(told?)
        }
        Err(fault) => Ok(tell_fault(out, fault)?),
    }
}

fn say(
    alloc: Global,
    policy: &Policy,
    book: &mut Book,
    said: &str,
    out: &mut String,
) -> Result<(), Fault> {
    match said {
        "register" => ask(alloc, policy, book, REGISTRATION, out),
        "minutes" => end_minutes(alloc, book, out),
        "drain" => drain(alloc, book, out),
        "steps" => tell_steps(book, out),
        request => ask(alloc, policy, book, request, out),
    }
}

/// Whether that comes of a line.
fn comes(alloc: Global, policy: &Policy, book: &mut Book, line: &str) -> Result<bool, Fault> {
    let line = spelled(alloc, line)?;
    let (said, wanted) = line.split_once(" = ").ok_or(Fault::BadValue)?;
    let mut out = String::new(alloc);
    say(alloc, policy, book, said, &mut out)?;
    Ok(out.as_str() == wanted)
}

/// The number, from 1, of the first line of a text of which something else comes, where it is said to a book that is opened so. None where
/// there is no such line. Its requests are taken by a policy.
pub fn first_wrong_by(
    alloc: Global,
    policy: &Policy,
    opening: &str,
    text: &str,
) -> Result<Option<usize>, Fault> {
    let mut book = opened(alloc, opening)?;
    let mut wrong = None;
    for (number, line) in text.lines().enumerate() {
        if comes(alloc, policy, &mut book, line) != Ok(true) {
            wrong = Some(number.saturating_add(1));
            break;
        }
    }
    drop(book);
    Ok(wrong)
}

/// The same by the policy of a server that wasn't told otherwise.
pub fn first_wrong(alloc: Global, opening: &str, text: &str) -> Result<Option<usize>, Fault> {
    first_wrong_by(alloc, &Policy::open(), opening, text)
}
