//! Servers and entries, told in lines of text.
//!
//! A command is a line of a script, and its moment is in milliseconds; its instances have their id as their host. An entry is a command
//! and its reply, with ` = ` between them. A reply is one of these:
//!
//! - `fresh` or `again`, of a registration; `done`, `missing`, `stale`, `settled`; `last N`, `expected N`;
//! - `conflict INSTANCE`, with the words that a script has for an instance: `APP ID SECS STATUS OVR DIRTY`;
//! - `evicted NAME..`: a name is `APP/ID`, or an id of the application A;
//! - `batch`, or `batch TASK, TASK..`. A task is `ACTION T STATUS APP ID`, where it was queued at T and `-` is no status, with
//!   ` of INSTANCE` behind it where it has one.
//!
//! A server has these lines. What isn't told is as of a server that was never told anything, and has no peers:
//!
//! - `config on P I M` or `config off P I M`, `expected N`, `last N`, `since N`, `previous T`;
//! - `lease R U P INSTANCE`, registered at R, last updated at U, and UP since P; `row ID STATUS`, an override;
//! - `peer`, and behind it `waits TASK` and `flies TASK`, for what waits for that peer, and what is in flight to it.
//!
//! The id of a lease or a task may have words in braces, as `i{2,4,5}`: then there is one for each of them. So may a command, which is
//! then told once with each. Numbers may be told as `i{0..10}`.
use eu_audit::audit;
use eu_base::{
    Action, Config, Fault, Id, Instance, Keys, Moment, Rest, SharedInstance, Status, Task, Tasks,
};
use eu_fixtures::{
    content_of, cut, key_of, moment, number_of, numbered, read_command, read_config, settings,
};
use eu_model::{Command, Entry, Listed, Listing, OverrideRows, Queue, Queues, Reply, State, Times};
use std::alloc::Global;

/// A text once with each of the words that it has in braces.
pub fn each(alloc: Global, text: &str) -> Result<Vec<String>, Fault> {
    let mut texts = Vec::new(alloc);
    let Some((front, rest)) = text.split_once('{') else {
        texts.push(String::from_str(alloc, text)?)?;
        return Ok(texts);
    };
    let (words, back) = rest.split_once('}').ok_or(Fault::BadValue)?;
    if let Some((from, to)) = words.split_once("..") {
        for word in number_of(from)?..number_of(to)? {
            texts.push(format!(in alloc; "{front}{word}{back}")?)?;
        }
        return Ok(texts);
    }
    for word in words.split(',') {
        texts.push(format!(in alloc; "{front}{word}{back}")?)?;
    }
    Ok(texts)
}

/// The settings of these words.
fn config(alloc: Global, words: &str) -> Result<Config, Fault> {
    let line = format!(in alloc; "config 0 {words}")?;
    read_config(alloc, line.as_str())
}

/// The instance of these words.
fn instance(alloc: Global, words: &str) -> Result<SharedInstance, Fault> {
    let line = format!(in alloc; "adopt 0 {words}")?;
    match read_command(alloc, line.as_str())? {
        (_, Command::Adopt { instance }) => Ok(instance),
        _ => Err(Fault::BadValue),
    }
}

fn instance_or_none(alloc: Global, words: Option<&str>) -> Result<Option<SharedInstance>, Fault> {
    match words {
        Some(words) => Ok(Some(instance(alloc, words)?)),
        None => Ok(None),
    }
}

fn status(word: &str) -> Result<Status, Fault> {
    Status::read(word.as_bytes()).ok_or(Fault::BadValue)
}

fn status_or_none(word: &str) -> Result<Option<Status>, Fault> {
    if word == "-" {
        return Ok(None);
    }
    Ok(Some(status(word)?))
}

/// The tasks of a text, one for each id.
fn push_tasks(alloc: Global, tasks: &mut Vec<Task>, text: &str) -> Result<(), Fault> {
    let (task, words) = match text.split_once(" of ") {
        Some((task, words)) => (task, Some(words)),
        None => (text, None),
    };
    let (action, rest) = cut(task);
    let action = Action::read(action).ok_or(Fault::BadValue)?;
    let (queued, rest) = numbered(rest)?;
    let queued = moment(queued)?;
    let (word, rest) = cut(rest);
    let status = status_or_none(word)?;
    let (app, ids) = cut(rest);
    for id in each(alloc, ids)? {
        let key = key_of(alloc, app, id.as_str())?;
        let instance = instance_or_none(alloc, words)?;
        tasks.push(Task {
            action,
            key,
            status,
            instance,
            queued,
        })?;
    }
    Ok(())
}

fn batch(alloc: Global, text: &str) -> Result<Tasks, Fault> {
    let mut tasks = Vec::new(alloc);
    for text in text.split(", ") {
        push_tasks(alloc, &mut tasks, text)?;
    }
    Ok(Tasks::new(tasks))
}

fn keys(alloc: Global, names: &str) -> Result<Keys, Fault> {
    let mut keys = Vec::new(alloc);
    for name in names.split(' ') {
        let (app, id) = name.split_once('/').unwrap_or(("A", name));
        keys.push(key_of(alloc, app, id)?)?;
    }
    Ok(Keys::new(keys))
}

/// A reply that has something behind its first word.
fn telling_reply(alloc: Global, text: &str) -> Result<Reply, Fault> {
    let (word, rest) = cut(text);
    match word {
        "last" => Ok(Reply::Last(number_of(rest)?)),
        "expected" => Ok(Reply::Expected(number_of(rest)?)),
        "conflict" => Ok(Reply::Conflict(instance(alloc, rest)?)),
        "evicted" => Ok(Reply::Evicted(keys(alloc, rest)?)),
        "batch" => Ok(Reply::Batch(batch(alloc, rest)?)),
        _ => Err(Fault::BadValue),
    }
}

fn reply(alloc: Global, text: &str) -> Result<Reply, Fault> {
    match text {
        "fresh" => Ok(Reply::Registered { fresh: true }),
        "again" => Ok(Reply::Registered { fresh: false }),
        "done" => Ok(Reply::Done),
        "missing" => Ok(Reply::NotFound),
        "stale" => Ok(Reply::Stale),
        "settled" => Ok(Reply::Settled),
        "evicted" => Ok(Reply::Evicted(Keys::new(Vec::new(alloc)))),
        "batch" => Ok(Reply::Batch(Tasks::new(Vec::new(alloc)))),
        _ => telling_reply(alloc, text),
    }
}

/// The entry of a command and its reply, numbered 0, of pass 0.
pub fn entry(alloc: Global, line: &str, answer: &str) -> Result<Entry, Fault> {
    let (moment, command) = read_command(alloc, line)?;
    let reply = reply(alloc, answer)?;
    Ok(Entry {
        pass: 0,
        number: 0,
        command,
        moment,
        reply,
    })
}

/// The entries of a line.
fn push_entries(alloc: Global, entries: &mut Vec<Entry>, line: &str) -> Result<(), Fault> {
    let (line, answer) = line.split_once(" = ").ok_or(Fault::BadValue)?;
    for line in each(alloc, line)? {
        entries.push(entry(alloc, line.as_str(), answer)?)?;
    }
    Ok(())
}

/// The entries of the lines of a table.
pub fn entries(alloc: Global, lines: &str) -> Result<Vec<Entry>, Fault> {
    let mut entries = Vec::new(alloc);
    for line in lines.lines() {
        if let Some(line) = content_of(line) {
            push_entries(alloc, &mut entries, line)?;
        }
    }
    Ok(entries)
}

/// An instance like another, but for its id and its host, which is the id.
fn with_id(alloc: Global, like: &SharedInstance, id: &str) -> Result<SharedInstance, Fault> {
    let key = key_of(alloc, like.key().app.as_str(), id)?;
    let rest = Rest::of_host(alloc, id)?;
    let instance = Instance {
        key,
        status: like.status(),
        overridden: like.overridden(),
        last_dirty: like.last_dirty(),
        secs: like.secs(),
        interval: like.interval(),
        rest,
    };
    Ok(SharedInstance::new(alloc, instance)?)
}

/// The leases of a text, one for each id.
fn push_leases(alloc: Global, leases: &mut Vec<Listed>, text: &str) -> Result<(), Fault> {
    let (registered, rest) = numbered(text)?;
    let (updated, rest) = numbered(rest)?;
    let (up, words) = numbered(rest)?;
    let times = Times {
        registered,
        updated,
        up,
    };
    let like = instance(alloc, words)?;
    for id in each(alloc, like.key().id.as_str())? {
        let instance = with_id(alloc, &like, id.as_str())?;
        leases.push(Listed { instance, times })?;
    }
    Ok(())
}

fn row(alloc: Global, text: &str) -> Result<(Id, Status), Fault> {
    let (id, word) = cut(text);
    let status = status(word)?;
    Ok((Id::read(alloc, id)?, status))
}

/// What waits for a peer, and what is in flight to it, as it is read.
type Told = (Vec<Task>, Vec<Task>);

/// A server as it is read.
#[derive(Drop)]
struct Draft {
    config: Config,
    expected: u64,
    leases: Vec<Listed>,
    rows: Vec<(Id, Status)>,
    last: u64,
    since: u64,
    previous: Option<Moment>,
    queues: Vec<Told>,
}

impl Draft {
    /// A server that was never told anything, and has no peers.
    fn new(alloc: Global) -> Result<Draft, Fault> {
        Ok(Draft {
            config: settings()?,
            expected: 0,
            leases: Vec::new(alloc),
            rows: Vec::new(alloc),
            last: 0,
            since: 0,
            previous: None,
            queues: Vec::new(alloc),
        })
    }

    /// What is told the last peer.
    fn queue(&mut self) -> Result<&mut Told, Fault> {
        self.queues.last_mut().ok_or(Fault::BadValue)
    }

    /// Takes a line.
    fn take(&mut self, alloc: Global, line: &str) -> Result<(), Fault> {
        let (word, rest) = cut(line);
        match word {
            "config" => self.config = config(alloc, rest)?,
            "expected" => self.expected = number_of(rest)?,
            "last" => self.last = number_of(rest)?,
            "since" => self.since = number_of(rest)?,
            "previous" => self.previous = Some(moment(number_of(rest)?)?),
            "lease" => push_leases(alloc, &mut self.leases, rest)?,
            "row" => self.rows.push(row(alloc, rest)?)?,
            "peer" => self.queues.push((Vec::new(alloc), Vec::new(alloc)))?,
            "waits" => push_tasks(alloc, &mut self.queue()?.0, rest)?,
            "flies" => push_tasks(alloc, &mut self.queue()?.1, rest)?,
            _ => return Err(Fault::BadValue),
        }
        Ok(())
    }

    /// The server.
    fn finish(self, alloc: Global) -> Result<State, Fault> {
        let mut queues = Vec::new(alloc);
        for (waiting, flight) in self.queues {
            queues.push(Queue {
                waiting: Tasks::new(waiting),
                flight: Tasks::new(flight),
            })?;
        }
        Ok(State {
            config: self.config,
            expected: self.expected,
            leases: Listing::new(self.leases),
            overrides: OverrideRows::new(self.rows),
            last: self.last,
            since: self.since,
            previous: self.previous,
            queues: Queues::new(queues),
        })
    }
}

/// The server of the lines of a table.
pub fn state(alloc: Global, lines: &str) -> Result<State, Fault> {
    let mut draft = Draft::new(alloc)?;
    for line in lines.lines() {
        if let Some(line) = content_of(line) {
            draft.take(alloc, line)?;
        }
    }
    draft.finish(alloc)
}

/// The auditor's verdict on these entries between these servers.
pub fn verdict(alloc: Global, base: State, entries: Vec<Entry>, end: State) -> Result<bool, Fault> {
    let verdict = audit(alloc, &base, entries.as_slice(), &end);
    drop(end);
    drop(entries);
    drop(base);
    Ok(verdict?)
}

/// The verdict on no entries from the server of these lines to itself.
pub fn stands(alloc: Global, lines: &str) -> Result<bool, Fault> {
    let state = state(alloc, lines)?;
    let verdict = audit(alloc, &state, &[], &state);
    drop(state);
    Ok(verdict?)
}

/// The verdict on what these lines tell.
pub fn judged(alloc: Global, base: &str, lines: &str, end: &str) -> Result<bool, Fault> {
    let base = state(alloc, base)?;
    let entries = entries(alloc, lines)?;
    let end = state(alloc, end)?;
    verdict(alloc, base, entries, end)
}
