//! The text of a journal, line by line, and lines that are refused. The digest was computed by another program.
use eu_base::{
    Fault, Instance, Keys, LeaseSecs, Moment, RenewalSecs, Rest, SharedInstance, Stamp, Status,
};
use eu_fixtures::{key_of, settings, text_of};
use eu_journal::JournalLine;
use eu_journal_text::{journal_text, read_line};
use eu_journal_values::LineFault;
use eu_model::{Command, Entry, Listed, Listing, OverrideRows, Queues, Reply, State, Times};
use std::alloc::Global;

const BASE: &str =
    "{\"config\":{\"evict_ms\":60000,\"interval\":30,\"percent\":85,\"preservation\":true},\"expected\":1,\"journal\":1,\"last\":0,\"line\":\"head\",\"previous\":null,\"since\":0}";

const LEASE: &str =
    "{\"instance\":{\"dirty\":1700000000000,\"interval\":30,\"key\":{\"app\":\"ORDERS\",\"id\":\"a-1\"},\"overridden\":\"UNKNOWN\",\"secs\":90,\"status\":\"UP\"},\"line\":\"lease\",\"rest\":{\"dataCenterInfo\":{\"name\":\"MyOwn\"},\"hostName\":\"a\",\"ipAddr\":\"0.0.0.0\"},\"times\":{\"registered\":1000,\"up\":1000,\"updated\":1000}}";

const ASKED: &str =
    "{\"command\":{\"name\":\"Evict\"},\"line\":\"asked\",\"moment\":2000,\"number\":0,\"pass\":7,\"rest\":null}";

const ANSWERED: &str = "{\"line\":\"answered\",\"reply\":{\"name\":\"Evicted\"},\"rest\":null}";

const VICTIM: &str = "{\"key\":{\"app\":\"ORDERS\",\"id\":\"a-1\"},\"line\":\"victim\"}";

const END: &str =
    "{\"config\":{\"evict_ms\":60000,\"interval\":30,\"percent\":85,\"preservation\":true},\"expected\":0,\"journal\":1,\"last\":0,\"line\":\"head\",\"previous\":2000,\"since\":0}";

const DIGEST: &str =
    "{\"line\":\"digest\",\"sha256\":\"77fcc120a5cc9e81b10d5040ee8ae61dca426317fe24f79aa5f63e2d7d3911c2\"}";

fn instance(alloc: Global) -> Result<SharedInstance, Fault> {
    let last_dirty = Stamp::new(1_700_000_000_000).ok_or(Fault::BadStamp)?;
    let key = key_of(alloc, "orders", "a-1")?;
    let rest = Rest::of_host(alloc, "a")?;
    let instance = Instance {
        key,
        status: Status::Up,
        overridden: Status::Unknown,
        last_dirty,
        secs: LeaseSecs::DEFAULT,
        interval: RenewalSecs::DEFAULT,
        rest,
    };
    Ok(SharedInstance::new(alloc, instance)?)
}

fn state(
    alloc: Global,
    leases: Vec<Listed>,
    expected: u64,
    previous: Option<Moment>,
) -> Result<State, Fault> {
    let config = settings()?;
    Ok(State {
        config,
        expected,
        leases: Listing::new(leases),
        overrides: OverrideRows::new(Vec::new(alloc)),
        last: 0,
        since: 0,
        previous,
        queues: Queues::new(Vec::new(alloc)),
    })
}

/// A lease is held.
fn base(alloc: Global) -> Result<State, Fault> {
    let times = Times {
        registered: 1000,
        updated: 1000,
        up: 1000,
    };
    let instance = instance(alloc)?;
    let mut leases = Vec::new(alloc);
    leases.push(Listed { instance, times })?;
    state(alloc, leases, 1, None)
}

/// It is evicted.
fn entries(alloc: Global) -> Result<Vec<Entry>, Fault> {
    let key = key_of(alloc, "orders", "a-1")?;
    let mut keys = Vec::new(alloc);
    keys.push(key)?;
    let Some(moment) = Moment::new(2000) else {
        return Err(Fault::Exhausted);
    };
    let mut entries = Vec::new(alloc);
    entries.push(Entry {
        pass: 7,
        number: 0,
        command: Command::Evict,
        moment,
        reply: Reply::Evicted(Keys::new(keys)),
    })?;
    Ok(entries)
}

fn text(alloc: Global) -> Result<String, Fault> {
    let base = base(alloc)?;
    let entries = entries(alloc)?;
    let end = state(alloc, Vec::new(alloc), 0, Moment::new(2000))?;
    let text = journal_text(alloc, &base, &entries, &end)?;
    Ok(text)
}

fn is_written(alloc: Global) -> Result<bool, Fault> {
    let text = text(alloc)?;
    let wanted = text_of(alloc, &[BASE, LEASE, ASKED, ANSWERED, VICTIM, END, DIGEST])?;
    Ok(text.as_str() == wanted.as_str())
}

#[test]
fn a_journal_is_written(rt: HostRuntime) {
    assert!(rt; is_written(rt.alloc()) == Ok(true));
}

/// Which kind of line a text is, by its number among those of the format; none where it is no line.
fn kind_of(alloc: Global, text: &str) -> Option<u8> {
    let line = read_line(alloc, text).ok()?;
    Some(match &line {
        JournalLine::Head(_) => 0,
        JournalLine::Lease(_) => 1,
        JournalLine::Row { .. } => 2,
        JournalLine::Peer => 3,
        JournalLine::Waiting(_) => 4,
        JournalLine::Flight(_) => 5,
        JournalLine::Asked { .. } => 6,
        JournalLine::Answered(_) => 7,
        JournalLine::Victim(_) => 8,
        JournalLine::Sent(_) => 9,
        JournalLine::Digest(_) => 10,
    })
}

#[test]
fn its_lines_are_read(rt: HostRuntime) {
    let alloc = rt.alloc();
    assert!(rt; kind_of(alloc, BASE) == Some(0));
    assert!(rt; kind_of(alloc, LEASE) == Some(1));
    assert!(rt; kind_of(alloc, ASKED) == Some(6));
    assert!(rt; kind_of(alloc, ANSWERED) == Some(7));
    assert!(rt; kind_of(alloc, VICTIM) == Some(8));
    assert!(rt; kind_of(alloc, DIGEST) == Some(10));
}

fn is_refused(alloc: Global, text: &str) -> bool {
    matches!(read_line(alloc, text), Err(LineFault::NotALine))
}

#[test]
fn what_is_no_line_is_refused(rt: HostRuntime) {
    let alloc = rt.alloc();
    assert!(rt; is_refused(alloc, ""));
    assert!(rt; is_refused(alloc, "{\"line\":\"victims\"}"));
    assert!(rt;
        is_refused(
            alloc,
            "{\"key\":{\"app\":\"A\",\"id\":\"\"},\"line\":\"victim\"}"
        )
    );
    assert!(rt; is_refused(alloc, "{\"id\":\"a\",\"line\":\"row\",\"status\":\"up\"}"));
}
