//! Journals in a file, and what is told where it isn't there.
use crate::tests::files::{Lines, holds, place_of};
use crate::tests::runs::{first_wrong, plays};
use std::alloc::{AllocError, Global};
use std::net::{Net, TcpListener, TcpStream};
use std::sync::Wait;
use std::test::Fail;
use std::thread::Threads;
use std::time::Clock;

/// The lines of the journal of a script that opens a registry for two clients and ends a minute: no renewal was counted.
const JOURNAL: Lines = Some(&[HEAD, ASKED, ANSWERED, HEAD, DIGEST]);

const HEAD: &str =
    "{\"config\":{\"evict_ms\":60000,\"interval\":30,\"percent\":85,\"preservation\":true},\"expected\":2,\"journal\":1,\"last\":0,\"line\":\"head\",\"previous\":null,\"since\":0}";

const ASKED: &str =
    "{\"command\":{\"name\":\"Roll\"},\"line\":\"asked\",\"moment\":1000,\"number\":0,\"pass\":0,\"rest\":null}";

const ANSWERED: &str =
    "{\"line\":\"answered\",\"reply\":{\"name\":\"Last\",\"renewals\":0},\"rest\":null}";

const DIGEST: &str =
    "{\"line\":\"digest\",\"sha256\":\"5f634d416b6ad2487f2dde615c8e13988859515bd1332bd9544a48a56c5effa1\"}";

/// The same, but for the answer: five were counted, of which the registry had none.
const FORGED: Lines = Some(&[
    HEAD,
    ASKED,
    "{\"line\":\"answered\",\"reply\":{\"name\":\"Last\",\"renewals\":5},\"rest\":null}",
    HEAD,
    "{\"line\":\"digest\",\"sha256\":\"e2e2d4fdba2cf37a3a9a33fc1da10f5355e0ea3e7f0f2015e049e7d104a5de1a\"}",
]);

/// Such a file, runs at machines with it, and the file then.
type Filed = (Lines, &'static str, Lines);

/// Whether these runs are as they are to be, and leave such a file.
fn is_so<R: Threads + Wait + Clock + Net<Listener = TcpListener, Stream = TcpStream> + Sync>(
    rt: &R,
    alloc: Global,
    row: &Filed,
) -> Result<bool, AllocError> {
    let (before, text, after) = *row;
    let place = place_of(alloc, before)?;
    let wrong = first_wrong(rt, alloc, &place, text, &[]);
    let is_left = holds(alloc, place, after)?;
    Ok(is_left && wrong.is_none())
}

const SCRIPT: &str = r#"< open 2; roll 1000
eureka script --journal kept.journal = 0 "opened\nlast 0\n" """#;

/// The file is created, and what it held before is lost, also where the script ends early.
const SCRIPTS: [Filed; 3] = [
    (None, SCRIPT, JOURNAL),
    (
        Some(&[
            HEAD, ASKED, ANSWERED, HEAD, DIGEST, HEAD, ASKED, ANSWERED, HEAD, DIGEST,
        ]),
        SCRIPT,
        JOURNAL,
    ),
    (
        Some(&["before"]),
        r#"< open 2; roll x
eureka script --journal kept.journal = 2 "opened\n" "line 2: bad line\n""#,
        Some(&[]),
    ),
];

#[test]
fn a_script_leaves_its_journal_in_the_file(rt: HostRuntime) -> Result<(), Fail> {
    for row in &SCRIPTS {
        assert!(rt; is_so(&rt, rt.alloc(), row)?, "{}", row.1);
    }
    Ok(())
}

/// A journal, and one that is no run; a verdict that isn't taken; and a journal that isn't whole, and one with a bad line.
const AUDITS: [Filed; 4] = [
    (
        JOURNAL,
        r#"eureka audit --journal kept.journal = 0 "audit yes 1\n" ""
broken output
eureka audit --journal kept.journal = 3 "" "fault 41\n""#,
        JOURNAL,
    ),
    (
        FORGED,
        r#"eureka audit --journal kept.journal = 3 "audit no 1\n" """#,
        FORGED,
    ),
    (
        Some(&[HEAD, ASKED, ANSWERED, HEAD]),
        r#"eureka audit --journal kept.journal = 2 "" "the journal isn't whole\n""#,
        Some(&[HEAD, ASKED, ANSWERED, HEAD]),
    ),
    (
        Some(&[HEAD, "{}", ANSWERED]),
        r#"eureka audit --journal kept.journal = 2 "" "line 2: bad line\n""#,
        Some(&[HEAD, "{}", ANSWERED]),
    ),
];

#[test]
fn a_journal_is_audited(rt: HostRuntime) -> Result<(), Fail> {
    for row in &AUDITS {
        assert!(rt; is_so(&rt, rt.alloc(), row)?, "{}", row.1);
    }
    Ok(())
}

/// A file that isn't there; and such that aren't created, once the port is bound, and before a script runs.
const MISSING: &str =
    r#"eureka audit --journal other.journal = 3 "" "other.journal: entity not found\nfault 40\n"
eureka serve --port 0 --sessions 1 --journal other.journal = 3 "" "listening on 127.0.0.1:*\nother.journal: entity not found\nfault 41\n"
< open 1
eureka script --journal other.journal = 3 "" "other.journal: entity not found\nfault 41\n""#;

#[test]
fn a_file_that_is_not_there_is_told_by_its_path(rt: HostRuntime) {
    assert_eq!(rt; plays(&rt, rt.alloc(), MISSING, &[]), None);
}

/// A server's run, and an audit of the journal that it leaves.
const SERVED: &str =
    r#"eureka serve --port 0 --sessions 0 --journal kept.journal = 0 "served 0\n" "listening on 127.0.0.1:*\n"
eureka audit --journal kept.journal = 0 "audit yes *" """#;

/// Whether it is, where there was another file before.
fn is_audited<R: Threads + Wait + Clock + Net<Listener = TcpListener, Stream = TcpStream> + Sync>(
    rt: &R,
    alloc: Global,
) -> Result<bool, AllocError> {
    let place = place_of(alloc, Some(&["before"]))?;
    Ok(first_wrong(rt, alloc, &place, SERVED, &[]).is_none())
}

#[test]
fn a_server_writes_its_journal_to_the_file(rt: HostRuntime) -> Result<(), Fail> {
    assert!(rt; is_audited(&rt, rt.alloc())?);
    Ok(())
}
