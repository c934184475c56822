//! Metrics and pages for an operator, with what they say worked out by hand.
use eu_admin::{
    AppLine, Connections, Done, Facts, Permission, app_page, front_page, lines_of, metrics_text,
    push_encoded, push_escaped, why,
};
use eu_base::{App, Fault, Instance, LeaseSecs, RenewalSecs, Rest, SharedInstance, Stamp, Status};
use eu_fixtures::key_of;
use eu_gate::{Responded, Tally};
use eu_model::{Counts, Gauges, Listed, StatusCounts, Times};
use std::alloc::Global;

/// Whether the escape of a text, and the segment of a path that it makes, are these.
pub fn is_written(alloc: Global, text: &str, markup: &str, path: &str) -> Result<bool, Fault> {
    let mut escaped = String::new(alloc);
    push_escaped(&mut escaped, text)?;
    let mut encoded = String::new(alloc);
    push_encoded(&mut encoded, text)?;
    Ok(escaped.as_str() == markup && encoded.as_str() == path)
}

#[test]
fn names_are_written_so_that_markup_and_paths_take_them_for_text(rt: HostRuntime) {
    for (text, markup, path) in [
        ("", "", ""),
        ("ORDERS-2.x_y~", "ORDERS-2.x_y~", "ORDERS-2.x_y~"),
        (
            "<a href=\"x\">'&'",
            "&lt;a href=&quot;x&quot;&gt;&#39;&amp;&#39;",
            "%3Ca%20href%3D%22x%22%3E%27%26%27",
        ),
        ("host:8080/é", "host:8080/é", "host%3A8080%2F%C3%A9"),
        ("&amp;", "&amp;amp;", "%26amp%3B"),
    ] {
        assert!(rt;
            is_written(rt.alloc(), text, markup, path) == Ok(true),
            "at {text}"
        );
    }
}

/// Counts of a registry whose self-preservation is on or off, and that permits evictions or doesn't.
pub fn counts(preservation: bool, permitted: bool, threshold: u64, last: u64) -> Counts {
    Counts {
        held: 5,
        expected: 10,
        threshold,
        last,
        permitted,
        preservation,
    }
}

#[test]
fn a_reason_is_told_for_each_of_the_four_cases(rt: HostRuntime) {
    for (preservation, permitted, threshold, last, reason) in [
        (false, true, 17, 40, Permission::Off),
        (false, true, 0, 0, Permission::Off),
        (true, false, 0, 0, Permission::NoThreshold),
        (true, false, 0, 3, Permission::NoThreshold),
        (true, false, 17, 17, Permission::TooFew),
        (true, false, 17, 0, Permission::TooFew),
        (true, true, 17, 18, Permission::Fine),
    ] {
        let counts = counts(preservation, permitted, threshold, last);
        assert!(rt; why(&counts) == reason, "at {threshold} and {last}");
    }
}

/// Three responses by one worker and one by another. A status that isn't counted, and a fault that isn't, change nothing.
pub fn responses() -> Tally {
    let mut tally = Tally::none();
    for (status, fault) in [(200, None), (404, None), (431, Some(33)), (999, Some(999))] {
        tally.count(Responded { status, fault });
    }
    let mut other = Tally::none();
    other.count(Responded {
        status: 200,
        fault: None,
    });
    tally.add(&other);
    tally
}

/// What is told of a registry with these counts: each other number is another.
pub fn facts_of(counts: Counts) -> Facts {
    Facts {
        gauges: Gauges { counts, due: 6 },
        statuses: StatusCounts {
            up: 7,
            down: 8,
            starting: 9,
            out_of_service: 11,
            unknown: 12,
        },
        done: Done {
            steps: 13,
            renewed: 14,
            added: 15,
            removed: 16,
            evicted: 20,
        },
        connections: Connections {
            open: 21,
            accepted: 22,
            refused: 23,
        },
        responses: responses(),
        uptime_secs: 24,
    }
}

/// Whether these are the metrics of it.
pub fn are_metrics(alloc: Global, counts: Counts, text: &str) -> Result<bool, Fault> {
    let told = metrics_text(alloc, &facts_of(counts), "1.2.3")?;
    Ok(told.as_str() == text)
}

#[test]
fn metrics_are_families_with_their_help_and_type(rt: HostRuntime) {
    let text =
        "# HELP eureka_leases Leases that are held.\n# TYPE eureka_leases gauge\neureka_leases{status=\"UP\"} 7\neureka_leases{status=\"DOWN\"} 8\neureka_leases{status=\"STARTING\"} 9\neureka_leases{status=\"OUT_OF_SERVICE\"} 11\neureka_leases{status=\"UNKNOWN\"} 12\n# HELP eureka_leases_due Leases that have expired and are still held.\n# TYPE eureka_leases_due gauge\neureka_leases_due 6\n# HELP eureka_clients_expected Clients that are expected to renew.\n# TYPE eureka_clients_expected gauge\neureka_clients_expected 10\n# HELP eureka_renewals_threshold Renewals a minute above which evictions are permitted.\n# TYPE eureka_renewals_threshold gauge\neureka_renewals_threshold 17\n# HELP eureka_renewals_last_minute Renewals of the last whole minute.\n# TYPE eureka_renewals_last_minute gauge\neureka_renewals_last_minute 18\n# HELP eureka_evictions_permitted Whether leases that expire are evicted.\n# TYPE eureka_evictions_permitted gauge\neureka_evictions_permitted 1\n# HELP eureka_self_preservation_enabled Whether self-preservation is on.\n# TYPE eureka_self_preservation_enabled gauge\neureka_self_preservation_enabled 1\n# HELP eureka_steps_total Commands that were carried out.\n# TYPE eureka_steps_total counter\neureka_steps_total 13\n# HELP eureka_renewals_total Renewals that were counted.\n# TYPE eureka_renewals_total counter\neureka_renewals_total 14\n# HELP eureka_leases_added_total Leases that were added.\n# TYPE eureka_leases_added_total counter\neureka_leases_added_total 15\n# HELP eureka_leases_removed_total Leases that were removed.\n# TYPE eureka_leases_removed_total counter\neureka_leases_removed_total 16\n# HELP eureka_leases_evicted_total Leases that were evicted.\n# TYPE eureka_leases_evicted_total counter\neureka_leases_evicted_total 20\n# HELP eureka_connections_open Connections that are open.\n# TYPE eureka_connections_open gauge\neureka_connections_open 21\n# HELP eureka_connections_accepted_total Connections that were accepted.\n# TYPE eureka_connections_accepted_total counter\neureka_connections_accepted_total 22\n# HELP eureka_connections_refused_total Connections that were turned away.\n# TYPE eureka_connections_refused_total counter\neureka_connections_refused_total 23\n# HELP eureka_responses_total Responses to clients, by status.\n# TYPE eureka_responses_total counter\neureka_responses_total{status=\"200\"} 2\neureka_responses_total{status=\"204\"} 0\neureka_responses_total{status=\"400\"} 0\neureka_responses_total{status=\"403\"} 0\neureka_responses_total{status=\"404\"} 1\neureka_responses_total{status=\"408\"} 0\neureka_responses_total{status=\"409\"} 0\neureka_responses_total{status=\"413\"} 0\neureka_responses_total{status=\"415\"} 0\neureka_responses_total{status=\"431\"} 1\neureka_responses_total{status=\"503\"} 0\n# HELP eureka_requests_refused_total Requests of clients that were refused, by fault.\n# TYPE eureka_requests_refused_total counter\neureka_requests_refused_total{fault=\"2\"} 0\neureka_requests_refused_total{fault=\"3\"} 0\neureka_requests_refused_total{fault=\"6\"} 0\neureka_requests_refused_total{fault=\"7\"} 0\neureka_requests_refused_total{fault=\"20\"} 0\neureka_requests_refused_total{fault=\"21\"} 0\neureka_requests_refused_total{fault=\"22\"} 0\neureka_requests_refused_total{fault=\"23\"} 0\neureka_requests_refused_total{fault=\"24\"} 0\neureka_requests_refused_total{fault=\"25\"} 0\neureka_requests_refused_total{fault=\"26\"} 0\neureka_requests_refused_total{fault=\"27\"} 0\neureka_requests_refused_total{fault=\"28\"} 0\neureka_requests_refused_total{fault=\"29\"} 0\neureka_requests_refused_total{fault=\"30\"} 0\neureka_requests_refused_total{fault=\"31\"} 0\neureka_requests_refused_total{fault=\"32\"} 0\neureka_requests_refused_total{fault=\"33\"} 1\neureka_requests_refused_total{fault=\"34\"} 0\neureka_requests_refused_total{fault=\"35\"} 0\neureka_requests_refused_total{fault=\"36\"} 0\neureka_requests_refused_total{fault=\"37\"} 0\neureka_requests_refused_total{fault=\"38\"} 0\neureka_requests_refused_total{fault=\"42\"} 0\n# HELP eureka_uptime_seconds For how long the server has run.\n# TYPE eureka_uptime_seconds gauge\neureka_uptime_seconds 24\n# HELP eureka_build_info The version of the server.\n# TYPE eureka_build_info gauge\neureka_build_info{version=\"1.2.3\"} 1\n";
    assert!(rt; are_metrics(rt.alloc(), counts(true, true, 17, 18), text) == Ok(true));
}

/// An instance of that application, in these statuses, with a lease of 90 s.
fn instance_of(
    alloc: Global,
    app: &str,
    id: &str,
    status: Status,
    overridden: Status,
) -> Result<SharedInstance, Fault> {
    let last_dirty = Stamp::new(0).ok_or(Fault::BadStamp)?;
    let rest = Rest::of_host(alloc, "h")?;
    match key_of(alloc, app, id) {
        Ok(key) => Ok(SharedInstance::new(
            alloc,
            Instance {
                key,
                status,
                overridden,
                last_dirty,
                secs: LeaseSecs::DEFAULT,
                interval: RenewalSecs::DEFAULT,
                rest,
            },
        )?),
        Err(fault) => {
            drop(rest);
            Err(fault)
        }
    }
}

/// A lease of it that was registered and last updated at these moments.
fn lease_of(instance: SharedInstance, registered: u64, updated: u64) -> Listed {
    Listed {
        instance,
        times: Times {
            registered,
            updated,
            up: registered,
        },
    }
}

/// Leases of three applications, in key order: two of A, of which one is up, three of B, which all are, and one of C, which isn't.
fn three_applications(alloc: Global) -> Result<Vec<Listed>, Fault> {
    let mut held = Vec::new(alloc);
    for (app, id, status) in [
        ("A", "1", Status::Down),
        ("A", "2", Status::Up),
        ("B", "1", Status::Up),
        ("B", "2", Status::Up),
        ("B", "3", Status::Up),
        ("C", "1", Status::Starting),
    ] {
        let instance = instance_of(alloc, app, id, status, Status::Unknown)?;
        held.push(lease_of(instance, 0, 0))?;
    }
    Ok(held)
}

/// Whether a line tells of that application, with so many instances and so many that are up.
fn is_line(line: &AppLine, app: &str, instances: u64, up: u64) -> bool {
    line.app.as_str() == app && line.instances == instances && line.up == up
}

/// Whether the listing of three applications has their three lines.
pub fn are_three_lines(alloc: Global) -> Result<bool, Fault> {
    let held = three_applications(alloc)?;
    let lines = lines_of(alloc, held.as_slice())?;
    drop(held);
    if lines.len() != 3 {
        return Ok(false);
    }
    Ok(
        is_line(&lines[0], "A", 2, 1)
            && is_line(&lines[1], "B", 3, 3)
            && is_line(&lines[2], "C", 1, 0),
    )
}

#[test]
fn an_application_has_one_line(rt: HostRuntime) {
    assert!(rt; are_three_lines(rt.alloc()) == Ok(true));
}

/// Whether the page of a registry with these counts, and of one application, has that piece.
pub fn is_on_front(alloc: Global, counts: Counts, piece: &str) -> Result<bool, Fault> {
    let mut lines = Vec::new(alloc);
    lines.push(AppLine {
        app: App::read(alloc, "R&D <1>")?,
        instances: 4,
        up: 3,
    })?;
    let page = front_page(alloc, &facts_of(counts), lines.as_slice(), "1<2")?;
    drop(lines);
    Ok(page.as_str().contains(piece))
}

#[test]
fn the_front_page_tells_why_and_links_each_application(rt: HostRuntime) {
    let fine = counts(true, true, 17, 40);
    let few = counts(true, false, 17, 12);
    let off = counts(false, true, 17, 12);
    let none = counts(true, false, 0, 0);
    for (counts, piece) in [
        (
            fine,
            "<p class=\"banner fine\">Evictions are permitted: 40 renewals in the last minute, above the threshold of 17.</p>\n<p><meter aria-label=\"Renewals in the last minute\" min=\"0\" max=\"40\" low=\"18\" optimum=\"40\" value=\"40\">40</meter></p>\n",
        ),
        (
            few,
            "<p class=\"banner held\">Self-preservation holds evictions back: 12 renewals in the last minute, not above the threshold of 17.</p>\n<p><meter aria-label=\"Renewals in the last minute\" min=\"0\" max=\"34\" low=\"18\" optimum=\"34\" value=\"12\">12</meter></p>\n",
        ),
        (
            off,
            "<p class=\"banner off\">Self-preservation is off: leases that expire are evicted.</p>\n",
        ),
        (
            none,
            "<p class=\"banner\">The threshold is 0, so self-preservation holds evictions back.</p>\n<p><meter aria-label=\"Renewals in the last minute\" min=\"0\" max=\"1\" low=\"1\" optimum=\"1\" value=\"0\">0</meter></p>\n",
        ),
        (
            fine,
            "<tr><td><a href=\"apps/R%26D%20%3C1%3E\">R&amp;D &lt;1&gt;</a></td><td>4</td><td>3</td></tr>\n</table>\n<footer>Version 1&lt;2</footer>\n</body>\n</html>\n",
        ),
        (
            fine,
            "<tr><th scope=\"row\">Expired and still held</th><td>6</td></tr>\n",
        ),
    ] {
        assert!(rt;
            is_on_front(rt.alloc(), counts, piece) == Ok(true),
            "at {piece}"
        );
    }
}

/// Whether the page of an application, at 200 s, has that piece: one instance was registered at 100 s, another renewed at 150 s, and a third is silent since 10 s.
pub fn is_on_page(alloc: Global, piece: &str) -> Result<bool, Fault> {
    let mut held = Vec::new(alloc);
    let fresh = instance_of(alloc, "A", "a<b", Status::Up, Status::Unknown)?;
    held.push(lease_of(fresh, 100_000, 100_000))?;
    let renewed = instance_of(alloc, "A", "c", Status::OutOfService, Status::OutOfService)?;
    held.push(lease_of(renewed, 100_000, 240_000))?;
    let silent = instance_of(alloc, "A", "d", Status::Down, Status::Unknown)?;
    held.push(lease_of(silent, 10_000, 10_000))?;
    let page = app_page(alloc, "A", held.as_slice(), 200_999)?;
    drop(held);
    Ok(page.as_str().contains(piece))
}

#[test]
fn the_page_of_an_application_tells_when_its_instances_were_heard_of(rt: HostRuntime) {
    for piece in [
        "<title>A</title>\n",
        "<h1>A</h1>\n<p><a href=\"../\">Lease registry</a></p>\n<table>\n",
        "<tr><td>a&lt;b</td><td>UP</td><td></td><td>100</td><td>0</td></tr>\n<tr><td>c</td><td>OUT_OF_SERVICE</td><td>OUT_OF_SERVICE</td><td>50</td><td>129</td></tr>\n<tr><td>d</td><td>DOWN</td><td></td><td>190</td><td>0</td></tr>\n</table>\n</body>\n</html>\n",
    ] {
        assert!(rt; is_on_page(rt.alloc(), piece) == Ok(true), "at {piece}");
    }
}
