//! Metrics of a registry and its server, in the text format of Prometheus.
ghost use Rattle.std.specs.Prelude.{◌≡◌, ◌++◌, IfOk, OnOk, string_bytes};
ghost use Rattle.std.specs.List.{flat_map};
ghost use Rattle.eu_admin.specs.Metrics as spec;

use crate::facts::{Connections, Done, Facts};
use eu_base::Status;
use eu_gate::{Count, Tally};
use eu_model::{Counts, Gauges, StatusCounts};
use std::alloc::{AllocError, Global};

/// Begins a family of samples.
#[tactic(auto, unfolding(crate::specs::Metrics::family))]
fn push_family(text: &mut String, name: &str, kind: &str, help: &str) -> Result<(), AllocError>
    ensures { OnOk result (string_bytes text.new ≡ string_bytes text.old ++ spec.family name.now kind.now help.now) }
{
    writeln!(text, "# HELP {name} {help}\n# TYPE {name} {kind}")
}

/// Appends a number that goes up and down.
#[tactic(auto, unfolding(crate::specs::Metrics::gauge))]
fn push_gauge(text: &mut String, name: &str, help: &str, number: u64) -> Result<(), AllocError>
    ensures { OnOk result (string_bytes text.new ≡ string_bytes text.old ++ spec.gauge name.now help.now number) }
{
    push_family(text, name, "gauge", help)?;
    writeln!(text, "{name} {number}")
}

/// Appends a number that only goes up.
#[tactic(auto, unfolding(crate::specs::Metrics::counter))]
fn push_counter(text: &mut String, name: &str, help: &str, number: u64) -> Result<(), AllocError>
    ensures { OnOk result (string_bytes text.new ≡ string_bytes text.old ++ spec.counter name.now help.now number) }
{
    push_family(text, name, "counter", help)?;
    writeln!(text, "{name} {number}")
}

/// Appends whether something holds: 1 where it does, and 0 where it doesn't.
#[tactic(auto, unfolding(crate::specs::Metrics::flag))]
fn push_flag(text: &mut String, name: &str, help: &str, holds: bool) -> Result<(), AllocError>
    ensures { OnOk result (string_bytes text.new ≡ string_bytes text.old ++ spec.flag name.now help.now holds) }
{
    push_gauge(text, name, help, u64::from(holds))
}

/// Appends how many leases are held in a status.
#[tactic(auto, unfolding(crate::specs::Metrics::in_status))]
fn push_status(text: &mut String, status: Status, number: u64) -> Result<(), AllocError>
    ensures { OnOk result (string_bytes text.new ≡ string_bytes text.old ++ spec.in_status status number) }
{
    let name = status.name();
    writeln!(text, "eureka_leases{{status=\"{name}\"}} {number}")
}

/// Appends how many leases are held in each status.
fn push_leases(text: &mut String, statuses: &StatusCounts) -> Result<(), AllocError>
    ensures { OnOk result (string_bytes text.new ≡ string_bytes text.old ++ spec.leases statuses.now) }
{
    push_family(text, "eureka_leases", "gauge", "Leases that are held.")?;
    push_status(text, Status::Up, statuses.up)?;
    push_status(text, Status::Down, statuses.down)?;
    push_status(text, Status::Starting, statuses.starting)?;
    push_status(text, Status::OutOfService, statuses.out_of_service)?;
    push_status(text, Status::Unknown, statuses.unknown)?;
    Ok(())
}

/// Appends how many leases are due, and the numbers that permit evictions.
fn push_renewals(text: &mut String, gauges: &Gauges) -> Result<(), AllocError>
    ensures { OnOk result (string_bytes text.new ≡ string_bytes text.old ++ spec.renewals gauges.now) }
{
    let counts = &gauges.counts;
    push_gauge(
        text,
        "eureka_leases_due",
        "Leases that have expired and are still held.",
        gauges.due,
    )?;
    push_gauge(
        text,
        "eureka_clients_expected",
        "Clients that are expected to renew.",
        counts.expected,
    )?;
    push_gauge(
        text,
        "eureka_renewals_threshold",
        "Renewals a minute above which evictions are permitted.",
        counts.threshold,
    )?;
    push_gauge(
        text,
        "eureka_renewals_last_minute",
        "Renewals of the last whole minute.",
        counts.last,
    )?;
    Ok(())
}

/// Appends whether evictions are permitted, and whether self-preservation is on.
fn push_preservation(text: &mut String, counts: &Counts) -> Result<(), AllocError>
    ensures { OnOk result (string_bytes text.new ≡ string_bytes text.old ++ spec.preservation counts.now) }
{
    push_flag(
        text,
        "eureka_evictions_permitted",
        "Whether leases that expire are evicted.",
        counts.permitted,
    )?;
    push_flag(
        text,
        "eureka_self_preservation_enabled",
        "Whether self-preservation is on.",
        counts.preservation,
    )?;
    Ok(())
}

/// Appends what was done since the start.
fn push_done(text: &mut String, done: &Done) -> Result<(), AllocError>
    ensures { OnOk result (string_bytes text.new ≡ string_bytes text.old ++ spec.done done.now) }
{
    push_counter(
        text,
        "eureka_steps_total",
        "Commands that were carried out.",
        done.steps,
    )?;
    push_counter(
        text,
        "eureka_renewals_total",
        "Renewals that were counted.",
        done.renewed,
    )?;
    push_counter(
        text,
        "eureka_leases_added_total",
        "Leases that were added.",
        done.added,
    )?;
    push_counter(
        text,
        "eureka_leases_removed_total",
        "Leases that were removed.",
        done.removed,
    )?;
    push_counter(
        text,
        "eureka_leases_evicted_total",
        "Leases that were evicted.",
        done.evicted,
    )?;
    Ok(())
}

/// Appends the connections of the server.
fn push_connections(text: &mut String, connections: &Connections) -> Result<(), AllocError>
    ensures { OnOk result (string_bytes text.new ≡ string_bytes text.old ++ spec.connections connections.now) }
{
    push_gauge(
        text,
        "eureka_connections_open",
        "Connections that are open.",
        connections.open,
    )?;
    push_counter(
        text,
        "eureka_connections_accepted_total",
        "Connections that were accepted.",
        connections.accepted,
    )?;
    push_counter(
        text,
        "eureka_connections_refused_total",
        "Connections that were turned away.",
        connections.refused,
    )?;
    Ok(())
}

/// Appends how many responses of a status were given.
#[tactic(auto, unfolding(crate::specs::Metrics::of_status))]
fn push_of_status(text: &mut String, count: &Count) -> Result<(), AllocError>
    ensures { OnOk result (string_bytes text.new ≡ string_bytes text.old ++ spec.of_status count.now) }
{
    let status = count.number;
    let times = count.times;
    writeln!(
        text,
        "eureka_responses_total{{status=\"{status}\"}} {times}"
    )
}

/// Appends how many requests were refused by a fault.
#[tactic(auto, unfolding(crate::specs::Metrics::of_fault))]
fn push_of_fault(text: &mut String, count: &Count) -> Result<(), AllocError>
    ensures { OnOk result (string_bytes text.new ≡ string_bytes text.old ++ spec.of_fault count.now) }
{
    let fault = count.number;
    let times = count.times;
    writeln!(
        text,
        "eureka_requests_refused_total{{fault=\"{fault}\"}} {times}"
    )
}

/// Appends how many responses of each status were given.
fn push_by_status(text: &mut String, counts: &[Count]) -> Result<(), AllocError>
    ensures { OnOk result (string_bytes text.new ≡ string_bytes text.old ++ flat_map spec.of_status counts.now) }
{
    for count in counts {
        push_of_status(text, count)?;
    }
    Ok(())
}

/// Appends how many requests were refused by each fault.
fn push_by_fault(text: &mut String, counts: &[Count]) -> Result<(), AllocError>
    ensures { OnOk result (string_bytes text.new ≡ string_bytes text.old ++ flat_map spec.of_fault counts.now) }
{
    for count in counts {
        push_of_fault(text, count)?;
    }
    Ok(())
}

/// Appends the responses that clients were given.
fn push_responses(text: &mut String, tally: &Tally) -> Result<(), AllocError>
    ensures { OnOk result (string_bytes text.new ≡ string_bytes text.old ++ spec.responses tally.now) }
{
    push_family(
        text,
        "eureka_responses_total",
        "counter",
        "Responses to clients, by status.",
    )?;
    push_by_status(text, &tally.statuses)?;
    push_family(
        text,
        "eureka_requests_refused_total",
        "counter",
        "Requests of clients that were refused, by fault.",
    )?;
    push_by_fault(text, &tally.faults)?;
    Ok(())
}

/// Appends what is told of the clients of the server.
fn push_clients(
    text: &mut String,
    connections: &Connections,
    responses: &Tally,
) -> Result<(), AllocError>
    ensures { OnOk result (string_bytes text.new ≡ string_bytes text.old ++ spec.clients connections.now responses.now) }
{
    push_connections(text, connections)?;
    push_responses(text, responses)?;
    Ok(())
}

/// Appends for how long the server has run, and which version of it.
fn push_server(text: &mut String, uptime_secs: u64, version: &str) -> Result<(), AllocError>
    ensures { OnOk result (string_bytes text.new ≡ string_bytes text.old ++ spec.server uptime_secs version.now) }
{
    push_gauge(
        text,
        "eureka_uptime_seconds",
        "For how long the server has run.",
        uptime_secs,
    )?;
    push_family(
        text,
        "eureka_build_info",
        "gauge",
        "The version of the server.",
    )?;
    writeln!(text, "eureka_build_info{{version=\"{version}\"}} 1")?;
    Ok(())
}

/// The metrics of a registry and its server: each family with its help, its type and its samples (Prometheus, "Text-based format", version 0.0.4). The version
/// is written as it is given: it is to have no quote, no backslash and no line's end.
///
/// `AllocError` where no memory is left.
pub fn metrics_text(alloc: Global, facts: &Facts, version: &str) -> Result<String, AllocError>
    ensures { IfOk result (λ text. string_bytes text ≡ spec.metrics facts.now version.now) }
{
    let mut text = String::new(alloc);
    push_leases(&mut text, &facts.statuses)?;
    push_renewals(&mut text, &facts.gauges)?;
    push_preservation(&mut text, &facts.gauges.counts)?;
    push_done(&mut text, &facts.done)?;
    push_clients(&mut text, &facts.connections, &facts.responses)?;
    push_server(&mut text, facts.uptime_secs, version)?;
    Ok(text)
}
