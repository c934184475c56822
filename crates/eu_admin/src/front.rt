//! The page of a whole registry.
ghost use Rattle.std.specs.Prelude.{◌≡◌, ◌++◌, IfOk, OnOk, string_bytes};
ghost use Rattle.std.specs.List.{flat_map};
ghost use Rattle.eu_admin.specs.Front as spec;

use crate::facts::{Connections, Done, Facts, Permission, why};
use crate::lines::AppLine;
use crate::markup::{push_encoded, push_escaped};
use crate::parts::{push_end, push_head, push_row, push_section, push_table_end};
use eu_model::{Counts, StatusCounts};
use std::alloc::{AllocError, Global};

/// Appends that evictions are held back, as too few renewed.
#[tactic(auto, unfolding(crate::specs::Front::too_few))]
fn push_too_few(text: &mut String, last: u64, threshold: u64) -> Result<(), AllocError>
    ensures { OnOk result (string_bytes text.new ≡ string_bytes text.old ++ spec.too_few last threshold) }
{
    writeln!(
        text,
        "<p class=\"banner held\">Self-preservation holds evictions back: {last} renewals in the last minute, not above the threshold of {threshold}.</p>"
    )
}

/// Appends that evictions are permitted, as enough renewed.
#[tactic(auto, unfolding(crate::specs::Front::enough))]
fn push_enough(text: &mut String, last: u64, threshold: u64) -> Result<(), AllocError>
    ensures { OnOk result (string_bytes text.new ≡ string_bytes text.old ++ spec.enough last threshold) }
{
    writeln!(
        text,
        "<p class=\"banner fine\">Evictions are permitted: {last} renewals in the last minute, above the threshold of {threshold}.</p>"
    )
}

/// Appends that self-preservation is off.
#[tactic(auto, unfolding(crate::specs::Front::off))]
fn push_off(text: &mut String) -> Result<(), AllocError>
    ensures { OnOk result (string_bytes text.new ≡ string_bytes text.old ++ spec.off) }
{
    text.push_str(
        "<p class=\"banner off\">Self-preservation is off: leases that expire are evicted.</p>\n",
    )
}

/// Appends that nothing is expected yet.
#[tactic(auto, unfolding(crate::specs::Front::no_threshold))]
fn push_no_threshold(text: &mut String) -> Result<(), AllocError>
    ensures { OnOk result (string_bytes text.new ≡ string_bytes text.old ++ spec.no_threshold) }
{
    text.push_str(
        "<p class=\"banner\">The threshold is 0, so self-preservation holds evictions back.</p>\n",
    )
}

/// Appends whether leases that expire are evicted, and why.
fn push_banner(text: &mut String, counts: &Counts) -> Result<(), AllocError>
    ensures { OnOk result (string_bytes text.new ≡ string_bytes text.old ++ spec.banner counts.now) }
{
    match why(counts) {
        Permission::Off => push_off(text),
        Permission::NoThreshold => push_no_threshold(text),
        Permission::TooFew => push_too_few(text, counts.last, counts.threshold),
        Permission::Fine => push_enough(text, counts.last, counts.threshold),
    }
}

/// Where the meter of the renewals ends: at twice the threshold, at the renewals where they are more, and at 1 at least.
fn meter_end(counts: &Counts) -> u64
    ensures { result ≡ spec.meter_end counts.now }
{
    counts.last.max(counts.threshold.saturating_mul(2)).max(1)
}

/// Appends a meter that ends there, and is low below that number.
#[tactic(auto, unfolding(crate::specs::Front::meter_to))]
fn push_meter_to(text: &mut String, end: u64, last: u64, low: u64) -> Result<(), AllocError>
    ensures { OnOk result (string_bytes text.new ≡ string_bytes text.old ++ spec.meter_to end last low) }
{
    writeln!(
        text,
        "<p><meter aria-label=\"Renewals in the last minute\" min=\"0\" max=\"{end}\" low=\"{low}\" optimum=\"{end}\" value=\"{last}\">{last}</meter></p>"
    )
}

/// Appends the renewals of the last minute against the threshold.
fn push_meter(text: &mut String, counts: &Counts) -> Result<(), AllocError>
    ensures { OnOk result (string_bytes text.new ≡ string_bytes text.old ++ spec.meter counts.now) }
{
    let low = counts.threshold.saturating_add(1);
    push_meter_to(text, meter_end(counts), counts.last, low)
}

/// Appends the renewals in numbers.
fn push_renewals(text: &mut String, counts: &Counts) -> Result<(), AllocError>
    ensures { OnOk result (string_bytes text.new ≡ string_bytes text.old ++ spec.renewals counts.now) }
{
    push_section(text, "Renewals")?;
    push_row(text, "In the last minute", counts.last)?;
    push_row(text, "Threshold", counts.threshold)?;
    push_row(text, "Clients expected", counts.expected)?;
    push_table_end(text)?;
    Ok(())
}

/// Appends how many leases are held in each status.
fn push_statuses(text: &mut String, statuses: &StatusCounts) -> Result<(), AllocError>
    ensures { OnOk result (string_bytes text.new ≡ string_bytes text.old ++ spec.statuses statuses.now) }
{
    push_row(text, "UP", statuses.up)?;
    push_row(text, "DOWN", statuses.down)?;
    push_row(text, "STARTING", statuses.starting)?;
    push_row(text, "OUT_OF_SERVICE", statuses.out_of_service)?;
    push_row(text, "UNKNOWN", statuses.unknown)?;
    Ok(())
}

/// Appends the leases in numbers.
fn push_leases(text: &mut String, facts: &Facts) -> Result<(), AllocError>
    ensures { OnOk result (string_bytes text.new ≡ string_bytes text.old ++ spec.leases facts.now) }
{
    push_section(text, "Leases")?;
    push_row(text, "Held", facts.gauges.counts.held)?;
    push_statuses(text, &facts.statuses)?;
    push_row(text, "Expired and still held", facts.gauges.due)?;
    push_table_end(text)?;
    Ok(())
}

/// Appends what was done since the start.
fn push_done(text: &mut String, done: &Done) -> Result<(), AllocError>
    ensures { OnOk result (string_bytes text.new ≡ string_bytes text.old ++ spec.done done.now) }
{
    push_row(text, "Commands", done.steps)?;
    push_row(text, "Renewals", done.renewed)?;
    push_row(text, "Leases added", done.added)?;
    push_row(text, "Leases removed", done.removed)?;
    push_row(text, "Leases evicted", done.evicted)?;
    Ok(())
}

/// Appends the connections of the server.
fn push_connections(text: &mut String, connections: &Connections) -> Result<(), AllocError>
    ensures { OnOk result (string_bytes text.new ≡ string_bytes text.old ++ spec.connections connections.now) }
{
    push_row(text, "Connections open", connections.open)?;
    push_row(text, "Connections accepted", connections.accepted)?;
    push_row(text, "Connections refused", connections.refused)?;
    Ok(())
}

/// Appends what the server did, in numbers.
fn push_since_the_start(text: &mut String, facts: &Facts) -> Result<(), AllocError>
    ensures { OnOk result (string_bytes text.new ≡ string_bytes text.old ++ spec.since_the_start facts.now) }
{
    push_section(text, "Since the start")?;
    push_done(text, &facts.done)?;
    push_connections(text, &facts.connections)?;
    push_row(text, "Seconds since then", facts.uptime_secs)?;
    push_table_end(text)?;
    Ok(())
}

/// Appends the name of an application, with a link to its page.
fn push_link(text: &mut String, app: &str) -> Result<(), AllocError>
    ensures { OnOk result (string_bytes text.new ≡ string_bytes text.old ++ spec.link app.now) }
{
    text.push_str("<a href=\"apps/")?;
    push_encoded(text, app)?;
    text.push_str("\">")?;
    push_escaped(text, app)?;
    text.push_str("</a>")?;
    Ok(())
}

/// Appends the row of an application.
fn push_line(text: &mut String, line: &AppLine) -> Result<(), AllocError>
    ensures { OnOk result (string_bytes text.new ≡ string_bytes text.old ++ spec.app_row line.now) }
{
    let (instances, up) = (line.instances, line.up);
    text.push_str("<tr><td>")?;
    push_link(text, line.app.as_str())?;
    writeln!(text, "</td><td>{instances}</td><td>{up}</td></tr>")?;
    Ok(())
}

/// Appends the rows of applications.
fn push_lines(text: &mut String, lines: &[AppLine]) -> Result<(), AllocError>
    ensures { OnOk result (string_bytes text.new ≡ string_bytes text.old ++ flat_map spec.app_row lines.now) }
{
    for line in lines {
        push_line(text, line)?;
    }
    Ok(())
}

/// Appends the head of the table of applications.
#[tactic(auto, unfolding(crate::specs::Front::app_heads))]
fn push_app_heads(text: &mut String) -> Result<(), AllocError>
    ensures { OnOk result (string_bytes text.new ≡ string_bytes text.old ++ spec.app_heads) }
{
    text.push_str(
        "<tr><th scope=\"col\">Application</th><th scope=\"col\">Instances</th><th scope=\"col\">Up</th></tr>\n",
    )
}

/// Appends the table of applications.
fn push_applications(text: &mut String, lines: &[AppLine]) -> Result<(), AllocError>
    ensures { OnOk result (string_bytes text.new ≡ string_bytes text.old ++ spec.applications lines.now) }
{
    push_section(text, "Applications")?;
    push_app_heads(text)?;
    push_lines(text, lines)?;
    push_table_end(text)?;
    Ok(())
}

/// Appends which version of the server this is.
fn push_foot(text: &mut String, version: &str) -> Result<(), AllocError>
    ensures { OnOk result (string_bytes text.new ≡ string_bytes text.old ++ spec.foot version.now) }
{
    text.push_str("<footer>Version ")?;
    push_escaped(text, version)?;
    text.push_str("</footer>\n")?;
    Ok(())
}

/// Appends what is told in numbers.
fn push_numbers(text: &mut String, facts: &Facts) -> Result<(), AllocError>
    ensures { OnOk result (string_bytes text.new ≡ string_bytes text.old ++ spec.numbers facts.now) }
{
    push_banner(text, &facts.gauges.counts)?;
    push_meter(text, &facts.gauges.counts)?;
    push_renewals(text, &facts.gauges.counts)?;
    push_leases(text, facts)?;
    push_since_the_start(text, facts)?;
    Ok(())
}

/// The page of a registry and its server, in HTML (the HTML standard, encoded in UTF-8): whether leases that expire are evicted and why, the renewals of the last
/// minute on a meter, the numbers of `facts`, and a row for each line, with a link to `apps/` and the application's name. It stands alone: it has no script, and
/// takes nothing from elsewhere. Names and the version are escaped.
///
/// `AllocError` where no memory is left.
pub fn front_page(
    alloc: Global,
    facts: &Facts,
    lines: &[AppLine],
    version: &str,
) -> Result<String, AllocError>
    ensures { IfOk result (λ text. string_bytes text ≡ spec.front_page facts.now lines.now version.now) }
{
    let mut text = String::new(alloc);
    push_head(&mut text, "Lease registry")?;
    push_numbers(&mut text, facts)?;
    push_applications(&mut text, lines)?;
    push_foot(&mut text, version)?;
    push_end(&mut text)?;
    Ok(text)
}
