//! The page of one application.
ghost use Rattle.std.specs.Prelude.{◌≡◌, ◌++◌, IfOk, OnOk, string_bytes};
ghost use Rattle.std.specs.List.{flat_map};
ghost use Rattle.eu_model.specs.Machine.{duration};
ghost use Rattle.eu_admin.specs.Apps as spec;

use crate::markup::push_escaped;
use crate::parts::{push_end, push_head, push_table_end};
use eu_base::Status;
use eu_model::Listed;
use std::alloc::{AllocError, Global};

/// How long a lease lasts, in milliseconds.
fn duration(listed: &Listed) -> u64
    ensures { result ≡ duration listed.now.instance }
{
    1000 * u64::from(listed.instance.secs().secs())
}

/// When an instance was last heard of, in milliseconds.
fn heard(listed: &Listed) -> u64
    ensures { result ≡ spec.heard listed.now }
{
    let times = listed.times;
    if times.updated == times.registered {
        return times.updated;
    }
    times.updated.saturating_sub(duration(listed))
}

/// For how many whole seconds nothing was heard of an instance.
fn silence(listed: &Listed, now: u64) -> u64
    ensures { result ≡ spec.silence listed.now now }
{
    now.saturating_sub(heard(listed)) / 1000
}

/// For how many whole seconds its lease is still held.
fn left(listed: &Listed, now: u64) -> u64
    ensures { result ≡ spec.left listed.now now }
{
    let held_until = listed.times.updated.saturating_add(duration(listed));
    held_until.saturating_sub(now) / 1000
}

/// The name of the status that was put over an instance's own; empty where none was.
fn overridden_name(status: Status) -> &'static str
    ensures { result.now ≡ spec.overridden_name status }
{
    match status {
        Status::Unknown => "",
        other => other.name(),
    }
}

/// Appends a cell of a table, of a text that markup takes for text.
#[tactic(auto, unfolding(crate::specs::Apps::cell))]
fn push_cell(text: &mut String, content: &str) -> Result<(), AllocError>
    ensures { OnOk result (string_bytes text.new ≡ string_bytes text.old ++ spec.cell content.now) }
{
    write!(text, "<td>{content}</td>")
}

/// Appends the cell of an instance's id.
fn push_id(text: &mut String, id: &str) -> Result<(), AllocError>
    ensures { OnOk result (string_bytes text.new ≡ string_bytes text.old ++ spec.id_cell id.now) }
{
    text.push_str("<tr><td>")?;
    push_escaped(text, id)?;
    text.push_str("</td>")?;
    Ok(())
}

/// Appends the cells of numbers, the last of a row.
#[tactic(auto, unfolding(crate::specs::Apps::number_cells))]
fn push_numbers(text: &mut String, silence: u64, left: u64) -> Result<(), AllocError>
    ensures { OnOk result (string_bytes text.new ≡ string_bytes text.old ++ spec.number_cells silence left) }
{
    writeln!(text, "<td>{silence}</td><td>{left}</td></tr>")
}

/// Appends the row of an instance.
fn push_instance(text: &mut String, listed: &Listed, now: u64) -> Result<(), AllocError>
    ensures { OnOk result (string_bytes text.new ≡ string_bytes text.old ++ spec.instance_row now listed.now) }
{
    push_id(text, listed.instance.key().id.as_str())?;
    push_cell(text, listed.instance.status().name())?;
    push_cell(text, overridden_name(listed.instance.overridden()))?;
    push_numbers(text, silence(listed, now), left(listed, now))?;
    Ok(())
}

/// Appends the rows of instances.
fn push_instances(text: &mut String, listing: &[Listed], now: u64) -> Result<(), AllocError>
    ensures { OnOk result (string_bytes text.new ≡ string_bytes text.old ++ flat_map (spec.instance_row now) listing.now) }
{
    for listed in listing {
        push_instance(text, listed, now)?;
    }
    Ok(())
}

/// Begins the table of instances, below a link to the page of the whole registry.
#[tactic(auto, unfolding(crate::specs::Apps::heads))]
fn push_heads(text: &mut String) -> Result<(), AllocError>
    ensures { OnOk result (string_bytes text.new ≡ string_bytes text.old ++ spec.heads) }
{
    text.push_str(
        "<p><a href=\"../\">Lease registry</a></p>\n<table>\n<tr><th scope=\"col\">Instance</th><th scope=\"col\">Status</th><th scope=\"col\">Overridden status</th><th scope=\"col\">Last heard of, seconds ago</th><th scope=\"col\">Lease left, seconds</th></tr>\n",
    )
}

/// The page of one application, in HTML (the HTML standard, encoded in UTF-8): a row for each lease of the listing, with the instance's id, its status, the status
/// that was put over it (empty where none was), for how many seconds nothing was heard of it, and for how many its lease is still held: 0 where it has expired.
/// `now` is in milliseconds, by the clock of the registry. The name and the ids are escaped.
///
/// An instance was last heard of when it was registered or last renewed its lease. Its last update is that moment or, after a renewal, one duration later, and it
/// is held for one duration more (`Lease.renew` and `Lease.isExpired` in Eureka); by the law `silences_are_since_touches` that is what the page tells.
///
/// `AllocError` where no memory is left.
pub fn app_page(
    alloc: Global,
    app: &str,
    listing: &[Listed],
    now: u64,
) -> Result<String, AllocError>
    ensures { IfOk result (λ text. string_bytes text ≡ spec.app_page app.now listing.now now) }
{
    let mut text = String::new(alloc);
    push_head(&mut text, app)?;
    push_heads(&mut text)?;
    push_instances(&mut text, listing, now)?;
    push_table_end(&mut text)?;
    push_end(&mut text)?;
    Ok(text)
}
