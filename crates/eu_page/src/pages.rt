//! The status page.
ghost use Rattle.std.specs.Prelude.{◌≡◌, ◌++◌, IfOk, OnOk, string_bytes};
ghost use Rattle.eu_page.specs.Page.{page_text, counts_of, count_lines, state_lines, on_or_off, yes_or_no, IsPageOf};

use crate::codes::hash_code;
use eu_model::{Counts, StatusCounts};
use std::alloc::{AllocError, Global};

/// What a status page tells of a registry.
#[derive(Debug, Drop)]
pub struct Page {
    /// The leases that are held.
    pub held: u64,
    /// The clients that are expected to send renewals.
    pub expected: u64,
    /// The renewals a minute above which eviction is permitted.
    pub threshold: u64,
    /// The renewals of the last whole minute.
    pub last: u64,
    /// Whether self-preservation is on.
    pub preservation: bool,
    /// Whether eviction is permitted.
    pub permitted: bool,
    /// The hash code of the statuses of the leases that are held.
    pub statuses: String,
}

/// The text of a status page: seven lines, each of a name, a space and a value, and ended by LF. The numbers are decimal;
/// `preservation` is `on` or `off`, and `permitted` `yes` or `no`. The last value is empty where no lease is held.
///
/// ```text
/// held 1
/// expected 2
/// threshold 3
/// last 0
/// preservation on
/// permitted no
/// statuses UP_1_
/// ```
///
/// `AllocError` where no memory is left.
pub fn status_page(alloc: Global, page: &Page) -> Result<String, AllocError>
    ensures { IfOk result (λ text. string_bytes text ≡ page_text page.now) }
{
    let mut text = String::new(alloc);
    push_counts(&mut text, page)?;
    push_states(&mut text, page)?;
    Ok(text)
}

fn push_counts(text: &mut String, page: &Page) -> Result<(), AllocError>
    ensures { OnOk result (string_bytes text.new ≡ string_bytes text.old ++ count_lines (counts_of page.now)) }
{
    let (held, expected) = (page.held, page.expected);
    let (threshold, last) = (page.threshold, page.last);
    writeln!(
        text,
        "held {held}\nexpected {expected}\nthreshold {threshold}\nlast {last}"
    )
}

fn push_states(text: &mut String, page: &Page) -> Result<(), AllocError>
    ensures { OnOk result (string_bytes text.new ≡ string_bytes text.old ++ state_lines (counts_of page.now) (string_bytes page.now.statuses)) }
{
    let preservation = on_or_off(page.preservation);
    let permitted = yes_or_no(page.permitted);
    let statuses = page.statuses.as_str();
    writeln!(
        text,
        "preservation {preservation}\npermitted {permitted}\nstatuses {statuses}"
    )
}

fn on_or_off(on: bool) -> &'static str
    ensures { result.now ≡ on_or_off on }
{
    if on { "on" } else { "off" }
}

fn yes_or_no(yes: bool) -> &'static str
    ensures { result.now ≡ yes_or_no yes }
{
    if yes { "yes" } else { "no" }
}

/// The page of a registry with these counts, so many of whose leases have each status. `AllocError` where no memory is left.
pub fn page_of(alloc: Global, counts: &Counts, statuses: &StatusCounts) -> Result<Page, AllocError>
    ensures { IfOk result (λ page. IsPageOf counts.now statuses.now page) }
{
    let statuses = hash_code(alloc, statuses)?;
    Ok(Page {
        held: counts.held,
        expected: counts.expected,
        threshold: counts.threshold,
        last: counts.last,
        preservation: counts.preservation,
        permitted: counts.permitted,
        statuses,
    })
}
