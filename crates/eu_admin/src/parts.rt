//! What the pages have in common: a head, rows of tables, a foot.
ghost use Rattle.std.specs.Prelude.{◌≡◌, ◌++◌, OnOk, string_bytes};
ghost use Rattle.eu_admin.specs.Parts as spec;

use crate::markup::push_escaped;
use std::alloc::AllocError;

/// How the pages look: by the colours of the browser, light or dark.
const STYLE: &str =
    ":root{color-scheme:light dark;font-family:system-ui,sans-serif;line-height:1.4}body{max-width:60rem;margin:2rem auto;padding:0 1rem}table{border-collapse:collapse;margin-bottom:1rem}th,td{padding:.2rem 1rem .2rem 0;text-align:left;border-bottom:1px solid #8886}td{white-space:nowrap}meter{width:100%;height:1.2rem}.banner{padding:.6rem 1rem;border-left:.4rem solid #888}.fine{border-color:#2a7}.held{border-color:#d80}.off{border-color:#58f}";

/// Appends how the pages look.
#[tactic(auto, unfolding(crate::specs::Parts::style))]
fn push_style(text: &mut String) -> Result<(), AllocError>
    ensures { OnOk result (string_bytes text.new ≡ string_bytes text.old ++ spec.style) }
{
    text.push_str(STYLE)
}

/// Appends what stands before a page's title.
#[tactic(auto, unfolding(crate::specs::Parts::before_title))]
fn push_before_title(text: &mut String) -> Result<(), AllocError>
    ensures { OnOk result (string_bytes text.new ≡ string_bytes text.old ++ spec.before_title) }
{
    text.push_str(
        "<!DOCTYPE html>\n<html lang=\"en\">\n<head>\n<meta charset=\"utf-8\">\n<meta name=\"viewport\" content=\"width=device-width, initial-scale=1\">\n<title>",
    )
}

/// Begins a page of that title, which is its heading, too.
pub(crate) fn push_head(text: &mut String, title: &str) -> Result<(), AllocError>
    ensures { OnOk result (string_bytes text.new ≡ string_bytes text.old ++ spec.head title.now) }
{
    push_before_title(text)?;
    push_escaped(text, title)?;
    text.push_str("</title>\n<style>")?;
    push_style(text)?;
    push_heading(text, title)?;
    Ok(())
}

/// Begins the body of a page, with its heading.
fn push_heading(text: &mut String, title: &str) -> Result<(), AllocError>
    ensures { OnOk result (string_bytes text.new ≡ string_bytes text.old ++ spec.heading title.now) }
{
    text.push_str("</style>\n</head>\n<body>\n<h1>")?;
    push_escaped(text, title)?;
    text.push_str("</h1>\n")?;
    Ok(())
}

/// Ends a page.
#[tactic(auto, unfolding(crate::specs::Parts::page_end))]
pub(crate) fn push_end(text: &mut String) -> Result<(), AllocError>
    ensures { OnOk result (string_bytes text.new ≡ string_bytes text.old ++ spec.page_end) }
{
    text.push_str("</body>\n</html>\n")
}

/// Begins a section, with its heading and a table.
#[tactic(auto, unfolding(crate::specs::Parts::section))]
pub(crate) fn push_section(text: &mut String, heading: &str) -> Result<(), AllocError>
    ensures { OnOk result (string_bytes text.new ≡ string_bytes text.old ++ spec.section heading.now) }
{
    writeln!(text, "<h2>{heading}</h2>\n<table>")
}

/// Ends a table.
#[tactic(auto, unfolding(crate::specs::Parts::table_end))]
pub(crate) fn push_table_end(text: &mut String) -> Result<(), AllocError>
    ensures { OnOk result (string_bytes text.new ≡ string_bytes text.old ++ spec.table_end) }
{
    text.push_str("</table>\n")
}

/// Appends a row of a table: what is counted, and how many.
#[tactic(auto, unfolding(crate::specs::Parts::row))]
pub(crate) fn push_row(text: &mut String, label: &str, number: u64) -> Result<(), AllocError>
    ensures { OnOk result (string_bytes text.new ≡ string_bytes text.old ++ spec.row label.now number) }
{
    writeln!(
        text,
        "<tr><th scope=\"row\">{label}</th><td>{number}</td></tr>"
    )
}
