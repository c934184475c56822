//! Texts in markup, and in the paths of links.
ghost use Rattle.std.specs.Prelude.{◌≡◌, ◌++◌, OnOk, string_bytes};
ghost use Rattle.eu_admin.specs.Markup.{EscapesAreText, encoded, encoded_byte, escaped, escaped_char, is_unreserved, percent};

use std::alloc::AllocError;

/// Appends a character as markup has it.
fn push_char(out: &mut String, character: char) -> Result<(), AllocError>
    ensures { OnOk result (string_bytes out.new ≡ string_bytes out.old ++ escaped_char character) }
{
    match character {
        '&' => out.push_str("&amp;"),
        '<' => out.push_str("&lt;"),
        '>' => out.push_str("&gt;"),
        '"' => out.push_str("&quot;"),
        '\'' => out.push_str("&#39;"),
        other => out.push(other),
    }
}

/// Appends a text so that markup takes it for nothing but text, between quotes too: each of the five characters that it would take for more is written as a
/// character reference (HTML, "Serializing HTML fragments" and "Named character references"). `AllocError` where no memory is left: then nothing is said of `out`.
pub fn push_escaped(out: &mut String, text: &str) -> Result<(), AllocError>
    ensures { OnOk result (string_bytes out.new ≡ string_bytes out.old ++ escaped text.now) }
{
    for character in text.chars() {
        push_char(out, character)?;
    }
    Ok(())
}

/// A law without code: what [`push_escaped`] appends has none of the bytes `<`, `>`, `"` and `'`, so that it can neither open a tag nor end an attribute.
pub fn escapes_are_text()
    ensures { EscapesAreText }
{}

/// Whether a path may have this byte as it is.
fn is_unreserved(byte: u8) -> bool
    ensures { result ≡ is_unreserved byte }
{
    matches!(byte, b'A'..=b'Z' | b'a'..=b'z' | b'0'..=b'9' | b'-' | b'.' | b'_' | b'~')
}

/// Appends a byte as `%` and its two digits.
fn push_percent(out: &mut String, byte: u8) -> Result<(), AllocError>
    ensures { OnOk result (string_bytes out.new ≡ string_bytes out.old ++ percent byte) }
{
    write!(out, "%{byte:02X}")
}

/// Appends a byte as a path has it.
fn push_byte(out: &mut String, byte: u8) -> Result<(), AllocError>
    ensures { OnOk result (string_bytes out.new ≡ string_bytes out.old ++ encoded_byte byte) }
{
    if is_unreserved(byte) {
        return out.push(char::from(byte));
    }
    push_percent(out, byte)
}

/// Appends a text as one segment of a link's path: each of its bytes but letters, digits, `-`, `.`, `_` and `~` as `%` and two digits to the base 16 (RFC 3986,
/// section 2). `AllocError` where no memory is left: then nothing is said of `out`.
pub fn push_encoded(out: &mut String, text: &str) -> Result<(), AllocError>
    ensures { OnOk result (string_bytes out.new ≡ string_bytes out.old ++ encoded text.now) }
{
    for byte in text.as_bytes() {
        push_byte(out, *byte)?;
    }
    Ok(())
}
