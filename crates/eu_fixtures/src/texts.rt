//! Texts put together from their parts.
use crate::tells::tell_ids;
use crate::told::numbered;
use eu_base::{Fault, Key};
use std::alloc::{AllocError, Global};

/// Writes these texts, one after another.
pub fn push_each(out: &mut String, parts: &[&str]) -> Result<(), AllocError> {
    for part in parts {
        out.push_str(part)?;
    }
    Ok(())
}

/// These texts, one after another.
pub fn joined(alloc: Global, parts: &[&str]) -> Result<String, AllocError> {
    let mut out = String::new(alloc);
    push_each(&mut out, parts)?;
    Ok(out)
}

/// These lines, each with its end.
pub fn text_of(alloc: Global, lines: &[&str]) -> Result<String, AllocError> {
    let mut text = String::new(alloc);
    for line in lines {
        text.push_str(line)?;
        text.push_str("\n")?;
    }
    Ok(text)
}

/// The ids of these keys, each after a space.
pub fn ids(alloc: Global, keys: &[Key]) -> Result<String, AllocError> {
    let mut text = String::new(alloc);
    tell_ids(&mut text, keys)?;
    Ok(text)
}

/// Writes a number.
pub fn push_number(out: &mut String, number: u64) -> Result<(), AllocError> {
    write!(out, "{number}")
}

/// Writes a text as often as the number before it says.
fn push_repeated(out: &mut String, words: &str) -> Result<(), Fault> {
    let (count, text) = numbered(words)?;
    for _ in 0..count {
        out.push_str(text)?;
    }
    Ok(())
}

/// A text in which what stands between two such marks is written out, as `‹3 ab›`, which is `ababab`.
pub fn written_out(alloc: Global, text: &str, open: char, close: char) -> Result<String, Fault> {
    let mut out = String::new(alloc);
    for part in text.split(close) {
        let (before, repeated) = part.split_once(open).unwrap_or((part, "0 "));
        out.push_str(before)?;
        push_repeated(&mut out, repeated)?;
    }
    Ok(out)
}
