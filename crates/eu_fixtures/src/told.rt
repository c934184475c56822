//! Tests as tables: a line has what is said, ` = `, and what is to come of it. Space around a line doesn't count. Empty lines say nothing, and neither do
//! those that begin with `#`.
use eu_base::Fault;
use std::alloc::Global;

/// What lines are said to.
pub trait Told {
    /// Writes what comes of what is said. A fault where that says nothing, where it is refused, or where no memory is left.
    fn tell(&mut self, alloc: Global, said: &str, out: &mut String) -> Result<(), Fault>;
}

/// What a line of a table says, without the space around it. None of a line that says nothing.
pub fn content_of(line: &str) -> Option<&str> {
    let line = line.trim();
    if line.is_empty() || line.starts_with('#') {
        return None;
    }
    Some(line)
}

/// Whether a line says nothing, or that comes of it. Of a fault its name comes.
fn comes<T: Told>(alloc: Global, told: &mut T, line: &str) -> Result<bool, Fault> {
    let Some(line) = content_of(line) else {
        return Ok(true);
    };
    let (said, wanted) = line.split_once(" = ").ok_or(Fault::BadValue)?;
    let mut out = String::new(alloc);
    if let Err(fault) = told.tell(alloc, said, &mut out) {
        write!(out, "{fault:?}")?;
    }
    Ok(out.as_str() == wanted)
}

/// The number, from 1, of the first line of a table of which something else comes, or which can't be read. None where there is no such line.
pub fn first_wrong<T: Told>(alloc: Global, told: &mut T, table: &str) -> Option<usize> {
    let mut number = 0usize;
    for line in table.lines() {
        number = number.saturating_add(1);
        if comes(alloc, told, line) != Ok(true) {
            return Some(number);
        }
    }
    None
}

/// The number that a word writes.
pub fn number_of(word: &str) -> Result<u64, Fault> {
    word.parse::<u64>().ok().ok_or(Fault::BadValue)
}

/// The same below 2^32.
pub fn small_of(word: &str) -> Result<u32, Fault> {
    word.parse::<u32>().ok().ok_or(Fault::BadValue)
}

/// The first word of a text, and what is behind it.
pub fn cut(text: &str) -> (&str, &str) {
    text.split_once(' ').unwrap_or((text, ""))
}

/// The number that a text begins with, and what is behind it.
pub fn numbered(text: &str) -> Result<(u64, &str), Fault> {
    let (word, rest) = cut(text);
    Ok((number_of(word)?, rest))
}
