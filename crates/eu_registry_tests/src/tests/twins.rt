//! Want of memory. In a usual run no allocation is refused; `tools/sweep_memory.sh` refuses one after another.
use eu_base::Fault;
use eu_fixtures::{Told, content_of, with_long_ids};
use std::alloc::Global;

/// An answer has so much room: then none is told without memory once the call was made.
const ROOM: usize = 1024;

/// Whether both hold the same: each is asked by that word for all that it holds.
fn are_same<T: Told>(
    alloc: Global,
    tried: &mut T,
    other: &mut T,
    word: &str,
) -> Result<bool, Fault> {
    let mut one = String::new(alloc);
    let mut another = String::new(alloc);
    tried.tell(alloc, word, &mut one)?;
    other.tell(alloc, word, &mut another)?;
    Ok(one.as_str() == another.as_str())
}

/// Tells one of both, and once more where that found no memory, if it changed nothing. `Mismatch` where it did.
fn tell_tried<T: Told>(
    alloc: Global,
    tried: &mut T,
    other: &mut T,
    word: &str,
    said: &str,
    out: &mut String,
) -> Result<(), Fault> {
    out.clear();
    let told = tried.tell(alloc, said, out);
    if told != Err(Fault::OutOfMemory) {
        return told;
    }
    if !are_same(alloc, tried, other, word)? {
        return Err(Fault::Mismatch);
    }
    out.clear();
    tried.tell(alloc, said, out)
}

/// Tells the other, and once more where that found no memory.
fn tell_other<T: Told>(
    alloc: Global,
    other: &mut T,
    said: &str,
    out: &mut String,
) -> Result<(), Fault> {
    out.clear();
    let told = other.tell(alloc, said, out);
    if told != Err(Fault::OutOfMemory) {
        return told;
    }
    out.clear();
    other.tell(alloc, said, out)
}

/// Whether a line says nothing, or that comes of it, of both.
fn comes<T: Told>(
    alloc: Global,
    tried: &mut T,
    other: &mut T,
    word: &str,
    line: &str,
    out: &mut String,
) -> Result<bool, Fault> {
    let Some(line) = content_of(line) else {
        return Ok(true);
    };
    let (said, wanted) = line.split_once(" = ").ok_or(Fault::BadValue)?;
    tell_tried(alloc, tried, other, word, said, out)?;
    let comes = out.as_str() == wanted;
    tell_other(alloc, other, said, out)?;
    Ok(comes && out.as_str() == wanted)
}

/// The number, from 1, of the first line of a table of which something else comes, of one or the other; or of the last, where both don't hold
/// the same then, of which they are asked by that word. `OutOfMemory` where no line was refused memory.
fn first_wrong_of_both<T: Told>(
    alloc: Global,
    tried: &mut T,
    other: &mut T,
    word: &str,
    table: &str,
) -> Result<Option<usize>, Fault> {
    let mut out = String::with_capacity(alloc, ROOM)?;
    let mut number = 0usize;
    for line in table.lines() {
        number = number.saturating_add(1);
        if comes(alloc, tried, other, word, line, &mut out) != Ok(true) {
            return Ok(Some(number));
        }
    }
    if are_same(alloc, tried, other, word)? {
        return Ok(None);
    }
    Ok(Some(number))
}

/// What can be told a table twice: two of them are told it, each all of it.
pub trait Twin: Told + Drop {
    /// One that was told nothing yet.
    fn fresh(alloc: Global) -> Result<Self, Fault>;

    /// The word by which it tells all that it holds.
    fn whole() -> &'static str;
}

/// The first wrong line of a table of which two are told.
fn plays<T: Twin>(alloc: Global, table: &str) -> Result<Option<usize>, Fault> {
    let mut tried = T::fresh(alloc)?;
    let mut other = T::fresh(alloc)?;
    let wrong = first_wrong_of_both(alloc, &mut tried, &mut other, T::whole(), table);
    drop((tried, other));
    wrong
}

/// The same, at the second try where there was no room for an answer.
pub fn plays_twice<T: Twin>(alloc: Global, table: &str) -> Result<Option<usize>, Fault> {
    match plays::<T>(alloc, table) {
        Err(Fault::OutOfMemory) => plays::<T>(alloc, table),
        wrong => wrong,
    }
}

/// The same with ids that take memory.
pub fn plays_long<T: Twin>(alloc: Global, table: &str) -> Result<Option<usize>, Fault> {
    let table = with_long_ids(alloc, table)?;
    plays_twice::<T>(alloc, table.as_str())
}
