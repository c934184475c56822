//! The index of deadlines.
use eu_base::Fault;
use eu_deadlines::Deadlines;
use eu_fixtures::{Told, cut, first_wrong, number_of, numbered};
use std::alloc::Global;

/// Writes how many deadlines were read, and the positions, in order, whose deadlines are before that limit.
fn tell_before(
    alloc: Global,
    index: &Deadlines,
    limit: u64,
    out: &mut String,
) -> Result<(), Fault> {
    if index.len() > 65_536 {
        return Err(Fault::Full);
    }
    let mut readings = 0;
    let mut found = index.before(alloc, limit, &mut readings)?;
    found.sort()?;
    Ok(write!(out, "{readings} {found:?}")?)
}

/// Changes an index: `push DEADLINE` adds one, `set POSITION DEADLINE` sets one, and `remove POSITION` takes one out.
fn change(index: &mut Deadlines, verb: &str, words: &str) -> Result<(), Fault> {
    let (first, rest) = numbered(words)?;
    let position = first as usize;
    match verb {
        "push" => {
            index.reserve(1)?;
            index.push(first);
        }
        "set" if position < index.len() => index.set(position, number_of(rest)?),
        "remove" if position < index.len() => index.swap_remove(position),
        _ => return Err(Fault::BadValue),
    }
    Ok(())
}

/// An index. `before LIMIT` tells the deadlines that are before it, `new` begins with none, and another verb changes them and tells how many there are then.
#[derive(Drop)]
struct Desk {
    index: Deadlines,
}

impl Told for Desk {
    fn tell(&mut self, alloc: Global, said: &str, out: &mut String) -> Result<(), Fault> {
        let (verb, rest) = cut(said);
        match verb {
            "before" => return tell_before(alloc, &self.index, number_of(rest)?, out),
            "new" => self.index = Deadlines::new(alloc),
            _ => change(&mut self.index, verb, rest)?,
        }
        Ok(write!(out, "{}", self.index.len())?)
    }
}

const INDEXED: &str = "
    # A deadline is set.
    push 30 = 1
    push 10 = 2
    push 20 = 3
    before 25 = 3 [1, 2]
    set 0 5 = 3
    before 25 = 3 [0, 1, 2]
    # The last position takes the number of one that is taken out.
    new = 0
    push 30 = 1
    push 10 = 2
    push 20 = 3
    remove 0 = 2
    before 10 = 1 []
    before 11 = 2 [1]
    before 21 = 2 [0, 1]
";

#[test]
fn deadlines_are_set_and_taken(rt: HostRuntime) {
    let mut desk = Desk {
        index: Deadlines::new(rt.alloc()),
    };
    assert_eq!(rt; first_wrong(rt.alloc(), &mut desk, INDEXED), None);
}
