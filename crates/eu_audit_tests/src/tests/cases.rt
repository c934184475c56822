//! Tables of cases: servers, entries, and what the auditor is to say of them.
use crate::tests::forms::{judged, stands};
use eu_base::Fault;
use eu_fixtures::content_of;
use std::alloc::Global;

/// What the lines that follow tell.
#[derive(Clone, Copy)]
enum Part {
    From,
    By,
    To,
}

/// A case as it is read.
#[derive(Drop)]
struct Case {
    from: String,
    by: String,
    to: String,
    part: Part,
    /// How many cases were judged.
    count: usize,
    /// Whether a line was told since then.
    is_open: bool,
}

impl Case {
    fn new(alloc: Global) -> Case {
        Case {
            from: String::new(alloc),
            by: String::new(alloc),
            to: String::new(alloc),
            part: Part::From,
            count: 0,
            is_open: false,
        }
    }

    /// The lines of the part that is told.
    fn lines(&mut self) -> &mut String {
        match self.part {
            Part::From => &mut self.from,
            Part::By => &mut self.by,
            Part::To => &mut self.to,
        }
    }

    /// Begins to tell a part anew.
    fn begin(&mut self, part: Part) {
        self.part = part;
        self.lines().clear();
        self.is_open = true;
    }

    /// Takes a line of a part that is told.
    fn tell(&mut self, line: &str) -> Result<(), Fault> {
        if !self.is_open {
            return Err(Fault::BadValue);
        }
        let lines = self.lines();
        lines.push_str(line)?;
        lines.push_str("\n")?;
        Ok(())
    }

    /// Whether the auditor says that of the case.
    fn is_judged(&mut self, alloc: Global, wanted: bool) -> Result<bool, Fault> {
        self.count = self.count.saturating_add(1);
        self.is_open = false;
        let (from, by, to) = (self.from.as_str(), self.by.as_str(), self.to.as_str());
        Ok(judged(alloc, from, by, to)? == wanted)
    }

    /// Whether the auditor says that of no entries from the base to itself.
    fn is_plain(&mut self, alloc: Global, wanted: bool) -> Result<bool, Fault> {
        self.count = self.count.saturating_add(1);
        self.is_open = false;
        Ok(stands(alloc, self.from.as_str())? == wanted)
    }

    /// Takes a line. Whether the auditor says what it tells.
    fn take(&mut self, alloc: Global, line: &str) -> Result<bool, Fault> {
        match line {
            "from" => self.begin(Part::From),
            "by" => self.begin(Part::By),
            "to" => self.begin(Part::To),
            "yes" => return self.is_judged(alloc, true),
            "no" => return self.is_judged(alloc, false),
            "plain" => return self.is_plain(alloc, true),
            "not plain" => return self.is_plain(alloc, false),
            _ => self.tell(line)?,
        }
        Ok(true)
    }
}

/// How many cases a table has. Else the number, from 1, of the first line that can't be read, or of which the auditor doesn't say what it
/// tells.
///
/// The lines behind `from` tell a base, those behind `by` entries, and those behind `to` an end; a part that isn't told anew stays. At
/// `yes` or `no` the auditor is to say so of the entries between both, at `plain` or `not plain` whether the base is a plain form: it is
/// judged as its own end, without an entry. Lines that begin with `#` tell nothing, and neither do empty ones.
pub fn judge(alloc: Global, table: &str) -> Result<usize, usize> {
    let mut case = Case::new(alloc);
    let mut number = 0usize;
    for line in table.lines() {
        number = number.saturating_add(1);
        if let Some(line) = content_of(line) {
            if case.take(alloc, line) != Ok(true) {
                return Err(number);
            }
        }
    }
    if case.is_open {
        return Err(number);
    }
    Ok(case.count)
}
