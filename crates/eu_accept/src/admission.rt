//! How many connections came, and how many are open.
ghost use Rattle.std.specs.Prelude.{◌≡◌, ◌<◌, ◌-◌, ◌↔◌, ◌||◌, false, true};
ghost use Rattle.eu_accept.specs.Admissions.{entry_of, let_in, let_in_operator, let_out, loop_ended, takes_operator};

/// How many are let in beyond the most, only to be told that there is no room for them.
pub const SPARE: u64 = 64;

/// Whether a connection that has come is let in.
#[derive(Clone, Copy, Debug, PartialEq, Eq)]
pub enum Entry {
    /// It is.
    Admitted,
    /// It is let in to be told that there is no room for it.
    Refused,
    /// It isn't, and is to be closed.
    Dropped,
}

/// How many connections a server still takes, how many are open, and how many of its loops work.
#[derive(Clone, Copy, Debug, PartialEq, Eq)]
pub struct Admission {
    /// How many are still to be accepted.
    pub left: u64,
    /// How many have come, without those that were refused.
    pub came: u64,
    /// How many were refused or dropped, because as many were open as may be.
    pub refused: u64,
    /// How many are open, those that are refused included, and without those of operators.
    pub here: u64,
    /// How many of these are refused, and open only to be told so.
    pub refused_here: u64,
    /// How many of operators are open.
    pub operators: u64,
    /// How many loops have not ended.
    pub loops: u32,
    /// No more are accepted.
    pub is_closed: bool,
    /// The server stops: who is idle leaves at once.
    pub is_stopping: bool,
    /// Accepting one, or polling, has failed for good.
    pub has_failed: bool,
}

impl Admission {
    /// That of a server which takes so many connections and has so many loops.
    pub fn new(sessions: u64, loops: u32) -> Admission
        ensures { result ≡ record { left = sessions; came = 0; refused = 0; here = 0; refused_here = 0; operators = 0; loops = loops; is_closed = false; is_stopping = false; has_failed = false } }
    {
        Admission {
            left: sessions,
            came: 0,
            refused: 0,
            here: 0,
            refused_here: 0,
            operators: 0,
            loops,
            is_closed: false,
            is_stopping: false,
            has_failed: false,
        }
    }

    /// Whether a further connection is wanted.
    pub fn is_open(&self) -> bool
        ensures { (result ≡ true) ↔ ((0 < self.now.left) × (self.now.is_closed ≡ false)) }
    {
        self.left > 0 && !self.is_closed
    }

    /// What becomes of one that has come: where fewer than `most` that were admitted are open it is admitted; else where fewer than `SPARE` that were refused are, it is
    /// refused; else, or where no more are accepted, it is dropped.
    fn entry(&self, most: u64) -> Entry
        ensures { result ≡ entry_of most self.now }
    {
        if self.is_closed {
            Entry::Dropped
        } else if self.here.saturating_sub(self.refused_here) < most {
            Entry::Admitted
        } else if self.refused_here < SPARE {
            Entry::Refused
        } else {
            Entry::Dropped
        }
    }

    /// Counts one that has come, where `most` are to be open at most, and tells what becomes of it.
    pub fn admit(&mut self, most: u64) -> Entry
        ensures entry { result ≡ entry_of most self.old }
        ensures counted { self.new ≡ let_in (entry_of most self.old) self.old }
    {
        let entry = self.entry(most);
        match entry {
            Entry::Admitted => {
                self.left = self.left.saturating_sub(1);
                self.came = self.came.saturating_add(1);
                self.here = self.here.saturating_add(1);
            }
            Entry::Refused => {
                self.refused = self.refused.saturating_add(1);
                self.here = self.here.saturating_add(1);
                self.refused_here = self.refused_here.saturating_add(1);
            }
            Entry::Dropped => self.refused = self.refused.saturating_add(1),
        }
        entry
    }

    /// Counts one of an operator that has come, and tells whether it is let in: where fewer than `SPARE` of them are open, unless no more are accepted. However many
    /// clients there are doesn't matter, and it counts as none of theirs.
    pub fn admit_operator(&mut self) -> bool
        ensures entry { result ≡ takes_operator self.old }
        ensures counted { self.new ≡ let_in_operator self.old }
    {
        let is_let_in = !self.is_closed && self.operators < SPARE;
        if is_let_in {
            self.operators = self.operators.saturating_add(1);
        }
        is_let_in
    }

    /// Counts one of an operator out that was let in.
    pub fn let_out_operator(&mut self)
        ensures { self.new ≡ record self.old { operators = self.old.operators - 1 } }
    {
        self.operators = self.operators.saturating_sub(1);
    }

    /// Counts one out that was let in, admitted or refused.
    pub fn let_out(&mut self, was_refused: bool)
        ensures { self.new ≡ let_out was_refused self.old }
    {
        self.here = self.here.saturating_sub(1);
        if was_refused {
            self.refused_here = self.refused_here.saturating_sub(1);
        }
    }

    /// Notes that no more are accepted, and whether that is because something has failed. What has failed before stays noted.
    pub fn close(&mut self, has_failed: bool)
        ensures { self.new ≡ record self.old { is_closed = true; has_failed = self.old.has_failed || has_failed } }
    {
        self.is_closed = true;
        self.has_failed = self.has_failed || has_failed;
    }

    /// Notes that the server stops: no more are accepted, and who is idle leaves at once.
    pub fn stop(&mut self)
        ensures { self.new ≡ record self.old { is_closed = true; is_stopping = true } }
    {
        self.is_closed = true;
        self.is_stopping = true;
    }

    /// Counts a loop out, and tells whether it was the last one.
    pub fn end_loop(&mut self) -> bool
        ensures loops { self.new ≡ loop_ended self.old }
        ensures last { (result ≡ true) ↔ (self.new.loops ≡ 0) }
    {
        self.loops = self.loops.saturating_sub(1);
        self.loops == 0
    }
}
