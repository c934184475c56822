//! Renewals, counted by the minute.
ghost use Rattle.std.specs.Prelude.{◌≡◌, ◌≢◌, ◌+◌, ◌^◌, ◌↔◌, ◌++◌, ◌∷◌, [], List, IfErr};
ghost use Rattle.eu_model.specs.Machine.{Mark};
ghost use Rattle.eu_model.specs.Machine.Mark.{Renewal, Minute};
ghost use Rattle.eu_lease.specs.Meter.{CountsMarks};

use eu_base::{Fault, MOST_RENEWALS};
use std::marker::Model;

/// Renewals, counted by the minute (`MeasuredRate` in Eureka). Contracts see the two counts.
#[derive(Clone, Copy, Debug)]
pub struct Rate {
    last: u64,
    since: u64,
}

impl Model for Rate {
    ghost use Rattle.std.specs.Prelude.{◌≤◌, ◌^◌};
    ghost use Rattle.eu_lease.specs.Meter.{Counted, coded_counted};
    ghost use Rattle.eu_base.specs.Limits.{most_renewals};

    ghost Value = { Counted };

    ghost coded = { coded_counted };

    ghost view = { λ r. record { last = r.last; since = r.since } };

    ghost invariant = { λ r. r.since ≤ most_renewals };

    ghost inverse = { λ c. record { last = c.last; since = c.since } };
}

impl Rate {
    /// No renewal, in no minute.
    pub fn new() -> Rate
        ensures counts { result ≡ record { last = 0; since = 0 } }
        ensures marks { CountsMarks [] result }
    {
        Rate { last: 0, since: 0 }
    }

    /// Whether one renewal more can be counted. `Exhausted` exactly where 2^62 were counted in this minute.
    pub fn check(&self) -> Result<(), Fault>
        ensures exhausted { (result ≡ Err Fault.Exhausted) ↔ (self.now.since ≡ MOST_RENEWALS) }
        ensures no_other { IfErr result (λ f. f ≡ Fault.Exhausted) }
    {
        if self.since == MOST_RENEWALS {
            return Err(Fault::Exhausted);
        }
        Ok(())
    }

    /// Counts a renewal, where one more can be.
    pub fn count(&mut self)
        requires { self.old.since ≢ MOST_RENEWALS }
        ensures counts { self.new ≡ record self.old { since = self.old.since + 1 } }
        ensures marks { (marks : List Mark) → CountsMarks marks self.old → CountsMarks (marks ++ Renewal ∷ []) self.new }
    {
        self.since += 1;
    }

    /// The renewals of the last whole minute.
    pub fn last(&self) -> u64
        ensures { result ≡ self.now.last }
    {
        self.last
    }

    /// Ends a minute: the renewals since the last end become those of the last minute, which are the answer.
    pub fn end_minute(&mut self) -> u64
        ensures counts { self.new ≡ record { last = self.old.since; since = 0 } }
        ensures marks { (marks : List Mark) → CountsMarks marks self.old → CountsMarks (marks ++ Minute ∷ []) self.new }
        ensures value { result ≡ self.old.since }
    {
        self.last = self.since;
        self.since = 0;
        self.last
    }
}
