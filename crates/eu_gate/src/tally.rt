//! How many responses clients were given.
ghost use Rattle.std.specs.Prelude.{◌≡◌, map};
ghost use Rattle.eu_gate.specs.Tallies as spec;

/// What a response to a client told.
#[derive(Clone, Copy, Debug, PartialEq, Eq)]
pub struct Responded {
    /// Its status (RFC 9110, section 15).
    pub status: u16,
    /// The number of the fault by which the request was refused, where the response tells one.
    pub fault: Option<u16>,
}

/// How often something of that number was told.
#[derive(Clone, Copy, Debug, PartialEq, Eq)]
pub struct Count {
    /// A status, or the number of a fault.
    pub number: u16,
    /// How often it was told.
    pub times: u64,
}

/// How many responses clients were given, by what they told.
#[derive(Clone, Copy, Debug, PartialEq, Eq)]
pub struct Tally {
    /// Those of each status that a client may be given.
    pub statuses: [Count; 11],
    /// Those that told a fault, for each that a client may be told.
    pub faults: [Count; 24],
}

/// One that was never told.
fn never(number: u16) -> Count
    ensures { result ≡ record { number = number; times = 0 } }
{
    Count { number, times: 0 }
}

impl Count {
    /// Counts once more, where it has that number.
    fn note(&mut self, number: u16)
        ensures { self.new ≡ spec.counted number self.old }
    {
        if self.number == number {
            self.times = self.times.saturating_add(1);
        }
    }

    /// Adds what others count of its number.
    fn add(&mut self, others: &[Count])
        ensures { self.new ≡ spec.with_those_of others.now self.old }
    {
        self.times = self.times.saturating_add(times_in(others, self.number));
    }
}

/// Counts one of that number, where such are counted.
fn count_in(counts: &mut [Count], number: u16)
    ensures { counts.new ≡ map (spec.counted number) counts.old }
{
    for count in counts.iter_mut() {
        count.note(number);
    }
}

/// How often that number was told.
fn times_in(counts: &[Count], number: u16) -> u64
    ensures { result ≡ spec.times_in number counts.now }
{
    for count in counts {
        if count.number == number {
            return count.times;
        }
    }
    0
}

/// Adds what others count.
fn add_to(counts: &mut [Count], others: &[Count])
    ensures { counts.new ≡ map (spec.with_those_of others.now) counts.old }
{
    for count in counts.iter_mut() {
        count.add(others);
    }
}

impl Tally {
    /// That of a server that has given none.
    pub fn none() -> Tally
        ensures { result ≡ spec.no_responses }
    {
        Tally {
            statuses: [
                never(200),
                never(204),
                never(400),
                never(403),
                never(404),
                never(408),
                never(409),
                never(413),
                never(415),
                never(431),
                never(503),
            ],
            faults: [
                never(2),
                never(3),
                never(6),
                never(7),
                never(20),
                never(21),
                never(22),
                never(23),
                never(24),
                never(25),
                never(26),
                never(27),
                never(28),
                never(29),
                never(30),
                never(31),
                never(32),
                never(33),
                never(34),
                never(35),
                never(36),
                never(37),
                never(38),
                never(42),
            ],
        }
    }

    /// Counts a response. A number that isn't counted changes nothing.
    pub fn count(&mut self, told: Responded)
        ensures statuses { self.new.statuses ≡ map (spec.counted told.status) self.old.statuses }
        ensures faults { self.new.faults ≡ spec.fault_counted told.fault self.old.faults }
    {
        count_in(&mut self.statuses, told.status);
        if let Some(fault) = told.fault {
            count_in(&mut self.faults, fault);
        }
    }

    /// Adds what another worker counted.
    pub fn add(&mut self, other: &Tally)
        ensures statuses { self.new.statuses ≡ map (spec.with_those_of other.now.statuses) self.old.statuses }
        ensures faults { self.new.faults ≡ map (spec.with_those_of other.now.faults) self.old.faults }
    {
        add_to(&mut self.statuses, &other.statuses);
        add_to(&mut self.faults, &other.faults);
    }
}
