//! What is awaited of a peer, and until when.
ghost use Rattle.std.specs.Prelude.{◌≡◌, ◌≢◌, ◌≤◌, ◌↔◌, IsTrue};
ghost use Rattle.eu_hall.specs.Phases.{awaited_next, begun, limit_of, prolonged};

/// What is awaited of a peer (RFC 9112, section 9: connections persist, and a server may close one at any time).
#[derive(Clone, Copy, Debug, PartialEq, Eq)]
pub enum Phase {
    /// The first byte of a request.
    Idle,
    /// The rest of a request that has begun.
    Asking,
    /// That it takes more of a response.
    Answering,
    /// The end of its side, after the last response (RFC 9112, section 9.6: the read side stays open for a while, so that the response isn't lost).
    Lingering,
}

/// How long a peer is awaited, in milliseconds.
#[derive(Clone, Copy, Debug, PartialEq, Eq)]
pub struct Patience {
    /// For the first byte of a request.
    pub idle: u32,
    /// For a whole request, from its first byte on.
    pub request: u32,
    /// Until it takes more of a response.
    pub progress: u32,
    /// For all of a response.
    pub response: u32,
    /// For the end of its side, after the last response.
    pub linger: u32,
}

/// How long peers are awaited where nothing else is said: 90 seconds when idle, which are three heartbeats of 30; 10 for a request; 10 until
/// more of a response is taken, and 60 for all of it; 1 at the end.
pub const PATIENCE: Patience = Patience {
    idle: 90_000,
    request: 10_000,
    progress: 10_000,
    response: 60_000,
    linger: 1_000,
};

impl Patience {
    /// How long a peer is awaited from the beginning of a phase, in milliseconds.
    pub fn limit(self, phase: Phase) -> u32
        ensures { result ≡ limit_of self phase }
    {
        match phase {
            Phase::Idle => self.idle,
            Phase::Asking => self.request,
            Phase::Answering => self.progress,
            Phase::Lingering => self.linger,
        }
    }
}

/// What happened to a connection since its peer was last awaited.
#[derive(Clone, Copy, Debug, PartialEq, Eq)]
pub enum Happened {
    /// Nothing.
    Nothing,
    /// Some bytes came or went, and no request was answered.
    Moved,
    /// A request was answered.
    Answered,
}

/// What is awaited of a peer, and until when. Moments are milliseconds of one clock that never goes back.
#[derive(Clone, Copy, Debug, PartialEq, Eq)]
pub struct Awaited {
    /// What is awaited.
    pub phase: Phase,
    /// When the phase began.
    pub since: u64,
    /// The first moment at which the peer is late.
    pub until: u64,
}

impl Awaited {
    /// A phase that begins at `now`, and has the time of its limit. Where the clock can't tell its end, it ends at `u64::MAX`.
    pub fn begin(patience: Patience, phase: Phase, now: u64) -> Awaited
        ensures { result ≡ begun patience phase now }
    {
        Awaited {
            phase,
            since: now,
            until: now.saturating_add(u64::from(patience.limit(phase))),
        }
    }

    /// What is awaited from `now` on, in this phase, where this happened since the peer was last awaited.
    ///
    /// Where the phase is another, or a request was answered, the phase begins at `now`. Else, where the peer takes a response and bytes moved,
    /// it has until `now` and the time for progress, but no longer than the time of the whole response. Else nothing changes: bytes prolong
    /// neither the time for a request, nor that of an idle or a lingering connection.
    pub fn next(self, patience: Patience, phase: Phase, happened: Happened, now: u64) -> Awaited
        ensures value { result ≡ awaited_next patience self phase happened now }
        ensures phase { result.phase ≡ phase }
        ensures kept { phase ≡ self.phase → phase ≢ Phase.Answering → happened ≢ Happened.Answered → result ≡ self }
    {
        if self.phase != phase || happened == Happened::Answered {
            return Awaited::begin(patience, phase, now);
        }
        if phase == Phase::Answering && happened == Happened::Moved {
            return self.prolong(patience, now);
        }
        self
    }

    /// The same, with the time for progress from `now` on, but no longer than the time of the whole response.
    fn prolong(self, patience: Patience, now: u64) -> Awaited
        ensures { result ≡ prolonged patience self now }
    {
        let progress = now.saturating_add(u64::from(patience.progress));
        let response = self.since.saturating_add(u64::from(patience.response));
        Awaited {
            until: progress.min(response),
            ..self
        }
    }

    /// Whether the peer is late at `now`.
    pub fn is_late(&self, now: u64) -> bool
        ensures { IsTrue result ↔ (self.now.until ≤ now) }
    {
        self.until <= now
    }
}
