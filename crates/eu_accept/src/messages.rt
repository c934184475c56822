//! What a server tells its operator.
ghost use Rattle.std.specs.Prelude.{◌≡◌};
ghost use Rattle.eu_accept.specs.Messages.{change_of, pass_of, refusals_of, refusals_told};

use eu_gate::News;

/// How often refusals are told at most, in milliseconds.
const REFUSALS_MS: u64 = 1_000;

/// What is told on standard error, each as one line.
#[derive(Clone, Copy, Debug, PartialEq, Eq)]
pub enum Message {
    /// A pass evicted.
    Evicted {
        /// How many leases.
        evicted: u64,
        /// Of how many that were due.
        due: u64,
    },
    /// Evictions are permitted from now on.
    Permitted {
        /// The renewals of the last whole minute.
        renewals: u64,
        /// Those above which they are.
        threshold: u64,
    },
    /// Evictions are held back from now on, since too few renew (self-preservation).
    HeldBack {
        /// The renewals of the last whole minute.
        renewals: u64,
        /// Those above which they are permitted.
        threshold: u64,
    },
    /// So many connections were refused since this was told before.
    Refused(u64),
    /// No more connections of operators are accepted, since that has failed for good.
    NoOperators,
}

impl Message {
    /// That of a pass, where it evicted any.
    pub fn of_pass(news: &News) -> Option<Message>
        ensures { result ≡ pass_of news.now }
    {
        if news.evicted == 0 {
            return None;
        }
        Some(Message::Evicted {
            evicted: news.evicted,
            due: news.due,
        })
    }

    /// Tells it, if standard error takes it.
    pub fn tell(self, rt: &impl Eprint) {
        let _ = match self {
            Message::Evicted { evicted, due } => {
                eprintln!(rt; "leases evicted: {evicted} of {due} that were due")
            }
            Message::Permitted {
                renewals,
                threshold,
            } => {
                eprintln!(rt;
                    "evictions permitted: {renewals} renewals in the last minute, threshold {threshold}"
                )
            }
            Message::HeldBack {
                renewals,
                threshold,
            } => {
                eprintln!(rt;
                    "evictions held back: {renewals} renewals in the last minute, threshold {threshold}"
                )
            }
            Message::Refused(count) => {
                eprintln!(rt; "connections refused: {count}, as many are open as may be")
            }
            Message::NoOperators => {
                eprintln!(rt; "operators: accepting their connections has failed for good")
            }
        };
    }
}

/// What was told so far.
#[derive(Clone, Copy, Debug, PartialEq, Eq)]
pub struct Told {
    /// Whether evictions were permitted.
    pub permitted: bool,
    /// How many refusals.
    pub refused: u64,
    /// When the next refusals may be told, in milliseconds.
    pub next: u64,
}

impl Told {
    /// That of a server that begins, where evictions are permitted or not.
    pub fn new(permitted: bool) -> Told
        ensures { result ≡ record { permitted = permitted; refused = 0; next = 0 } }
    {
        Told {
            permitted,
            refused: 0,
            next: 0,
        }
    }

    /// What is to be told of whether evictions are permitted: only where that is otherwise than before. It is noted.
    pub fn change(&mut self, news: &News) -> Option<Message>
        ensures told { result ≡ change_of self.old.permitted news.now }
        ensures noted { self.new ≡ record self.old { permitted = news.now.permitted } }
    {
        let was_permitted = self.permitted;
        self.permitted = news.permitted;
        match (was_permitted, news.permitted) {
            (false, true) => Some(Message::Permitted {
                renewals: news.renewals,
                threshold: news.threshold,
            }),
            (true, false) => Some(Message::HeldBack {
                renewals: news.renewals,
                threshold: news.threshold,
            }),
            _ => None,
        }
    }

    /// What is to be told at that time, in milliseconds, where so many connections were refused so far: those of which it wasn't told, at most once a
    /// second. It is noted.
    pub fn refusals(&mut self, refused: u64, now: u64) -> Option<Message>
        ensures told { result ≡ refusals_of self.old refused now }
        ensures noted { self.new ≡ refusals_told self.old refused now }
    {
        if refused <= self.refused || now < self.next {
            return None;
        }
        let count = refused - self.refused;
        self.refused = refused;
        self.next = now.saturating_add(REFUSALS_MS);
        Some(Message::Refused(count))
    }
}
