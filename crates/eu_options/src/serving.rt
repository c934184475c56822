//! What the options of a server say.
ghost use Rattle.std.specs.Prelude.{◌≡◌, ◌≤◌, ◌-◌, if◌then◌else◌, min, max};

use std::net::IpAddr;

/// Where a server listens, how much it serves, and within which limits.
#[derive(Clone, Copy, Debug)]
pub struct Serving {
    /// The port; 0 has the system choose one.
    pub port: u16,
    /// The address of this machine at which it listens.
    pub bind: IpAddr,
    /// The port at which operators connect; 0 has the system choose one. None where they don't.
    pub admin_port: Option<u16>,
    /// The address of this machine at which it listens for operators.
    pub admin_bind: IpAddr,
    /// How many connections are served before it ends. None where it doesn't end by their number.
    pub sessions: Option<u32>,
    /// How many loops serve them.
    pub workers: u32,
    /// How many clients are expected at first.
    pub expected: u32,
    /// The most connections at once.
    pub connections: u32,
    /// The milliseconds that a connection may wait for the first byte of a request.
    pub idle_ms: u32,
    /// The milliseconds that a request may take, from its first byte to its last.
    pub request_ms: u32,
    /// For how many milliseconds nothing is listed at first.
    pub warm_up_ms: u32,
    /// Whether it ends at the end of its input, too.
    pub until_input_ends: bool,
    /// Whether it tells nothing of evictions and of connections that are refused.
    pub is_quiet: bool,
    /// Whether it takes requests of peers.
    pub accepts_peers: bool,
    /// The most bytes of a request's body.
    pub most_body: u32,
    ghost workers_bound: { (1 ≤ workers) × (workers ≤ 16) },
    ghost connections_bound: { (1 ≤ connections) × (connections ≤ 1000000) },
    ghost idle_bound: { 1 ≤ idle_ms },
    ghost request_bound: { 1 ≤ request_ms },
    ghost body_bound: { (1 ≤ most_body) × (most_body ≤ 1048576) },
}

/// How the victims of a server's evictions are drawn.
#[derive(Clone, Copy, Debug, PartialEq, Eq)]
pub enum Drawing {
    /// The first ones are taken.
    FirstOnes,
    /// By a generator with this seed.
    Seeded(u64),
    /// By a generator with a seed that the system draws.
    FromSystem,
}

/// The descriptors of a process that are kept for what is no connection.
const OTHER_DESCRIPTORS: u64 = 64;

/// Those of operators' connections.
const OF_OPERATORS: u64 = 64;

/// How many connections of clients a server has at most that is asked to have so many, where the process may have so many descriptors: 64 of these are for
/// the rest, 128 where operators connect, too, and one connection there is always.
pub fn connections_within(wanted: u32, descriptors: u64, has_operators: bool) -> u32
    ensures value { result ≡ min wanted (max 1 (descriptors - (if has_operators then 128 else 64))) }
    ensures few { result ≤ wanted }
{
    let others = OTHER_DESCRIPTORS + if has_operators { OF_OPERATORS } else { 0 };
    let most = descriptors.saturating_sub(others).max(1);
    match u32::try_from(most) {
        Ok(most) => wanted.min(most),
        Err(_) => wanted,
    }
}
