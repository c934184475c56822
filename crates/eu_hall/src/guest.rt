//! A connection, as it goes from its place to a worker and back.
use crate::phase::{Awaited, Happened, Phase};
use crate::unsent::Unsent;

/// A connection: its socket, its session, and what is to be sent of it.
#[derive(Drop)]
pub struct Guest<S, T> {
    /// Its socket, whose reads and writes never wait.
    pub socket: S,
    /// Its session, between two turns.
    pub talk: T,
    /// The responses that are still to be sent.
    pub unsent: Unsent,
    /// Its session has ended: what is unsent is sent, and nothing more is read of it.
    pub has_ended: bool,
    /// How many bytes were read and dropped behind its session.
    pub dropped: usize,
}

/// How a server fares, as an operator is told.
#[derive(Clone, Copy, Debug, PartialEq, Eq)]
pub struct ServerFacts {
    /// The connections that are open.
    pub open: u64,
    /// How many connections of clients have come, without those that were refused.
    pub accepted: u64,
    /// How many were refused since as many were open as may be.
    pub refused: u64,
    /// How many leases were evicted.
    pub evicted: u64,
    /// For how long the server has run, in milliseconds.
    pub uptime_ms: u64,
    /// Whether it warms up: nothing is listed yet.
    pub is_warming: bool,
}

/// A visit of a connection at a worker.
#[derive(Drop)]
pub struct Visit<S, T> {
    /// The key of its place.
    pub key: usize,
    /// The connection. It lies on the heap, so that it goes from hand to hand at no cost.
    pub guest: Box<Guest<S, T>>,
    /// What was awaited of its peer.
    pub awaited: Awaited,
    /// The most turns that its session may have now.
    pub most_turns: u32,
    /// Whether a request that takes long is left to others.
    pub leaves_long: bool,
    /// Whether it is read until a read would wait. Else a read that gives less than there was room for is the last one: more than that hasn't come.
    pub reads_on: bool,
    /// Its last read was such a one.
    pub is_drained: bool,
    /// Whether it is sent to until all is sent, or a write would wait. Else `MOST_AT_ONCE` bytes are sent, and the rest once others had their turn.
    pub sends_on: bool,
    /// Whether the server warms up: nothing is listed yet.
    pub is_warming: bool,
    /// How the server fares, where an operator asks: then the request is one of an operator. None where a client asks.
    pub operator: Option<ServerFacts>,
}

/// How a visit left a connection.
#[derive(Clone, Copy, Debug, PartialEq, Eq)]
pub enum Left {
    /// Its peer is awaited, and this happened at the visit.
    Waits(Phase, Happened),
    /// It had all its turns, and there may be more to do at once.
    GoesOn,
    /// More can be sent of it at once, and this happened at the visit.
    SendsOn(Happened),
    /// Its next request is for a worker that takes long ones.
    Long,
    /// It has failed, and is to be closed.
    Gone,
}
