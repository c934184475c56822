//! Which connections a loop calls, and what becomes of one after a visit.
ghost use Rattle.std.specs.Prelude.{◌≡◌, ◌||◌, ◌==◌, not, is_some, nat_lt, true, false, length};
ghost use Rattle.mio.specs.Event.{event_token, is_readable, is_read_closed, is_error};
ghost use Rattle.eu_accept.specs.Calls as spec;

use eu_hall::{Awaited, Guest, Happened, Left, Patience, Phase, ServerFacts, Visit};
use mio::event::Event;

/// The most turns that a session has before others have theirs.
const MOST_TURNS: u32 = 8;

/// A connection that is to be visited.
#[derive(Clone, Copy, Debug)]
pub(crate) struct Call {
    /// The key of its place.
    pub(crate) key: usize,
    /// Whether something may have come of its peer.
    pub(crate) has_come: bool,
    /// Whether it is read until a read would wait.
    pub(crate) reads_on: bool,
}

/// The visit of a connection for which there may be something to do, and no event need tell of it: it is read on.
pub(crate) fn call_anew(key: usize) -> Call
    ensures { result ≡ record { key = key; has_come = true; reads_on = true } }
{
    Call {
        key,
        has_come: true,
        reads_on: true,
    }
}

/// The visit that an event calls for. Where the peer's side has ended it is read to its end, since no further event tells of that.
pub(crate) fn call_of(event: &Event) -> Call
    ensures { result ≡ record { key = (event_token event.now).0; has_come = is_readable event.now || (is_read_closed event.now || is_error event.now); reads_on = is_read_closed event.now || is_error event.now } }
{
    let has_ended = event.is_read_closed() || event.is_error();
    Call {
        key: event.token().0,
        has_come: event.is_readable() || has_ended,
        reads_on: has_ended,
    }
}

/// Whether there is something to do for a connection that was called so: something may have come of its peer, or is to be sent to it. Where only more can be
/// written, a read would wait; and a request that comes just then has an event of its own.
pub(crate) fn has_work<S, T>(call: Call, guest: &Guest<S, T>) -> bool
    ensures { result ≡ (call.has_come || not (length guest.now.unsent.rest == 0)) }
{
    call.has_come || !guest.unsent.is_empty()
}

/// Whether the rest of a request is awaited of a connection that a visit left so.
pub(crate) fn asks_still(left: Left) -> bool
    ensures { result ≡ spec.asks_still left }
{
    matches!(left, Left::Waits(Phase::Asking, _))
}

/// The visit of a connection that was called so, of whose peer this was awaited. A request that takes long is left to others, unless an operator asks, who is told
/// this of the server, and is sent to until a write would wait. While the server warms up nothing is listed.
pub(crate) fn visit_of<S, T>(
    call: Call,
    guest: Box<Guest<S, T>>,
    awaited: Awaited,
    is_warming: bool,
    operator: Option<ServerFacts>,
) -> Visit<S, T>
    ensures { result ≡ record { key = call.key; guest = guest; awaited = awaited; most_turns = 8; leaves_long = not (is_some operator); reads_on = call.reads_on; is_drained = false; sends_on = is_some operator; is_warming = is_warming; operator = operator } }
{
    Visit {
        key: call.key,
        guest,
        awaited,
        most_turns: MOST_TURNS,
        leaves_long: operator.is_none(),
        reads_on: call.reads_on,
        is_drained: false,
        sends_on: operator.is_some(),
        is_warming,
        operator,
    }
}

/// The moment by which a sweep at `now` judges who is late. A server that was seen to stop at `stopped` waits for as long as a whole request and its
/// response may take; then everybody is late.
pub(crate) fn moment_of_sweep(patience: Patience, stopped: Option<u64>, now: u64) -> u64
    ensures { result ≡ spec.moment_of_sweep patience stopped now }
{
    let whole = u64::from(patience.request) + u64::from(patience.response);
    match stopped {
        Some(since) if now.saturating_sub(since) >= whole => u64::MAX,
        _ => now,
    }
}

/// Whether a server warms up by these milliseconds that it has run for.
pub(crate) fn is_warming(warm_up_ms: u32, uptime_ms: u64) -> bool
    ensures { result ≡ nat_lt uptime_ms warm_up_ms }
{
    uptime_ms < u64::from(warm_up_ms)
}

/// What becomes of a connection after a visit.
pub(crate) enum NextStep {
    /// What was written of it is ended, and it lingers.
    Lingers,
    /// It is parked: this is awaited of its peer, and that happened.
    Parks(Phase, Happened),
    /// The same, and it is visited again at once.
    ParksForMore(Phase, Happened),
    /// It goes to the pool.
    GoesToPool,
    /// It is closed.
    Leaves,
}

/// What becomes of a connection that a visit left so.
pub(crate) fn next_step(left: Left) -> NextStep
    ensures { result ≡ spec.next_step left }
{
    match left {
        Left::Waits(Phase::Lingering, _) => NextStep::Lingers,
        Left::Waits(phase, happened) => NextStep::Parks(phase, happened),
        Left::GoesOn => NextStep::ParksForMore(Phase::Asking, Happened::Answered),
        Left::SendsOn(happened) => NextStep::ParksForMore(Phase::Answering, happened),
        Left::Long => NextStep::GoesToPool,
        Left::Gone => NextStep::Leaves,
    }
}
