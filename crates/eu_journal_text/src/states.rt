//! The lines of a state.
ghost use Rattle.std.specs.Prelude.{◌≡◌, ◌++◌, map, OnOk, string_bytes};
ghost use Rattle.std.specs.List.{AllByRecursion};
ghost use Rattle.eu_journal_text.specs.Text.{IsReadBack, head_of, line_text, lines_text, queue_lines, queues_lines, row_line, state_lines};

use crate::push::push_line;
use eu_base::{Id, Status, Task};
use eu_journal::{
    Head, JournalLine, flight_value, head_value, lease_value, peer_value, row_value, waiting_value,
};
use eu_model::{Listed, Queue, State};
use std::alloc::{AllocError, Global};

/// Puts the line of a lease at the end.
#[tactic(auto, unfolding(crate::specs::Text::line_text, crate::specs::Text::IsReadBack))]
fn push_lease(alloc: Global, out: &mut String, listed: &Listed) -> Result<(), AllocError>
    ensures text { OnOk result (string_bytes out.new ≡ string_bytes out.old ++ line_text (JournalLine.Lease listed.now)) }
    ensures back { OnOk result (IsReadBack (JournalLine.Lease listed.now)) }
{
    let line = lease_value(alloc, listed)?;
    push_line(alloc, out, &line)
}

/// Puts a line for each lease at the end.
fn push_leases(alloc: Global, out: &mut String, leases: &[Listed]) -> Result<(), AllocError>
    ensures text { OnOk result (string_bytes out.new ≡ string_bytes out.old ++ lines_text (map JournalLine.Lease leases.now)) }
    ensures back { OnOk result (AllByRecursion IsReadBack (map JournalLine.Lease leases.now)) }
{
    for listed in leases {
        push_lease(alloc, out, listed)?;
    }
    Ok(())
}

/// Puts a line for each override row at the end.
#[tactic(auto, unfolding(crate::specs::Text::line_text, crate::specs::Text::IsReadBack))]
fn push_rows(alloc: Global, out: &mut String, overrides: &[(Id, Status)]) -> Result<(), AllocError>
    ensures text { OnOk result (string_bytes out.new ≡ string_bytes out.old ++ lines_text (map row_line overrides.now)) }
    ensures back { OnOk result (AllByRecursion IsReadBack (map row_line overrides.now)) }
{
    for row in overrides {
        let line = row_value(alloc, &row.0, row.1)?;
        push_line(alloc, out, &line)?;
    }
    Ok(())
}

/// Puts the line of a task that waits for a peer at the end.
#[tactic(auto, unfolding(crate::specs::Text::line_text, crate::specs::Text::IsReadBack))]
fn push_waiting_task(alloc: Global, out: &mut String, task: &Task) -> Result<(), AllocError>
    ensures text { OnOk result (string_bytes out.new ≡ string_bytes out.old ++ line_text (JournalLine.Waiting task.now)) }
    ensures back { OnOk result (IsReadBack (JournalLine.Waiting task.now)) }
{
    let line = waiting_value(alloc, task)?;
    push_line(alloc, out, &line)
}

/// Puts a line for each task that waits for a peer at the end.
fn push_waiting(alloc: Global, out: &mut String, tasks: &[Task]) -> Result<(), AllocError>
    ensures text { OnOk result (string_bytes out.new ≡ string_bytes out.old ++ lines_text (map JournalLine.Waiting tasks.now)) }
    ensures back { OnOk result (AllByRecursion IsReadBack (map JournalLine.Waiting tasks.now)) }
{
    for task in tasks {
        push_waiting_task(alloc, out, task)?;
    }
    Ok(())
}

/// Puts the line of a task in flight to a peer at the end.
#[tactic(auto, unfolding(crate::specs::Text::line_text, crate::specs::Text::IsReadBack))]
fn push_flight_task(alloc: Global, out: &mut String, task: &Task) -> Result<(), AllocError>
    ensures text { OnOk result (string_bytes out.new ≡ string_bytes out.old ++ line_text (JournalLine.Flight task.now)) }
    ensures back { OnOk result (IsReadBack (JournalLine.Flight task.now)) }
{
    let line = flight_value(alloc, task)?;
    push_line(alloc, out, &line)
}

/// Puts a line for each task in flight to a peer at the end.
fn push_flight(alloc: Global, out: &mut String, tasks: &[Task]) -> Result<(), AllocError>
    ensures text { OnOk result (string_bytes out.new ≡ string_bytes out.old ++ lines_text (map JournalLine.Flight tasks.now)) }
    ensures back { OnOk result (AllByRecursion IsReadBack (map JournalLine.Flight tasks.now)) }
{
    for task in tasks {
        push_flight_task(alloc, out, task)?;
    }
    Ok(())
}

/// Puts the line with which a peer begins at the end.
#[tactic(auto, unfolding(crate::specs::Text::line_text, crate::specs::Text::IsReadBack))]
fn push_peer(alloc: Global, out: &mut String) -> Result<(), AllocError>
    ensures text { OnOk result (string_bytes out.new ≡ string_bytes out.old ++ line_text (JournalLine.Peer)) }
    ensures back { OnOk result (IsReadBack (JournalLine.Peer)) }
{
    let line = peer_value(alloc)?;
    push_line(alloc, out, &line)
}

/// Puts the lines of what a peer is to be told at the end.
#[tactic(auto, using(crate::proofs::PutLemmas::put_three, crate::proofs::PutLemmas::all_append))]
fn push_queue(alloc: Global, out: &mut String, queue: &Queue) -> Result<(), AllocError>
    ensures text { OnOk result (string_bytes out.new ≡ string_bytes out.old ++ lines_text (queue_lines queue.now)) }
    ensures back { OnOk result (AllByRecursion IsReadBack (queue_lines queue.now)) }
{
    push_peer(alloc, out)?;
    push_waiting(alloc, out, queue.waiting.as_slice())?;
    push_flight(alloc, out, queue.flight.as_slice())
}

/// Puts the lines of what each peer is to be told at the end.
fn push_queues(alloc: Global, out: &mut String, queues: &[Queue]) -> Result<(), AllocError>
    ensures text { OnOk result (string_bytes out.new ≡ string_bytes out.old ++ lines_text (queues_lines queues.now)) }
    ensures back { OnOk result (AllByRecursion IsReadBack (queues_lines queues.now)) }
{
    for queue in queues {
        push_queue(alloc, out, queue)?;
    }
    Ok(())
}

/// What stands in the first line of a state.
fn head_of(state: &State) -> Head
    ensures { result ≡ head_of state.now }
{
    Head {
        config: state.config,
        expected: state.expected,
        last: state.last,
        since: state.since,
        previous: state.previous,
    }
}

/// Puts the first line of a state at the end.
#[tactic(auto, unfolding(crate::specs::Text::line_text, crate::specs::Text::IsReadBack))]
fn push_head(alloc: Global, out: &mut String, state: &State) -> Result<(), AllocError>
    ensures text { OnOk result (string_bytes out.new ≡ string_bytes out.old ++ line_text (JournalLine.Head (head_of state.now))) }
    ensures back { OnOk result (IsReadBack (JournalLine.Head (head_of state.now))) }
{
    let line = head_value(alloc, head_of(state))?;
    push_line(alloc, out, &line)
}

/// Puts the lines of a state's rows and of its peers at the end.
#[tactic(auto, using(crate::proofs::PutLemmas::put_two, crate::proofs::PutLemmas::all_append))]
fn push_rows_and_queues(alloc: Global, out: &mut String, state: &State) -> Result<(), AllocError>
    ensures text { OnOk result (string_bytes out.new ≡ string_bytes out.old ++ lines_text (map row_line state.now.overrides ++ queues_lines state.now.queues)) }
    ensures back { OnOk result (AllByRecursion IsReadBack (map row_line state.now.overrides ++ queues_lines state.now.queues)) }
{
    push_rows(alloc, out, state.overrides.as_slice())?;
    push_queues(alloc, out, state.queues.as_slice())
}

/// Puts the lines of a state at the end. `AllocError` where no memory is left.
#[tactic(auto, using(crate::proofs::PutLemmas::put_three, crate::proofs::PutLemmas::all_append))]
pub fn push_state(alloc: Global, out: &mut String, state: &State) -> Result<(), AllocError>
    ensures text { OnOk result (string_bytes out.new ≡ string_bytes out.old ++ lines_text (state_lines state.now)) }
    ensures back { OnOk result (AllByRecursion IsReadBack (state_lines state.now)) }
{
    push_head(alloc, out, state)?;
    push_leases(alloc, out, state.leases.as_slice())?;
    push_rows_and_queues(alloc, out, state)
}
