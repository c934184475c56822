//! Whether a list of entries is a run of the lease machine.
ghost use Rattle.std.specs.Prelude.{◌↔◌, IfOk, IsTrue};
ghost use Rattle.eu_audit.specs.PlainForm.{IsRun};
ghost use Rattle.eu_audit.specs.PlainRuns.{PlainRun};
ghost use Rattle.eu_audit.specs.Verdict.{Judged};

use crate::plain::read_unordered;
use crate::server::ServerReplica;
use eu_model::{Entry, State};
use std::alloc::{AllocError, Global};

/// Decides whether the entries are a run of the lease machine and its peers' queues, from what it was before them to what it is after.
///
/// It is true exactly where both are plain forms of a server (`is_plain_form`: each thing within its limit, once, and in its place) and
/// each entry in turn is a command that isn't refused at its moment, with the reply that it is given, the last of them leading to the
/// end. Of an eviction the number of its victims is judged, that each was held and had expired, and that none is told twice; whichever
/// of those that had expired are told. The number of an entry and of who asked play no part.
///
/// A step costs a logarithm of what is held, but for an eviction, which costs that for each of its victims, and a turn of a peer's queue,
/// which may cost what waits. `AllocError` where no memory is left.
pub fn audit(
    alloc: Global,
    base: &State,
    entries: &[Entry],
    end: &State,
) -> Result<bool, AllocError>
    ensures { IfOk result (λ b. IsTrue b ↔ IsRun base.now entries.now end.now) }
{
    if read_unordered(alloc, end)?.is_none() {
        return Ok(false);
    }
    let Some(server) = ServerReplica::read(alloc, base)? else {
        return Ok(false);
    };
    match replay(alloc, server, entries)? {
        Some(last) => Ok(last.is_listed(end)),
        None => Ok(false),
    }
}

/// The server to which the entries lead, if they do. `AllocError` where no memory is left.
fn replay(
    alloc: Global,
    server: ServerReplica,
    entries: &[Entry],
) -> Result<Option<ServerReplica>, AllocError>
    ensures { IfOk result (Judged (PlainRun server entries.now)) }
{
    let mut replica = server;
    for entry in entries {
        match replica.step(alloc, entry)? {
            Some(next) => replica = next,
            None => return Ok(None),
        }
    }
    Ok(Some(replica))
}
