//! Plain data that is read as a server, and that a server is compared with.
ghost use Rattle.std.specs.Prelude.{◌≡◌, ◌↔◌, length, IfOk, IfSome, IsTrue, None, Ok, true, false};
ghost use Rattle.std.specs.List.{list_all};
ghost use Rattle.std.specs.FinMap as map;
ghost use Rattle.eu_base.specs.Values.{name_cmp, key_cmp};
ghost use Rattle.eu_audit.specs.Verdict.{IsLimited};
ghost use Rattle.eu_audit_queue.specs.PlainQueue.{is_plain_queue};
ghost use Rattle.eu_model.specs.View.{by_key};
ghost use Rattle.eu_audit.specs.PlainForm.{is_plain_lease, are_plain_counts, has_plain_parts};

use eu_audit_changes::copied;
use eu_audit_queue::PeerQueue;
use eu_audit_tables::{Leases, Overrides};
use eu_base::{Id, LAST_MOMENT, MOST_EXPECTED, MOST_LEASES, MOST_PEERS, MOST_RENEWALS, Status};
use eu_model::{Listed, Queue, State};
use std::alloc::{AllocError, Global};

/// Whether the moments of a lease are plain.
fn is_plain_lease(lease: &Listed) -> bool
    ensures { result ≡ is_plain_lease lease.now }
{
    let most = LAST_MOMENT + 1000 * u64::from(lease.instance.secs().secs());
    lease.times.registered <= LAST_MOMENT
        && lease.times.updated <= most
        && lease.times.up <= LAST_MOMENT
}

/// Whether the moments of each lease are plain.
fn are_plain_leases(leases: &[Listed]) -> bool
    ensures { result ≡ list_all is_plain_lease leases.now }
{
    for lease in leases {
        if !is_plain_lease(lease) {
            return false;
        }
    }
    true
}

/// Whether no count is beyond its limit.
fn are_plain_counts(state: &State) -> bool
    ensures counts { result ≡ are_plain_counts state.now }
    ensures limits { IsTrue result → IsLimited state.now }
{
    state.leases.as_slice().len() <= MOST_LEASES
        && state.expected <= MOST_EXPECTED
        && state.last <= MOST_RENEWALS
        && state.since <= MOST_RENEWALS
        && state.queues.as_slice().len() <= MOST_PEERS as usize
}

/// The leases, each under its instance's key. `AllocError` where no memory is left.
fn read_leases(alloc: Global, leases: &[Listed]) -> Result<Leases, AllocError>
    ensures { IfOk result (λ t. t ≡ map.from_entries (by_key leases.now)) }
{
    let mut table = Leases::new(alloc);
    let mut left = leases;
    while let Some((lease, before)) = left.split_last() {
        let key = lease.instance.key().copy(alloc)?;
        table.put(key, copied(lease)?)?;
        left = before;
    }
    Ok(table)
}

/// The rows, each under its id. `AllocError` where no memory is left.
fn read_rows(alloc: Global, overrides: &[(Id, Status)]) -> Result<Overrides, AllocError>
    ensures { IfOk result (λ t. t ≡ map.from_entries overrides.now) }
{
    let mut table = Overrides::new(alloc);
    let mut left = overrides;
    while let Some((row, before)) = left.split_last() {
        table.put(row.0.copy(alloc)?, row.1)?;
        left = before;
    }
    Ok(table)
}

/// The leases by their keys, where these strictly rise. `AllocError` where no memory is left.
pub(crate) fn ordered_leases(alloc: Global, leases: &[Listed]) -> Result<Option<Leases>, AllocError>
    ensures some { IfOk result (λ found. IfSome found (λ t. (t ≡ map.from_entries (by_key leases.now)) × (map.len t ≡ length leases.now))) }
    ensures in_order { IfOk result (λ found. IfSome found (λ t. map.is_sorted key_cmp (by_key leases.now) ≡ true)) }
    ensures none { result ≡ Ok None → map.is_sorted key_cmp (by_key leases.now) ≡ false }
{
    let table = read_leases(alloc, leases)?;
    if !table.same(leases) {
        return Ok(None);
    }
    Ok(Some(table))
}

/// The rows by their ids, where these strictly rise. `AllocError` where no memory is left.
pub(crate) fn ordered_rows(
    alloc: Global,
    overrides: &[(Id, Status)],
) -> Result<Option<Overrides>, AllocError>
    ensures some { IfOk result (λ found. IfSome found (λ t. t ≡ map.from_entries overrides.now)) }
    ensures in_order { IfOk result (λ found. IfSome found (λ t. map.is_sorted name_cmp overrides.now ≡ true)) }
    ensures none { result ≡ Ok None → map.is_sorted name_cmp overrides.now ≡ false }
{
    let table = read_rows(alloc, overrides)?;
    if !table.same(overrides) {
        return Ok(None);
    }
    Ok(Some(table))
}

/// The queues, where each is plain. `AllocError` where no memory is left.
fn read_queues(alloc: Global, queues: &[Queue]) -> Result<Option<Vec<PeerQueue>>, AllocError>
    ensures some { IfOk result (λ found. IfSome found (λ read. read.items ≡ queues.now)) }
    ensures plain { IfOk result (λ found. IfSome found (λ read. list_all is_plain_queue queues.now ≡ true)) }
    ensures none { result ≡ Ok None → list_all is_plain_queue queues.now ≡ false }
{
    let mut read = Vec::new(alloc);
    for queue in queues {
        let Some(queue) = PeerQueue::read(alloc, queue)? else {
            return Ok(None);
        };
        read.push(queue)?;
    }
    Ok(Some(read))
}

/// Whether the queues are those of plain data.
pub(crate) fn same_queues(queues: &[PeerQueue], plain: &[Queue]) -> bool
    ensures { IsTrue result ↔ (queues.now ≡ plain.now) }
{
    let mut left = plain.iter();
    for queue in queues {
        let Some(theirs) = left.next() else {
            return false;
        };
        if !queue.same(theirs) {
            return false;
        }
    }
    left.next().is_none()
}

/// The queues of plain data, where all but the order of its leases and rows is that of a plain form. `AllocError` where no memory is
/// left.
pub(crate) fn read_unordered(
    alloc: Global,
    state: &State,
) -> Result<Option<Vec<PeerQueue>>, AllocError>
    ensures some { IfOk result (λ found. IfSome found (λ queues. (queues.items ≡ state.now.queues) × (has_plain_parts state.now ≡ true))) }
    ensures none { result ≡ Ok None → has_plain_parts state.now ≡ false }
    ensures limits { IfOk result (λ found. IfSome found (λ queues. IsLimited state.now)) }
{
    if !are_plain_counts(state) || !are_plain_leases(state.leases.as_slice()) {
        return Ok(None);
    }
    read_queues(alloc, state.queues.as_slice())
}
