//! The statuses of instances, and the rows that override them.
ghost use Rattle.std.specs.Prelude.{◌≡◌, unwrap_or};
ghost use Rattle.eu_model.specs.Change.{rule, row_after, row_of, row_of_peer};

use eu_base::Status;
use eu_lease::{is_status, override_rule};
use eu_model::Reply;

/// The row that an overridden status tells: none, where it is UNKNOWN.
pub fn row_of(overridden: Status) -> Option<Status>
    ensures { result ≡ row_of overridden }
{
    match overridden {
        Status::Unknown => None,
        _ => Some(overridden),
    }
}

/// The row that a peer's renewal brings, which has this reply (`InstanceResource.renewLease` and
/// `AbstractInstanceRegistry.storeOverriddenStatusIfRequired` in Eureka): the overridden status that it gives, where its
/// sender knows a newer instance, unless it is UNKNOWN or the row already.
pub fn row_of_peer(
    reply: &Reply,
    overridden: Option<Status>,
    row: Option<Status>,
    replicated: bool,
) -> Option<Status>
    ensures { result ≡ row_of_peer reply.now replicated overridden row }
{
    match (reply, overridden) {
        (Reply::Stale, Some(overridden)) if replicated => match row {
            Some(row) if is_status(overridden, row) => None,
            _ => row_of(overridden),
        },
        _ => None,
    }
}

/// The statuses of an instance that is registered, and the row of its id.
#[derive(Clone, Copy, Debug)]
pub struct Statuses {
    pub status: Status,
    pub overridden: Status,
    pub row: Option<Status>,
}

/// The statuses that an instance gets as it registers, by the row of its id and the status that was held.
pub fn judge_statuses(
    own: Status,
    overridden: Status,
    row: Option<Status>,
    held: Option<Status>,
    replicated: bool,
) -> Statuses
    ensures row { result.row ≡ row_after row overridden }
    ensures overridden { result.overridden ≡ unwrap_or (row_after row overridden) overridden }
    ensures status { result.status ≡ rule own (row_after row overridden) held replicated }
{
    let new_row = match row {
        Some(status) => Some(status),
        None => row_of(overridden),
    };
    let status = override_rule(own, new_row, held, replicated);
    let overridden = match new_row {
        Some(status) => status,
        None => overridden,
    };
    Statuses {
        status,
        overridden,
        row: new_row,
    }
}
