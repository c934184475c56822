//! Which status an instance is given.
ghost use Rattle.std.specs.Prelude.{◌≡◌};
ghost use Rattle.eu_model.specs.Change.{is_status, rule};

use eu_base::Status;

/// Whether a status is that one.
pub fn is_status(status: Status, other: Status) -> bool
    ensures { result ≡ is_status status other }
{
    status as u8 == other as u8
}

/// The override rule (`OverrideExistsRule` and its neighbours in Eureka): the first that holds of an own status that is
/// neither UP nor OUT_OF_SERVICE, the row of the id, for a client a held status that is UP or OUT_OF_SERVICE, and the own
/// status.
pub fn override_rule(
    own: Status,
    row: Option<Status>,
    held: Option<Status>,
    replicated: bool,
) -> Status
    ensures { result ≡ rule own row held replicated }
{
    match own {
        Status::Up | Status::OutOfService => match row {
            Some(status) => status,
            None => match held {
                Some(Status::Up) if !replicated => Status::Up,
                Some(Status::OutOfService) if !replicated => Status::OutOfService,
                _ => own,
            },
        },
        _ => own,
    }
}
