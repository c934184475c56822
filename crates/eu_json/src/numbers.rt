//! Numbers that members write.
ghost use Rattle.std.specs.Prelude.{◌≡◌, ◌≢◌, ◌≤◌, Err};
ghost use Rattle.std.specs.Option.{option_map};
ghost use Rattle.serde_json.specs.View.{view};
ghost use Rattle.eu_json.specs.Reading.{digits_within, interval_in, secs_in, secs_within, stamp_in};

use eu_base::{Fault, LeaseSecs, Moment, RenewalSecs, Stamp, read_digits};
use serde_json::Value;

/// Up to `most` decimal digits as a number. None for any other text.
fn digits_within(most: usize, text: &[u8]) -> Option<u64>
    requires { most ≤ 19 }
    ensures { result ≡ digits_within most text.now }
{
    if text.is_empty() || text.len() > most {
        return None;
    }
    read_digits(text)
}

/// The stamp that a member writes as a number or in 1 to 19 digits, else `BadStamp`; the moment where it is absent or null.
pub fn stamp_in(moment: Moment, member: Option<&Value>) -> Result<Stamp, Fault>
    ensures stamp { result ≡ stamp_in moment (option_map (λ v. view v.now) member.entry) }
    ensures memory { result ≢ Err Fault.OutOfMemory }
{
    let number = match member {
        None | Some(Value::Null) => Some(moment.ms()),
        Some(Value::Number(number)) => number.as_u64(),
        Some(Value::String(text)) => digits_within(19, text.as_bytes()),
        Some(Value::Bool(_) | Value::Array(_) | Value::Object(_)) => None,
    };
    number.and_then(Stamp::new).ok_or(Fault::BadStamp)
}

/// A duration of so many seconds, else `BadDuration`. 0 stands for `LeaseSecs::DEFAULT`.
fn secs_within(number: u64) -> Result<LeaseSecs, Fault>
    ensures said { result ≡ secs_within number }
    ensures memory { result ≢ Err Fault.OutOfMemory }
{
    if number == 0 {
        return Ok(LeaseSecs::DEFAULT);
    }
    let secs = u32::try_from(number).ok().and_then(LeaseSecs::new);
    secs.ok_or(Fault::BadDuration)
}

/// The duration that a member writes as a number or in 1 to 10 digits, else `BadDuration`. `LeaseSecs::DEFAULT` where it is
/// absent, null or not above 0.
pub fn secs_in(member: Option<&Value>) -> Result<LeaseSecs, Fault>
    ensures secs { result ≡ secs_in (option_map (λ v. view v.now) member.entry) }
    ensures memory { result ≢ Err Fault.OutOfMemory }
{
    match member {
        None | Some(Value::Null) => Ok(LeaseSecs::DEFAULT),
        Some(Value::Number(number)) => match number.as_u64() {
            Some(number) => secs_within(number),
            None if number.is_f64() => Err(Fault::BadDuration),
            None => Ok(LeaseSecs::DEFAULT),
        },
        Some(Value::String(text)) => match digits_within(10, text.as_bytes()) {
            Some(number) => secs_within(number),
            None => Err(Fault::BadDuration),
        },
        Some(Value::Bool(_) | Value::Array(_) | Value::Object(_)) => Err(Fault::BadDuration),
    }
}

/// The interval between renewals that a member writes as a number from 1 to 2^31 - 1. `RenewalSecs::DEFAULT` for any other, and
/// where it is absent.
pub fn interval_in(member: Option<&Value>) -> RenewalSecs
    ensures { result ≡ interval_in (option_map (λ v. view v.now) member.entry) }
{
    let number = member.and_then(Value::as_u64);
    let secs = number
        .and_then(|number| u32::try_from(number).ok())
        .and_then(RenewalSecs::new);
    secs.unwrap_or(RenewalSecs::DEFAULT)
}
