//! Members of a JSON object, and the values that they have.
ghost use Rattle.std.specs.Prelude.{◌≡◌};
ghost use Rattle.serde_json.specs.View.{view};
ghost use Rattle.eu_journal_values.specs.Answered.{Equals};
ghost use Rattle.eu_journal_values.specs.Members.{action_in, lease_secs_in, member_in, moment_in, number_in, below_32, renewal_secs_in, small_in, stamp_in, status_in, text_in, truth_in};

use crate::faults::LineFault;
use eu_base::{Action, LeaseSecs, Moment, RenewalSecs, Stamp, Status};
use serde_json::Value;

/// A member. `NotALine` where there is none of that name.
pub fn member_in<'v>(object: &'v Value, name: &str) -> Result<&'v Value, LineFault>
    ensures { Equals (λ v. view v.now) result (member_in name.now (view object.now)) }
{
    object.get(name).ok_or(LineFault::NotALine)
}

/// The text of a member. `NotALine` where it is absent or no text.
pub fn text_in<'v>(object: &'v Value, name: &str) -> Result<&'v str, LineFault>
    ensures { Equals (λ t. t.now) result (text_in name.now (view object.now)) }
{
    object
        .get(name)
        .and_then(Value::as_str)
        .ok_or(LineFault::NotALine)
}

/// The truth of a member. `NotALine` where it is absent or neither true nor false.
pub fn truth_in(object: &Value, name: &str) -> Result<bool, LineFault>
    ensures { result ≡ truth_in name.now (view object.now) }
{
    object
        .get(name)
        .and_then(Value::as_bool)
        .ok_or(LineFault::NotALine)
}

/// The number of a member. `NotALine` where it is absent or no whole number below 2^64.
pub fn number_in(object: &Value, name: &str) -> Result<u64, LineFault>
    ensures { result ≡ number_in name.now (view object.now) }
{
    object
        .get(name)
        .and_then(Value::as_u64)
        .ok_or(LineFault::NotALine)
}

/// The number, where it is below 2^32. Else `NotALine`.
fn below_32(number: u64) -> Result<u32, LineFault>
    ensures { result ≡ below_32 number }
{
    if number < 1 << 32 {
        Ok(number as u32)
    } else {
        Err(LineFault::NotALine)
    }
}

/// The number of a member. `NotALine` where it is absent or no whole number below 2^32.
pub fn small_in(object: &Value, name: &str) -> Result<u32, LineFault>
    ensures { result ≡ small_in name.now (view object.now) }
{
    let number = number_in(object, name)?;
    below_32(number)
}

/// The moment of a member. `NotALine` where it is absent or no whole number up to 2^62.
pub fn moment_in(object: &Value, name: &str) -> Result<Moment, LineFault>
    ensures { result ≡ moment_in name.now (view object.now) }
{
    Moment::new(number_in(object, name)?).ok_or(LineFault::NotALine)
}

/// The stamp of a member. `NotALine` where it is absent or no whole number below 2^63.
pub fn stamp_in(object: &Value, name: &str) -> Result<Stamp, LineFault>
    ensures { result ≡ stamp_in name.now (view object.now) }
{
    Stamp::new(number_in(object, name)?).ok_or(LineFault::NotALine)
}

/// The duration of a lease that a member gives. `NotALine` where it is absent or no whole number from 1 to 2,147,483.
pub fn lease_secs_in(object: &Value, name: &str) -> Result<LeaseSecs, LineFault>
    ensures { result ≡ lease_secs_in name.now (view object.now) }
{
    LeaseSecs::new(small_in(object, name)?).ok_or(LineFault::NotALine)
}

/// The interval of a client that a member gives. `NotALine` where it is absent or no whole number from 1 to 2^31 - 1.
pub fn renewal_secs_in(object: &Value, name: &str) -> Result<RenewalSecs, LineFault>
    ensures { result ≡ renewal_secs_in name.now (view object.now) }
{
    RenewalSecs::new(small_in(object, name)?).ok_or(LineFault::NotALine)
}

/// The status of a member. `NotALine` where it is absent or no status's name.
pub fn status_in(object: &Value, name: &str) -> Result<Status, LineFault>
    ensures { result ≡ status_in name.now (view object.now) }
{
    let text = text_in(object, name)?;
    Status::read(text.as_bytes()).ok_or(LineFault::NotALine)
}

/// The action of a member. `NotALine` where it is absent or no action's name.
pub fn action_in(object: &Value, name: &str) -> Result<Action, LineFault>
    ensures { result ≡ action_in name.now (view object.now) }
{
    let text = text_in(object, name)?;
    Action::read(text).ok_or(LineFault::NotALine)
}
