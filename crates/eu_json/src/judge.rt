//! What is wrong with an instance that is to be registered. Takes no memory.
ghost use Rattle.std.specs.Prelude.{◌≡◌, ◌≢◌, Err};
ghost use Rattle.std.specs.Str.{str_to_ascii_uppercase};
ghost use Rattle.serde_json.specs.View.{view};
ghost use Rattle.eu_json.specs.Parts.{stands};
ghost use Rattle.eu_json.specs.Reading.{of_object};

use crate::checks::{check_address, check_app, check_center, name_of};
use crate::numbers::{secs_in, stamp_in};
use crate::read::{check_len, lease_member};
use eu_base::{Fault, Moment};
use serde_json::Value;

/// What is wrong with an object as an instance of the application of that name, whatever the case of its ASCII letters: the first
/// fault of `of_object`. Takes no memory.
#[tactic(auto, unfolding(crate::specs::Reading::of_object))]
pub fn judge_object(instance: &Value, app: &str, moment: Moment) -> Result<(), Fault>
    ensures said { result ≡ stands (of_object (str_to_ascii_uppercase app.now) moment (view instance.now)) }
    ensures memory { result ≢ Err Fault.OutOfMemory }
{
    let name = name_of(instance)?;
    check_address(instance)?;
    check_app(instance, app)?;
    check_center(instance)?;
    check_len(name)?;
    stamp_in(moment, instance.get("lastDirtyTimestamp"))?;
    secs_in(lease_member(instance, "durationInSecs"))?;
    Ok(())
}
