//! An instance to JSON text.
ghost use Rattle.std.specs.Prelude.{◌≡◌, ◌++◌, ◌∷◌, ℕ, List, decimal, OnOk};
ghost use Rattle.json.specs.Print.{quoted};
ghost use Rattle.serde_json.specs.Data.{object, Members};
ghost use Rattle.serde_json.specs.Written.{compact_text};
ghost use Rattle.eu_base.specs.Values.{status_name};
ghost use Rattle.eu_text.specs.Object.{IsTextOf};
ghost use Rattle.eu_json.specs.Tree.{instance_tree, lease_tree};

use eu_base::{SharedInstance, Status};
use eu_model::Times;
use eu_text::{Pieces, append_piece, append_text};
use itoa::Buffer;
use std::alloc::{AllocError, Global};

/// A status in quotes.
fn quoted_status(status: Status) -> &'static str
    ensures { result.now ≡ quoted (status_name status) }
{
    match status {
        Status::Up => "\"UP\"",
        Status::Down => "\"DOWN\"",
        Status::Starting => "\"STARTING\"",
        Status::OutOfService => "\"OUT_OF_SERVICE\"",
        Status::Unknown => "\"UNKNOWN\"",
    }
}

/// Appends a number behind what leads to it.
pub(crate) fn append_number(out: &mut Vec<u8>, lead: &str, number: u64) -> Result<(), AllocError>
    ensures { OnOk result ((s : List ℕ) → out.new.items ++ s ≡ out.old.items ++ (lead.now ++ (decimal number ++ s))) }
{
    let mut digits = Buffer::new();
    out.extend_from_slice(lead.as_bytes())?;
    out.extend_from_slice(digits.format(number).as_bytes())?;
    Ok(())
}

/// Appends what is told of a lease.
fn append_lease(
    out: &mut Vec<u8>,
    instance: &SharedInstance,
    times: Option<Times>,
) -> Result<(), AllocError>
    ensures { OnOk result (out.new.items ≡ out.old.items ++ compact_text (lease_tree instance.now times)) }
{
    let secs = u64::from(instance.secs().secs());
    let interval = u64::from(instance.interval().secs());
    append_number(out, "{\"durationInSecs\":", secs)?;
    match times {
        None => append_number(out, ",\"renewalIntervalInSecs\":", interval)?,
        Some(times) => {
            append_number(
                out,
                ",\"evictionTimestamp\":0,\"lastRenewalTimestamp\":",
                times.updated,
            )?;
            append_number(out, ",\"registrationTimestamp\":", times.registered)?;
            append_number(out, ",\"renewalIntervalInSecs\":", interval)?;
            append_number(out, ",\"serviceUpTimestamp\":", times.up)?;
        }
    }
    out.extend_from_slice(b"}")?;
    Ok(())
}

/// Appends the members of an instance, a comma before each, and the closing bracket.
fn append_members(
    alloc: Global,
    out: &mut Vec<u8>,
    pieces: Pieces<'_>,
    instance: &SharedInstance,
    times: Option<Times>,
) -> Result<(), AllocError>
    requires { (ms : Members) × (instance.now.rest ≡ object ms) × IsTextOf pieces.bytes.now pieces.cuts ms }
    ensures { OnOk result ((s : List ℕ) × (out.new.items ≡ out.old.items ++ 44 ∷ s) × (compact_text (instance_tree instance.now times) ≡ 123 ∷ s)) }
{
    let Pieces { bytes, cuts } = pieces;
    let (app, id) = (instance.key().app.as_str(), instance.key().id.as_str());
    let left = append_text(alloc, out, bytes, cuts.app, ",\"app\":", app)?;
    let left = append_text(alloc, out, left, cuts.instance_id, ",\"instanceId\":", id)?;
    let mut digits = Buffer::new();
    let stamp = digits.format(instance.last_dirty().value());
    let left = append_text(
        alloc,
        out,
        left,
        cuts.last_dirty,
        ",\"lastDirtyTimestamp\":",
        stamp,
    )?;
    let left = append_piece(out, left, cuts.lease, ",\"leaseInfo\":")?;
    append_lease(out, instance, times)?;
    let left = append_piece(out, left, cuts.overridden, ",\"overriddenStatus\":")?;
    out.extend_from_slice(quoted_status(instance.overridden()).as_bytes())?;
    let left = append_piece(out, left, cuts.status, ",\"status\":")?;
    out.extend_from_slice(quoted_status(instance.status()).as_bytes())?;
    out.extend_from_slice(left)?;
    out.extend_from_slice(b"}")?;
    Ok(())
}

/// The same, by the text that is kept of the rest, or one that is made.
fn append_led(
    alloc: Global,
    out: &mut Vec<u8>,
    instance: &SharedInstance,
    times: Option<Times>,
) -> Result<(), AllocError>
    ensures { OnOk result ((s : List ℕ) × (out.new.items ≡ out.old.items ++ 44 ∷ s) × (compact_text (instance_tree instance.now times) ≡ 123 ∷ s)) }
{
    if let Some(text) = instance.rest().kept_text() {
        return append_members(alloc, out, text.pieces(), instance, times);
    }
    let text = instance.rest().to_text(alloc)?;
    append_members(alloc, out, text.pieces(), instance, times)
}

/// Appends the JSON of an instance: the members of its `rest`, with those of the registry's own set (`InstanceInfo` in Eureka, by its
/// JSON encoder).
///
/// `app`, `instanceId`, `status`, `overriddenStatus` and `lastDirtyTimestamp` are texts, the stamp in decimal digits.
/// `leaseInfo` has `durationInSecs` and `renewalIntervalInSecs`, in seconds; where moments are given also
/// `registrationTimestamp`, `lastRenewalTimestamp` (the last update), `serviceUpTimestamp` (0 where the instance never was up)
/// and `evictionTimestamp` (0, as an evicted lease isn't held), in milliseconds. These are numbers.
///
/// `AllocError` where no memory is left.
pub(crate) fn append_instance(
    alloc: Global,
    out: &mut Vec<u8>,
    instance: &SharedInstance,
    times: Option<Times>,
) -> Result<(), AllocError>
    ensures { OnOk result (out.new.items ≡ out.old.items ++ compact_text (instance_tree instance.now times)) }
{
    let start = out.len();
    append_led(alloc, out, instance, times)?;
    // The comma before the first member stands where the bracket belongs.
    out[start] = b'{';
    Ok(())
}
