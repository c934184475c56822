//! Listings to JSON text.
ghost use Rattle.std.specs.Prelude.{◌≡◌, ◌<◌, ◌≤◌, ◌++◌, ◌∷◌, length, map, take, drop, OnOk};
ghost use Rattle.serde_json.specs.Written.{compact_text};
ghost use Rattle.eu_json.specs.Tree.{application_tree, applications_tree, held_tree, item_tree, list_tree, listed_tree, runs};

use crate::write::append_instance;
use eu_base::SharedInstance;
use eu_model::{Listed, StatusCounts, Times};
use eu_page::hash_code;
use eu_text::append_quoted;
use std::alloc::{AllocError, Global};

/// Appends the JSON of a list of leases, each as it is listed. `AllocError` where no memory is left.
fn append_leases(alloc: Global, out: &mut Vec<u8>, held: &[Listed]) -> Result<(), AllocError>
    ensures { OnOk result (out.new.items ≡ out.old.items ++ compact_text (list_tree (map listed_tree held.now))) }
{
    out.push(b'[')?;
    let mut first = true;
    for listed in held {
        if !first {
            out.push(b',')?;
        }
        append_instance(alloc, out, &listed.instance, Some(listed.times))?;
        first = false;
    }
    out.extend_from_slice(b"]")
}

/// Appends the item of one application. `AllocError` where no memory is left.
fn append_item(alloc: Global, out: &mut Vec<u8>, held: &[Listed]) -> Result<(), AllocError>
    requires { 0 < length held.now }
    ensures { OnOk result (out.new.items ≡ out.old.items ++ compact_text (item_tree held.now)) }
{
    out.extend_from_slice(b"{\"instance\":")?;
    append_leases(alloc, out, held)?;
    out.extend_from_slice(b",\"name\":")?;
    append_quoted(alloc, out, held[0].instance.key().app.as_str())?;
    out.extend_from_slice(b"}")?;
    Ok(())
}

/// Appends the JSON of one application, by its leases: a member `application`, with its leases' instances as `instance` and its
/// name as `name` (`ApplicationResource.getApplication` in Eureka). There is at least one lease, and all are of one application:
/// its name is that of the first.
///
/// `AllocError` where no memory is left: then nothing is said of `out`.
pub fn append_application(
    alloc: Global,
    out: &mut Vec<u8>,
    held: &[Listed],
) -> Result<(), AllocError>
    requires { 0 < length held.now }
    ensures { OnOk result (out.new.items ≡ out.old.items ++ compact_text (application_tree held.now)) }
{
    out.extend_from_slice(b"{\"application\":")?;
    append_item(alloc, out, held)?;
    out.extend_from_slice(b"}")?;
    Ok(())
}

/// Appends the JSON of one instance, as it is answered: an object with the one member `instance`. With the moments of its lease,
/// where they are given (`InstanceResource.getInstanceInfo` in Eureka).
///
/// `AllocError` where no memory is left: then nothing is said of `out`.
pub fn append_held(
    alloc: Global,
    out: &mut Vec<u8>,
    instance: &SharedInstance,
    times: Option<Times>,
) -> Result<(), AllocError>
    ensures { OnOk result (out.new.items ≡ out.old.items ++ compact_text (held_tree instance.now times)) }
{
    out.extend_from_slice(b"{\"instance\":")?;
    append_instance(alloc, out, instance, times)?;
    out.extend_from_slice(b"}")?;
    Ok(())
}

/// How many leases at the front are of one application.
fn run_len(held: &[Listed]) -> usize
    requires { 0 < length held.now }
    ensures filled { 0 < result }
    ensures within { result ≤ length held.now }
    ensures runs { runs held.now ≡ take result held.now ∷ runs (drop result held.now) }
{
    for place in 1..held.len() {
        if held[place - 1].instance.key().app != held[place].instance.key().app {
            return place;
        }
    }
    held.len()
}

/// Appends the item of each application. `AllocError` where no memory is left.
fn append_items(alloc: Global, out: &mut Vec<u8>, held: &[Listed]) -> Result<(), AllocError>
    ensures { OnOk result (out.new.items ≡ out.old.items ++ compact_text (list_tree (map item_tree (runs held.now)))) }
{
    out.push(b'[')?;
    let mut first = true;
    let mut rest = held;
    while !rest.is_empty() {
        if !first {
            out.push(b',')?;
        }
        let (run, others) = rest.split_at(run_len(rest));
        append_item(alloc, out, run)?;
        first = false;
        rest = others;
    }
    out.extend_from_slice(b"]")
}

/// Appends the JSON of everything that is held (`ApplicationsResource.getContainers` in Eureka): a member `applications`, whose
/// members are `application`, with one item for each application, `apps__hashcode`, the hash code of the statuses, and
/// `versions__delta`, which is `1`. An item has an application's leases' instances as `instance`, and its name as `name`.
///
/// An item ends where a lease of another application follows. Where the leases are in key order, each application has one, by the law
/// `items_are_of_applications`. They are so in each state that a run reaches, by the law `listings_are_by_application` of `eu_session`.
///
/// `AllocError` where no memory is left: then nothing is said of `out`.
pub fn append_applications(
    alloc: Global,
    out: &mut Vec<u8>,
    held: &[Listed],
) -> Result<(), AllocError>
    ensures { OnOk result (out.new.items ≡ out.old.items ++ compact_text (applications_tree held.now)) }
{
    out.extend_from_slice(b"{\"applications\":{\"application\":")?;
    append_items(alloc, out, held)?;
    out.extend_from_slice(b",\"apps__hashcode\":")?;
    let code = hash_code(alloc, &StatusCounts::of(held))?;
    append_quoted(alloc, out, code.as_str())?;
    out.extend_from_slice(b",\"versions__delta\":\"1\"}}")?;
    Ok(())
}
