//! Listings of many instances.
ghost use Rattle.std.specs.Prelude.{◌≡◌, List, IfOk};
ghost use Rattle.serde_json.specs.Written.{compact_text};
ghost use Rattle.eu_json.specs.Tree.{applications_tree};
ghost use Rattle.eu_model.specs.declared.views.Listed.{Listed};

use eu_base::{
    App, Config, Fault, Id, Instance, Key, LeaseSecs, Moment, RenewalSecs, Rest, SharedInstance,
    Stamp, Status,
};
use eu_core::Registry;
use eu_hash::HashKey;
use eu_json::append_applications;
use eu_model::Listed;
use std::alloc::Global;

/// The instance that the script's line `register 0 APP ID 90 UP UNKNOWN 0 c` registers, of one of a hundred applications.
fn newcomer(alloc: Global, number: u32) -> Result<SharedInstance, Fault> {
    let last_dirty = Stamp::new(0).ok_or(Fault::BadStamp)?;
    let app = number % 100;
    let app = App::read(alloc, format!(in alloc; "A{app}")?.as_str())?;
    let id = Id::read(alloc, format!(in alloc; "host-{number}")?.as_str())?;
    let rest = Rest::of_host(alloc, id.as_str())?;
    let instance = Instance {
        key: Key { app, id },
        status: Status::Up,
        overridden: Status::Unknown,
        last_dirty,
        secs: LeaseSecs::DEFAULT,
        interval: RenewalSecs::DEFAULT,
        rest,
    };
    Ok(SharedInstance::new(alloc, instance)?)
}

/// Registers so many instances. The faults are those of `Registry::register`.
fn fill(alloc: Global, registry: &mut Registry, count: u32) -> Result<(), Fault> {
    let moment = Moment::new(0).ok_or(Fault::BadValue)?;
    for number in 0..count {
        let instance = newcomer(alloc, number)?;
        let reply = registry.register(alloc, &instance, false, moment)?;
        drop(reply);
    }
    Ok(())
}

/// Fills a registry, and lists what it holds.
fn fill_and_list(alloc: Global, registry: &mut Registry, count: u32) -> Result<Vec<Listed>, Fault> {
    fill(alloc, registry, count)?;
    Ok(registry.list(alloc, None)?)
}

/// What a registry with so many instances lists.
fn listed(alloc: Global, count: u32) -> Result<Vec<Listed>, Fault> {
    let config = Config::new(true, 85, 30, 60_000)?;
    let mut registry = Registry::open(alloc, config, 1, HashKey::new(0, 0));
    let held = fill_and_list(alloc, &mut registry, count);
    drop(registry);
    held
}

/// The JSON of a listing.
fn text_of(alloc: Global, held: &[Listed]) -> Result<Vec<u8>, Fault>
    ensures { IfOk result (λ text. text.items ≡ compact_text (applications_tree held.now)) }
{
    let mut text = Vec::new(alloc);
    append_applications(alloc, &mut text, held)?;
    Ok(text)
}

/// The JSON of a registry that holds so many instances. `Full` where they are more than a registry holds; `OutOfMemory`.
pub fn listing_text(alloc: Global, count: u32) -> Result<Vec<u8>, Fault>
    ensures { IfOk result (λ text. (held : List Listed) × (text.items ≡ compact_text (applications_tree held))) }
{
    let held = listed(alloc, count)?;
    let text = text_of(alloc, held.as_slice());
    drop(held);
    text
}
