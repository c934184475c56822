//! Commands of a client.
use crate::values::{instance, key};
use eu_base::Fault;
use eu_model::Command;
use std::alloc::Global;

/// A client that is UP registers that id of application A with the stamp 5, for 90 seconds.
pub fn registration(alloc: Global, id: &str) -> Result<Command, Fault> {
    registration_for(alloc, id, 90)
}

/// The same for so many seconds.
pub fn registration_for(alloc: Global, id: &str, secs: u32) -> Result<Command, Fault> {
    let instance = instance(alloc, id, 5, secs)?;
    Ok(Command::Register {
        instance,
        replicated: false,
    })
}

/// A client renews that id of application A, and gives no stamp.
pub fn renewal(alloc: Global, id: &str) -> Result<Command, Fault> {
    let key = key(alloc, id)?;
    Ok(Command::Renew {
        key,
        last_dirty: None,
        overridden: None,
        replicated: false,
    })
}
