//! Settings, moments, keys and instances.
ghost use Rattle.std.specs.Prelude.{◌≤◌, ◌^◌};

use eu_base::{
    App, Config, Fault, Id, Instance, Key, LeaseSecs, Moment, RenewalSecs, Rest, SharedInstance,
    Stamp, Status,
};
use eu_clock::ListClock;
use std::alloc::Global;

/// Self-preservation is on, at 85%, with a renewal each 30 s and an eviction each minute.
pub fn settings() -> Result<Config, Fault> {
    Config::new(true, 85, 30, 60_000)
}

/// The moment of so many milliseconds.
pub fn at(ms: u64) -> Moment
    requires { ms ≤ 2 ^ 62 }
{
    Moment::new(ms).unwrap()
}

/// The moment of so many milliseconds, of which a test need not know that they are few enough.
pub fn moment(ms: u64) -> Result<Moment, Fault> {
    Moment::new(ms).ok_or(Fault::BadValue)
}

/// A clock that tells these moments.
pub fn clock(alloc: Global, times: &[u64]) -> Result<ListClock, Fault> {
    let mut moments = Vec::new(alloc);
    for ms in times {
        moments.push(Moment::new(*ms).ok_or(Fault::BadValue)?)?;
    }
    Ok(ListClock::new(moments))
}

/// The key of that id, of application A.
pub fn key(alloc: Global, id: &str) -> Result<Key, Fault> {
    let app = App::read(alloc, "A")?;
    let id = Id::read(alloc, id)?;
    Ok(Key { app, id })
}

/// The key of that application and that id.
pub fn key_of(alloc: Global, app: &str, id: &str) -> Result<Key, Fault> {
    let app = App::read(alloc, app)?;
    let id = Id::read(alloc, id)?;
    Ok(Key { app, id })
}

/// An instance of application A at the host h that is UP, with that stamp, for so many seconds.
pub fn instance(
    alloc: Global,
    id: &str,
    last_dirty: u64,
    secs: u32,
) -> Result<SharedInstance, Fault> {
    let last_dirty = Stamp::new(last_dirty).ok_or(Fault::BadStamp)?;
    let secs = LeaseSecs::new(secs).ok_or(Fault::BadDuration)?;
    let rest = Rest::of_host(alloc, "h")?;
    match key(alloc, id) {
        Ok(key) => Ok(SharedInstance::new(
            alloc,
            Instance {
                key,
                status: Status::Up,
                overridden: Status::Unknown,
                last_dirty,
                secs,
                interval: RenewalSecs::DEFAULT,
                rest,
            },
        )?),
        Err(fault) => {
            drop(rest);
            Err(fault)
        }
    }
}
