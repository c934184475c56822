//! What an operator's request asks for.
ghost use Rattle.std.specs.Prelude.{◌≡◌};
ghost use Rattle.eu_base.specs.Gives.{Gives};
ghost use Rattle.eu_admin.specs.Requests as spec;

use eu_base::{App, Fault};
use eu_routes::{app_at, cut};
use std::alloc::Global;

/// What an operator asks for.
#[derive(Debug, Drop)]
pub enum Wanted {
    /// The page of a server: what it holds, and whether it evicts.
    Front,
    /// The page of an application.
    Application(App),
    /// The metrics.
    Metrics,
    /// Whether the server answers.
    Health,
}

/// The application whose page a path asks for, by what stands behind its last slash. `NoRoute` where something else than `/apps` stands before that; else
/// `BadPath` where the name isn't one; else `OutOfMemory`.
#[tactic(auto, unfolding(crate::specs::Requests::application_at))]
fn application_at(alloc: Global, path: &str) -> Result<Wanted, Fault>
    ensures { Gives result (spec.application_at path.now) }
{
    let (before, name) = cut(path);
    if before != "/apps" {
        return Err(Fault::NoRoute);
    }
    Ok(Wanted::Application(app_at(alloc, name)?))
}

/// What a path asks for: `/`, `/apps/NAME`, `/metrics` or `/health`. The name is percent-encoded.
///
/// `NoRoute` for any other; `BadPath` where the name isn't one of 1 to 255 bytes of UTF-8; else `OutOfMemory`.
#[tactic(auto, unfolding(crate::specs::Requests::wanted_by))]
pub fn wanted_by(alloc: Global, path: &str) -> Result<Wanted, Fault>
    ensures { Gives result (spec.wanted_by path.now) }
{
    match path {
        "/" => Ok(Wanted::Front),
        "/metrics" => Ok(Wanted::Metrics),
        "/health" => Ok(Wanted::Health),
        _ => application_at(alloc, path),
    }
}
