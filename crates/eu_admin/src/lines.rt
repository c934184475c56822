//! The applications of a listing, a line for each.
ghost use Rattle.std.specs.Prelude.{◌≡◌, ◌<◌, ◌≤◌, ◌∷◌, IfOk, drop, length, map, take};
ghost use Rattle.eu_admin.specs.Lines.{line_of, runs};

use eu_base::App;
use eu_model::{Listed, StatusCounts};
use std::alloc::{AllocError, Global};

/// An application, and how many instances it has.
#[derive(Debug, Drop)]
pub struct AppLine {
    /// The application.
    pub app: App,
    /// Its instances that hold a lease.
    pub instances: u64,
    /// Those of them whose status is `Up`.
    pub up: u64,
}

/// How many leases at the front are of one application.
fn run_len(listing: &[Listed]) -> usize
    requires { 0 < length listing.now }
    ensures filled { 0 < result }
    ensures within { result ≤ length listing.now }
    ensures runs { runs listing.now ≡ take result listing.now ∷ runs (drop result listing.now) }
{
    for place in 1..listing.len() {
        if listing[place - 1].instance.key().app != listing[place].instance.key().app {
            return place;
        }
    }
    listing.len()
}

/// The line of leases of one application.
fn line_of(alloc: Global, run: &[Listed]) -> Result<AppLine, AllocError>
    requires { 0 < length run.now }
    ensures { IfOk result (λ line. line ≡ line_of run.now) }
{
    let app = run[0].instance.key().app.copy(alloc)?;
    let instances = run.len() as u64;
    let up = StatusCounts::of(run).up;
    Ok(AppLine { app, instances, up })
}

/// A line for each run of leases of one application, in their order: how many they are, and how many are up. A listing stands in key order, so
/// an application's leases are one run of it. `AllocError` where no memory is left.
pub fn lines_of(alloc: Global, listing: &[Listed]) -> Result<Vec<AppLine>, AllocError>
    ensures { IfOk result (λ lines. lines.items ≡ map line_of (runs listing.now)) }
{
    let mut lines = Vec::new(alloc);
    let mut rest = listing;
    while !rest.is_empty() {
        let (run, others) = rest.split_at(run_len(rest));
        lines.push(line_of(alloc, run)?)?;
        rest = others;
    }
    Ok(lines)
}
