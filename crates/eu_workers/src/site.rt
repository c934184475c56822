//! What the workers of a server share.

use eu_gate::Gate;
use eu_http::Policy;
use eu_routes::Routes;
use eu_shared::{Label, Shared};
use std::alloc::Global;
use std::sync::Wait;

/// What the workers of a server have in common.
#[derive(Drop)]
pub struct Site<'a, K: Label, R: Wait, G: Gate> {
    /// The leave to wait.
    pub rt: &'a R,
    /// Where memory comes from.
    pub alloc: Global,
    /// The book that they ask.
    pub shared: &'a Shared<K>,
    /// The routes of requests.
    pub routes: &'a Routes,
    /// Which requests they take.
    pub policy: &'a Policy,
    /// Which they take while the server warms up.
    pub warm_policy: &'a Policy,
    /// What they pass before they go on.
    pub gate: &'a G,
}
