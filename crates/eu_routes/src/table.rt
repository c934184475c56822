//! The table of paths.
ghost use Rattle.std.specs.Prelude.{◌≡◌, IfOk, map, option_map};
ghost use Rattle.matchit.specs.Seek.{first};
ghost use Rattle.eu_routes.specs.Table.{rows_for, table, resource_of};

use matchit::Router;
use std::alloc::{AllocError, Global};

/// What a path names.
#[derive(Clone, Copy, Debug, PartialEq, Eq)]
pub enum Resource {
    /// All applications.
    Applications,
    /// One application.
    Application,
    /// One lease.
    Lease,
    /// The status of a lease's instance.
    LeaseStatus,
    /// What peers send.
    Batch,
    /// The page that tells how the registry is.
    StatusPage,
    /// The settings.
    Config,
}

/// Each resource's path, under both prefixes.
const PATHS: [(&str, Resource); 14] = [
    ("/eureka/v2/apps", Resource::Applications),
    ("/eureka/v2/apps/{app}", Resource::Application),
    ("/eureka/v2/apps/{app}/{id}", Resource::Lease),
    ("/eureka/v2/apps/{app}/{id}/status", Resource::LeaseStatus),
    ("/eureka/v2/peerreplication/batch", Resource::Batch),
    ("/eureka/v2/status", Resource::StatusPage),
    ("/eureka/v2/config", Resource::Config),
    ("/eureka/apps", Resource::Applications),
    ("/eureka/apps/{app}", Resource::Application),
    ("/eureka/apps/{app}/{id}", Resource::Lease),
    ("/eureka/apps/{app}/{id}/status", Resource::LeaseStatus),
    ("/eureka/peerreplication/batch", Resource::Batch),
    ("/eureka/status", Resource::StatusPage),
    ("/eureka/config", Resource::Config),
];

/// A router of these paths. No two of them conflict, and the router reads each.
///
/// The only fault is want of memory.
#[tactic(auto, unfolding(crate::specs::Table::rows_onto))]
fn router_of(alloc: Global, paths: &[(&str, Resource)]) -> Result<Router<Resource>, AllocError>
    ensures { IfOk result (λ router. router ≡ rows_for (map (λ p. (p.0.now, p.1)) paths.now)) }
{
    let mut router = Router::new(alloc);
    for (path, resource) in paths {
        if router.insert(path, *resource).is_err() {
            return Err(AllocError);
        }
    }
    Ok(router)
}

/// The routes of the registry's requests.
#[derive(Drop)]
pub struct Routes {
    router: Router<Resource>,
    ghost built: { router ≡ rows_for table },
}

impl Routes {
    /// The routes. They are built once, and serve any number of requests.
    ///
    /// The only fault is want of memory.
    #[tactic(auto, unfolding(crate::specs::Table::table))]
    pub fn new(alloc: Global) -> Result<Routes, AllocError> {
        let router = router_of(alloc, &PATHS)?;
        Ok(Routes { router })
    }

    /// The resource that a path names, if it names one.
    pub(crate) fn resource_at(&self, path: &str) -> Option<Resource>
        ensures { result ≡ resource_of path.now }
    {
        match self.router.at(path) {
            Ok(found) => Some(*found.value),
            Err(_) => None,
        }
    }
}
