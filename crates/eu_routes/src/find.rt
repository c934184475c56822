//! What each method asks of each resource.
ghost use Rattle.std.specs.Prelude.{◌≡◌, ◌≢◌, true, Err, IsOk, Some};
ghost use Rattle.eu_routes.specs.Table as spec;
ghost use Rattle.eu_routes.specs.Path.{app_at, key_at, IsUncoded};
ghost use Rattle.eu_base.specs.Gives.{Gives};
ghost use Rattle.eu_routes.specs.Table.{IsKnown};

use crate::asks::Route;
use crate::parameters::Parameter;
use crate::paths::{app_at, cut, key_at, path_of};
use crate::queries::{config_at, stamp_given, status_given, values_at};
use crate::table::{Resource, Routes};
use eu_base::Fault;
use eu_model::Command;
use std::alloc::Global;

#[tactic(auto, unfolding(crate::specs::Table::applications_ask))]
fn ask_applications(method: &str) -> Result<Route, Fault>
    ensures said { Gives result (spec.applications_ask method.now) }
    ensures memory { result ≢ Err Fault.OutOfMemory }
{
    match method {
        "GET" => Ok(Route::All),
        _ => Err(Fault::NoRoute),
    }
}

#[tactic(auto, unfolding(crate::specs::Table::batch_ask))]
fn ask_batch(method: &str) -> Result<Route, Fault>
    ensures said { Gives result (spec.batch_ask method.now) }
    ensures memory { result ≢ Err Fault.OutOfMemory }
{
    match method {
        "POST" => Ok(Route::Batch),
        _ => Err(Fault::NoRoute),
    }
}

#[tactic(auto, unfolding(crate::specs::Table::page_ask))]
fn ask_page(method: &str) -> Result<Route, Fault>
    ensures said { Gives result (spec.page_ask method.now) }
    ensures memory { result ≢ Err Fault.OutOfMemory }
{
    match method {
        "GET" => Ok(Route::StatusPage),
        _ => Err(Fault::NoRoute),
    }
}

#[tactic(auto, unfolding(crate::specs::Table::config_ask))]
fn ask_config(alloc: Global, method: &str, query: &str) -> Result<Route, Fault>
    ensures said { Gives result (spec.config_ask method.now query.now) }
    ensures memory { result ≡ Err Fault.OutOfMemory → spec.takes Resource.Config method.now ≡ true }
{
    match method {
        "PUT" => Ok(Route::Do(Command::Reconfigure {
            config: config_at(alloc, query)?,
        })),
        _ => Err(Fault::NoRoute),
    }
}

#[tactic(auto, unfolding(crate::specs::Table::listing_ask))]
fn ask_listing(alloc: Global, segment: &str) -> Result<Route, Fault>
    ensures said { Gives result (spec.listing_ask segment.now) }
    ensures memory { IsUncoded segment.now → result ≡ Err Fault.OutOfMemory → IsOk (app_at segment.now) }
{
    if segment == "delta" {
        return Ok(Route::Delta);
    }
    Ok(Route::OfApp(app_at(alloc, segment)?))
}

#[tactic(auto, unfolding(crate::specs::Table::application_ask))]
fn ask_application(alloc: Global, method: &str, path: &str) -> Result<Route, Fault>
    ensures said { Gives result (spec.application_ask method.now path.now) }
    ensures memory { result ≡ Err Fault.OutOfMemory → IsKnown (Some Resource.Application) method.now path.now }
{
    let (_, segment) = cut(path);
    match method {
        "GET" => ask_listing(alloc, segment),
        "POST" => Ok(Route::Register(app_at(alloc, segment)?)),
        _ => Err(Fault::NoRoute),
    }
}

#[tactic(auto, unfolding(crate::specs::Table::renewal_ask))]
fn ask_renewal(alloc: Global, path: &str, query: &str, replicated: bool) -> Result<Route, Fault>
    ensures said { Gives result (spec.renewal_ask path.now query.now replicated) }
    ensures memory { IsUncoded path.now → result ≡ Err Fault.OutOfMemory → IsOk (key_at path.now) }
{
    let key = key_at(alloc, path)?;
    let (last_dirty, overridden) = values_at(
        alloc,
        query,
        Parameter::LastDirtyTimestamp,
        Parameter::OverriddenStatus,
    )?;
    let last_dirty = stamp_given(last_dirty)?;
    let overridden = status_given(overridden)?;
    Ok(Route::Do(Command::Renew {
        key,
        last_dirty,
        overridden,
        replicated,
    }))
}

#[tactic(auto, unfolding(crate::specs::Table::lease_ask))]
fn ask_lease(
    alloc: Global,
    method: &str,
    path: &str,
    query: &str,
    replicated: bool,
) -> Result<Route, Fault>
    ensures said { Gives result (spec.lease_ask method.now path.now query.now replicated) }
    ensures memory { result ≡ Err Fault.OutOfMemory → IsKnown (Some Resource.Lease) method.now path.now }
{
    match method {
        "GET" => Ok(Route::One(key_at(alloc, path)?)),
        "PUT" => ask_renewal(alloc, path, query, replicated),
        "DELETE" => Ok(Route::Do(Command::Cancel {
            key: key_at(alloc, path)?,
            replicated,
        })),
        _ => Err(Fault::NoRoute),
    }
}

#[tactic(auto, unfolding(crate::specs::Table::setting_ask, crate::specs::Query::status_at))]
fn ask_setting(alloc: Global, path: &str, query: &str, replicated: bool) -> Result<Route, Fault>
    ensures said { Gives result (spec.setting_ask path.now query.now replicated) }
    ensures memory { IsUncoded path.now → result ≡ Err Fault.OutOfMemory → IsOk (key_at path.now) }
{
    let key = key_at(alloc, path)?;
    let (status, last_dirty) = values_at(
        alloc,
        query,
        Parameter::Value,
        Parameter::LastDirtyTimestamp,
    )?;
    let Some(status) = status_given(status)? else {
        return Err(Fault::BadValue);
    };
    let last_dirty = stamp_given(last_dirty)?;
    Ok(Route::Do(Command::SetStatus {
        key,
        status,
        last_dirty,
        replicated,
    }))
}

#[tactic(auto, unfolding(crate::specs::Table::unsetting_ask, crate::specs::Query::status_at))]
fn ask_unsetting(alloc: Global, path: &str, query: &str, replicated: bool) -> Result<Route, Fault>
    ensures said { Gives result (spec.unsetting_ask path.now query.now replicated) }
    ensures memory { IsUncoded path.now → result ≡ Err Fault.OutOfMemory → IsOk (key_at path.now) }
{
    let key = key_at(alloc, path)?;
    let (status, last_dirty) = values_at(
        alloc,
        query,
        Parameter::Value,
        Parameter::LastDirtyTimestamp,
    )?;
    let status = status_given(status)?;
    let last_dirty = stamp_given(last_dirty)?;
    Ok(Route::Do(Command::UnsetStatus {
        key,
        status,
        last_dirty,
        replicated,
    }))
}

#[tactic(auto, unfolding(crate::specs::Table::status_ask))]
fn ask_status(
    alloc: Global,
    method: &str,
    path: &str,
    query: &str,
    replicated: bool,
) -> Result<Route, Fault>
    ensures said { Gives result (spec.status_ask method.now path.now query.now replicated) }
    ensures memory { result ≡ Err Fault.OutOfMemory → IsKnown (Some Resource.LeaseStatus) method.now path.now }
{
    let (path, _) = cut(path);
    match method {
        "PUT" => ask_setting(alloc, path, query, replicated),
        "DELETE" => ask_unsetting(alloc, path, query, replicated),
        _ => Err(Fault::NoRoute),
    }
}

/// Whether a resource is that of batches.
fn is_for_batches(resource: Option<Resource>) -> bool
    ensures { result ≡ spec.is_for_batches resource }
{
    matches!(resource, Some(Resource::Batch))
}

/// Whether a resource is one of listings: of all applications, of one, or of changes.
fn is_for_listings(resource: Option<Resource>) -> bool
    ensures { result ≡ spec.is_for_listings resource }
{
    matches!(
        resource,
        Some(Resource::Applications | Resource::Application)
    )
}

impl Routes {
    ghost use Rattle.eu_routes.specs.Path.{path_of};
    ghost use Rattle.eu_base.specs.Gives.{Gives};
    ghost use Rattle.eu_routes.specs.Table.{IsKnown, is_batch, is_listing, needs_memory, route_of, resource_of};

    /// Whether a request is a batch of a peer, by its method and by its target before the first `?`: a POST of `peerreplication/batch`, with
    /// paths as in `find`. Takes no memory.
    #[tactic(auto, unfolding(crate::specs::Table::is_batch))]
    pub fn is_batch(&self, method: &str, path: &str) -> bool
        ensures { result ≡ is_batch method.now path.now }
    {
        method == "POST" && is_for_batches(self.resource_at(path_of(path)))
    }

    /// Whether a request asks for a listing, by its method and by its target before the first `?`: a GET of `apps`, `apps/{app}` or `apps/delta`, with paths as in
    /// `find`. Takes no memory.
    #[tactic(auto, unfolding(crate::specs::Table::is_listing))]
    pub fn is_listing(&self, method: &str, path: &str) -> bool
        ensures { result ≡ is_listing method.now path.now }
    {
        method == "GET" && is_for_listings(self.resource_at(path_of(path)))
    }

    /// What a request asks for, by its method, by its target's parts before and behind the first `?`, and by whether a peer sends it
    /// (`isReplication` in Eureka).
    ///
    /// A path begins with `/eureka/v2` or `/eureka`, which `http://` or `https://` and a host may precede (RFC 9112, section
    /// 3.2.2), and may end with a slash more. Its segments are percent-decoded once the route is known; a name has 1 to 255 bytes
    /// of UTF-8 then. Of a query, which is a form, the first pair of each name counts, and only the names of the route are looked
    /// at: a stamp of 1 to 19 digits up to 2^63 - 1, where an empty one is absent, a status in letters of either case, a number of 1
    /// to 10 digits up to 2^32 - 1, or `on` or `off`.
    ///
    /// | Request | Asks for |
    /// |---|---|
    /// | POST apps/{app} | a registration |
    /// | PUT apps/{app}/{id} with `lastDirtyTimestamp`, `overriddenstatus` | a renewal |
    /// | DELETE apps/{app}/{id} | a cancellation |
    /// | PUT apps/{app}/{id}/status with `value`, `lastDirtyTimestamp` | a status that overrides the own one |
    /// | DELETE apps/{app}/{id}/status with `value`, `lastDirtyTimestamp` | no status to override the own one |
    /// | GET apps, GET apps/{app}, GET apps/{app}/{id} | all, of an application, one |
    /// | GET apps/delta | the changes |
    /// | POST peerreplication/batch | the commands that a peer tells in the body |
    /// | GET status | the page that tells how the registry is |
    /// | PUT config with `preservation`, `percent`, `interval`, `evictMs` | other settings |
    ///
    /// The first that holds: `NoRoute` for any other request, `BadPath` where a segment is no name, `BadValue` where a stamp or
    /// a status isn't one, where `value` is missing from a PUT of a status, or where one of the four values of settings is missing or
    /// past its limits (`Config::new`). `OutOfMemory` comes where memory is refused, but never in place of `NoRoute`, nor of `BadPath`
    /// where nothing in the path is encoded, nor for `apps`, `peerreplication/batch` and `status`. The routes are those of Eureka's
    /// `ApplicationsResource`, `ApplicationResource`, `InstanceResource` and `PeerReplicationResource`, and `status` and `config`,
    /// which are this registry's own.
    pub fn find(
        &self,
        alloc: Global,
        method: &str,
        path: &str,
        query: &str,
        replicated: bool,
    ) -> Result<Route, Fault>
        ensures said { Gives result (route_of method.now path.now query.now replicated) }
        ensures memory { result ≡ Err Fault.OutOfMemory → IsKnown (resource_of (path_of path.now)) method.now (path_of path.now) }
        ensures frugal { result ≡ Err Fault.OutOfMemory → needs_memory (resource_of (path_of path.now)) ≡ true }
    {
        let path = path_of(path);
        let Some(resource) = self.resource_at(path) else {
            return Err(Fault::NoRoute);
        };
        match resource {
            Resource::Applications => ask_applications(method),
            Resource::Application => ask_application(alloc, method, path),
            Resource::Lease => ask_lease(alloc, method, path, query, replicated),
            Resource::LeaseStatus => ask_status(alloc, method, path, query, replicated),
            Resource::Batch => ask_batch(method),
            Resource::StatusPage => ask_page(method),
            Resource::Config => ask_config(alloc, method, query),
        }
    }
}
