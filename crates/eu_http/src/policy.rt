//! Which requests a server takes.
ghost use Rattle.std.specs.Prelude.{◌≡◌, None, IfOk, true, false, not, option_map, string_bytes};
ghost use Rattle.eu_framing.specs.Fields.{max_body};
ghost use Rattle.std.specs.List.{list_any};
ghost use Rattle.eu_http.specs.Policy as spec;

use eu_framing::{MAX_BODY, Request};
use eu_routes::Routes;
use std::alloc::{AllocError, Global};

/// Which requests a server takes, whatever they ask.
///
/// No client of a registry is a browser, but a browser can reach one, and a page from anywhere can have it send a POST without asking. It then
/// sends a field `Origin` with the site of that page (RFC 6454, section 7; the Fetch standard, "`Origin` header"). So a request with one is forbidden, unless it's the
/// origin that is allowed. A server without peers needn't take what only peers send, and one whose instances are small needn't take long bodies.
#[derive(Debug, Drop)]
pub struct Policy {
    /// Whether requests of peers are taken: those that call themselves replicated, and batches.
    pub accepts_peers: bool,
    /// The most bytes of a body, but for that of a `HEAD`. At most `MAX_BODY` are read, whatever this says.
    pub most_body: usize,
    /// The origin whose pages may ask, as a browser writes it (`https://example.com`), if there is one.
    pub allowed_origin: Option<String>,
    /// Whether listings are answered. They aren't while a server warms up (`PeerAwareInstanceRegistryImpl.shouldAllowAccess` in Eureka), so that clients keep what
    /// they know.
    pub lists: bool,
}

/// Whether an origin is the one that is allowed, byte by byte.
fn is_allowed(allowed: &Option<String>, origin: &Vec<u8>) -> bool
    ensures { result ≡ spec.is_allowed allowed.now origin.now.items }
{
    match allowed {
        Some(allowed) => origin.as_slice() == allowed.as_bytes(),
        None => false,
    }
}

/// Whether one of these origins isn't the one that is allowed.
fn has_other(allowed: &Option<String>, origins: &[Vec<u8>]) -> bool
    ensures { result ≡ list_any (λ o. not (spec.is_allowed allowed.now o.items)) origins.now }
{
    for origin in origins {
        if !is_allowed(allowed, origin) {
            return true;
        }
    }
    false
}

/// Whether a request is one that only peers send: it calls itself replicated, or is a batch.
fn is_of_peer(routes: &Routes, request: &Request) -> bool
    ensures { result ≡ spec.is_of_peer request.now }
{
    let (path, _) = request.parts();
    request.replicated || routes.is_batch(&request.method, path)
}

/// Whether a request asks for a listing.
fn is_listing(routes: &Routes, request: &Request) -> bool
    ensures { result ≡ spec.is_listing request.now }
{
    let (path, _) = request.parts();
    routes.is_listing(&request.method, path)
}

impl Policy {
    /// One by which requests of peers are taken or not, bodies have at most so many bytes, pages of this origin may ask, if there is one, and all is listed. `AllocError`
    /// where there is no memory for the origin.
    pub fn new(
        alloc: Global,
        accepts_peers: bool,
        most_body: usize,
        allowed_origin: Option<&str>,
    ) -> Result<Policy, AllocError>
        ensures peers { IfOk result (λ p. p.accepts_peers ≡ accepts_peers) }
        ensures body { IfOk result (λ p. p.most_body ≡ most_body) }
        ensures origin { IfOk result (λ p. option_map (λ o. string_bytes o) p.allowed_origin ≡ option_map (λ o. o.now) allowed_origin.entry) }
        ensures lists { IfOk result (λ p. p.lists ≡ true) }
    {
        let allowed_origin = match allowed_origin {
            Some(origin) => Some(String::from_str(alloc, origin)?),
            None => None,
        };
        Ok(Policy {
            accepts_peers,
            most_body,
            allowed_origin,
            lists: true,
        })
    }

    /// That of a server which wasn't told otherwise: requests of peers are taken, and each body that is read, and no page may ask. Takes no memory.
    pub fn open() -> Policy
        ensures peers { result.accepts_peers ≡ true }
        ensures body { result.most_body ≡ max_body }
        ensures origin { result.allowed_origin ≡ None }
        ensures lists { result.lists ≡ true }
    {
        Policy {
            accepts_peers: true,
            most_body: MAX_BODY,
            allowed_origin: None,
            lists: true,
        }
    }

    /// Whether a request is forbidden: it has an `Origin` field that isn't the origin that is allowed, byte by byte; or requests of peers
    /// aren't taken, and it calls itself replicated or is a batch; or nothing is listed, and it asks for a listing. Takes no memory.
    #[tactic(auto, unfolding(crate::specs::Policy::forbids))]
    pub fn forbids(&self, routes: &Routes, request: &Request) -> bool
        ensures { result ≡ spec.forbids self.now request.now }
    {
        if has_other(&self.allowed_origin, &request.origins) {
            return true;
        }
        if !self.accepts_peers && is_of_peer(routes, request) {
            return true;
        }
        !self.lists && is_listing(routes, request)
    }

    /// The same while a server warms up: nothing is listed. `AllocError` where no memory is left.
    pub fn while_warming(&self, alloc: Global) -> Result<Policy, AllocError>
        ensures peers { IfOk result (λ p. p.accepts_peers ≡ self.now.accepts_peers) }
        ensures body { IfOk result (λ p. p.most_body ≡ self.now.most_body) }
        ensures origin { IfOk result (λ p. option_map (λ o. string_bytes o) p.allowed_origin ≡ option_map (λ o. string_bytes o) self.now.allowed_origin) }
        ensures lists { IfOk result (λ p. p.lists ≡ false) }
    {
        let origin = match &self.allowed_origin {
            Some(origin) => Some(origin.as_str()),
            None => None,
        };
        let mut policy = Policy::new(alloc, self.accepts_peers, self.most_body, origin)?;
        policy.lists = false;
        Ok(policy)
    }

    /// Whether a request's body is longer than the policy takes. That of a `HEAD` never is: it asks nothing, and is told nothing that has content (RFC 9110,
    /// section 9.3.2). Takes no memory.
    pub fn is_too_long(&self, request: &Request) -> bool
        ensures { result ≡ spec.is_too_long self.now request.now }
    {
        request.method.as_str() != "HEAD" && request.body.len() > self.most_body
    }
}
