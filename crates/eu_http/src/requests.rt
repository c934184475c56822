//! What a request asks.
ghost use Rattle.std.specs.Prelude.{◌≡◌, ◌∷◌, [], codes, false, true, Err, IfOk, OnOk, Some, map, string_bytes};
ghost use Rattle.eu_http.specs.Asks as spec;
ghost use Rattle.eu_base.specs.Gives.{Gives, result_map};
ghost use Rattle.eu_routes.specs.Path.{IsUncoded};

use crate::exchange::Asked;
use crate::policy::Policy;
use crate::wanted::Wanted;
use eu_base::{App, Fault, Moment, SharedInstance};
use eu_framing::Request;
use eu_json::{read_batch, read_instance};
use eu_model::{Ask, Command, Query};
use eu_routes::{Route, Routes};
use std::alloc::{AllocError, Global};

/// The instance that a body says.
fn instance_in(
    alloc: Global,
    app: &App,
    moment: Moment,
    body: &[u8],
) -> Result<SharedInstance, Fault>
    ensures said { Gives result (spec.instance_in app.now moment body.now) }
    ensures memory { result ≡ Err Fault.OutOfMemory → spec.IsText body.now }
    ensures text { OnOk result (spec.IsText body.now) }
{
    match str::from_utf8(body) {
        Ok(text) => read_instance(alloc, text, app, moment),
        Err(_) => Err(Fault::NotJson),
    }
}

/// The registration of the instance that a body says.
fn registration(
    alloc: Global,
    app: &App,
    request: &Request,
    moment: Moment,
) -> Result<Command, Fault>
    ensures said { Gives result (spec.registration app.now request.now.replicated request.now.body.items moment) }
    ensures memory { result ≡ Err Fault.OutOfMemory → spec.IsText request.now.body.items }
    ensures text { OnOk result (spec.IsText request.now.body.items) }
{
    let instance = instance_in(alloc, app, moment, &request.body)?;
    Ok(Command::Register {
        instance,
        replicated: request.replicated,
    })
}

/// The commands that a body says.
fn batch_in(alloc: Global, moment: Moment, body: &[u8]) -> Result<Vec<Command>, Fault>
    ensures said { Gives (result_map (λ commands. commands.items) result) (spec.batch_in moment body.now) }
    ensures memory { result ≡ Err Fault.OutOfMemory → spec.IsText body.now }
    ensures text { OnOk result (spec.IsText body.now) }
{
    match str::from_utf8(body) {
        Ok(text) => read_batch(alloc, text, moment),
        Err(_) => Err(Fault::BadBatch),
    }
}

/// Each of these commands, in their order.
fn each(alloc: Global, commands: Vec<Command>) -> Result<Vec<Ask>, AllocError>
    ensures { IfOk result (λ asks. asks.items ≡ map (λ c. Ask.Do c) commands.items) }
{
    commands
        .into_iter()
        .map(|command| Ask::Do(command))
        .collect(alloc)
}

/// What a batch asks.
fn batch(alloc: Global, moment: Moment, body: &[u8]) -> Result<Asked, Fault>
    ensures said { spec.Says result (spec.batch_asks moment body.now) }
    ensures memory { result ≡ Err Fault.OutOfMemory → spec.IsText body.now }
{
    let commands = batch_in(alloc, moment, body)?;
    Ok(Asked::Asks {
        wanted: Wanted::Batch,
        asks: each(alloc, commands)?,
    })
}

/// That one ask.
fn just(alloc: Global, wanted: Wanted, ask: Ask) -> Result<Asked, AllocError>
    ensures { IfOk result (λ asked. spec.wants_in asked ≡ Some (record { wanted = wanted; asks = ask ∷ [] })) }
{
    let mut asks = Vec::new(alloc);
    asks.push(ask)?;
    Ok(Asked::Asks { wanted, asks })
}

/// What is asked for a route.
fn asks_for(alloc: Global, route: Route, request: &Request, moment: Moment) -> Result<Asked, Fault>
    ensures said { spec.Says result (spec.asks_for route request.now.replicated request.now.body.items moment) }
    ensures memory { result ≡ Err Fault.OutOfMemory → spec.HasBody route request.now.body.items }
{
    let command = match route {
        Route::Register(app) => registration(alloc, &app, request, moment)?,
        Route::Do(command) => command,
        Route::All => return Ok(just(alloc, Wanted::All, Ask::See(Query::All))?),
        Route::OfApp(app) => return Ok(just(alloc, Wanted::OfApp, Ask::See(Query::OfApp(app)))?),
        Route::One(key) => return Ok(just(alloc, Wanted::One, Ask::See(Query::One(key)))?),
        Route::Delta => return Ok(Asked::Forbidden),
        Route::Batch => return batch(alloc, moment, &request.body),
        Route::StatusPage => return Ok(just(alloc, Wanted::Page, Ask::See(Query::Page))?),
    };
    Ok(just(alloc, Wanted::Change, Ask::Do(command))?)
}

/// Whether bytes are a text that isn't empty. Takes no memory.
fn is_text(body: &[u8]) -> bool
    ensures yes { result ≡ true → spec.IsText body.now }
    ensures no { result ≡ false → ¬ (spec.IsText body.now) }
{
    match str::from_utf8(body) {
        Ok(text) => !text.is_empty(),
        Err(_) => false,
    }
}

/// Whether a request is a POST in whose path nothing is encoded, with a body that isn't UTF-8 or has no byte. Takes no memory.
fn lacks_text(request: &Request, path: &str) -> bool
    ensures yes { result ≡ true → (string_bytes request.now.method ≡ codes "POST") × (IsUncoded path.now × ¬ (spec.IsText request.now.body.items)) }
    ensures no { result ≡ false → IsUncoded path.now → string_bytes request.now.method ≡ codes "POST" → spec.IsText request.now.body.items }
{
    if request.method.as_str() != "POST" || path.as_bytes().contains(&b'%') {
        return false;
    }
    !is_text(&request.body)
}

/// What a request asks that the policy takes. The faults are those of `asks`.
fn asks_by_route(
    alloc: Global,
    routes: &Routes,
    request: &Request,
    moment: Moment,
) -> Result<Asked, Fault>
    ensures said { spec.Says result (spec.asks_by_route request.now moment) }
    ensures memory { result ≡ Err Fault.OutOfMemory → spec.HasRoute request.now }
{
    let (path, query) = request.parts();
    match routes.find(alloc, &request.method, path, query, request.replicated) {
        Ok(route) => asks_for(alloc, route, request, moment),
        Err(Fault::OutOfMemory) if lacks_text(request, path) => Err(Fault::NotJson),
        Err(fault) => Err(fault),
    }
}

/// What a request asks of the registry at a moment (`ApplicationResource`, `InstanceResource`, `ApplicationsResource` and
/// `PeerReplicationResource` in Eureka).
///
/// `Forbidden` comes first, where the policy forbids the request (`Policy::forbids`), and then `BodyTooLong`, where its body is longer than the policy takes
/// (`Policy::is_too_long`), whatever it would ask. Neither takes memory.
///
/// A command is replicated where the request is. A registration's instance is the one that the body says, for the path's
/// application, at that moment. A batch asks the commands that the body says at that moment, in their order, which are all
/// replicated, whatever the request is; an empty one asks nothing. Of other requests the body isn't looked at. The first of
/// these faults that holds is told:
///
/// - `NoRoute`: no route has that path and method;
/// - `BadPath`: a segment of the path is no name;
/// - `BadValue`: a value of the query is no stamp, no status or no setting, or one that is needed is missing;
/// - `NotJson`: the body of a registration isn't UTF-8;
/// - the faults of `eu_json::read_instance`;
/// - `BadBatch`: the body of a batch isn't UTF-8, or isn't one (`eu_json::read_batch`).
///
/// `OutOfMemory` comes where memory is refused, but never in place of what the policy answers, nor of `NoRoute`, nor, where nothing in the path is encoded, of
/// `BadPath`, or of `NotJson` and `BadBatch` for a body without a byte or that isn't UTF-8.
pub fn asks(
    alloc: Global,
    routes: &Routes,
    policy: &Policy,
    request: &Request,
    moment: Moment,
) -> Result<Asked, Fault>
    ensures said { spec.Says result (spec.asks_of policy.now request.now moment) }
    ensures memory { result ≡ Err Fault.OutOfMemory → spec.IsAsked policy.now request.now }
{
    if policy.forbids(routes, request) {
        return Ok(Asked::Forbidden);
    }
    if policy.is_too_long(request) {
        return Err(Fault::BodyTooLong);
    }
    asks_by_route(alloc, routes, request, moment)
}
