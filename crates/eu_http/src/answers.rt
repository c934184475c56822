//! The response to a request.
ghost use Rattle.std.specs.Prelude.{◌≡◌, true, IfOk};
ghost use Rattle.eu_http.specs.Response as spec;

use crate::exchange::Outcome;
use crate::response::{
    Response, all, bare, batch, did, item_of, of_app, one, page, refused, telling,
};
use crate::text::{ResponseBytes, print};
use crate::wanted::Wanted;
use eu_base::Fault;
use eu_model::{Answer, View};
use http::StatusCode;
use std::alloc::{AllocError, Global};

/// The first fault of the registry.
fn first_fault(answers: &[Result<Answer, Fault>]) -> Option<Fault>
    ensures { result ≡ spec.first_fault answers.now }
{
    for answer in answers {
        if let Err(fault) = answer {
            return Some(*fault);
        }
    }
    None
}

/// The response for the answer to a command.
fn told_change(alloc: Global, answers: &[Result<Answer, Fault>]) -> Result<Response, AllocError>
    ensures { IfOk result (λ r. spec.response_of r ≡ spec.told_change answers.now) }
{
    match answers {
        [Ok(Answer::Did(reply))] => did(alloc, reply),
        _ => Ok(bare(StatusCode::NOT_FOUND)),
    }
}

/// The response for the answers to the commands of a batch.
fn told_batch(alloc: Global, answers: &[Result<Answer, Fault>]) -> Result<Response, AllocError>
    ensures { IfOk result (λ r. spec.response_of r ≡ spec.told_batch answers.now) }
{
    let mut items = Vec::with_capacity(alloc, answers.len())?;
    for answer in answers {
        items.push(item_of(answer)?)?;
    }
    batch(alloc, &items)
}

/// The response for the view of one lease.
fn told_one(alloc: Global, answers: &[Result<Answer, Fault>]) -> Result<Response, AllocError>
    ensures { IfOk result (λ r. spec.response_of r ≡ spec.told_one answers.now) }
{
    match answers {
        [Ok(Answer::Saw(View::One(seen)))] => one(alloc, seen.as_ref()),
        _ => Ok(bare(StatusCode::NOT_FOUND)),
    }
}

/// The response for the view of an application.
fn told_app(alloc: Global, answers: &[Result<Answer, Fault>]) -> Result<Response, AllocError>
    ensures { IfOk result (λ r. spec.response_of r ≡ spec.told_app answers.now) }
{
    match answers {
        [Ok(Answer::Saw(View::OfApp(held)))] => of_app(alloc, held.as_slice()),
        _ => Ok(bare(StatusCode::NOT_FOUND)),
    }
}

/// The response for the view of all that is held.
fn told_all(alloc: Global, answers: &[Result<Answer, Fault>]) -> Result<Response, AllocError>
    ensures { IfOk result (λ r. spec.response_of r ≡ spec.told_all answers.now) }
{
    match answers {
        [Ok(Answer::Saw(View::All(held)))] => all(alloc, held.as_slice()),
        _ => Ok(bare(StatusCode::NOT_FOUND)),
    }
}

/// The response for the view of a status page.
fn told_page(alloc: Global, answers: &[Result<Answer, Fault>]) -> Result<Response, AllocError>
    ensures { IfOk result (λ r. spec.response_of r ≡ spec.told_page answers.now) }
{
    match answers {
        [Ok(Answer::Saw(View::Page(counts, statuses)))] => page(alloc, counts, statuses),
        _ => Ok(bare(StatusCode::NOT_FOUND)),
    }
}

/// The response for answers, where no fault is told in their place.
fn answered(
    alloc: Global,
    wanted: Wanted,
    answers: &[Result<Answer, Fault>],
) -> Result<Response, AllocError>
    ensures { IfOk result (λ r. spec.response_of r ≡ spec.answered wanted answers.now) }
{
    match wanted {
        Wanted::Change => told_change(alloc, answers),
        Wanted::Batch => told_batch(alloc, answers),
        Wanted::One => told_one(alloc, answers),
        Wanted::OfApp => told_app(alloc, answers),
        Wanted::All => told_all(alloc, answers),
        Wanted::Page => told_page(alloc, answers),
    }
}

/// The fault that is told in place of all answers.
fn fault_of(wanted: Wanted, answers: &[Result<Answer, Fault>]) -> Option<Fault>
    ensures { result ≡ spec.fault_of wanted answers.now }
{
    match wanted {
        Wanted::Batch => None,
        _ => first_fault(answers),
    }
}

/// The response for these answers to what a request asked.
fn response_with(
    alloc: Global,
    wanted: Wanted,
    answers: &[Result<Answer, Fault>],
) -> Result<Response, AllocError>
    ensures { IfOk result (λ r. spec.response_of r ≡ spec.response_with wanted answers.now) }
{
    match fault_of(wanted, answers) {
        Some(fault) => telling(alloc, StatusCode::SERVICE_UNAVAILABLE, fault),
        None => answered(alloc, wanted, answers),
    }
}

/// The response for what came of a request.
fn response_to(alloc: Global, outcome: &Outcome) -> Result<Response, AllocError>
    ensures { IfOk result (λ r. spec.response_of r ≡ spec.response_to outcome.now) }
{
    match outcome {
        Outcome::Refused(fault) => refused(alloc, *fault),
        Outcome::Forbidden => Ok(bare(StatusCode::FORBIDDEN)),
        Outcome::Answers { wanted, answers } => response_with(alloc, *wanted, answers),
    }
}

/// The bytes of the response to a request, for what came of it (`ApplicationResource`, `InstanceResource`,
/// `ApplicationsResource` and `PeerReplicationResource` in Eureka; RFC 9112, section 4). `close` says that the connection ends:
/// the response has `Connection: close` then.
///
/// A batch that was asked is 200, whatever came of its commands: an item for each, in their order, tells its status, and the
/// instance that is held where that conflicts. The registry's refusal of a command is 503 there, and an answer that is none to a
/// command 404. Any other request that the registry refuses is 503 itself.
///
/// Statuses and contents are those of `docs/FORMATS.md`. `AllocError` where no memory is left.
pub fn answer(alloc: Global, outcome: &Outcome, close: bool) -> Result<ResponseBytes, AllocError>
    ensures { IfOk result (λ bytes. bytes ≡ spec.response outcome.now close) }
{
    let response = response_to(alloc, outcome)?;
    print(alloc, response, close)
}

/// The response where there is no memory for another: that of a request that was refused by `OutOfMemory`, with `Connection: close`. Takes
/// no memory.
pub fn answer_without_memory() -> &'static [u8]
    ensures { result.now ≡ spec.print (spec.refused Fault.OutOfMemory) true }
{
    b"HTTP/1.1 503 Service Unavailable\r\nContent-Type: application/json\r\nContent-Length: 11\r\nConnection: close\r\n\r\n{\"fault\":3}"
}
