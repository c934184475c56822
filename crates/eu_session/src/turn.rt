//! One request after it is read: what comes of it, and its response.
ghost use Rattle.std.specs.Prelude.{◌≡◌, ◌≢◌, ℕ, take, true, false, IfErr, IfOk, OnOk, OnErr};
ghost use Rattle.std.specs.Io.KnownBytes.{Appends};
ghost use Rattle.std.specs.List.{list_any};
ghost use Rattle.eu_model.specs.Chain.{Pairs};
ghost use Rattle.eu_session.specs.Steps.{AnswersTo, EndsWithoutMemory, RefusesBy};
ghost use Rattle.eu_session.specs.Session.{ComesOf, did_something};
ghost use Rattle.eu_session.specs.Session as spec;

use crate::SessionFault;
use eu_base::{Fault, Moment};
use eu_clock::Clock;
use eu_framing::Request;
use eu_http::{Asked, Outcome, Policy, ResponseBytes, answer, answer_without_memory, asks};
use eu_model::{Answer, Ask, Desk};
use eu_routes::Routes;
use eu_stream::{Sink, WriteFault, write_whole};
use std::alloc::{AllocError, Global};

/// Writes a text and flushes it.
fn put<W: Sink>(writer: &mut W, text: &[u8]) -> Result<(), WriteFault>
    ensures ok { OnOk result (Appends (W.contents writer.old) (W.contents writer.new) text.now) }
    ensures sound { OnOk result (W.failed writer.new ≡ W.failed writer.old) }
    ensures err { OnErr result ((len : ℕ) × Appends (W.contents writer.old) (W.contents writer.new) (take len text.now)) }
    ensures failed { OnErr result (W.failed writer.new ≡ true) }
    ensures same_stream { W.stream writer.new ≡ W.stream writer.old }
{
    write_whole(writer, text)?;
    writer.flush()
}

/// Writes a response and flushes it.
fn put_response<W: Sink>(writer: &mut W, response: ResponseBytes) -> Result<(), WriteFault>
    ensures ok { OnOk result (Appends (W.contents writer.old) (W.contents writer.new) response) }
    ensures sound { OnOk result (W.failed writer.new ≡ W.failed writer.old) }
    ensures err { OnErr result ((len : ℕ) × Appends (W.contents writer.old) (W.contents writer.new) (take len response)) }
    ensures failed { OnErr result (W.failed writer.new ≡ true) }
    ensures same_stream { W.stream writer.new ≡ W.stream writer.old }
{
    response.write_to(writer)?;
    writer.flush()
}

/// Puts each ask to the desk, once, in order. Where there is no room for the results nothing is asked.
fn ask_all<D: Desk>(
    alloc: Global,
    desk: &mut D,
    asks: Vec<Ask>,
    moment: Moment,
) -> Result<Vec<Result<Answer, Fault>>, AllocError>
    ensures made { IfOk result (λ results. Pairs (λ s ask result s'. D.asked s ask moment result s') desk.old asks.items results.items desk.new) }
    ensures err { OnErr result (desk.new ≡ desk.old) }
{
    let mut results = Vec::with_capacity(alloc, asks.len())?;
    for ask in asks {
        results.push(desk.ask(alloc, ask, moment)).unwrap();
    }
    Ok(results)
}

/// What comes of a request. Where there is no memory nothing is asked.
fn outcome_of<D: Desk>(
    alloc: Global,
    routes: &Routes,
    policy: &Policy,
    desk: &mut D,
    request: &Request,
    moment: Moment,
) -> Result<Outcome, AllocError>
    ensures ok { IfOk result (λ outcome. ComesOf policy.now D.asked desk.old request.now moment outcome desk.new) }
    ensures err { OnErr result (desk.new ≡ desk.old) }
{
    match asks(alloc, routes, policy, request, moment) {
        Ok(Asked::Forbidden) => Ok(Outcome::Forbidden),
        Ok(Asked::Asks { wanted, asks }) => {
            let answers = ask_all(alloc, desk, asks, moment)?;
            Ok(Outcome::Answers { wanted, answers })
        }
        Err(Fault::OutOfMemory) => Err(AllocError),
        Err(fault) => Ok(Outcome::Refused(fault)),
    }
}

/// Whether a command was done.
fn is_done(answer: &Result<Answer, Fault>) -> bool
    ensures { result ≡ spec.is_done answer.now }
{
    matches!(answer, Ok(Answer::Did(_)))
}

/// Whether one of these answers is of a command that was done.
fn some_done(answers: &[Result<Answer, Fault>]) -> bool
    ensures { result ≡ list_any spec.is_done answers.now }
{
    for answer in answers {
        if is_done(answer) {
            return true;
        }
    }
    false
}

/// Whether something was done by what a request asked.
fn did_something(outcome: &Outcome) -> bool
    ensures { result ≡ spec.did_something outcome.now }
{
    match outcome {
        Outcome::Answers { answers, .. } => some_done(answers.as_slice()),
        Outcome::Refused(_) | Outcome::Forbidden => false,
    }
}

/// Tells that there is no memory, and gives the fault by which the session ends. Takes no memory.
fn tell_no_memory<W: Sink>(writer: &mut W) -> SessionFault
    ensures ends { EndsWithoutMemory (W.contents writer.old) (W.contents writer.new) (W.failed writer.new) result }
    ensures told { result ≢ SessionFault.Write → W.failed writer.new ≡ W.failed writer.old }
    ensures same_stream { W.stream writer.new ≡ W.stream writer.old }
{
    match put(writer, answer_without_memory()) {
        Ok(()) => SessionFault::OutOfMemory,
        Err(_) => SessionFault::Write,
    }
}

/// As `tell_no_memory`, unless something was done: then nothing is written, since a refusal would be false.
fn leave_unanswered<W: Sink>(writer: &mut W, outcome: &Outcome) -> SessionFault
    ensures done { did_something outcome.now ≡ true → (result ≡ SessionFault.OutOfMemory) × (W.contents writer.new ≡ W.contents writer.old) }
    ensures ends { did_something outcome.now ≡ false → EndsWithoutMemory (W.contents writer.old) (W.contents writer.new) (W.failed writer.new) result }
    ensures told { result ≢ SessionFault.Write → W.failed writer.new ≡ W.failed writer.old }
    ensures same_stream { W.stream writer.new ≡ W.stream writer.old }
{
    if did_something(outcome) {
        return SessionFault::OutOfMemory;
    }
    tell_no_memory(writer)
}

/// Answers a request, once the clock has told the moment: writes the response, and flushes it. Where there is no memory it tells so instead,
/// unless something was done: then nothing is written.
pub fn answer_request<D: Desk, C: Clock, W: Sink>(
    alloc: Global,
    routes: &Routes,
    policy: &Policy,
    desk: &mut D,
    clock: &mut C,
    writer: &mut W,
    request: &Request,
    close: bool,
) -> Result<(), SessionFault>
    ensures answers { AnswersTo policy.now D.asked C.tells request.now close desk.old clock.old (W.contents writer.old) desk.new clock.new (W.contents writer.new) (W.failed writer.new) result }
    ensures sound { OnOk result (W.failed writer.new ≡ W.failed writer.old) }
    ensures told { IfErr result (λ fault. fault ≢ SessionFault.Write → W.failed writer.new ≡ W.failed writer.old) }
    ensures same_stream { W.stream writer.new ≡ W.stream writer.old }
{
    let moment = clock.now();
    let Ok(outcome) = outcome_of(alloc, routes, policy, desk, request, moment) else {
        return Err(tell_no_memory(writer));
    };
    let Ok(response) = answer(alloc, &outcome, close) else {
        return Err(leave_unanswered(writer, &outcome));
    };
    Ok(put_response(writer, response)?)
}

/// Answers bytes that begin with no request by this fault, where the fault is theirs. Where there is no memory it tells so instead.
pub fn refuse<W: Sink>(alloc: Global, writer: &mut W, fault: Fault) -> Result<(), SessionFault>
    ensures refuses { RefusesBy fault (W.contents writer.old) (W.contents writer.new) (W.failed writer.new) result }
    ensures sound { OnOk result (W.failed writer.new ≡ W.failed writer.old) }
    ensures told { IfErr result (λ fault. fault ≢ SessionFault.Write → W.failed writer.new ≡ W.failed writer.old) }
    ensures reading { IfErr result (λ told. told ≢ SessionFault.Read → fault ≢ Fault.Read) }
    ensures same_stream { W.stream writer.new ≡ W.stream writer.old }
{
    match fault {
        Fault::OutOfMemory => return Err(tell_no_memory(writer)),
        Fault::Read => return Err(SessionFault::Read),
        _ => {}
    }
    let Ok(response) = answer(alloc, &Outcome::Refused(fault), true) else {
        return Err(tell_no_memory(writer));
    };
    Ok(put_response(writer, response)?)
}
