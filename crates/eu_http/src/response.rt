//! A response, before it is written.
ghost use Rattle.std.specs.Prelude.{◌≡◌, ◌++◌, ℕ, List, IfOk, None, length, option_map};
ghost use Rattle.eu_http.specs.Response as spec;

use eu_base::Fault;
use eu_json::{ItemAnswer, append_answers, append_application, append_applications, append_held};
use eu_model::{Answer, Counts, Listed, Reply, StatusCounts};
use eu_page::{page_of, status_page};
use http::StatusCode;
use std::alloc::{AllocError, Global};

/// How many bytes are left free before a content, for the head of its response to be written there.
pub const HEAD_ROOM: usize = 128;

/// What follows the head of a response.
#[derive(Debug, Drop)]
pub enum Content {
    Nothing,
    /// The text of a JSON value, behind room for a head.
    Json(Vec<u8>),
    /// Plain text.
    Plain(String),
}

/// A response.
#[derive(Drop)]
pub struct Response {
    pub status: StatusCode,
    pub content: Content,
}

/// A response without content.
pub fn bare(status: StatusCode) -> Response
    ensures { spec.response_of result ≡ spec.bare status }
{
    Response {
        status,
        content: Content::Nothing,
    }
}

/// How long the text of an instance usually is at most, in bytes. For a longer one the memory grows.
const USUAL_LEN: usize = 1_536;

/// Room for a head, and nothing behind it yet. There is memory for a text of so many bytes, so that none of that length is moved.
fn with_room(alloc: Global, text_len: usize) -> Result<Vec<u8>, AllocError>
    ensures { IfOk result (λ bytes. length bytes.items ≡ HEAD_ROOM) }
{
    let mut bytes = Vec::with_capacity(alloc, text_len.saturating_add(HEAD_ROOM))?;
    bytes.extend_from_slice(&[0; HEAD_ROOM])?;
    Ok(bytes)
}

/// A response with the text of a JSON value, which stands behind room for a head.
fn json(status: StatusCode, bytes: Vec<u8>) -> Response
    ensures { (room text : List ℕ) → length room ≡ HEAD_ROOM → bytes.items ≡ room ++ text → spec.response_of result ≡ record { status = status; content = spec.Json text } }
{
    let content = Content::Json(bytes);
    Response { status, content }
}

/// The status of a request that was refused.
fn status_of(fault: Fault) -> StatusCode
    ensures { result ≡ spec.status_of fault }
{
    match fault {
        Fault::NoRoute => StatusCode::NOT_FOUND,
        Fault::BodyTooLong => StatusCode::PAYLOAD_TOO_LARGE,
        Fault::BadEncoding => StatusCode::UNSUPPORTED_MEDIA_TYPE,
        Fault::HeadTooLong => StatusCode::REQUEST_HEADER_FIELDS_TOO_LARGE,
        Fault::TooLong
        | Fault::NotJson
        | Fault::MissingId
        | Fault::MissingHost
        | Fault::MissingIp
        | Fault::MissingApp
        | Fault::WrongApp
        | Fault::MissingCenter
        | Fault::MissingCenterName
        | Fault::NotWhole
        | Fault::BadStamp
        | Fault::BadDuration
        | Fault::BadBatch
        | Fault::BadHead
        | Fault::BadLength
        | Fault::BadChunk
        | Fault::BadPath
        | Fault::BadValue => StatusCode::BAD_REQUEST,
        _ => StatusCode::SERVICE_UNAVAILABLE,
    }
}

/// A response that tells a fault's number.
pub fn telling(alloc: Global, status: StatusCode, fault: Fault) -> Result<Response, AllocError>
    ensures { IfOk result (λ r. spec.response_of r ≡ spec.telling status fault) }
{
    let number = fault.number();
    let text = format!(in alloc; "{{\"fault\":{number}}}")?;
    let mut bytes = with_room(alloc, text.len())?;
    bytes.extend_from_slice(text.as_bytes())?;
    Ok(json(status, bytes))
}

/// The response to a request that was refused.
pub fn refused(alloc: Global, fault: Fault) -> Result<Response, AllocError>
    ensures { IfOk result (λ r. spec.response_of r ≡ spec.refused fault) }
{
    match status_of(fault) {
        StatusCode::NOT_FOUND => Ok(bare(StatusCode::NOT_FOUND)),
        status => telling(alloc, status, fault),
    }
}

/// The response to a command.
pub fn did(alloc: Global, reply: &Reply) -> Result<Response, AllocError>
    ensures { IfOk result (λ r. spec.response_of r ≡ spec.did reply.now) }
{
    match reply {
        Reply::Registered { fresh: _ } => Ok(bare(StatusCode::NO_CONTENT)),
        Reply::Done => Ok(bare(StatusCode::OK)),
        Reply::Conflict(instance) => {
            let mut bytes = with_room(alloc, USUAL_LEN)?;
            append_held(alloc, &mut bytes, instance, None)?;
            Ok(json(StatusCode::CONFLICT, bytes))
        }
        _ => Ok(bare(StatusCode::NOT_FOUND)),
    }
}

/// What a batch tells without an instance.
fn coded(status: StatusCode) -> ItemAnswer
    ensures { result ≡ record { code = status; instance = None } }
{
    ItemAnswer {
        code: status.as_u16(),
        instance: None,
    }
}

/// What a batch tells of the reply to one of its commands.
fn did_item(reply: &Reply) -> Result<ItemAnswer, AllocError>
    ensures { IfOk result (λ item. item ≡ record { code = spec.code_of reply.now; instance = spec.entity_of reply.now }) }
{
    match reply {
        Reply::Registered { fresh: _ } | Reply::Done => Ok(coded(StatusCode::OK)),
        Reply::Conflict(instance) => Ok(ItemAnswer {
            code: StatusCode::CONFLICT.as_u16(),
            instance: Some(instance.share()?),
        }),
        _ => Ok(coded(StatusCode::NOT_FOUND)),
    }
}

/// What a batch tells of one of its commands.
pub fn item_of(answer: &Result<Answer, Fault>) -> Result<ItemAnswer, AllocError>
    ensures { IfOk result (λ item. item ≡ spec.item_of answer.now) }
{
    match answer {
        Ok(Answer::Did(reply)) => did_item(reply),
        Ok(Answer::Saw(_)) => Ok(coded(StatusCode::NOT_FOUND)),
        Err(_) => Ok(coded(StatusCode::SERVICE_UNAVAILABLE)),
    }
}

/// The response to a batch, by what is told of each of its commands.
pub fn batch(alloc: Global, items: &[ItemAnswer]) -> Result<Response, AllocError>
    ensures { IfOk result (λ r. spec.response_of r ≡ spec.batch items.now) }
{
    let mut bytes = with_room(alloc, USUAL_LEN)?;
    append_answers(alloc, &mut bytes, items)?;
    Ok(json(StatusCode::OK, bytes))
}

/// The response of one lease, if there is one.
pub fn one(alloc: Global, seen: Option<&Listed>) -> Result<Response, AllocError>
    ensures { IfOk result (λ r. spec.response_of r ≡ spec.one (option_map (λ l. l.now) seen.entry)) }
{
    match seen {
        Some(listed) => {
            let mut bytes = with_room(alloc, USUAL_LEN)?;
            append_held(alloc, &mut bytes, &listed.instance, Some(listed.times))?;
            Ok(json(StatusCode::OK, bytes))
        }
        None => Ok(bare(StatusCode::NOT_FOUND)),
    }
}

/// The response of what an application holds.
pub fn of_app(alloc: Global, held: &[Listed]) -> Result<Response, AllocError>
    ensures { IfOk result (λ r. spec.response_of r ≡ spec.of_app held.now) }
{
    if held.is_empty() {
        return Ok(bare(StatusCode::NOT_FOUND));
    }
    let mut bytes = with_room(alloc, held.len().saturating_mul(USUAL_LEN))?;
    append_application(alloc, &mut bytes, held)?;
    Ok(json(StatusCode::OK, bytes))
}

/// The response of all that is held.
pub fn all(alloc: Global, held: &[Listed]) -> Result<Response, AllocError>
    ensures { IfOk result (λ r. spec.response_of r ≡ spec.all held.now) }
{
    let mut bytes = with_room(alloc, held.len().saturating_mul(USUAL_LEN))?;
    append_applications(alloc, &mut bytes, held)?;
    Ok(json(StatusCode::OK, bytes))
}

/// The response of a status page.
#[tactic(auto, unfolding(crate::specs::Response::page))]
pub fn page(alloc: Global, counts: &Counts, statuses: &StatusCounts) -> Result<Response, AllocError>
    ensures { IfOk result (λ r. spec.response_of r ≡ spec.page counts.now statuses.now) }
{
    let page = page_of(alloc, counts, statuses)?;
    let text = status_page(alloc, &page)?;
    Ok(Response {
        status: StatusCode::OK,
        content: Content::Plain(text),
    })
}
