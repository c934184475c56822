//! The responses to an operator.
ghost use Rattle.std.specs.Prelude.{◌≡◌, ◌++◌, IfOk, OnOk, string_bytes};
ghost use Rattle.eu_admin.specs.Responses as spec;

use std::alloc::{AllocError, Global};

/// What a text is that an operator is sent.
#[derive(Clone, Copy, Debug, PartialEq, Eq)]
pub enum Media {
    /// A page (HTML).
    Page,
    /// Metrics (Prometheus, "Text-based format", version 0.0.4).
    Metrics,
    /// A plain text.
    Plain,
}

impl Media {
    /// The value of `Content-Type` (RFC 9110, section 8.3).
    fn content_type(self) -> &'static str
        ensures { result.now ≡ spec.content_type self }
    {
        match self {
            Media::Page => "text/html; charset=utf-8",
            Media::Metrics => "text/plain; version=0.0.4; charset=utf-8",
            Media::Plain => "text/plain; charset=utf-8",
        }
    }
}

/// Why an operator is sent no text.
#[derive(Clone, Copy, Debug, PartialEq, Eq)]
pub enum Refusal {
    /// The bytes are no request.
    BadRequest,
    /// There is nothing by that path.
    NotFound,
    /// The method is neither `GET` nor `HEAD`.
    OtherMethod,
    /// No memory is left for the answer.
    OutOfMemory,
}

/// The response of a request that is refused. The connection ends after it. Takes no memory.
pub fn refusal_text(refusal: Refusal) -> &'static str
    ensures { result.now ≡ spec.refusal_text refusal }
{
    match refusal {
        Refusal::BadRequest => {
            "HTTP/1.1 400 Bad Request\r\nContent-Length: 0\r\nConnection: close\r\n\r\n"
        }
        Refusal::NotFound => {
            "HTTP/1.1 404 Not Found\r\nContent-Length: 0\r\nConnection: close\r\n\r\n"
        }
        Refusal::OtherMethod => {
            "HTTP/1.1 405 Method Not Allowed\r\nAllow: GET, HEAD\r\nContent-Length: 0\r\nConnection: close\r\n\r\n"
        }
        Refusal::OutOfMemory => {
            "HTTP/1.1 503 Service Unavailable\r\nContent-Length: 0\r\nConnection: close\r\n\r\n"
        }
    }
}

/// What is told of a server that answers: whether it warms up.
pub fn health_text(is_warming: bool) -> &'static str
    ensures { result.now ≡ spec.health_text is_warming }
{
    if is_warming { "warming up\n" } else { "ok\n" }
}

/// What is sent of a text: to a `HEAD` nothing.
fn content_of(text: &str, is_head: bool) -> &str
    ensures { result.now ≡ spec.content_of text.now is_head }
{
    if is_head { "" } else { text }
}

/// Appends the fields that tell what a text is and how long, behind the status line.
#[tactic(auto, unfolding(crate::specs::Responses::fields))]
fn push_fields(out: &mut String, content_type: &str, length: usize) -> Result<(), AllocError>
    ensures { OnOk result (string_bytes out.new ≡ string_bytes out.old ++ spec.fields content_type.now length) }
{
    write!(
        out,
        "HTTP/1.1 200 OK\r\nContent-Type: {content_type}\r\nContent-Length: {length}\r\n"
    )
}

/// Appends the rest of the head.
#[tactic(auto, unfolding(crate::specs::Responses::rest_of_head))]
fn push_rest(out: &mut String) -> Result<(), AllocError>
    ensures { OnOk result (string_bytes out.new ≡ string_bytes out.old ++ spec.rest_of_head) }
{
    out.push_str(
        "Cache-Control: no-store\r\nContent-Security-Policy: default-src 'none'; style-src 'unsafe-inline'; base-uri 'none'; form-action 'none'; frame-ancestors 'none'\r\nX-Content-Type-Options: nosniff\r\nConnection: close\r\n\r\n",
    )
}

/// The response that sends a text. The connection ends after it; nobody is to keep it, and a page may load nothing, and stand in no other (Content Security Policy,
/// level 3). To a `HEAD` the text itself isn't sent (RFC 9110, section 9.3.2). `AllocError` where no memory is left.
#[tactic(auto, unfolding(crate::specs::Responses::response_text))]
pub fn response_text(
    alloc: Global,
    media: Media,
    text: &str,
    is_head: bool,
) -> Result<String, AllocError>
    ensures { IfOk result (λ response. string_bytes response ≡ spec.response_text media text.now is_head) }
{
    let mut response = String::new(alloc);
    push_fields(&mut response, media.content_type(), text.len())?;
    push_rest(&mut response)?;
    response.push_str(content_of(text, is_head))?;
    Ok(response)
}
