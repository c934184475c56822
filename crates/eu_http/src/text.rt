//! A response as it is written.
ghost use Rattle.std.specs.Prelude.{◌≡◌, ◌≤◌, ◌++◌, ℕ, codes, false, true, drop, length, take, IfOk, IfSome, OnErr, OnOk, string_bytes};
ghost use Rattle.std.specs.Io.KnownBytes.{Appends};
ghost use Rattle.http.specs.StatusCode.{status_text};
ghost use Rattle.eu_http.specs.Response.{content_of, response_of};
ghost use Rattle.eu_http.specs.Response as spec;

use crate::response::{Content, HEAD_ROOM, Response};
use eu_stream::{Sink, WriteFault, write_whole};
use http::StatusCode;
use std::alloc::{AllocError, Global};
use std::marker::Model;

/// Where the bytes of a response lie.
#[derive(Debug, Drop)]
enum Bytes {
    /// In a text of the program.
    Ready(&'static str),
    /// In memory that was taken for them.
    Made(Vec<u8>),
}

/// The bytes of a response.
#[derive(Debug, Drop)]
pub struct ResponseBytes {
    bytes: Bytes,
    start: usize,
}

impl Model for ResponseBytes {
    ghost use Rattle.std.specs.Prelude.{ℕ, List, ◌≤◌, drop, length};
    ghost use Rattle.eu_http.specs.Written.{written};

    ghost Value = { List ℕ };

    ghost view = { λ r. drop r.start (written r.bytes) };

    ghost invariant = { λ r. r.start ≤ length (written r.bytes) };
}

impl ResponseBytes {
    /// The bytes, in order.
    pub fn as_slice(&self) -> &[u8]
        ensures { result.now ≡ self.now }
    {
        match &self.bytes {
            Bytes::Ready(text) => &text.as_bytes()[self.start..],
            Bytes::Made(buffer) => &buffer[self.start..],
        }
    }

    /// Writes them, in order. Those in memory of their own go to the writer as they are.
    ///
    /// A `WriteFault` comes only where a write or a flush of it failed, now or before. Some front of them is written then.
    pub fn write_to<W: Sink>(self, writer: &mut W) -> Result<(), WriteFault>
        ensures ok { OnOk result (Appends (W.contents writer.old) (W.contents writer.new) self) }
        ensures err { OnErr result ((len : ℕ) × Appends (W.contents writer.old) (W.contents writer.new) (take len self)) }
        ensures sound { OnOk result (W.failed writer.new ≡ W.failed writer.old) }
        ensures failed { OnErr result (W.failed writer.new ≡ true) }
        ensures same_stream { W.stream writer.new ≡ W.stream writer.old }
    {
        let start = self.start;
        match self.bytes {
            Bytes::Ready(text) => write_whole(writer, &text.as_bytes()[start..]),
            Bytes::Made(buffer) => writer.write_owned(buffer, start),
        }
    }
}

impl Content {
    /// How many bytes it has.
    fn len(&self) -> usize
        ensures { result ≡ length (spec.text_of (content_of self.now)) }
    {
        match self {
            Content::Nothing => 0,
            Content::Json(bytes) => bytes.len().saturating_sub(HEAD_ROOM),
            Content::Plain(text) => text.len(),
        }
    }
}

/// Writes the status line.
fn push_status(text: &mut String, status: StatusCode) -> Result<(), AllocError>
    ensures { OnOk result (string_bytes text.new ≡ string_bytes text.old ++ spec.line (codes "HTTP/1.1 " ++ status_text status)) }
{
    match status {
        StatusCode::OK => text.push_str("HTTP/1.1 200 OK\r\n")?,
        status => write!(text, "HTTP/1.1 {status}\r\n")?,
    }
    Ok(())
}

/// Writes what the content is, where there is one.
fn push_type(text: &mut String, content: &Content) -> Result<(), AllocError>
    ensures { OnOk result (string_bytes text.new ≡ string_bytes text.old ++ spec.type_line (content_of content.now)) }
{
    match content {
        Content::Nothing => Ok(()),
        Content::Json(_) => text.push_str("Content-Type: application/json\r\n"),
        Content::Plain(_) => text.push_str("Content-Type: text/plain; charset=utf-8\r\n"),
    }
}

/// Writes how many bytes the content has.
fn push_length(text: &mut String, status: StatusCode, len: usize) -> Result<(), AllocError>
    ensures { OnOk result (string_bytes text.new ≡ string_bytes text.old ++ spec.length_line status len) }
{
    if status == StatusCode::NO_CONTENT {
        return Ok(());
    }
    write!(text, "Content-Length: {len}\r\n")
}

/// Writes that the connection ends, where it does.
fn push_close(text: &mut String, close: bool) -> Result<(), AllocError>
    ensures { OnOk result (string_bytes text.new ≡ string_bytes text.old ++ spec.close_line close) }
{
    if close {
        text.push_str("Connection: close\r\n")
    } else {
        Ok(())
    }
}

/// The head of a response, with the empty line behind it.
fn head(alloc: Global, response: &Response, close: bool) -> Result<String, AllocError>
    ensures { IfOk result (λ text. string_bytes text ≡ spec.head (response_of response.now) close) }
{
    let status = response.status;
    let mut text = String::with_capacity(alloc, HEAD_ROOM)?;
    push_status(&mut text, status)?;
    push_type(&mut text, &response.content)?;
    push_length(&mut text, status, response.content.len())?;
    push_close(&mut text, close)?;
    text.push_str("\r\n")?;
    Ok(text)
}

/// A head and a content, one behind the other.
fn join(alloc: Global, head: &str, content: &[u8]) -> Result<ResponseBytes, AllocError>
    ensures { IfOk result (λ bytes. bytes ≡ head.now ++ content.now) }
{
    let mut buffer = Vec::with_capacity(alloc, head.len().saturating_add(content.len()))?;
    buffer.extend_from_slice(head.as_bytes())?;
    buffer.extend_from_slice(content)?;
    Ok(ResponseBytes {
        bytes: Bytes::Made(buffer),
        start: 0,
    })
}

/// The same where room for the head was left before the content, which isn't copied.
fn join_in_room(mut buffer: Vec<u8>, head: &str) -> ResponseBytes
    requires head { length head.now ≤ HEAD_ROOM }
    requires room { HEAD_ROOM ≤ length buffer.items }
    ensures { result ≡ head.now ++ drop HEAD_ROOM buffer.items }
{
    let start = HEAD_ROOM - head.len();
    buffer[start..HEAD_ROOM].copy_from_slice(head.as_bytes());
    ResponseBytes {
        bytes: Bytes::Made(buffer),
        start,
    }
}

/// What stands behind the room for a head.
fn behind_room(bytes: &[u8]) -> &[u8]
    ensures { result.now ≡ drop HEAD_ROOM bytes.now }
{
    if bytes.len() < HEAD_ROOM {
        return b"";
    }
    &bytes[HEAD_ROOM..]
}

/// A head and the text of a JSON value, which isn't copied where the head fits in its room.
fn join_json(alloc: Global, bytes: Vec<u8>, head: &str) -> Result<ResponseBytes, AllocError>
    ensures { IfOk result (λ joined. joined ≡ head.now ++ drop HEAD_ROOM bytes.items) }
{
    if head.len() <= HEAD_ROOM && HEAD_ROOM <= bytes.len() {
        return Ok(join_in_room(bytes, head));
    }
    join(alloc, head, behind_room(bytes.as_slice()))
}

/// A head and a content.
fn join_content(alloc: Global, content: Content, head: &str) -> Result<ResponseBytes, AllocError>
    ensures { IfOk result (λ joined. joined ≡ head.now ++ spec.text_of (content_of content)) }
{
    match content {
        Content::Nothing => join(alloc, head, b""),
        Content::Json(bytes) => join_json(alloc, bytes, head),
        Content::Plain(text) => join(alloc, head, text.as_bytes()),
    }
}

/// The text of a response without content, where its status is one that such responses mostly have. The connection goes on.
fn bare_text(status: StatusCode) -> Option<&'static str>
    ensures { IfSome result (λ text. text.now ≡ spec.print (spec.bare status) false) }
{
    match status {
        StatusCode::OK => Some("HTTP/1.1 200 OK\r\nContent-Length: 0\r\n\r\n"),
        StatusCode::NO_CONTENT => Some("HTTP/1.1 204 No Content\r\n\r\n"),
        StatusCode::NOT_FOUND => Some("HTTP/1.1 404 Not Found\r\nContent-Length: 0\r\n\r\n"),
        _ => None,
    }
}

/// The same, where the connection ends with it.
fn last_text(status: StatusCode) -> Option<&'static str>
    ensures { IfSome result (λ text. text.now ≡ spec.print (spec.bare status) true) }
{
    match status {
        StatusCode::OK => {
            Some("HTTP/1.1 200 OK\r\nContent-Length: 0\r\nConnection: close\r\n\r\n")
        }
        StatusCode::NO_CONTENT => Some("HTTP/1.1 204 No Content\r\nConnection: close\r\n\r\n"),
        StatusCode::NOT_FOUND => {
            Some("HTTP/1.1 404 Not Found\r\nContent-Length: 0\r\nConnection: close\r\n\r\n")
        }
        _ => None,
    }
}

/// The text of a response, where it needn't be put together.
fn ready_text(response: &Response, close: bool) -> Option<&'static str>
    ensures { IfSome result (λ text. text.now ≡ spec.print (response_of response.now) close) }
{
    match &response.content {
        Content::Nothing if close => last_text(response.status),
        Content::Nothing => bare_text(response.status),
        _ => None,
    }
}

/// The bytes of a response. `AllocError` where no memory is left; a text that is ready takes none.
pub fn print(alloc: Global, response: Response, close: bool) -> Result<ResponseBytes, AllocError>
    ensures { IfOk result (λ bytes. bytes ≡ spec.print (response_of response) close) }
{
    if let Some(text) = ready_text(&response, close) {
        return Ok(ResponseBytes {
            bytes: Bytes::Ready(text),
            start: 0,
        });
    }
    let head = head(alloc, &response, close)?;
    join_content(alloc, response.content, head.as_str())
}
