//! HTTP/1.1 requests, read whole from any stream of bytes.
//!
//! `read_request` takes the next request from a reader and a buffer of what was read before: its head, by the grammar of
//! `httparse`, and then its body, of a stated length or in chunks (RFC 9112). What it answers is fixed by the whole list of
//! bytes, however they are cut into reads: the request, or the end, or the first fault. No byte behind the request is waited
//! for, and the time is in proportion to the bytes; these two no contract says.
#![tactic(auto)]

mod body;
mod buffer;
mod chunks;
mod fields;
mod head;
mod inbox;
mod law;
mod lists;
mod request;
mod scan;
mod trailer;
mod walk;

pub use buffer::{EMPTY_ROOM, Room};
pub use inbox::Inbox;
pub use law::one_request_at_most;
pub use request::{Request, read_request};

/// The most bytes of a head, with the empty lines before it and the one that ends it.
pub const MAX_HEAD: usize = 8192;

/// The most fields of a head, or of a trailer.
pub const MAX_FIELDS: usize = 64;

/// The most bytes of a body.
pub const MAX_BODY: usize = 1_048_576;

/// The most bytes that a chunked body takes, from its first chunk line to the end of its trailer.
pub const MAX_RAW: usize = 4_194_304;

/// The most bytes of a trailer, with the empty line that ends it.
pub const MAX_TRAILER: usize = 8192;
