//! What requests of HTTP ask of a registry, and the bytes of the responses.
//!
//! `asks` says what a request asks at a moment, by a `Policy`, or why it asks nothing, and `answer` writes the response for what came of it.
//! Requests are read by `eu_framing`.
#![tactic(auto)]

mod answers;
mod exchange;
mod policy;
mod requests;
mod response;
mod text;
mod wanted;

pub use answers::{answer, answer_without_memory};
pub use exchange::{Asked, Outcome};
pub use policy::Policy;
pub use requests::asks;
pub use text::ResponseBytes;
pub use wanted::Wanted;
