//! What an operator sees of a registry and its server: its metrics, as text, and two pages of HTML; and what an operator's request asks for, and is told.
//!
//! Values alone: whoever serves them gathers the [`Facts`] and the listing, and writes the response to a connection.
#![tactic(auto)]

mod apps;
mod facts;
mod front;
mod law;
mod lines;
mod markup;
mod metrics;
mod parts;
mod requests;
mod responses;

pub use apps::app_page;
pub use facts::{Connections, Done, Facts, Permission, why};
pub use front::front_page;
pub use law::{reasons_are_the_rule, silences_are_since_touches};
pub use lines::{AppLine, lines_of};
pub use markup::{escapes_are_text, push_encoded, push_escaped};
pub use metrics::metrics_text;
pub use requests::{Wanted, wanted_by};
pub use responses::{Media, Refusal, health_text, refusal_text, response_text};

/// The version of the program.
pub const VERSION: &str = "1.0.0";
