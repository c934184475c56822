//! What a registry shows to who asks how it fares: the hash code of its statuses, and the status page.
#![tactic(auto)]

mod codes;
mod pages;

pub use codes::hash_code;
pub use pages::{Page, page_of, status_page};
