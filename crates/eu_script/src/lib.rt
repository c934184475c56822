//! Scripts of a lease registry: lines of text in, printed lines out; their journal, and their audit.
#![tactic(auto)]

mod auditing;
mod desk;
mod journaling;
mod printing;
mod script;

pub use auditing::{answer_audit, run_audit, tell_verdict};
pub use desk::Verdict;
pub use eu_lines::ScriptFault;
pub use journaling::{answer_script_with_journal, run_script_with_journal};
pub use script::{answer_script, run_script};
