//! Audits of journals that were written.
#![tactic(auto)]

mod auditing;
mod faults;

pub use auditing::{answer_journal_audit, run_journal_audit};
pub use faults::AuditFault;
