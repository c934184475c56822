//! What comes of a command, as text.
use eu_base::Fault;
use eu_book::Receipt;
use eu_fixtures::{tell_fault, tell_reply};
use std::alloc::AllocError;

/// Writes the number of the entry and the reply.
pub fn tell_receipt(out: &mut String, receipt: &Receipt) -> Result<(), AllocError> {
    write!(out, "{} ", receipt.number)?;
    tell_reply(out, &receipt.reply)
}

/// Writes what a command is answered.
pub fn tell_answer(out: &mut String, answer: Result<Receipt, Fault>) -> Result<(), AllocError> {
    match answer {
        Ok(receipt) => {
            let told = tell_receipt(out, &receipt);
            drop(receipt);
            told
        }
        Err(fault) => tell_fault(out, fault),
    }
}
