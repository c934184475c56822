//! A pass of a shared book that is asked.

use crate::{Label, Pass, Shared};
use eu_base::{Fault, Moment};
use eu_clock::FirstChooser;
use eu_model::{Answer, Ask, Desk};
use std::alloc::Global;
use std::sync::Wait;

/// A pass with the book that it asks, and the leave to wait for its lock: for who asks and knows neither, as a session does.
#[derive(Drop)]
pub struct Seat<'a, K: Label, R: Wait> {
    /// The pass.
    pub pass: Pass<K>,
    /// The book that it asks.
    pub shared: &'a Shared<K>,
    /// The leave to wait.
    pub rt: &'a R,
}

/// A pass in its seat: each command is one `Pass::ask`, and each query one `Pass::read`, so that the lock is held while the book
/// answers and at no other time. No request asks for an eviction, so no word is drawn. Other passes may be answered between two
/// asks of one session, also of one request.
impl<K: Label, R: Wait> Desk for Seat<'_, K, R> {
    ghost use Rattle.eu_shared.specs.Seat.{PassAsks};

    ghost asked = { λ before ask moment result after. PassAsks before.pass ask moment result after.pass };

    fn ask(&mut self, alloc: Global, ask: Ask, moment: Moment) -> Result<Answer, Fault> {
        match ask {
            Ask::Do(command) => {
                let chooser = &mut FirstChooser;
                let receipt = self
                    .pass
                    .ask(self.rt, self.shared, alloc, command, moment, chooser)?;
                Ok(Answer::Did(receipt.reply))
            }
            Ask::See(query) => {
                let view = self.pass.read(self.rt, self.shared, alloc, &query, moment)?;
                Ok(Answer::Saw(view))
            },
        }
    }
}
