//! A book that is asked in place.

use crate::Book;
use eu_base::{Fault, Moment};
use eu_clock::FirstChooser;
use eu_model::{Answer, Ask, Desk};
use std::alloc::Global;

/// The number by which a lent book is asked.
const PASS: u64 = 0;

/// A book that a session is lent, and that nobody else asks meanwhile. Each command is one `Book::apply` with the pass number 0,
/// and each query one `Book::read`. No request asks for an eviction, so no word is drawn.
impl Desk for Book {
    ghost use Rattle.eu_book.specs.Desk.{BookAsks};

    ghost asked = { BookAsks };

    fn ask(&mut self, alloc: Global, ask: Ask, moment: Moment) -> Result<Answer, Fault> {
        match ask {
            Ask::Do(command) => {
                let receipt = self.apply(alloc, PASS, command, moment, &mut FirstChooser)?;
                Ok(Answer::Did(receipt.reply))
            }
            Ask::See(query) => Ok(Answer::Saw(self.read(alloc, &query, moment)?)),
        }
    }
}
