//! Who is asked.
ghost use Rattle.std.specs.Prelude.{ℕ, Result};

use crate::{Answer, Ask};
use eu_base::{Fault, Moment};
use std::alloc::Global;

/// Something that answers what requests ask: a registry, or a way to one.
///
/// `asked s a m r t` says that a desk in the state `s`, asked `a` at the moment `m`, may give `r` and be in the state `t` then.
pub trait Desk {
    ghost use Rattle.eu_base.specs.declared.faults.Fault.{Fault};
    ghost use Rattle.eu_model.specs.declared.asks.Ask.{Ask};
    ghost use Rattle.eu_model.specs.declared.asks.Answer.{Answer};

    ghost asked: { Self → Ask → ℕ → Result Answer Fault → Self → Type 0 };

    /// Asks at a moment. A fault of any kind, `OutOfMemory` too, is an answer: the request is told it.
    fn ask(&mut self, alloc: Global, ask: Ask, moment: Moment) -> Result<Answer, Fault>
        ensures { asked self.old ask moment result self.new };
}
