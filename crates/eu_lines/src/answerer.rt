//! Whoever answers lines.
ghost use Rattle.std.specs.Prelude.{◌≡◌, ◌<◌, ℕ, List, [], length, OnOk, Err, string_bytes};
ghost use Rattle.eu_lines.specs.Script.{Place, place};

use crate::LineError;
use std::alloc::Global;

/// Whoever answers lines, over a context that is lent for each.
pub trait Answerer<X> {
    // An answerer at one place, its state and its context, answers a line: what it prints, and the place after.
    ghost answers: { Place Self X → List ℕ → List ℕ → Place Self X → Type 0 };

    // An answerer at one place finds the line bad.
    ghost refuses: { Place Self X → List ℕ → Type 0 };

    /// Answers one line, without its LF, that isn't empty. What it prints goes into `out`.
    ///
    /// Of a bad line the error is `Bad`, and where there is no memory for the answer `OutOfMemory`. What is then in
    /// `out` isn't printed, and `self` is left open. A bad line leaves `context` as it was; where there is no memory
    /// that is left open too.
    fn answer(
        &mut self,
        alloc: Global,
        context: &mut X,
        line: &[u8],
        out: &mut String,
    ) -> Result<(), LineError>
        requires some { 0 < length line.now }
        requires empty { string_bytes out.old ≡ [] }
        ensures ok { OnOk result (answers (place self.old context.old) line.now (string_bytes out.new) (place self.new context.new)) }
        ensures bad { result ≡ Err LineError.Bad → refuses (place self.old context.old) line.now }
        ensures kept { result ≡ Err LineError.Bad → context.new ≡ context.old };
}
