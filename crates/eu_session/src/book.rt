//! What sessions with a book come to.
ghost use Rattle.eu_http.specs.declared.policy.Policy.{Policy};
ghost use Rattle.eu_session.specs.Book.{BookTurns, BookSession};

use eu_clock::Clock;

/// A law without code: by the turns of a session with a lent book, its journal goes on by the commands that were answered in
/// them, in order, and by nothing else; and however the session ends, the entries that came are a run of the lease machine from
/// what the registry was to what it is.
pub fn sessions_are_runs<C: Clock>()
    ensures turns { (policy : Policy) → BookTurns policy C.tells }
    ensures session { (policy : Policy) → BookSession policy C.tells }
{}
