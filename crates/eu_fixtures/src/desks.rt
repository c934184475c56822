//! A desk that has every lease and finds all done.
use eu_model::{Ask, Command, Reply};

/// What such a desk replies to a command. `None` where the ask is none.
pub fn done(ask: &Ask) -> Option<Reply> {
    match ask {
        Ask::Do(Command::Register { .. }) => Some(Reply::Registered { fresh: true }),
        Ask::Do(_) => Some(Reply::Done),
        Ask::See(_) => None,
    }
}
