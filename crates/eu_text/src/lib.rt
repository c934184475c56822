//! JSON objects that are kept as their text.
#![tactic(auto)]

mod append;
mod cut;
mod fit;
mod object;
mod pieces;

pub use append::append_quoted;
pub use cut::{Cut, Cuts, Member};
pub use fit::is_fit;
pub use object::{ObjectText, Pieces, members_of};
pub use pieces::{append_piece, append_text};
