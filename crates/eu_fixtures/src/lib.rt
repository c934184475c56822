//! What tests of several crates need: settings, moments, keys, instances, commands, texts, messages of HTTP, replies, streams that fail, and answers of calls
//! that may find no memory.
#![tactic(auto)]

mod asks;
mod commands;
mod desks;
mod failing;
mod memory;
mod messages;
mod parts;
mod tells;
mod texts;
mod told;
mod values;

pub use asks::{read_ask, read_command, read_config, read_said};
pub use commands::{registration, registration_for, renewal};
pub use desks::done;
pub use failing::{Brittle, KINDS, Torn, reads_of};
pub use memory::{are_so, pause_or_go_on, with_long_ids};
pub use messages::{
    BAD_CHUNK, BAD_HEAD, FORBIDDEN, ITEM_DONE, ITEM_MISSING, LAST_MISSING, LISTED, MISSING,
    REGISTERED, REGISTRATION, RENEWAL, looked,
};
pub use parts::Parts;
pub use tells::{tell_done, tell_fault, tell_ids, tell_queues, tell_read, tell_reply, tell_state};
pub use texts::{ids, joined, push_each, push_number, text_of, written_out};
pub use told::{Told, content_of, cut, first_wrong, number_of, numbered, small_of};
pub use values::{at, clock, instance, key, key_of, moment, settings};
