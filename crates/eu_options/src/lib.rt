//! The command line of the program: its options, and what they say.
#![tactic(auto)]

mod options;
mod serving;

pub use options::{
    address_of, command, config_of, drawing_of, journal_of, origin_of, seed_of, serving_of, text_of,
};
pub use serving::{Drawing, Serving, connections_within};
