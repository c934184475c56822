//! A hash by a key, for tables whose keys strangers choose.
#![tactic(auto)]

mod hasher;
mod key;
mod read;

pub use hasher::KeyedHasher;
pub use key::HashKey;
