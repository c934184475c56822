//! Which call of the registry a request names: by its method, and by the path and the query of its target.
#![tactic(auto)]

mod asks;
mod find;
mod parameters;
mod paths;
mod queries;
mod table;

pub use asks::Route;
pub use paths::{app_at, cut};
pub use queries::read_stamp;
pub use table::Routes;
