//! `eureka script`: a script from standard input to standard output. `eureka audit`: whether what a script did is a run of the lease machine.
//! `eureka serve`: a server of HTTP.
#![tactic(auto)]

use eu_program::start;
use std::process::ExitCode;

fn main(rt: HostRuntime) -> ExitCode {
    ExitCode::from(start(&rt))
}
