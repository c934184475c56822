//! The program once more, for the gate to run it on a journal: `data/first.journal`, which is `examples/first.journal`.
#![tactic(auto)]

use eu_program::start;
use std::process::ExitCode;

fn main(rt: HostRuntime) -> ExitCode {
    ExitCode::from(start(&rt))
}
