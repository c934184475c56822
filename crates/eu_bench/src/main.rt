//! `eu_bench`: the reading and the routing of requests, listings, checkpoints, and a shared book, over memory, to be timed.
//!
//! - `eu_bench heartbeats N` reads the requests of standard input N times, and prints how many of them have a route.
//! - `eu_bench pieces K` reads them once, at most K bytes at a time, and prints how many there are and how many bytes their
//!   bodies have, or the number of the first fault.
//! - `eu_bench listing N` registers N instances, and prints how long the JSON of all is.
//! - `eu_bench leases N` has a book hold N leases, and `eu_bench checkpoints N` has it begin its journal anew 20 times then; each prints how
//!   many entries the journals had in all that were let go.
//! - `eu_bench asks N` has N threads (1, 2 or 4) ask 20 shared books, one after the other, and prints how many steps were accepted.
//! - `eu_bench check` prints what each of these comes to at a small size, of the requests of standard input.
#![tactic(auto)]

mod asks;
mod checkpoints;
mod heartbeats;
mod listing;
mod pieces;
mod small;

use anyhow::{Context, bail};
use asks::count_accepted;
use checkpoints::count_entered;
use heartbeats::count_routed;
use listing::listing_text;
use pieces::{Pieces, count_requests};
use small::{check, print_totals};
use std::io::Read;
use std::rt::Env;
use std::sync::Wait;
use std::thread::Threads;
use std::{env, io};

/// The words that the program takes.
const USAGE: &str =
    "eu_bench heartbeats N | pieces K | listing N | leases N | checkpoints N | asks 1|2|4 | check, with K above 0";

/// How often the journal begins anew.
const CHECKPOINTS: u32 = 20;

/// All bytes of standard input.
fn input<R: Input + AllocGlobal>(rt: &R) -> io::Result<Vec<u8>> {
    let mut text = Vec::new(rt.alloc());
    rt.reader().read_to_end(&mut text)?;
    Ok(text)
}

/// Does what the words say.
fn run<R: Input + Print + AllocGlobal + Threads + Wait + Sync>(
    rt: &R,
    task: &str,
    number: u32,
) -> anyhow::Result<()> {
    match task {
        "heartbeats" => {
            let routed = count_routed(rt.alloc(), input(rt)?.as_slice(), number)?;
            println!(rt; "{routed} with a route")?;
        }
        "pieces" if number > 0 => {
            let text = input(rt)?;
            let mut reader = Pieces::new(text.as_slice(), number as usize);
            print_totals(rt, count_requests(rt.alloc(), &mut reader))?;
        }
        "listing" => {
            let len = listing_text(rt.alloc(), number)?.len();
            println!(rt; "{len} bytes")?;
        }
        "leases" | "checkpoints" => {
            let times = if task == "leases" { 0 } else { CHECKPOINTS };
            let entered = count_entered(rt.alloc(), number, times)?;
            println!(rt; "{entered} entries")?;
        }
        "asks" if matches!(number, 1 | 2 | 4) => {
            let steps = count_accepted(rt, rt.alloc(), number)?;
            println!(rt; "{steps} steps")?;
        }
        _ => bail!("{USAGE}"),
    }
    Ok(())
}

fn main(rt: HostRuntime) -> anyhow::Result<()> {
    let words = env::args(&rt)?.collect::<Vec<String>>(rt.alloc())?;
    match words.as_slice() {
        [_, task, number] => {
            let number = number.parse::<u32>().context(USAGE)?;
            run(&rt, task.as_str(), number)
        }
        [_, task] if task.as_str() == "check" => check(&rt, input(&rt)?.as_slice()),
        _ => bail!("{USAGE}"),
    }
}
