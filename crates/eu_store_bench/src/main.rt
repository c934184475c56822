//! `eu_store_bench`: the leases by themselves, to be timed.
//!
//! - `eu_store_bench renew N M` puts N leases, renews drawn ones M times, and prints how many of these were held: all.
//! - `eu_store_bench expired N K M` puts N leases, of which the first K have expired, looks for the expired M times, and prints how many
//!   were found in all.
//! - `eu_store_bench snapshot N M` puts N leases, takes M snapshots, one renewal before each, and prints how many leases the last one lists.
//! - `eu_store_bench check` does each at two small sizes.
#![tactic(auto)]

mod leases;

use anyhow::{Context, bail};
use leases::{count_expired, count_in_snapshots, count_renewed};
use std::env;
use std::rt::Env;

/// The words that the program takes.
const USAGE: &str = "eu_store_bench renew N M | expired N K M | snapshot N M | check";

fn number(word: &str) -> anyhow::Result<u64> {
    word.parse::<u64>().context(USAGE)
}

fn print_renewed<R: Print + AllocGlobal>(rt: &R, count: u64, times: u64) -> anyhow::Result<()> {
    let renewed = count_renewed(rt.alloc(), count, times)?;
    println!(rt; "{renewed} renewed")?;
    Ok(())
}

fn print_expired<R: Print + AllocGlobal>(
    rt: &R,
    count: u64,
    expired: u64,
    times: u64,
) -> anyhow::Result<()> {
    let found = count_expired(rt.alloc(), count, expired, times)?;
    println!(rt; "{found} expired")?;
    Ok(())
}

fn print_snapshots<R: Print + AllocGlobal>(rt: &R, count: u64, times: u64) -> anyhow::Result<()> {
    let listed = count_in_snapshots(rt.alloc(), count, times)?;
    println!(rt; "{listed} listed")?;
    Ok(())
}

/// Each task, with leases that it finds and with none.
fn check<R: Print + AllocGlobal>(rt: &R) -> anyhow::Result<()> {
    print_renewed(rt, 300, 1_000)?;
    print_renewed(rt, 0, 5)?;
    print_expired(rt, 300, 7, 3)?;
    print_expired(rt, 300, 0, 3)?;
    print_snapshots(rt, 300, 3)?;
    print_snapshots(rt, 300, 0)
}

fn main(rt: HostRuntime) -> anyhow::Result<()> {
    let words = env::args(&rt)?.collect::<Vec<String>>(rt.alloc())?;
    match words.as_slice() {
        [_, task, count, times] if task.as_str() == "renew" => {
            print_renewed(&rt, number(count)?, number(times)?)
        }
        [_, task, count, expired, times] if task.as_str() == "expired" => {
            print_expired(&rt, number(count)?, number(expired)?, number(times)?)
        }
        [_, task, count, times] if task.as_str() == "snapshot" => {
            print_snapshots(&rt, number(count)?, number(times)?)
        }
        [_, task] if task.as_str() == "check" => check(&rt),
        _ => bail!("{USAGE}"),
    }
}
