//! Each task at a small size.
use crate::asks::accepted;
use crate::checkpoints::count_entered;
use crate::heartbeats::count_routed;
use crate::listing::listing_text;
use crate::pieces::{Pieces, Totals, count_requests};
use eu_base::Fault;
use std::sync::Wait;
use std::thread::Threads;
use std::{io, str};

/// Prints what the reading of requests came to.
pub fn print_totals(rt: &impl Print, totals: Result<Totals, Fault>) -> io::Result<()> {
    match totals {
        Ok(totals) => {
            let Totals { requests, bytes } = totals;
            println!(rt; "{requests} requests with bodies of {bytes} bytes")
        }
        Err(fault) => {
            let number = fault.number();
            println!(rt; "fault {number}")
        }
    }
}

/// Requests that are read and routed never, once and five times.
fn print_routed<R: Print + AllocGlobal>(rt: &R, text: &[u8]) -> anyhow::Result<()> {
    for rounds in [0, 1, 5] {
        let routed = count_routed(rt.alloc(), text, rounds)?;
        println!(rt; "{routed} with a route")?;
    }
    Ok(())
}

/// Requests that come in pieces of several sizes.
fn print_pieces<R: Print + AllocGlobal>(rt: &R, text: &[u8]) -> anyhow::Result<()> {
    for most in [1usize, 2, 7, 100, 4096] {
        let mut reader = Pieces::new(text, most);
        print_totals(rt, count_requests(rt.alloc(), &mut reader))?;
    }
    Ok(())
}

/// Listings of no instance and of one.
fn print_listings<R: Print + AllocGlobal>(rt: &R) -> anyhow::Result<()> {
    for count in [0, 1] {
        let bytes = listing_text(rt.alloc(), count)?;
        let text = str::from_utf8(bytes.as_slice()).unwrap_or("not UTF-8");
        println!(rt; "{text}")?;
    }
    Ok(())
}

/// The entries of the journals of a book of three leases, whose journal begins anew never and twice.
fn print_entered<R: Print + AllocGlobal>(rt: &R) -> anyhow::Result<()> {
    for times in [0, 2] {
        let entered = count_entered(rt.alloc(), 3, times)?;
        println!(rt; "{entered} entries")?;
    }
    Ok(())
}

/// The steps of one, two and four threads.
fn print_accepted<R: Print + AllocGlobal + Threads + Wait + Sync>(rt: &R) -> anyhow::Result<()> {
    for threads in [1, 2, 4] {
        let steps = accepted(rt, rt.alloc(), threads, threads * 1_000)?;
        println!(rt; "{steps} steps")?;
    }
    Ok(())
}

/// Prints what each task comes to, of these requests and of an unfinished one.
pub fn check<R: Print + AllocGlobal + Threads + Wait + Sync>(
    rt: &R,
    text: &[u8],
) -> anyhow::Result<()> {
    print_routed(rt, text)?;
    print_pieces(rt, text)?;
    print_pieces(rt, b"GET /")?;
    print_listings(rt)?;
    print_entered(rt)?;
    print_accepted(rt)
}
