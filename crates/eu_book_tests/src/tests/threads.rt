//! Two real threads with a pass each.
ghost use Rattle.std.specs.Prelude.{◌≡◌};
ghost use Rattle.eu_shared.specs.Shares.{HasNames, HasParts};

use crate::tests::closed::first_wrong_end;
use crate::tests::shared::{USUAL, open};
use eu_base::Fault;
use eu_clock::FirstChooser;
use eu_fixtures::{moment, registration, renewal};
use eu_model::{Command, Reply};
use eu_shared::{Blanks, Label, PARTS, Pass, Shared};
use std::alloc::Global;
use std::marker::Brand;
use std::sync::Wait;
use std::thread;
use std::thread::Threads;

/// The steps of each thread.
const STEPS: u64 = 1_000;

/// Whether a pass is answered as one whose lease is there, or comes.
fn is_answered<K: Label, R: Wait>(
    rt: &R,
    shared: &Shared<K>,
    alloc: Global,
    pass: &mut Pass<K>,
    command: Command,
    ms: u64,
) -> Result<bool, Fault> {
    let receipt = pass.ask(rt, shared, alloc, command, moment(ms)?, &mut FirstChooser)?;
    let is_answered = matches!(
        receipt.reply,
        Reply::Done | Reply::Registered { fresh: true }
    );
    drop(receipt);
    Ok(is_answered)
}

/// Registers an instance, and renews its lease in every further step. Whether each is answered so.
fn ask_each<K: Label, R: Wait>(
    rt: &R,
    shared: &Shared<K>,
    alloc: Global,
    pass: &mut Pass<K>,
    id: &str,
) -> Result<bool, Fault> {
    let mut answered = is_answered(rt, shared, alloc, pass, registration(alloc, id)?, 0)?;
    for step in 1..STEPS {
        answered &= is_answered(rt, shared, alloc, pass, renewal(alloc, id)?, step)?;
    }
    Ok(answered)
}

/// The same, with the pass handed back.
fn work<K: Label, R: Wait>(
    rt: &R,
    shared: &Shared<K>,
    alloc: Global,
    pass: Pass<K>,
    id: &str,
) -> (Pass<K>, bool) {
    let mut pass = pass;
    let answered = ask_each(rt, shared, alloc, &mut pass, id);
    (pass, answered == Ok(true))
}

/// Both passes at once, each in a thread.
fn work_both<K: Label + Send + Sync, R: Threads + Wait + Sync>(
    rt: &R,
    shared: &Shared<K>,
    alloc: Global,
    zero: Pass<K>,
    one: Pass<K>,
) -> ((Pass<K>, bool), (Pass<K>, bool)) {
    thread::join(
        rt,
        move || work(rt, shared, alloc, zero, "i1"),
        move || work(rt, shared, alloc, one, "i2"),
    )
}

/// Whether each ask of two threads is answered as it should be, and the first wrong line of the book that is closed then.
fn find<K: Label + Send + Sync, R: Threads + Wait + Sync>(
    rt: &R,
    alloc: Global,
    blanks: Blanks,
) -> Result<(bool, Option<usize>), Fault>
    requires names { HasNames blanks K.steps K.counted K.added K.removed }
    requires parts { HasParts blanks K.parts × (K.parts ≡ PARTS) }
{
    let shared = open::<K>(alloc, USUAL, blanks)?;
    let zero = shared.pass(rt, alloc)?;
    let one = shared.pass(rt, alloc)?;
    let ((zero, first), (one, second)) = work_both(rt, &shared, alloc, zero, one);
    let mut passes = Vec::new(alloc);
    passes.push(zero)?;
    passes.push(one)?;
    Ok((
        first && second,
        first_wrong_end(alloc, shared, passes, SETTLED),
    ))
}

fn found<R: Threads + Wait + Sync>(rt: &R, alloc: Global) -> Result<(bool, Option<usize>), Fault> {
    find::<Brand, R>(rt, alloc, Blanks::new())
}

const SETTLED: &str =
    "account = 0 2000 Tally { steps: 2000, counted: 1998, added: 2, removed: 0 } 2 0:1000 1:1000
settle = Ok(())";

#[test]
fn two_threads_are_settled(rt: HostRuntime) {
    assert_eq!(rt; found(&rt, rt.alloc()), Ok((true, None)));
}
