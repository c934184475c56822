ghost use Rattle.std.specs.Prelude.{◌<◌};

use eu_base::Fault;
use eu_clock::{Chooser, Clock, FirstChooser, ListChooser, RngChooser, SystemClock};
use eu_fixtures::clock;
use std::alloc::Global;
use std::cell::Cell;
use std::io::{self, Error, ErrorKind};
use std::rt;
use std::test::Fail;
use std::time::Duration;

fn second_word<C: Chooser>(chooser: &mut C, n: u64) -> u64
    requires { 0 < n }
{
    let _first = chooser.below(n);
    chooser.below(n)
}

#[test]
fn the_first_is_chosen(rt: HostRuntime) {
    assert_eq!(rt; second_word(&mut FirstChooser, 1), 0);
    assert_eq!(rt; second_word(&mut FirstChooser, 1 << 40), 0);
}

#[test]
fn a_list_is_answered_and_then_zero(rt: HostRuntime) -> Result<(), Fail> {
    let words = Vec::from_slice(rt.alloc(), [3u64, 10].as_slice())?;
    let mut chooser = ListChooser::new(words);
    for word in [3, 2, 0] {
        assert_eq!(rt; chooser.below(4), word);
    }
    Ok(())
}

/// The first words of PCG XSH RR 64/32 for the seed 42, as another program computes them.
#[test]
fn a_seed_answers_the_words_of_pcg(rt: HostRuntime) {
    let mut chooser = RngChooser::seeded(42);
    assert_eq!(rt; chooser.below(1 << 40), 3_400_036_912);
    assert_eq!(rt; chooser.below(10), 4);
    assert_eq!(rt; chooser.below(1_000), 382);
    assert_eq!(rt; chooser.below(1), 0);
}

fn second_moment<C: Clock>(clock: &mut C) -> u64 {
    let _first = clock.now();
    clock.now().ms()
}

/// The first, the third and the fifth moment that the list clock tells.
fn moments_of(alloc: Global, times: &[u64]) -> Result<(u64, u64, u64), Fault> {
    let mut clock = clock(alloc, times)?;
    let first = clock.now().ms();
    let third = second_moment(&mut clock);
    let fifth = second_moment(&mut clock);
    drop(clock);
    Ok((first, third, fifth))
}

#[test]
fn a_list_of_moments_is_told_and_its_last_one_stays(rt: HostRuntime) {
    assert!(rt; moments_of(rt.alloc(), &[1000, 1100, 900]) == Ok((1000, 900, 900)));
    assert!(rt; moments_of(rt.alloc(), &[]) == Ok((0, 0, 0)));
}

/// A machine whose clock fails at first, then reads 1.5 s, times too far away (by far, and by one millisecond), nothing, the last moment, and
/// 0.9 s from there on.
#[derive(Drop)]
struct Machine {
    reads: Cell<u32>,
}

impl rt::Clock for Machine {
    fn monotonic(&self) -> io::Result<Duration> {
        Err(Error::from(ErrorKind::Unsupported))
    }

    fn since_1970(&self) -> io::Result<Duration> {
        let read = self.reads.get();
        self.reads.set(read.saturating_add(1));
        match read {
            1 => Ok(Duration::from_millis(1_500)),
            2 => Ok(Duration::from_secs(1 << 62)),
            3 => Ok(Duration::from_millis((1 << 62) + 1)),
            5 => Ok(Duration::from_millis(1 << 62)),
            0 | 4 => Err(Error::from(ErrorKind::Unsupported)),
            _ => Ok(Duration::from_millis(900)),
        }
    }
}

#[test]
fn a_machine_whose_clock_fails_tells_its_last_moment(rt: HostRuntime) {
    let machine = Machine {
        reads: Cell::new(0),
    };
    let mut clock = SystemClock::new(&machine);
    for ms in [0, 1_500, 1_500, 1_500, 1_500, 1 << 62, 900] {
        assert_eq!(rt; clock.now().ms(), ms);
    }
}

/// It was 1,700,000,000 s in November 2023.
#[test]
fn the_machine_tells_the_time(rt: HostRuntime) {
    assert!(rt; SystemClock::new(&rt).now().ms() > 1_700_000_000_000);
}
