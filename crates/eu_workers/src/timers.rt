//! Workers that ask for the same command, turn after turn.
ghost use Rattle.std.specs.Prelude.{◌≡◌, ◌≢◌, ◌<◌, ◌≤◌, ◌∷◌, ◌++◌, [], None, true, false, IfOk, IfSome, OnOk, OnErr};
ghost use Rattle.eu_book.specs.Account.{entry, logged};
ghost use Rattle.eu_model.specs.Delta.{delta, plus};
ghost use Rattle.eu_model.specs.declared.commands.Command.TheVariants as command;
ghost use Rattle.eu_shared.specs.Passes.{PassAccount, IsAnsweredBySome, IsSeenOfSome};
ghost use Rattle.eu_workers.specs.Returned.{Tidies};
ghost use Rattle.eu_workers.specs.Timers.{command_of, is_due_after, AsksBy, AsksOnly};

use crate::ended::Ended;
use crate::news::news_of;
use crate::site::Site;
use eu_base::{Fault, Moment};
use eu_book::Receipt;
use eu_clock::{Chooser, Clock, FirstChooser};
use eu_gate::{Gate, Go, Point, Timer};
use eu_model::{Command, Gauges};
use eu_shared::{Label, Pass, Seat};
use std::alloc::{AllocError, Global};
use std::sync::Wait;

/// After so many turns of the bucket's worker, an hour by Eureka's minutes, the journal begins anew.
pub const TURNS_OF_A_CHECKPOINT: u64 = 60;

/// What a timer's worker asks for.
fn command(timer: Timer) -> Command
    ensures { result ≡ command_of timer }
{
    match timer {
        Timer::Evictor => Command::Evict,
        Timer::Bucket => Command::EndMinute,
        Timer::Threshold => Command::Update,
    }
}

/// Whether a timer's worker has the journal begin anew once it had so many turns.
fn is_checkpoint_due(timer: Timer, turns: u64) -> bool
    ensures { result ≡ is_due_after timer turns }
{
    match timer {
        Timer::Bucket => turns % TURNS_OF_A_CHECKPOINT == 0,
        Timer::Evictor | Timer::Threshold => false,
    }
}

/// By what a timer's worker asks: its pass of the shared book. A test has one that is refused at first.
pub trait Asker {
    // The pass.
    ghost pass: { Self → PassAccount };

    /// What is seen of the book that it asks (`Shared::gauges`). `AllocError` where no memory is left.
    fn gauges(&self, alloc: Global, moment: Moment) -> Result<Gauges, AllocError>
        ensures { IfOk result (λ g. IsSeenOfSome moment g) };

    /// Asks once (`Pass::ask`).
    fn ask_once<C: Chooser>(
        &mut self,
        alloc: Global,
        command: Command,
        moment: Moment,
        chooser: &mut C,
    ) -> Result<Receipt, Fault>
        ensures log { IfOk result (λ r. (pass self.new).log ≡ (pass self.old).log ++ logged command moment r.reply r.number ∷ []) }
        ensures tally { IfOk result (λ r. (pass self.new).tally ≡ plus (pass self.old).tally (delta command r.reply)) }
        ensures number { (pass self.new).number ≡ (pass self.old).number }
        ensures journal_first { (pass self.old).journal_first ≤ (pass self.new).journal_first }
        ensures answer { IfOk result (λ r. IsAnsweredBySome C.asks chooser.old (pass self.old) (entry (pass self.old).number r.number command moment r.reply) chooser.new (pass self.new)) }
        ensures err { OnErr result (pass self.new ≡ pass self.old) }
        ensures unasked { OnErr result (chooser.new ≡ chooser.old) };

    /// Ends a turn, the last of so many: has the journal begin anew where that is due, behind all that was done for the pass, and trims
    /// the log of the pass. `AllocError` where no memory is left for a journal that is due.
    fn end_turn(&mut self, alloc: Global, timer: Timer, turns: u64) -> Result<(), AllocError>
        ensures tidies { Tidies (pass self.old) (pass self.new) }
        ensures begun { is_due_after timer turns ≡ true → OnOk result ((pass self.old).tally.steps ≤ (pass self.new).journal_first) }
        ensures left { is_due_after timer turns ≡ false → (pass self.new).journal_first ≡ (pass self.old).journal_first };
}

impl<K: Label, R: Wait> Asker for Seat<'_, K, R> {
    ghost pass = { λ s. s.pass };

    fn gauges(&self, alloc: Global, moment: Moment) -> Result<Gauges, AllocError> {
        self.shared.gauges(self.rt, alloc, moment)
    }

    fn ask_once<C: Chooser>(
        &mut self,
        alloc: Global,
        command: Command,
        moment: Moment,
        chooser: &mut C,
    ) -> Result<Receipt, Fault> {
        self.pass
            .ask(self.rt, self.shared, alloc, command, moment, chooser)
    }

    fn end_turn(&mut self, alloc: Global, timer: Timer, turns: u64) -> Result<(), AllocError> {
        let ended = if is_checkpoint_due(timer, turns) {
            self.pass.checkpoint(self.rt, self.shared, alloc)
        } else {
            Ok(())
        };
        self.pass.trim();
        ended
    }
}

/// What is seen before a timer's worker asks: by the evictor, since that is to be told. None where no memory is left for it.
fn look<A: Asker>(asker: &A, alloc: Global, timer: Timer, moment: Moment) -> Option<Gauges>
    ensures seen { IfSome result (λ g. IsSeenOfSome moment g) }
    ensures others { timer ≢ Timer.Evictor → result ≡ None }
{
    match timer {
        Timer::Evictor => match asker.gauges(alloc, moment) {
            Ok(seen) => Some(seen),
            Err(_) => None,
        },
        Timer::Bucket | Timer::Threshold => None,
    }
}

/// Has the gate hear of an ask that was answered so, where something was seen before it.
fn tell<G: Gate>(gate: &G, seen: Option<Gauges>, asked: &Result<Receipt, Fault>) {
    if let Some(seen) = seen {
        gate.hear(news_of(&seen, asked));
    }
}

/// Asks for a timer's command at most so many times, until the gate stops it. A journal for which no memory is left doesn't begin anew,
/// and that counts nowhere.
pub fn take_turns<G: Gate, A: Asker, C: Clock, H: Chooser>(
    gate: &G,
    alloc: Global,
    timer: Timer,
    asker: &mut A,
    clock: &mut C,
    chooser: &mut H,
    limit: u64,
) -> Ended
    ensures asks { AsksBy H.asks chooser.old (command_of timer) limit (A.pass asker.old) (A.pass asker.new) result chooser.new }
    ensures stops { result.turns < limit → G.stops gate.now }
{
    let mut ended = Ended::default();
    for _turn in 0..limit {
        if gate.pass(timer.number(), Point::Turn) == Go::Stop {
            break;
        }
        let moment = clock.now();
        let seen = look(asker, alloc, timer, moment);
        let asked = asker.ask_once(alloc, command(timer), moment, chooser);
        ended.count(&asked);
        tell(gate, seen, &asked);
        drop(asked);
        let _ = asker.end_turn(alloc, timer, ended.turns);
    }
    ended
}

/// The same by a pass of the shared book, which is given back.
fn run<K: Label, R: Wait, G: Gate, C: Clock, H: Chooser>(
    site: &Site<'_, K, R, G>,
    timer: Timer,
    pass: Pass<K>,
    clock: &mut C,
    chooser: &mut H,
    limit: u64,
) -> (Pass<K>, Ended)
    ensures asks { AsksBy H.asks chooser.old (command_of timer) limit pass result.0 result.1 chooser.new }
    ensures stops { result.1.turns < limit → G.stops site.now.gate.now }
{
    let mut seat = Seat {
        pass,
        shared: site.shared,
        rt: site.rt,
    };
    let ended = take_turns(
        site.gate, site.alloc, timer, &mut seat, clock, chooser, limit,
    );
    let Seat {
        pass,
        shared: _,
        rt: _,
    } = seat;
    (pass, ended)
}

/// The evictor (`AbstractInstanceRegistry.EvictionTask` in Eureka): asks for `Evict`, turn after turn, until the gate stops it or it
/// had so many turns, and gives its pass back.
///
/// A turn passes the gate, reads the clock, looks at the counts and at how many leases are due, asks once, has the gate hear of it (`Gate::hear`), and
/// trims the log of the pass (`Pass::trim`). What it was answered is in that log,
/// as far as the journal has it; a turn whose ask was refused is counted as such, and the next one follows.
pub fn run_evictor<K: Label, R: Wait, G: Gate, C: Clock, H: Chooser>(
    site: &Site<'_, K, R, G>,
    pass: Pass<K>,
    clock: &mut C,
    chooser: &mut H,
    limit: u64,
) -> (Pass<K>, Ended)
    ensures asks { AsksBy H.asks chooser.old command.Evict limit pass result.0 result.1 chooser.new }
    ensures stops { result.1.turns < limit → G.stops site.now.gate.now }
{
    run(site, Timer::Evictor, pass, clock, chooser, limit)
}

/// The bucket's worker (`MeasuredRate` in Eureka): as the evictor, with `EndMinute` for its command. It draws no words. After each 60th turn
/// it has the journal begin anew (`Pass::checkpoint`), so once an hour where a turn is a minute; where no memory is left for it, it
/// isn't, and no turn counts as refused for it.
pub fn run_bucket<K: Label, R: Wait, G: Gate, C: Clock>(
    site: &Site<'_, K, R, G>,
    pass: Pass<K>,
    clock: &mut C,
    limit: u64,
) -> (Pass<K>, Ended)
    ensures asks { AsksOnly command.EndMinute limit pass result.0 result.1 }
    ensures stops { result.1.turns < limit → G.stops site.now.gate.now }
{
    run(site, Timer::Bucket, pass, clock, &mut FirstChooser, limit)
}

/// The threshold's worker (`PeerAwareInstanceRegistryImpl.scheduleRenewalThresholdUpdateTask` in Eureka): as the evictor, with
/// `Update` for its command. It draws no words.
pub fn run_threshold<K: Label, R: Wait, G: Gate, C: Clock>(
    site: &Site<'_, K, R, G>,
    pass: Pass<K>,
    clock: &mut C,
    limit: u64,
) -> (Pass<K>, Ended)
    ensures asks { AsksOnly command.Update limit pass result.0 result.1 }
    ensures stops { result.1.turns < limit → G.stops site.now.gate.now }
{
    run(
        site,
        Timer::Threshold,
        pass,
        clock,
        &mut FirstChooser,
        limit,
    )
}
