//! A registry, what is said to it, and what comes of that.
use crate::tests::texts::{
    read_app, read_opening, tell_answer, tell_lease, tell_listing, tell_plain, tell_previous,
    tell_step,
};
use eu_base::{Fault, Moment};
use eu_clock::{Chooser, ListChooser};
use eu_core::{Registry, Stepped};
use eu_fixtures::{
    Told, cut, first_wrong, instance, moment, number_of, read_said, settings, tell_done,
};
use eu_hash::HashKey;
use eu_model::{Command, Reply};
use eu_words::Line;
use std::alloc::Global;

/// A registry, and by which words an eviction draws from it.
///
/// It is told lines as a script has them, of which each command is a call. `step WORDS` takes a step in the place of a call, with one copy, and
/// `log WORDS` the same for one who logs it. `undone WORDS` takes a step in a copy, undoes it, and tells the copy's plain form. It is asked to `list`
/// all leases, or to `list APP`; for its `plain` form, and how that is `shown` in full. `open N config T on P I M` opens another registry, for N
/// clients and with these settings; `draw WORD WORD` has the next evictions draw by these words; and `fill N` has clients i0 and so on register at
/// 0, N in all.
#[derive(Drop)]
pub struct Desk {
    registry: Registry,
    chooser: ListChooser,
}

/// Makes the call of a command.
fn call<C: Chooser>(
    alloc: Global,
    registry: &mut Registry,
    command: &Command,
    now: Moment,
    chooser: &mut C,
) -> Result<Reply, Fault> {
    match command {
        Command::Register {
            instance,
            replicated,
        } => registry.register(alloc, instance, *replicated, now),
        Command::Renew {
            key,
            last_dirty,
            overridden,
            replicated,
        } => registry.renew(alloc, key, *last_dirty, *overridden, *replicated, now),
        Command::SetStatus {
            key,
            status,
            last_dirty,
            ..
        } => registry.set_status(alloc, key, *status, *last_dirty, now),
        Command::UnsetStatus {
            key,
            status,
            last_dirty,
            ..
        } => Ok(registry.unset_status(key, *status, *last_dirty, now)),
        Command::Evict => registry.evict(alloc, now, chooser),
        command => call_other(alloc, registry, command, now),
    }
}

/// The call of another command. A command for a peer has none.
fn call_other(
    alloc: Global,
    registry: &mut Registry,
    command: &Command,
    now: Moment,
) -> Result<Reply, Fault> {
    match command {
        Command::Adopt { instance } => registry.adopt(alloc, instance, now),
        Command::Cancel { key, .. } => Ok(registry.cancel(key)),
        Command::EndMinute => Ok(registry.end_minute()),
        Command::Update => Ok(registry.update()),
        Command::Reconfigure { config } => Ok(registry.reconfigure(*config)),
        _ => Err(Fault::NoPeer),
    }
}

/// The step of a command, with one copy. A command for a peer has none.
fn step<C: Chooser>(
    alloc: Global,
    registry: &mut Registry,
    command: &Command,
    now: Moment,
    logs: bool,
    chooser: &mut C,
) -> Result<Stepped, Fault> {
    match command {
        Command::Drain { .. } | Command::Landed { .. } | Command::Lost { .. } => Err(Fault::NoPeer),
        command => registry.step(alloc, command, now, logs, 1, chooser),
    }
}

/// A copy of a registry, in which a step was taken and undone.
fn undone<C: Chooser>(
    alloc: Global,
    registry: &Registry,
    command: &Command,
    now: Moment,
    chooser: &mut C,
) -> Result<Registry, Fault> {
    let mut copy = registry.copy(alloc)?;
    let stepped = step(alloc, &mut copy, command, now, false, chooser)?;
    let undone = copy.undo(alloc, command, &stepped.undo);
    drop(stepped);
    undone?;
    Ok(copy)
}

/// Writes a registry's plain form, and when its previous eviction was.
fn tell_state(alloc: Global, registry: &Registry, out: &mut String) -> Result<(), Fault> {
    let state = registry.plain(alloc)?;
    let previous = state.previous;
    let told = tell_plain(out, &state);
    drop(state);
    told?;
    Ok(tell_previous(out, previous)?)
}

/// Has clients i0 and so on register at 0, so many in all, of which none is held.
fn fill(alloc: Global, registry: &mut Registry, words: &str) -> Result<(), Fault> {
    let now = moment(0)?;
    for number in 0..number_of(words)? {
        let id = format!(in alloc; "i{number}")?;
        let instance = instance(alloc, id.as_str(), 0, 90)?;
        match registry.register(alloc, &instance, false, now)? {
            Reply::Registered { fresh: true } => {}
            _ => return Err(Fault::BadValue),
        }
    }
    Ok(())
}

impl Desk {
    /// A registry with the usual settings that expects nobody, and of whose leases the first is always drawn.
    pub fn new(alloc: Global) -> Result<Desk, Fault> {
        Ok(Desk {
            registry: Registry::open(alloc, settings()?, 0, HashKey::new(0, 0)),
            chooser: ListChooser::new(Vec::new(alloc)),
        })
    }

    fn open(&mut self, alloc: Global, words: &str) -> Result<(), Fault> {
        let (expected, config) = read_opening(alloc, words)?;
        self.registry = Registry::open(alloc, config, expected, HashKey::new(0, 0));
        Ok(())
    }

    fn draw(&mut self, alloc: Global, words: &str) -> Result<(), Fault> {
        let mut drawn = Vec::new(alloc);
        for word in words.split(' ') {
            drawn.push(number_of(word)?)?;
        }
        self.chooser = ListChooser::new(drawn);
        Ok(())
    }

    fn step(
        &mut self,
        alloc: Global,
        words: &str,
        logs: bool,
        out: &mut String,
    ) -> Result<(), Fault> {
        let Line::Apply { moment, command } = read_said(alloc, words)? else {
            return Err(Fault::BadValue);
        };
        let chooser = &mut self.chooser;
        let stepped = step(alloc, &mut self.registry, &command, moment, logs, chooser)?;
        Ok(tell_step(out, &stepped)?)
    }

    /// Takes a step in a copy of the registry, undoes it, and writes what the copy is then.
    fn undo(&mut self, alloc: Global, words: &str, out: &mut String) -> Result<(), Fault> {
        let Line::Apply { moment, command } = read_said(alloc, words)? else {
            return Err(Fault::BadValue);
        };
        let copy = undone(alloc, &self.registry, &command, moment, &mut self.chooser);
        drop(command);
        tell_state(alloc, &copy?, out)
    }

    fn say(&mut self, alloc: Global, words: &str, out: &mut String) -> Result<(), Fault> {
        match read_said(alloc, words)? {
            Line::Apply { moment, command } => {
                let chooser = &mut self.chooser;
                let answer = call(alloc, &mut self.registry, &command, moment, chooser);
                drop(command);
                tell_answer(out, answer)
            }
            Line::Look { moment, key } => Ok(tell_lease(out, self.registry.look(&key, moment))?),
            Line::Counts { .. } => Ok(write!(out, "{:?}", self.registry.counts())?),
            _ => Err(Fault::BadValue),
        }
    }

    fn list(&self, alloc: Global, app: &str, out: &mut String) -> Result<(), Fault> {
        let app = read_app(alloc, app)?;
        let leases = self.registry.list(alloc, app.as_ref())?;
        Ok(tell_listing(out, leases.as_slice())?)
    }

    /// Writes the registry's plain form, or how that is shown in full.
    fn show(&self, alloc: Global, in_full: bool, out: &mut String) -> Result<(), Fault> {
        let state = self.registry.plain(alloc)?;
        if in_full {
            return Ok(write!(out, "{state:?}")?);
        }
        Ok(tell_plain(out, &state)?)
    }
}

impl Told for Desk {
    fn tell(&mut self, alloc: Global, said: &str, out: &mut String) -> Result<(), Fault> {
        let (verb, rest) = cut(said);
        match verb {
            "open" => tell_done(out, self.open(alloc, rest)),
            "draw" => tell_done(out, self.draw(alloc, rest)),
            "fill" => tell_done(out, fill(alloc, &mut self.registry, rest)),
            "step" => self.step(alloc, rest, false, out),
            "log" => self.step(alloc, rest, true, out),
            "undone" => self.undo(alloc, rest, out),
            "reserve" => tell_done(out, Ok(self.registry.reserve_all()?)),
            "list" => self.list(alloc, rest, out),
            "plain" => self.show(alloc, false, out),
            "shown" => self.show(alloc, true, out),
            _ => self.say(alloc, said, out),
        }
    }
}

/// The first wrong line of a table, as a registry is told it.
pub fn first_wrong_of_registry(alloc: Global, table: &str) -> Result<Option<usize>, Fault> {
    let mut desk = Desk::new(alloc)?;
    let wrong = first_wrong(alloc, &mut desk, table);
    drop(desk);
    Ok(wrong)
}
