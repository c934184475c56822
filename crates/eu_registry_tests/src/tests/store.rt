//! A table of leases: what is said to it, and what comes of that, worked out by hand.
use crate::tests::texts::{read_app, tell_lease, tell_listing};
use eu_base::{Fault, Key, Moment, SharedInstance, Status};
use eu_fixtures::{
    Told, cut, first_wrong, instance, key, moment, number_of, read_said, tell_done, tell_ids,
};
use eu_hash::HashKey;
use eu_lease::Lease;
use eu_model::Command;
use eu_store::{Amendment, HeldLease, Leases, Place, Snapshot};
use eu_words::Line;
use std::alloc::{AllocError, Global};

/// A table of leases, where one of them was found, and snapshots that were taken.
///
/// Of the commands of a script `register` puts a lease, or another in its place; `cancel` takes it; `renew` renews it; `set` renews it with its
/// instance in that status and overridden by it; `unset` renews it, and its instance comes up; and `adopt` has it begin anew in these statuses.
/// The answer is whether one was held. `by WORDS` does so where `find ID` found a lease before. `look` and `counts` are answered by the lease, and by
/// how many are held.
///
/// `put ID ID` puts leases of application A, made at 0 for 10 s with the stamp 7; `new ID ID` begins anew with such, and `fill N` with so
/// many, j0 and so on, each made at the moment of its number. `expired T` tells how many leases have expired, how many deadlines were
/// read, and the ids. All leases are told by `list`, those of an application by `list APP`, and those of the snapshot that was taken as the Nth,
/// from 0, by `snapshot N`. `snap` takes one, and `copied` tells all leases of a copy. `sweep ID ID` takes all of these at once, and tells how many,
/// the ids of those that were held, and a dash for each that was not.
#[derive(Drop)]
pub struct Desk {
    leases: Leases,
    found: Option<Place>,
    snapshots: Vec<Snapshot>,
}

/// A lease of an instance, made at that moment.
pub fn held(instance: &SharedInstance, moment: Moment) -> Result<HeldLease, AllocError> {
    let lease = Lease::fresh(moment, instance.secs());
    Ok(HeldLease::new(instance.share()?, lease))
}

/// Puts a lease under its key, in the place of one that is held. Tells whether one is.
pub fn put(
    alloc: Global,
    leases: &mut Leases,
    instance: &SharedInstance,
    moment: Moment,
) -> Result<bool, Fault> {
    let key = instance.key().copy(alloc)?;
    let held = held(instance, moment)?;
    leases.reserve()?;
    if leases.get(&key).is_none() {
        leases.insert(key, held);
        return Ok(false);
    }
    let place = leases.find(&key).0;
    Ok(leases.amend(&key, place, Amendment::Replaced(held)))
}

/// Puts a lease of application A for 10 s with the stamp 7, made at that moment.
fn put_one(alloc: Global, leases: &mut Leases, id: &str, ms: u64) -> Result<(), Fault> {
    let instance = instance(alloc, id, 7, 10)?;
    put(alloc, leases, &instance, moment(ms)?)?;
    Ok(())
}

/// Puts such leases, made at 0.
pub fn put_each(alloc: Global, leases: &mut Leases, ids: &str) -> Result<(), Fault> {
    for id in ids.split(' ') {
        put_one(alloc, leases, id, 0)?;
    }
    Ok(())
}

/// The key of the lease that a command is on.
fn key_of(command: &Command) -> Result<&Key, Fault> {
    match command {
        Command::Register { instance, .. } | Command::Adopt { instance } => Ok(instance.key()),
        Command::Renew { key, .. }
        | Command::Cancel { key, .. }
        | Command::SetStatus { key, .. }
        | Command::UnsetStatus { key, .. } => Ok(key),
        _ => Err(Fault::BadValue),
    }
}

/// What a command makes of a lease that is held.
fn amendment(command: &Command, moment: Moment) -> Result<Amendment, Fault> {
    match command {
        Command::Renew { .. } => Ok(Amendment::Renewed { moment }),
        Command::SetStatus {
            status,
            last_dirty,
            ..
        } => Ok(Amendment::InStatuses {
            moment,
            status: *status,
            overridden: *status,
            last_dirty: *last_dirty,
            comes_up: false,
        }),
        Command::UnsetStatus { .. } => Ok(Amendment::InStatuses {
            moment,
            status: Status::Up,
            overridden: Status::Unknown,
            last_dirty: None,
            comes_up: true,
        }),
        Command::Adopt { instance } => Ok(Amendment::Rejoined {
            status: instance.status(),
            overridden: instance.overridden(),
            lease: Lease::fresh(moment, instance.secs()),
        }),
        _ => Err(Fault::BadValue),
    }
}

/// Does what a command says, at that place or where its lease is found. Tells whether one is held.
fn change(
    alloc: Global,
    leases: &mut Leases,
    command: &Command,
    moment: Moment,
    hint: Option<Place>,
) -> Result<bool, Fault> {
    let key = key_of(command)?;
    let hint = hint.unwrap_or(leases.find(key).0);
    match command {
        Command::Register { instance, .. } => put(alloc, leases, instance, moment),
        Command::Cancel { .. } => Ok(leases.take(key, hint).is_some()),
        command => Ok(leases.amend(key, hint, amendment(command, moment)?)),
    }
}

impl Desk {
    /// No lease.
    pub fn new(alloc: Global) -> Desk {
        Desk {
            leases: Leases::new(alloc, HashKey::new(0, 0)),
            found: None,
            snapshots: Vec::new(alloc),
        }
    }

    /// Begins anew with leases that are made at 0.
    fn begin(&mut self, alloc: Global, ids: &str) -> Result<(), Fault> {
        *self = Desk::new(alloc);
        put_each(alloc, &mut self.leases, ids)
    }

    /// Begins anew with so many, each made at the moment of its number.
    fn fill(&mut self, alloc: Global, words: &str) -> Result<(), Fault> {
        *self = Desk::new(alloc);
        for number in 0..number_of(words)? {
            let id = format!(in alloc; "j{number}")?;
            put_one(alloc, &mut self.leases, id.as_str(), number)?;
        }
        Ok(())
    }

    /// Notes where a lease is found.
    fn find(&mut self, alloc: Global, id: &str) -> Result<(), Fault> {
        let key = key(alloc, id)?;
        self.found = Some(self.leases.find(&key).0);
        Ok(())
    }

    fn tell_expired(&self, alloc: Global, words: &str, out: &mut String) -> Result<(), Fault> {
        let now = moment(number_of(words)?)?;
        let (counted, read) = self.leases.expired_counted(alloc, now, 0)?;
        write!(out, "{} {read}:", counted.len())?;
        drop(counted);
        let keys = self.leases.expired_keys(alloc, now, 0)?;
        Ok(tell_ids(out, keys.as_slice())?)
    }

    /// Takes out all of these at once.
    fn sweep(&mut self, alloc: Global, ids: &str, out: &mut String) -> Result<(), Fault> {
        let mut keys = Vec::new(alloc);
        for id in ids.split(' ') {
            keys.push(key(alloc, id)?)?;
        }
        let room = self.leases.room_for(alloc, keys.len())?;
        let taken = self.leases.take_all(&keys, room);
        write!(out, "{}:", taken.len())?;
        for held in &taken {
            match held {
                Some(held) => write!(out, " {}", held.instance().key().id.as_str())?,
                None => write!(out, " -")?,
            }
        }
        Ok(())
    }

    fn list(&self, alloc: Global, app: &str, out: &mut String) -> Result<(), Fault> {
        let app = read_app(alloc, app)?;
        let leases = self.leases.listed(alloc, app.as_ref())?;
        Ok(tell_listing(out, leases.as_slice())?)
    }

    fn snap(&mut self, alloc: Global) -> Result<(), Fault> {
        let snapshot = self.leases.snapshot(alloc)?;
        Ok(self.snapshots.push(snapshot)?)
    }

    fn tell_snapshot(&self, alloc: Global, words: &str, out: &mut String) -> Result<(), Fault> {
        let Some(snapshot) = self.snapshots.get(number_of(words)? as usize) else {
            return Err(Fault::BadValue);
        };
        let leases = snapshot.listed(alloc)?;
        Ok(tell_listing(out, leases.as_slice())?)
    }

    /// Copies the leases, and tells what the copy lists.
    fn tell_copied(&self, alloc: Global, out: &mut String) -> Result<(), Fault> {
        let copy = self.leases.copy(alloc)?;
        let leases = copy.listed(alloc, None)?;
        Ok(tell_listing(out, leases.as_slice())?)
    }

    /// Does what a line of a script says, at that place or where its lease is found.
    fn say(
        &mut self,
        alloc: Global,
        words: &str,
        hint: Option<Place>,
        out: &mut String,
    ) -> Result<(), Fault> {
        match read_said(alloc, words)? {
            Line::Apply { moment, command } => {
                let was_held = change(alloc, &mut self.leases, &command, moment, hint)?;
                Ok(write!(out, "{was_held}")?)
            }
            Line::Look { moment: _, key } => match self.leases.get(&key) {
                Some(held) => Ok(tell_lease(out, Some((held.instance(), held.times())))?),
                None => Ok(tell_lease(out, None)?),
            },
            Line::Counts { .. } => Ok(write!(out, "{}", self.leases.len())?),
            _ => Err(Fault::BadValue),
        }
    }
}

impl Told for Desk {
    fn tell(&mut self, alloc: Global, said: &str, out: &mut String) -> Result<(), Fault> {
        let (verb, rest) = cut(said);
        match verb {
            "new" => tell_done(out, self.begin(alloc, rest)),
            "put" => tell_done(out, put_each(alloc, &mut self.leases, rest)),
            "fill" => tell_done(out, self.fill(alloc, rest)),
            "reserve" => tell_done(out, Ok(self.leases.reserve_all()?)),
            "find" => tell_done(out, self.find(alloc, rest)),
            "snap" => tell_done(out, self.snap(alloc)),
            "sweep" => self.sweep(alloc, rest, out),
            "by" => self.say(alloc, rest, self.found, out),
            "expired" => self.tell_expired(alloc, rest, out),
            "list" => self.list(alloc, rest, out),
            "snapshot" => self.tell_snapshot(alloc, rest, out),
            "copied" => self.tell_copied(alloc, out),
            _ => self.say(alloc, said, None, out),
        }
    }
}

const CHANGED: &str = "
    # A lease is put and taken, and put again, with room for all that may be.
    new i1 i2 = done
    reserve = done
    counts 0 = 2
    cancel 0 A i1 c = true
    cancel 0 A i1 c = false
    counts 0 = 1
    new i1 = done
    register 0 A i1 10 UP UNKNOWN 7 c = true
    counts 0 = 1
    # A lease is renewed, and its instance comes up; it is renewed with other statuses.
    new i1 = done
    renew 5 A i1 - - c = true
    unset 5 A i1 UP - c = true
    look 0 A i1 = UP 7 10 10005
    set 5 A i1 DOWN - c = true
    look 0 A i1 = DOWN 7 10 10005
    # A hint may be old: a taken lease's place is that of the last one then.
    new i1 i2 i3 = done
    find i3 = done
    cancel 0 A i1 c = true
    by renew 5 A i3 - - c = true
    renew 5 A i3 - - c = true
    find i3 = done
    by renew 5 A i1 - - c = false
    expired 10001 = 1 2: i2
    # A greater stamp is taken.
    new i1 = done
    set 5 A i1 DOWN 6 c = true
    look 0 A i1 = DOWN 7 10 10005
    set 5 A i1 DOWN 8 c = true
    look 0 A i1 = DOWN 8 10 10005
    # A held lease begins anew, and keeps its stamp.
    new i1 = done
    adopt 4 A i1 30 OUT_OF_SERVICE DOWN 0 = true
    look 0 A i1 = OUT_OF_SERVICE 7 30 4
";

#[test]
fn leases_are_put_amended_and_taken(rt: HostRuntime) {
    let mut desk = Desk::new(rt.alloc());
    assert_eq!(rt; first_wrong(rt.alloc(), &mut desk, CHANGED), None);
}

const EXPIRED: &str = "
    # Expired keys come in order.
    new i3 i1 i2 = done
    expired 10001 = 3 3: i1 i2 i3
    # None has expired at its deadline.
    new i1 = done
    expired 10000 = 0 1:
    # Few deadlines are read.
    fill 1000 = done
    expired 10003 = 3 7: j0 j1 j2
    expired 10000 = 0 1:
    # No deadline is read twice, and none that isn't there.
    fill 0 = done
    expired 10003 = 0 0:
    fill 1 = done
    expired 10003 = 1 1: j0
    fill 4 = done
    expired 10003 = 3 4: j0 j1 j2
    # What lies below a deadline that hasn't passed isn't read.
    fill 0 = done
    register 0 A j0 10 UP UNKNOWN 0 c = false
    register 5000 A j1 10 UP UNKNOWN 0 c = false
    register 1 A j2 10 UP UNKNOWN 0 c = false
    register 6000 A j3 10 UP UNKNOWN 0 c = false
    expired 10002 = 2 3: j0 j2
";

#[test]
fn few_deadlines_are_read(rt: HostRuntime) {
    let mut desk = Desk::new(rt.alloc());
    assert_eq!(rt; first_wrong(rt.alloc(), &mut desk, EXPIRED), None);
}

const LISTED: &str = "
    # Everything is listed in key order.
    new i3 i1 i10 i2 = done
    set 5 A i3 DOWN - c = true
    list = 4 i1 UP 0 i10 UP 0 i2 UP 0 i3 DOWN 10005
    list a = 4 i1 UP 0 i10 UP 0 i2 UP 0 i3 DOWN 10005
    # An application lists its own, with a snapshot and without.
    new i2 i1 = done
    register 0 AA i0 10 UP UNKNOWN 7 c = false
    list A = 2 i1 UP 0 i2 UP 0
    list aa = 1 i0 UP 0
    list B = 0
    snap = done
    snapshot 0 = 3 i1 UP 0 i2 UP 0 i0 UP 0
    list = 3 i1 UP 0 i2 UP 0 i0 UP 0
    list A = 2 i1 UP 0 i2 UP 0
    list aa = 1 i0 UP 0
    list B = 0
    # Snapshots follow each step, and so does what is listed beside them.
    new i3 i1 = done
    snap = done
    snapshot 0 = 2 i1 UP 0 i3 UP 0
    list = 2 i1 UP 0 i3 UP 0
    put i2 = done
    snap = done
    snapshot 1 = 3 i1 UP 0 i2 UP 0 i3 UP 0
    list = 3 i1 UP 0 i2 UP 0 i3 UP 0
    renew 5 A i3 - - c = true
    snap = done
    snapshot 2 = 3 i1 UP 0 i2 UP 0 i3 UP 10005
    list = 3 i1 UP 0 i2 UP 0 i3 UP 10005
    set 5 A i3 DOWN - c = true
    snap = done
    snapshot 3 = 3 i1 UP 0 i2 UP 0 i3 DOWN 10005
    list = 3 i1 UP 0 i2 UP 0 i3 DOWN 10005
    cancel 0 A i1 c = true
    snap = done
    snapshot 4 = 2 i2 UP 0 i3 DOWN 10005
    list = 2 i2 UP 0 i3 DOWN 10005
    # A snapshot stays as it was.
    new i3 i1 = done
    snap = done
    set 5 A i3 DOWN - c = true
    snap = done
    snapshot 1 = 2 i1 UP 0 i3 DOWN 10005
    snapshot 0 = 2 i1 UP 0 i3 UP 0
";

#[test]
fn snapshots_and_listings_follow_each_step(rt: HostRuntime) {
    let mut desk = Desk::new(rt.alloc());
    assert_eq!(rt; first_wrong(rt.alloc(), &mut desk, LISTED), None);
}

const SWEPT: &str = "
    # Three of six go at once; the others are listed in key order.
    new i6 i1 i5 i2 i4 i3 = done
    snap = done
    sweep i3 i6 i1 = 3: i3 i6 i1
    counts 0 = 3
    list = 3 i2 UP 0 i4 UP 0 i5 UP 0
    snap = done
    snapshot 1 = 3 i2 UP 0 i4 UP 0 i5 UP 0
    snapshot 0 = 6 i1 UP 0 i2 UP 0 i3 UP 0 i4 UP 0 i5 UP 0 i6 UP 0
    expired 10001 = 3 3: i2 i4 i5
    # A key that isn't held, or that comes twice, gives nothing.
    new i6 i1 i5 i2 i4 i3 = done
    snap = done
    sweep i9 i2 i2 i5 = 4: - i2 - i5
    snap = done
    snapshot 1 = 4 i1 UP 0 i3 UP 0 i4 UP 0 i6 UP 0
    # What comes later stands in its place.
    put i2 i7 i0 = done
    snap = done
    snapshot 2 = 7 i0 UP 0 i1 UP 0 i2 UP 0 i3 UP 0 i4 UP 0 i6 UP 0 i7 UP 0
    cancel 0 A i3 c = true
    snap = done
    snapshot 3 = 6 i0 UP 0 i1 UP 0 i2 UP 0 i4 UP 0 i6 UP 0 i7 UP 0
    # All go, with a snapshot before and without.
    new i2 i1 = done
    snap = done
    sweep i1 i2 = 2: i1 i2
    list = 0
    snap = done
    snapshot 1 = 0
    new i2 i1 i3 = done
    sweep i2 i3 i1 = 3: i2 i3 i1
    counts 0 = 0
";

#[test]
fn many_leases_are_taken_at_once(rt: HostRuntime) {
    let mut desk = Desk::new(rt.alloc());
    assert_eq!(rt; first_wrong(rt.alloc(), &mut desk, SWEPT), None);
}
