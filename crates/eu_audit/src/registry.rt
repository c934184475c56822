//! A registry that is replayed, a step at a time.
ghost use Rattle.std.specs.Prelude.{ℕ, Bool, ◌≡◌, ◌↔◌, true, false, IfOk, IfSome, OnOk, IsTrue, None, Ok};
ghost use Rattle.std.specs.Option.{option_copied};
ghost use Rattle.std.specs.FinMap as map;
ghost use Rattle.eu_model.specs.PlainSteps.{after, plain_join_fault, plain_renew_fault, plain_register, plain_adopt, plain_renew, plain_cancel, plain_one, plain_set_status, plain_unset_status, PlainStep, Becomes};
ghost use Rattle.eu_model.specs.Machine.{is_permitted, with_value};
ghost use Rattle.eu_model.specs.Plain.{held_under};
ghost use Rattle.eu_model.specs.State.{plain_of_state};
ghost use Rattle.eu_audit.specs.PlainForm.{is_in_order};
ghost use Rattle.eu_audit.specs.Verdict.{HasNumbers, IsListed, IsLimited};
ghost use Rattle.eu_audit_changes.specs.Changed.{change_of};
ghost use Rattle.eu_audit.specs.Verdict.{Judged, IsWithinLimits};

use crate::numbers::{expected_after, is_permitted};
use crate::plain::{ordered_leases, ordered_rows};
use eu_audit_changes::{Changed, adopt, cancel, register, renew, set_status, unset_status};
use eu_audit_tables::{Leases, Overrides};
use eu_base::{
    Config, Id, Key, MOST_EXPECTED, MOST_LEASES, MOST_RENEWALS, Moment, SharedInstance, Stamp,
    Status,
};
use eu_model::{Command, Entry, Listed, Reply, State};
use std::alloc::{AllocError, Global};
use std::marker::Model;

/// A registry that is replayed. Contracts see its plain form.
#[derive(Debug, Drop)]
pub(crate) struct Replica {
    pub(crate) config: Config,
    pub(crate) leases: Leases,
    pub(crate) overrides: Overrides,
    pub(crate) expected: u64,
    pub(crate) last: u64,
    pub(crate) since: u64,
    pub(crate) previous: Option<Moment>,
}

impl Model for Replica {
    ghost use Rattle.eu_audit.specs.Verdict.{IsWithinLimits};
    ghost use Rattle.eu_model.specs.Plain.{Plain};
    ghost use Rattle.eu_model.specs.PlainCode.{coded_plain};

    ghost Value = { Plain };

    ghost coded = { coded_plain };

    ghost view = { λ r. record { config = r.config; leases = r.leases; overrides = r.overrides; expected = r.expected; last = r.last; since = r.since; previous = r.previous } };

    ghost invariant = { λ r. IsWithinLimits (record { config = r.config; leases = r.leases; overrides = r.overrides; expected = r.expected; last = r.last; since = r.since; previous = r.previous }) };
}

impl Replica {
    /// The registry of plain data, where that is in order. `AllocError` where no memory is left.
    pub(crate) fn read(alloc: Global, state: &State) -> Result<Option<Replica>, AllocError>
        requires { IsLimited state.now }
        ensures some { IfOk result (λ found. IfSome found (λ r. r ≡ plain_of_state state.now)) }
        ensures in_order { IfOk result (λ found. IfSome found (λ r. is_in_order state.now ≡ true)) }
        ensures none { result ≡ Ok None → is_in_order state.now ≡ false }
    {
        let Some(leases) = ordered_leases(alloc, state.leases.as_slice())? else {
            return Ok(None);
        };
        let Some(overrides) = ordered_rows(alloc, state.overrides.as_slice())? else {
            return Ok(None);
        };
        Ok(Some(Replica {
            config: state.config,
            leases,
            overrides,
            expected: state.expected,
            last: state.last,
            since: state.since,
            previous: state.previous,
        }))
    }

    /// Whether it has the numbers of plain data.
    fn has_numbers(&self, state: &State) -> bool
        ensures { IsTrue result ↔ HasNumbers self.now state.now }
    {
        self.config.same(&state.config)
            && self.expected == state.expected
            && self.last == state.last
            && self.since == state.since
            && same_moment(self.previous, state.previous)
    }

    /// Whether plain data lists it.
    pub(crate) fn is_listed(&self, state: &State) -> bool
        ensures { IsTrue result ↔ IsListed self.now state.now }
    {
        self.leases.same(state.leases.as_slice())
            && self.overrides.same(state.overrides.as_slice())
            && self.has_numbers(state)
    }

    /// Whether a lease of that key can be held.
    fn can_join(&self, key: &Key) -> bool
        ensures { IsTrue result ↔ (plain_join_fault self.now key.now ≡ None) }
    {
        self.leases.get(key).is_some()
            || (self.leases.len() < MOST_LEASES && self.expected < MOST_EXPECTED)
    }

    /// Whether a renewal can be counted, if one is to be.
    fn can_count(&self, counted: bool) -> bool
        ensures { IsTrue result ↔ (plain_renew_fault self.now counted ≡ None) }
    {
        !counted || self.since < MOST_RENEWALS
    }

    /// The registry with this at a key and at its id. `AllocError` where no memory is left.
    fn with_change(self, alloc: Global, key: &Key, changed: Changed) -> Result<Replica, AllocError>
        requires { IsWithinLimits (after self key.now (change_of changed)) }
        ensures { IfOk result (λ r. r ≡ after self key.now (change_of changed)) }
    {
        let Replica {
            config,
            mut leases,
            mut overrides,
            expected: _,
            last,
            since,
            previous,
        } = self;
        put_lease(alloc, &mut leases, key, changed.lease)?;
        put_row(alloc, &mut overrides, &key.id, changed.row)?;
        Ok(Replica {
            config,
            leases,
            overrides,
            expected: changed.expected,
            last,
            since: if changed.counted { since + 1 } else { since },
            previous,
        })
    }

    /// Judges a change at a key by what was answered.
    fn judge(
        self,
        alloc: Global,
        key: &Key,
        changed: Changed,
        reply: &Reply,
    ) -> Result<Option<Replica>, AllocError>
        requires { IsWithinLimits (after self key.now (change_of changed)) }
        ensures { IfOk result (Judged (Becomes self key.now (change_of changed) reply.now)) }
    {
        if !changed.reply.same(reply) {
            return Ok(None);
        }
        Ok(Some(self.with_change(alloc, key, changed)?))
    }

    /// What a registration changes. `AllocError` where 2^63 share an instance.
    fn registered(
        &self,
        instance: &SharedInstance,
        replicated: bool,
        moment: Moment,
    ) -> Result<Changed, AllocError>
        ensures changed { IfOk result (λ c. change_of c ≡ plain_register (map.get self.now.leases instance.now.key) (map.get self.now.overrides instance.now.key.id) self.now.expected instance.now replicated moment) }
        ensures limits { IsWithinLimits self.now }
    {
        let key = instance.key();
        let held = self.leases.get(key);
        let row = self.overrides.get(&key.id);
        register(held, row, self.expected, instance, replicated, moment)
    }

    /// What an adoption changes. `AllocError` where 2^63 share an instance.
    fn adopted(&self, instance: &SharedInstance, moment: Moment) -> Result<Changed, AllocError>
        ensures changed { IfOk result (λ c. change_of c ≡ plain_adopt (map.get self.now.leases instance.now.key) (map.get self.now.overrides instance.now.key.id) self.now.expected instance.now moment) }
        ensures limits { IsWithinLimits self.now }
    {
        let key = instance.key();
        let held = self.leases.get(key);
        let row = self.overrides.get(&key.id);
        adopt(held, row, self.expected, instance, moment)
    }

    /// What a renewal changes. `AllocError` where 2^63 share an instance.
    fn renewed(
        &self,
        key: &Key,
        last_dirty: Option<Stamp>,
        overridden: Option<Status>,
        replicated: bool,
        moment: Moment,
    ) -> Result<Changed, AllocError>
        ensures changed { IfOk result (λ c. change_of c ≡ plain_renew (map.get self.now.leases key.now) (map.get self.now.overrides key.now.id) self.now.expected last_dirty overridden replicated moment) }
        ensures limits { IsWithinLimits self.now }
    {
        let held = self.leases.get(key);
        let row = self.overrides.get(&key.id);
        let expected = self.expected;
        renew(
            held, row, expected, last_dirty, overridden, replicated, moment,
        )
    }

    /// What a cancel changes.
    fn cancelled(&self, key: &Key) -> Changed
        ensures changed { change_of result ≡ plain_cancel (map.get self.now.leases key.now) self.now.expected }
        ensures limits { IsWithinLimits self.now }
    {
        cancel(self.leases.get(key), self.expected)
    }

    /// Whether eviction is permitted.
    pub(crate) fn permits(&self) -> bool
        ensures { result ≡ is_permitted self.now.config self.now.expected self.now.last }
    {
        is_permitted(&self.config, self.expected, self.last)
    }

    /// What a status changes that is set. `AllocError` where 2^63 share an instance.
    fn status_set(
        &self,
        key: &Key,
        status: Status,
        last_dirty: Option<Stamp>,
        moment: Moment,
    ) -> Result<Changed, AllocError>
        ensures changed { IfOk result (λ c. change_of c ≡ plain_set_status (plain_one self.now key.now moment) (map.get self.now.leases key.now) (map.get self.now.overrides key.now.id) self.now.expected status last_dirty moment) }
        ensures limits { IsWithinLimits self.now }
    {
        let permitted = self.permits();
        let held = self.leases.get(key);
        let row = self.overrides.get(&key.id);
        let expected = self.expected;
        set_status(permitted, held, row, expected, status, last_dirty, moment)
    }

    /// What a status changes that is unset. `AllocError` where 2^63 share an instance.
    fn status_unset(
        &self,
        key: &Key,
        suggested: Option<Status>,
        last_dirty: Option<Stamp>,
        moment: Moment,
    ) -> Result<Changed, AllocError>
        ensures changed { IfOk result (λ c. change_of c ≡ plain_unset_status (plain_one self.now key.now moment) (map.get self.now.leases key.now) (map.get self.now.overrides key.now.id) self.now.expected suggested last_dirty moment) }
        ensures limits { IsWithinLimits self.now }
    {
        let permitted = self.permits();
        let held = self.leases.get(key);
        let row = self.overrides.get(&key.id);
        let expected = self.expected;
        unset_status(
            permitted, held, row, expected, suggested, last_dirty, moment,
        )
    }

    /// Judges a registration by what was answered.
    fn register(
        self,
        alloc: Global,
        instance: &SharedInstance,
        replicated: bool,
        moment: Moment,
        reply: &Reply,
    ) -> Result<Option<Replica>, AllocError>
        ensures { IfOk result (Judged (PlainStep self (Command.Register instance.now replicated) moment reply.now)) }
    {
        let key = instance.key();
        if !self.can_join(key) {
            return Ok(None);
        }
        let changed = self.registered(instance, replicated, moment)?;
        self.judge(alloc, key, changed, reply)
    }

    /// Judges an adoption by what was answered.
    fn adopt(
        self,
        alloc: Global,
        instance: &SharedInstance,
        moment: Moment,
        reply: &Reply,
    ) -> Result<Option<Replica>, AllocError>
        ensures { IfOk result (Judged (PlainStep self (Command.Adopt instance.now) moment reply.now)) }
    {
        let key = instance.key();
        if !self.can_join(key) {
            return Ok(None);
        }
        let changed = self.adopted(instance, moment)?;
        self.judge(alloc, key, changed, reply)
    }

    /// Judges a renewal by what was answered.
    fn renew(
        self,
        alloc: Global,
        key: &Key,
        last_dirty: Option<Stamp>,
        overridden: Option<Status>,
        replicated: bool,
        moment: Moment,
        reply: &Reply,
    ) -> Result<Option<Replica>, AllocError>
        ensures { IfOk result (Judged (PlainStep self (Command.Renew key.now last_dirty overridden replicated) moment reply.now)) }
    {
        let changed = self.renewed(key, last_dirty, overridden, replicated, moment)?;
        if !self.can_count(changed.counted) {
            return Ok(None);
        }
        self.judge(alloc, key, changed, reply)
    }

    /// Judges a cancel by what was answered.
    fn cancel(self, alloc: Global, key: &Key, reply: &Reply) -> Result<Option<Replica>, AllocError>
        ensures { IfOk result (λ next. (replicated : Bool) (t : ℕ) → Judged (PlainStep self (Command.Cancel key.now replicated) t reply.now) next) }
    {
        let changed = self.cancelled(key);
        self.judge(alloc, key, changed, reply)
    }

    /// Judges a status that is set by what was answered.
    fn set_status(
        self,
        alloc: Global,
        key: &Key,
        status: Status,
        last_dirty: Option<Stamp>,
        moment: Moment,
        reply: &Reply,
    ) -> Result<Option<Replica>, AllocError>
        ensures { IfOk result (λ next. (replicated : Bool) → Judged (PlainStep self (Command.SetStatus key.now status last_dirty replicated) moment reply.now) next) }
    {
        let changed = self.status_set(key, status, last_dirty, moment)?;
        self.judge(alloc, key, changed, reply)
    }

    /// Judges a status that is unset by what was answered.
    fn unset_status(
        self,
        alloc: Global,
        key: &Key,
        suggested: Option<Status>,
        last_dirty: Option<Stamp>,
        moment: Moment,
        reply: &Reply,
    ) -> Result<Option<Replica>, AllocError>
        ensures { IfOk result (λ next. (replicated : Bool) → Judged (PlainStep self (Command.UnsetStatus key.now suggested last_dirty replicated) moment reply.now) next) }
    {
        let changed = self.status_unset(key, suggested, last_dirty, moment)?;
        self.judge(alloc, key, changed, reply)
    }

    /// Judges a minute's end by what was answered.
    fn end_minute(self, reply: &Reply) -> Option<Replica>
        ensures { (t : ℕ) → Judged (PlainStep self Command.EndMinute t reply.now) result }
    {
        if !reply.same(&Reply::Last(self.since)) {
            return None;
        }
        let mut next = self;
        next.last = next.since;
        next.since = 0;
        Some(next)
    }

    /// Judges a count of the clients by what was answered.
    fn update(self, reply: &Reply) -> Option<Replica>
        ensures { (t : ℕ) → Judged (PlainStep self Command.Update t reply.now) result }
    {
        let held = self.leases.len() as u64;
        let expected = expected_after(&self.config, self.expected, held);
        if !reply.same(&Reply::Expected(expected)) {
            return None;
        }
        let mut next = self;
        next.expected = expected;
        Some(next)
    }

    /// Judges a change of the settings by what was answered.
    fn reconfigure(self, config: Config, reply: &Reply) -> Option<Replica>
        ensures { (t : ℕ) → Judged (PlainStep self (Command.Reconfigure config) t reply.now) result }
    {
        if !reply.same(&Reply::Done) {
            return None;
        }
        let mut next = self;
        next.config = config;
        Some(next)
    }

    /// The instance that is held under a key, where one is given.
    pub(crate) fn held(&self, key: Option<&Key>) -> Option<&SharedInstance>
        ensures { option_copied result ≡ held_under self.now (option_copied key.entry) }
    {
        match self.leases.get(key?) {
            Some(held) => Some(&held.instance),
            None => None,
        }
    }

    /// Judges the step of an entry. A step of a queue is none of a registry alone.
    pub(crate) fn step(self, alloc: Global, entry: &Entry) -> Result<Option<Replica>, AllocError>
        ensures { IfOk result (Judged (PlainStep self entry.now.command entry.now.moment entry.now.reply)) }
    {
        let at = entry.moment;
        let reply = &entry.reply;
        match &entry.command {
            Command::Register {
                instance,
                replicated,
            } => self.register(alloc, instance, *replicated, at, reply),
            Command::Renew {
                key,
                last_dirty,
                overridden,
                replicated,
            } => self.renew(alloc, key, *last_dirty, *overridden, *replicated, at, reply),
            Command::Cancel { key, .. } => self.cancel(alloc, key, reply),
            Command::SetStatus {
                key,
                status,
                last_dirty,
                ..
            } => self.set_status(alloc, key, *status, *last_dirty, at, reply),
            Command::UnsetStatus {
                key,
                status,
                last_dirty,
                ..
            } => self.unset_status(alloc, key, *status, *last_dirty, at, reply),
            Command::Adopt { instance } => self.adopt(alloc, instance, at, reply),
            Command::EndMinute => Ok(self.end_minute(reply)),
            Command::Update => Ok(self.update(reply)),
            Command::Reconfigure { config } => Ok(self.reconfigure(*config, reply)),
            Command::Evict => Ok(self.evict(at, reply)),
            Command::Drain { .. } | Command::Landed { .. } | Command::Lost { .. } => Ok(None),
        }
    }
}

/// Whether both are one moment, or neither is there.
fn same_moment(moment: Option<Moment>, other: Option<Moment>) -> bool
    ensures { IsTrue result ↔ (moment ≡ other) }
{
    match (moment, other) {
        (Some(moment), Some(other)) => moment.ms() == other.ms(),
        (None, None) => true,
        _ => false,
    }
}

/// Has this lease, or none, held under a key. `AllocError` where no memory is left.
fn put_lease(
    alloc: Global,
    leases: &mut Leases,
    key: &Key,
    lease: Option<Listed>,
) -> Result<(), AllocError>
    ensures { OnOk result (leases.new ≡ with_value leases.old key.now lease) }
{
    match lease {
        Some(lease) => leases.put(key.copy(alloc)?, lease),
        None => {
            leases.remove(key);
            Ok(())
        }
    }
}

/// Has this row, or none, under an id. `AllocError` where no memory is left.
fn put_row(
    alloc: Global,
    overrides: &mut Overrides,
    id: &Id,
    row: Option<Status>,
) -> Result<(), AllocError>
    ensures { OnOk result (overrides.new ≡ with_value overrides.old id.now row) }
{
    match row {
        Some(row) => overrides.put(id.copy(alloc)?, row),
        None => {
            overrides.remove(id);
            Ok(())
        }
    }
}
