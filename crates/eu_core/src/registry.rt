//! The registry.
ghost use Rattle.std.specs.Prelude.{◌≡◌, ◌≢◌, ◌+◌, ◌<◌, ◌≤◌, ◌⊎◌, ℕ, Bool, false, if◌then◌else◌, not, replicate, IsOk, OnOk, OnErr, Option, None, Some, Ok, Err, List, IfOk, IfErr, is_some, true};
ghost use Rattle.std.specs.Option.{option_copied};
ghost use Rattle.std.specs.FinMap as map;
ghost use Rattle.eu_base.specs.declared.names.Key.{Key};
ghost use Rattle.eu_model.specs.declared.commands.Command.{Command};
ghost use Rattle.eu_model.specs.Change.{one_more};
ghost use Rattle.eu_model.specs.Server.{key_of};
ghost use Rattle.eu_model.specs.Machine.{opening, is_permitted};
ghost use Rattle.eu_model.specs.Plain.{plain};
ghost use Rattle.eu_model.specs.Answers.{Answers, Shows};
ghost use Rattle.eu_model.specs.View.{counts, gauges, one, listing, status_counts};
ghost use Rattle.eu_model.specs.PlainSteps.{plain_join_fault, plain_seen};
ghost use Rattle.eu_model.specs.Step.{extra_time};
ghost use Rattle.eu_store.specs.Brief.{ListsBriefly};
ghost use Rattle.eu_core.specs.Decided.{count_fault, counted, left, Decides, IsFrugal, IsReady};
ghost use Rattle.eu_core.specs.Stepped.{Draws};
ghost use Rattle.eu_core.specs.Shown.{shown};
ghost use Rattle.eu_core.specs.State.{state_of};
ghost use Rattle.eu_core.specs.Undone.{eviction_before, eviction_undone, lease_undone, renewal_undone, undone};

use crate::decide::{Context, decide_cancel, decide_no_status, decide_renewal, decide_status};
use crate::decision::{Change, Decision, LeaseChange, begin, new_id, write_lease, write_row};
use crate::joins::decide_join;
use crate::statuses::row_of;
use crate::step::key_of;
use crate::undo::{
    Clients, EvictionBefore, LeaseBefore, RenewalBefore, Undo, put_lease, put_leases, put_moments,
    put_row, put_rows, shared,
};
use eu_base::{
    App, Config, Fault, Key, Keys, MOST_EXPECTED, MOST_LEASES, Moment, SharedInstance, Stamp,
    Status,
};
use eu_clock::Chooser;
use eu_eviction::{Eviction, Overrides, Removed, run_eviction};
use eu_hash::HashKey;
use eu_lease::{Rate, Threshold};
use eu_model::{
    Command, Counts, Gauges, Listed, Listing, Queues, Reply, State, StatusCounts, Times,
};
use eu_store::{HeldLease, Leases, Place, Snapshot};
use std::alloc::{AllocError, Global};
use std::marker::Model;

/// A lease registry (`AbstractInstanceRegistry` in Eureka). Contracts see its plain form.
///
/// It stores the threshold, which is always that of the number expected, and two counts in place of every renewal.
/// Moments are in milliseconds, and needn't ascend.
#[derive(Debug, Drop)]
pub struct Registry {
    leases: Leases,
    overrides: Overrides,
    threshold: Threshold,
    rate: Rate,
    previous: Option<Moment>,
}

impl Model for Registry {
    ghost use Rattle.eu_model.specs.Plain.{Plain};
    ghost use Rattle.eu_model.specs.PlainCode.{coded_plain};

    ghost Value = { Plain };

    ghost coded = { coded_plain };

    ghost use Rattle.eu_core.specs.Registry.{plain_of};

    ghost view = { plain_of };
}

impl Registry {
    /// An empty registry that expects so many clients to renew (`PeerAwareInstanceRegistryImpl.openForTraffic` in Eureka).
    ///
    /// No renewal is counted, and no minute has ended. Its tables are to hash by that key. Takes no memory.
    pub fn open(alloc: Global, config: Config, expected: u32, hash_key: HashKey) -> Registry
        ensures { result ≡ plain (opening config expected) }
    {
        Registry {
            leases: Leases::new(alloc, hash_key),
            overrides: Overrides::new(alloc, hash_key),
            threshold: Threshold::open(config, expected),
            rate: Rate::new(),
            previous: None,
        }
    }

    /// The counts: leases held, clients expected, the threshold and the last minute's renewals, and whether eviction is
    /// permitted (`PeerAwareInstanceRegistryImpl.isLeaseExpirationEnabled` in Eureka). Takes no memory.
    pub fn counts(&self) -> Counts
        ensures { Shows self.now counts result }
    {
        let last = self.rate.last();
        Counts {
            held: self.leases.len() as u64,
            expected: self.threshold.expected(),
            threshold: self.threshold.value(),
            last,
            permitted: self.threshold.permitted(last),
            preservation: self.threshold.config().preservation,
        }
    }

    /// The counts, and how many leases are due at the moment: those that an eviction may take, where it is permitted. `AllocError` where no memory is
    /// left.
    pub fn gauges(&self, alloc: Global, moment: Moment) -> Result<Gauges, AllocError>
        ensures { IfOk result (λ g. Shows self.now (λ s. gauges s moment) g) }
    {
        let extra = extra_time(&self.threshold.config(), self.previous, moment);
        let due = self.leases.expired_number(alloc, moment, extra)?;
        Ok(Gauges {
            counts: self.counts(),
            due: due as u64,
        })
    }

    /// How many leases are held of each status, expired or not. Takes no memory, and looks at no lease.
    pub fn status_counts(&self) -> StatusCounts
        ensures { Shows self.now (λ s. status_counts (listing None s)) result }
    {
        self.leases.status_counts()
    }

    /// Registers an instance: a new lease begins at the moment (`AbstractInstanceRegistry.register` in Eureka).
    ///
    /// Where a lease is held whose stamp is strictly greater, the held instance stays, with the newcomer's duration. An
    /// overridden status other than UNKNOWN becomes the row of the id, where it has none; the override rule gives the
    /// status. A client that wasn't held is one more expected, but none is where none was. The reply is `Registered`,
    /// fresh where no lease was held.
    ///
    /// Refused, in this order, where the key isn't held: `Full` where 65,536 leases are, `Exhausted` where 2^40 clients are
    /// expected; then `OutOfMemory`, also where the key is held. A refusal changes nothing.
    pub fn register(
        &mut self,
        alloc: Global,
        instance: &SharedInstance,
        replicated: bool,
        moment: Moment,
    ) -> Result<Reply, Fault>
        ensures answers { Answers self.old (Command.Register instance.now replicated) moment result self.new }
        ensures err { OnErr result (self.new ≡ self.old) }
    {
        let (place, held, row) = self.find(instance.key());
        let Decision { change, reply } = self.registration(
            instance, held, row, replicated, moment,
        )?;
        self.carry_out(alloc, instance.key(), place, row, change)?;
        Ok(reply)
    }

    /// Adopts an instance of which a peer told (`PeerEurekaNode.syncInstancesIfTimestampDiffers` in Eureka).
    ///
    /// An overridden status other than UNKNOWN becomes the row of the id and the held instance's overridden status. Then the
    /// instance is registered, as by a peer: replies, refusals and what stays are those of `register`.
    pub fn adopt(
        &mut self,
        alloc: Global,
        instance: &SharedInstance,
        moment: Moment,
    ) -> Result<Reply, Fault>
        ensures answers { Answers self.old (Command.Adopt instance.now) moment result self.new }
        ensures err { OnErr result (self.new ≡ self.old) }
    {
        let (place, held, row) = self.find(instance.key());
        let Decision { change, reply } = self.adoption(instance, held, row, moment)?;
        self.carry_out(alloc, instance.key(), place, row, change)?;
        Ok(reply)
    }

    /// Renews a lease at the moment, also one that has expired: a heartbeat (`AbstractInstanceRegistry.renew` and
    /// `InstanceResource.renewLease` in Eureka).
    ///
    /// The lease has the status that the override rule gives, and one renewal is counted. The reply is `NotFound` where no
    /// lease is held or the override rule gives UNKNOWN; then nothing changes. It is `Stale` where a stamp is given that is
    /// greater than the held one, `Conflict` with the instance as it is now where it is smaller and a peer sends it, and else
    /// `Done`. At a peer's stale renewal an overridden status that is neither UNKNOWN nor the row already becomes the row and
    /// the instance's overridden status. The number expected stays.
    ///
    /// Refused with `Exhausted` where 2^62 renewals were counted in this minute, or with `OutOfMemory`; that changes nothing.
    /// A client's renewal takes no memory, and neither does one without a stamp.
    pub fn renew(
        &mut self,
        alloc: Global,
        key: &Key,
        last_dirty: Option<Stamp>,
        overridden: Option<Status>,
        replicated: bool,
        moment: Moment,
    ) -> Result<Reply, Fault>
        ensures answers { Answers self.old (Command.Renew key.now last_dirty overridden replicated) moment result self.new }
        ensures err { OnErr result (self.new ≡ self.old) }
        ensures memory { last_dirty ≡ None → result ≢ Err Fault.OutOfMemory }
        ensures client { replicated ≡ false → result ≢ Err Fault.OutOfMemory }
    {
        let (place, held, row) = self.find(key);
        let Decision { change, reply } = self.renewal(
            key, held, row, last_dirty, overridden, replicated, moment,
        )?;
        self.carry_out(alloc, key, place, row, change)?;
        Ok(reply)
    }

    /// Overrides the status of an instance whose lease is visible (`AbstractInstanceRegistry.statusUpdate` in Eureka).
    ///
    /// The lease is renewed, and not counted. Where the status is another than the instance's, it becomes the instance's status
    /// and overridden status and the row of its id, and a greater stamp replaces the held one; at UP the moment is the first at
    /// which the instance was up, where there was none. The reply is `Done`, or `NotFound` where no lease is visible; then
    /// nothing changes. The number expected and the counted renewals stay.
    ///
    /// Refused with `OutOfMemory` alone; that changes nothing.
    pub fn set_status(
        &mut self,
        alloc: Global,
        key: &Key,
        status: Status,
        last_dirty: Option<Stamp>,
        moment: Moment,
    ) -> Result<Reply, Fault>
        ensures answers { (replicated : Bool) → Answers self.old (Command.SetStatus key.now status last_dirty replicated) moment result self.new }
        ensures err { OnErr result (self.new ≡ self.old) }
    {
        let (place, held, row) = self.find(key);
        let Decision { change, reply } = self.status_setting(
            key, held, row, status, last_dirty, moment,
        );
        self.carry_out(alloc, key, place, row, change)?;
        Ok(reply)
    }

    /// Takes an override back from an instance whose lease is visible (`AbstractInstanceRegistry.deleteStatusOverride` in
    /// Eureka).
    ///
    /// The lease is renewed, and not counted. Where the id has a row, it goes, the instance's overridden status becomes UNKNOWN
    /// and its status the one that is given, or UNKNOWN, and a greater stamp replaces the held one. The reply is `Done`, or
    /// `NotFound` where no lease is visible; then nothing changes. The number expected and the counted renewals stay. Takes no
    /// memory.
    pub fn unset_status(
        &mut self,
        key: &Key,
        status: Option<Status>,
        last_dirty: Option<Stamp>,
        moment: Moment,
    ) -> Reply
        ensures { (replicated : Bool) → Answers self.old (Command.UnsetStatus key.now status last_dirty replicated) moment (Ok result) self.new }
    {
        let (place, held, row) = self.find(key);
        let Decision { change, reply } = self.status_unsetting(
            key, held, row, status, last_dirty, moment,
        );
        self.carry_out_in_place(key, place, row, change);
        reply
    }

    /// Ends a lease, and removes the override row of its id, also where no lease is held
    /// (`AbstractInstanceRegistry.internalCancel` in Eureka).
    ///
    /// The reply is `Done`, or `NotFound` where no lease is held; then only the row goes. A client that leaves is one fewer
    /// expected, but never fewer than none. The counted renewals stay. Takes no memory.
    pub fn cancel(&mut self, key: &Key) -> Reply
        ensures { (replicated : Bool) (t : ℕ) → Answers self.old (Command.Cancel key.now replicated) t (Ok result) self.new }
    {
        let (place, held, row) = self.find(key);
        let Decision { change, reply } = self.cancellation(key, held, row);
        self.carry_out_in_place(key, place, row, change);
        reply
    }

    /// Ends a minute (the timer of `MeasuredRate` in Eureka).
    ///
    /// The renewals since the last end become those of the last minute, which the reply tells, and counting begins anew.
    /// All else stays. Takes no memory.
    pub fn end_minute(&mut self) -> Reply
        ensures { (t : ℕ) → Answers self.old Command.EndMinute t (Ok result) self.new }
    {
        Reply::Last(self.rate.end_minute())
    }

    /// Counts the clients anew (`PeerAwareInstanceRegistryImpl.updateRenewalThreshold` in Eureka).
    ///
    /// The leases held become the number expected, where they are more than the percentage of those that were, or where
    /// self-preservation is off. The reply tells the number expected now. All else stays. Takes no memory.
    pub fn update(&mut self) -> Reply
        ensures { (t : ℕ) → Answers self.old Command.Update t (Ok result) self.new }
    {
        self.threshold.update(self.leases.len() as u32);
        Reply::Expected(self.threshold.expected())
    }

    /// Takes other settings, while the registry runs (Eureka reads its `EurekaServerConfig` from properties, which may change so).
    ///
    /// From now on the threshold, and whether eviction is permitted, are those of the new settings, and an eviction grants what it
    /// comes later than the new interval after the eviction before it. The number expected, the counted renewals, the previous
    /// eviction, leases and override rows stay. The reply is `Done`. Takes no memory.
    pub fn reconfigure(&mut self, config: Config) -> Reply
        ensures { (t : ℕ) → Answers self.old (Command.Reconfigure config) t (Ok result) self.new }
    {
        self.threshold.reconfigure(config);
        Reply::Done
    }

    /// Evicts leases that have expired at the moment, where eviction is permitted (`AbstractInstanceRegistry.evict` in Eureka).
    ///
    /// Each lease is granted what this eviction comes later than one interval after the eviction before it; at the first eviction
    /// nothing. Of the leases that have expired at most the share goes that the settings' percentage leaves, drawn by the chooser
    /// from their keys in key order; the override rows of their ids go with them. This is the previous eviction from now on, also
    /// where eviction isn't permitted.
    ///
    /// Each victim is one fewer expected, but never fewer than none, and the threshold is that of the number that is left
    /// (`AbstractInstanceRegistry.internalCancel` in Eureka). Whether the eviction is permitted, and the share, are still those of
    /// the registry before it. The counted renewals stay.
    ///
    /// The reply is `Evicted` with the victims in the order in which they were drawn. Refused with `OutOfMemory` alone; that
    /// changes nothing, and no word is asked.
    pub fn evict<C: Chooser>(
        &mut self,
        alloc: Global,
        moment: Moment,
        chooser: &mut C,
    ) -> Result<Reply, Fault>
        ensures answers { Answers self.old Command.Evict moment result self.new }
        ensures drawn { IfOk result (λ r. (victims : List Key) × (r ≡ Reply.Evicted victims) × Draws C.asks self.old moment chooser.old victims chooser.new) }
        ensures err { OnErr result (self.new ≡ self.old) }
        ensures unasked { OnErr result (chooser.new ≡ chooser.old) }
    {
        let eviction = self.evict_due(alloc, moment, 0, chooser)?;
        Ok(Reply::Evicted(Keys::new(eviction.victims)))
    }

    /// Evicts as `evict` does, and hands back the victims with so many replies that tell them.
    pub(crate) fn evict_due<C: Chooser>(
        &mut self,
        alloc: Global,
        moment: Moment,
        replies: u32,
        chooser: &mut C,
    ) -> Result<Eviction, Fault>
        ensures answers { IfOk result (λ v. Answers self.old Command.Evict moment (Ok (Reply.Evicted v.victims.items)) self.new) }
        ensures drawn { IfOk result (λ v. Draws C.asks self.old moment chooser.old v.victims.items chooser.new) }
        ensures replies { IfOk result (λ v. v.replies.items ≡ replicate replies (Reply.Evicted v.victims.items)) }
        ensures undo { IfOk result (λ v. eviction_undone (eviction_before self.old v) self.new ≡ self.old) }
        ensures refused { IfErr result (λ f. Answers self.old Command.Evict moment (Err f) self.old) }
        ensures err { OnErr result (self.new ≡ self.old) }
        ensures unasked { OnErr result (chooser.new ≡ chooser.old) }
    {
        let config = self.threshold.config();
        let permitted = self.threshold.permitted(self.rate.last());
        let extra = extra_time(&config, self.previous, moment);
        let eviction = run_eviction(
            alloc,
            &mut self.leases,
            &mut self.overrides,
            &config,
            permitted,
            moment,
            extra,
            replies,
            chooser,
        )?;
        self.threshold.left_by(eviction.victims.len());
        self.previous = Some(moment);
        Ok(eviction)
    }

    /// The instance and the moments of a lease, where it is visible at the moment
    /// (`AbstractInstanceRegistry.getInstanceByAppAndId` in Eureka).
    ///
    /// None where no lease is held, and where eviction is permitted and the lease has expired. Takes no memory.
    pub fn look(&self, key: &Key, moment: Moment) -> Option<(&SharedInstance, Times)>
        ensures { Shows self.now (λ s. one s key.now moment) (shown result) }
    {
        match self.visible(self.leases.get(key), moment) {
            Some(held) => Some((held.instance(), held.times())),
            None => None,
        }
    }

    /// Everything that is held of an application, or of all where none is given, in key order: also what has expired
    /// (`AbstractInstanceRegistry.getApplication` and `getApplications` in Eureka).
    ///
    /// Empty where the application holds no lease. `AllocError` where no memory is left.
    pub fn list(&self, alloc: Global, app: Option<&App>) -> Result<Vec<Listed>, AllocError>
        ensures { IfOk result (λ leases. Shows self.now (listing (option_copied app.entry)) leases.items) }
    {
        self.leases.listed(alloc, app)
    }

    /// Whether it is known that `list` would tell few leases, and that each is short (`Leases::is_brief`): `few` at most, and of each at most `short` bytes
    /// of what its client gave, as text. Takes no memory.
    pub fn is_brief(&self, app: Option<&App>, few: usize, short: usize) -> bool
        ensures { result ≡ true → ListsBriefly few short (option_copied app.entry) self.now }
    {
        self.leases.is_brief(app, few, short)
    }

    /// Everything that is held, for who holds a lock: it looks at no lease, but near those that came, went, or changed by more than their last update since
    /// it was called last. The registry stays as it is. `AllocError` where no memory is left.
    pub fn snapshot(&mut self, alloc: Global) -> Result<Snapshot, AllocError>
        ensures listing { IfOk result (λ s. Shows self.old (listing None) s) }
        ensures same { self.new ≡ self.old }
    {
        self.leases.snapshot(alloc)
    }

    /// Makes room for as many leases as may be held, so that no table grows any more as they come. The registry stays as it is. `AllocError` where no memory
    /// is left.
    pub fn reserve_all(&mut self) -> Result<(), AllocError>
        ensures { self.new ≡ self.old }
    {
        self.leases.reserve_all()
    }

    /// The registry as plain data: settings, number expected, leases in key order, override rows in the order of their ids, the
    /// counts of renewals and the previous eviction, and no peers. `AllocError` where no memory is left.
    pub fn plain(&self, alloc: Global) -> Result<State, AllocError>
        ensures { IfOk result (λ s. s ≡ state_of self.now) }
    {
        let leases = Listing::new(self.leases.listed(alloc, None)?);
        let overrides = self.overrides.listed(alloc)?;
        let mut rate = self.rate;
        let last = rate.last();
        Ok(State {
            config: self.threshold.config(),
            expected: self.threshold.expected(),
            leases,
            overrides,
            last,
            since: rate.end_minute(),
            previous: self.previous,
            queues: Queues::new(Vec::new(alloc)),
        })
    }

    /// The same registry once more; its leases share their instances. `AllocError` where no memory is left.
    pub fn copy(&self, alloc: Global) -> Result<Registry, AllocError>
        ensures { IfOk result (λ copy. copy ≡ self.now) }
    {
        Ok(Registry {
            leases: self.leases.copy(alloc)?,
            overrides: self.overrides.copy(alloc)?,
            threshold: self.threshold,
            rate: self.rate,
            previous: self.previous,
        })
    }

    /// Undoes a step of that command, by what it replaced: a registry that is what the step left is again what it was before it.
    ///
    /// `AllocError` where no memory is left, or where a lease is to come back and 65,536 are held, as they never are in what a step left.
    /// Then a part may be undone, so it is for a registry that is let go then.
    pub fn undo(&mut self, alloc: Global, command: &Command, undo: &Undo) -> Result<(), AllocError>
        ensures { OnOk result (self.new ≡ undone command.now undo.now self.old) }
    {
        match undo {
            Undo::Nothing => {}
            Undo::Renewal(before) => match key_of(command) {
                Some(key) => self.undo_renewal(key, before),
                None => {}
            },
            Undo::Lease(before) => match key_of(command) {
                Some(key) => self.undo_lease(alloc, key, before)?,
                None => {}
            },
            Undo::Eviction(before) => self.undo_eviction(alloc, before)?,
            Undo::Minute(rate) => self.rate = *rate,
            Undo::Expected(clients) => self.threshold.expect(clients.number()),
            Undo::Settings(config) => self.threshold.reconfigure(*config),
        }
        Ok(())
    }

    /// Undoes a step of a command that changed the moments of the lease of that key and the counts alone.
    fn undo_renewal(&mut self, key: &Key, before: &RenewalBefore)
        ensures { self.new ≡ renewal_undone (Some key.now) before.now self.old }
    {
        put_moments(&mut self.leases, key, before.lease);
        self.rate = before.rate;
    }

    /// Undoes a step of another command on the lease of that key. `AllocError` as `undo`.
    fn undo_lease(
        &mut self,
        alloc: Global,
        key: &Key,
        before: &LeaseBefore,
    ) -> Result<(), AllocError>
        ensures { OnOk result (self.new ≡ lease_undone (Some key.now) before.now self.old) }
    {
        put_lease(&mut self.leases, alloc, key, before.held.as_ref())?;
        put_row(&mut self.overrides, alloc, &key.id, before.row)?;
        self.threshold.expect(before.expected.number());
        self.rate = before.rate;
        Ok(())
    }

    /// Undoes an eviction. `AllocError` as `undo`.
    fn undo_eviction(&mut self, alloc: Global, before: &EvictionBefore) -> Result<(), AllocError>
        ensures { OnOk result (self.new ≡ eviction_undone before.now self.old) }
    {
        let keys = before.victims.as_slice();
        let Removed { leases, rows } = &before.removed;
        put_leases(&mut self.leases, alloc, keys, leases.as_slice())?;
        put_rows(&mut self.overrides, alloc, keys, rows.as_slice())?;
        self.threshold.expect(before.expected.number());
        self.previous = before.previous;
        Ok(())
    }

    /// What is held under that key, and where, and the override row of its id. Takes no memory.
    #[inline(always)]
    pub(crate) fn find(&self, key: &Key) -> (Place, Option<&HeldLease>, Option<Status>)
        ensures held { option_copied result.1 ≡ map.get self.now.leases key.now }
        ensures row { result.2 ≡ map.get self.now.overrides key.now.id }
    {
        let (place, held) = self.leases.find(key);
        (place, held, self.overrides.get(&key.id))
    }

    /// What is known beside a lease whose id has that row.
    fn context(&self, row: Option<Status>) -> Context
        ensures row { result.row ≡ row }
        ensures expected { result.expected ≡ self.now.expected }
        ensures bound { result.expected ≤ MOST_EXPECTED }
        ensures rate { result.rate ≡ counted self.now }
    {
        Context {
            row,
            expected: self.threshold.expected(),
            rate: self.rate,
        }
    }

    /// What is seen at the moment of what is held: nothing, where eviction is permitted and it has expired.
    fn visible<'a>(&self, held: Option<&'a HeldLease>, moment: Moment) -> Option<&'a HeldLease>
        ensures { option_copied result ≡ plain_seen (is_permitted self.now.config self.now.expected self.now.last) moment (option_copied held.entry) }
    {
        let permitted = self.threshold.permitted(self.rate.last());
        match held {
            Some(held) if permitted && held.expired(moment, 0) => None,
            held => held,
        }
    }

    /// Whether a lease can be registered, where that is held under its key, and how many clients are expected then. `Full` or `Exhausted`
    /// where the machine has that fault. Takes no memory.
    fn check_join(&self, held: Option<&HeldLease>) -> Result<u64, Fault>
        ensures ok { (k : Key) → option_copied held.entry ≡ map.get self.now.leases k → OnOk result (plain_join_fault self.now k ≡ None) }
        ensures expected { IfOk result (λ expected. expected ≡ one_more (not (is_some (option_copied held.entry))) self.now.expected) }
        ensures bound { IfOk result (λ expected. expected ≤ MOST_EXPECTED) }
        ensures few { option_copied held.entry ≡ None → OnOk result (map.len self.now.leases < MOST_LEASES) }
        ensures refused { (k : Key) → option_copied held.entry ≡ map.get self.now.leases k → IfErr result (λ f. plain_join_fault self.now k ≡ Some f) }
    {
        if held.is_some() {
            return Ok(self.threshold.expected());
        }
        if self.leases.len() == MOST_LEASES {
            return Err(Fault::Full);
        }
        self.threshold.one_more()
    }

    /// What a registration does to the lease of its key, where that is held and its id has that row.
    pub(crate) fn registration(
        &self,
        instance: &SharedInstance,
        held: Option<&HeldLease>,
        row: Option<Status>,
        replicated: bool,
        moment: Moment,
    ) -> Result<Decision, Fault>
        requires held { option_copied held ≡ map.get self.now.leases instance.now.key }
        requires row { row ≡ map.get self.now.overrides instance.now.key.id }
        ensures decides { IfOk result (Decides self.now (Command.Register instance.now replicated) moment instance.now.key) }
        ensures refused { IfErr result (λ f. Answers self.now (Command.Register instance.now replicated) moment (Err f) self.now) }
    {
        let expected = self.check_join(held)?;
        let context = Context {
            row,
            expected,
            rate: self.rate,
        };
        Ok(decide_join(instance, held, context, replicated, moment)?)
    }

    /// What an adoption does to the lease of its key, where that is held and its id has that row.
    pub(crate) fn adoption(
        &self,
        instance: &SharedInstance,
        held: Option<&HeldLease>,
        row: Option<Status>,
        moment: Moment,
    ) -> Result<Decision, Fault>
        requires held { option_copied held ≡ map.get self.now.leases instance.now.key }
        requires row { row ≡ map.get self.now.overrides instance.now.key.id }
        ensures decides { IfOk result (Decides self.now (Command.Adopt instance.now) moment instance.now.key) }
        ensures refused { IfErr result (λ f. Answers self.now (Command.Adopt instance.now) moment (Err f) self.now) }
    {
        let expected = self.check_join(held)?;
        let context = Context {
            row: row_of(instance.overridden()).or(row),
            expected,
            rate: self.rate,
        };
        Ok(decide_join(instance, held, context, true, moment)?)
    }

    /// What a renewal does to the lease of that key, where that is held and its id has that row.
    #[inline(always)]
    pub(crate) fn renewal(
        &self,
        key: &Key,
        held: Option<&HeldLease>,
        row: Option<Status>,
        last_dirty: Option<Stamp>,
        overridden: Option<Status>,
        replicated: bool,
        moment: Moment,
    ) -> Result<Decision, Fault>
        requires held { option_copied held ≡ map.get self.now.leases key.now }
        requires row { row ≡ map.get self.now.overrides key.now.id }
        ensures decides { IfOk result (Decides self.now (Command.Renew key.now last_dirty overridden replicated) moment key.now) }
        ensures refused { IfErr result (λ f. Answers self.now (Command.Renew key.now last_dirty overridden replicated) moment (Err f) self.now) }
        ensures frugal { (last_dirty ≡ None) ⊎ (replicated ≡ false) → IfOk result (λ d. IsFrugal row d.change) }
        ensures memory { (last_dirty ≡ None) ⊎ (replicated ≡ false) → result ≢ Err Fault.OutOfMemory }
    {
        let context = self.context(row);
        decide_renewal(held, context, last_dirty, overridden, replicated, moment)
    }

    /// What a status that is set does to the lease of that key, where that is held and its id has that row.
    pub(crate) fn status_setting(
        &self,
        key: &Key,
        held: Option<&HeldLease>,
        row: Option<Status>,
        status: Status,
        last_dirty: Option<Stamp>,
        moment: Moment,
    ) -> Decision
        requires held { option_copied held ≡ map.get self.now.leases key.now }
        requires row { row ≡ map.get self.now.overrides key.now.id }
        ensures { (replicated : Bool) → Decides self.now (Command.SetStatus key.now status last_dirty replicated) moment key.now result }
    {
        let visible = self.visible(held, moment);
        decide_status(visible, self.context(row), status, last_dirty, moment)
    }

    /// What a status that is taken back does to the lease of that key, where that is held and its id has that row.
    pub(crate) fn status_unsetting(
        &self,
        key: &Key,
        held: Option<&HeldLease>,
        row: Option<Status>,
        status: Option<Status>,
        last_dirty: Option<Stamp>,
        moment: Moment,
    ) -> Decision
        requires held { option_copied held ≡ map.get self.now.leases key.now }
        requires row { row ≡ map.get self.now.overrides key.now.id }
        ensures decides { (replicated : Bool) → Decides self.now (Command.UnsetStatus key.now status last_dirty replicated) moment key.now result }
        ensures frugal { IsFrugal row result.change }
    {
        let visible = self.visible(held, moment);
        decide_no_status(visible, self.context(row), status, last_dirty, moment)
    }

    /// What a cancel does to the lease of that key, where that is held and its id has that row.
    #[inline(always)]
    pub(crate) fn cancellation(
        &self,
        key: &Key,
        held: Option<&HeldLease>,
        row: Option<Status>,
    ) -> Decision
        requires held { option_copied held ≡ map.get self.now.leases key.now }
        ensures decides { (replicated : Bool) (t : ℕ) → Decides self.now (Command.Cancel key.now replicated) t key.now result }
        ensures frugal { IsFrugal row result.change }
    {
        decide_cancel(held, self.context(row))
    }

    /// Carries out what was decided of the lease of that key, which was found at that place, and whose id has that row. All memory is
    /// taken first: `OutOfMemory` alone refuses, which changes nothing.
    #[inline(always)]
    pub(crate) fn carry_out(
        &mut self,
        alloc: Global,
        key: &Key,
        place: Place,
        row: Option<Status>,
        change: Change,
    ) -> Result<(), Fault>
        requires row { row ≡ map.get self.old.overrides key.now.id }
        requires ready { IsReady self.old key.now change }
        ensures ok { OnOk result (self.new ≡ left self.old key.now change) }
        ensures no_other { IfErr result (λ f. f ≡ Fault.OutOfMemory) }
        ensures err { OnErr result (self.new ≡ self.old) }
        ensures memory { IsFrugal row change → IsOk result }
    {
        let Change {
            lease,
            row: after,
            expected,
            counted,
        } = change;
        let new = new_id(&mut self.overrides, alloc, &key.id, row, after)?;
        match lease {
            LeaseChange::Begun(held) => begin(&mut self.leases, alloc, key, held)?,
            lease => write_lease(&mut self.leases, key, place, lease),
        }
        write_row(&mut self.overrides, &key.id, new, row, after);
        self.count(expected, counted);
        Ok(())
    }

    /// The same, where that wants no memory.
    fn carry_out_in_place(&mut self, key: &Key, place: Place, row: Option<Status>, change: Change)
        requires row { row ≡ map.get self.old.overrides key.now.id }
        requires ready { IsReady self.old key.now change }
        requires frugal { IsFrugal row change }
        ensures { self.new ≡ left self.old key.now change }
    {
        let Change {
            lease,
            row: after,
            expected,
            counted,
        } = change;
        write_lease(&mut self.leases, key, place, lease);
        write_row(&mut self.overrides, &key.id, None, row, after);
        self.count(expected, counted);
    }

    /// What a command on the lease of that key is to replace by that change, where this is held and its id has that row. `AllocError`
    /// where 2^63 share its instance.
    #[inline(always)]
    pub(crate) fn lease_before(
        &self,
        key: &Key,
        held: Option<&HeldLease>,
        row: Option<Status>,
        change: &Change,
    ) -> Result<Undo, AllocError>
        requires held { option_copied held ≡ map.get self.now.leases key.now }
        requires row { row ≡ map.get self.now.overrides key.now.id }
        ensures { IfOk result (λ u. (c : Command) → key_of c ≡ Some key.now → undone c u (left self.now key.now change.now) ≡ self.now) }
    {
        match held {
            Some(held)
                if change.lease.keeps(held.instance())
                    && change.row == row
                    && change.expected == self.threshold.expected() => {
                Ok(Undo::Renewal(RenewalBefore {
                    lease: held.lease(),
                    rate: self.rate,
                }))
            }
            _ => Ok(Undo::Lease(LeaseBefore {
                held: shared(held)?,
                row,
                expected: Clients::new(self.threshold.expected()),
                rate: self.rate,
            })),
        }
    }

    /// What an eviction is to replace, before its victims are known. Takes no memory.
    pub(crate) fn eviction_before(&self, alloc: Global) -> EvictionBefore
        ensures expected { result.expected ≡ self.now.expected }
        ensures previous { result.previous ≡ self.now.previous }
    {
        EvictionBefore {
            victims: Vec::new(alloc),
            removed: Removed {
                leases: Vec::new(alloc),
                rows: Vec::new(alloc),
            },
            expected: Clients::new(self.threshold.expected()),
            previous: self.previous,
        }
    }

    /// What the end of a minute replaces.
    pub(crate) fn minute_before(&self) -> Undo
        ensures { result ≡ Undo.Minute (counted self.now) }
    {
        Undo::Minute(self.rate)
    }

    /// What a count of the clients replaces.
    pub(crate) fn expected_before(&self) -> Undo
        ensures { result ≡ Undo.Expected self.now.expected }
    {
        Undo::Expected(Clients::new(self.threshold.expected()))
    }

    /// What new settings replace.
    pub(crate) fn settings_before(&self) -> Undo
        ensures { result ≡ Undo.Settings self.now.config }
    {
        Undo::Settings(self.threshold.config())
    }

    /// So many clients are expected from now on; a renewal is counted, where one is.
    #[inline(always)]
    fn count(&mut self, expected: u64, counted: bool)
        requires bound { expected ≤ MOST_EXPECTED }
        requires countable { count_fault counted self.old.since ≡ None }
        ensures { self.new ≡ record self.old { expected = expected; since = if counted then self.old.since + 1 else self.old.since } }
    {
        self.threshold.expect(expected);
        if counted {
            self.rate.count();
        }
    }
}

/// What an eviction comes later than one interval after the eviction before it, in milliseconds; 0 at the first eviction.
fn extra_time(config: &Config, previous: Option<Moment>, moment: Moment) -> u64
    ensures { result ≡ extra_time config.now previous moment }
{
    match previous {
        Some(previous) => {
            let since = moment.ms().saturating_sub(previous.ms());
            since.saturating_sub(u64::from(config.evict_ms))
        }
        None => 0,
    }
}
