//! Steps: each command by its call, with its reply, copies of what is held after it, and what undoes it.
ghost use Rattle.std.specs.Prelude.{◌≡◌, ℕ, Bool, [], false, true, Some, Err, IfOk, IfErr, OnErr};
ghost use Rattle.std.specs.FinMap as map;
ghost use Rattle.std.specs.Borrow.{Bor};
ghost use Rattle.std.specs.Option.{option_copied, option_map};
ghost use Rattle.eu_base.specs.declared.names.Key.{Key};
ghost use Rattle.eu_model.specs.Answers.{Answers};
ghost use Rattle.eu_model.specs.Owned.{owns_nothing};
ghost use Rattle.eu_model.specs.Server.{is_for_peers, key_of};
ghost use Rattle.eu_core.specs.Answered.{IsAnswered};
ghost use Rattle.eu_core.specs.Decided.{Decides};
ghost use Rattle.eu_core.specs.Stepped.{Acts, Steps};
ghost use Rattle.eu_core.specs.Undone.{undone};

use crate::decision::Decision;
use crate::registry::Registry;
use crate::replies::{Answered, copies_left, others_for, owning_nothing, replies_for, split};
use crate::undo::Undo;
use eu_base::{Config, Fault, Key, Moment, SharedInstance, Status};
use eu_clock::Chooser;
use eu_model::{Command, Reply};
use eu_store::HeldLease;
use std::alloc::Global;

/// What a step gives: its reply, so many copies of the instance that is held after it, and what undoes it.
#[derive(Debug, Drop)]
pub struct Stepped {
    /// The reply and, where it owns memory, one more for each other use.
    pub answered: Answered,
    /// The copies; none where no lease is held under the command's key after the step, or where it names no key.
    pub held: Vec<SharedInstance>,
    /// What the step replaced.
    pub undo: Undo,
}

impl Registry {
    /// Takes one step by a command at the moment, and gives its reply. Where that owns memory it is there once more for who asked and,
    /// where one `logs` it, once more for a log. It gives so many copies of the instance that is held under the command's key after it: none
    /// where no lease is held then, or where the command names no key (`EndMinute`, `Update`, `Reconfigure`, `Evict`). And it gives what it
    /// replaced, by which it is undone.
    ///
    /// No command for a peer (`Drain`, `Landed`, `Lost`) is handed in. The step is that of the command's call: `register`,
    /// `renew`, `cancel`, `set_status`, `unset_status`, `adopt`, `end_minute`, `update`, `reconfigure` or `evict`, whose replies and
    /// refusals it has.
    /// Refused with `Full` or `Exhausted` where that call is, and else with `OutOfMemory`, also where no memory is left for
    /// replies and copies; a refusal changes nothing, and asks the chooser for no word. Only an `Evict` asks it.
    #[inline(always)]
    pub fn step<C: Chooser>(
        &mut self,
        alloc: Global,
        command: &Command,
        moment: Moment,
        logs: bool,
        held: u32,
        chooser: &mut C,
    ) -> Result<Stepped, Fault>
        requires { is_for_peers command.now ≡ false }
        ensures ok { IfOk result (λ s. Steps C.asks self.old chooser.old command.now moment logs held s self.new chooser.new) }
        ensures undo { IfOk result (λ s. undone command.now s.undo self.new ≡ self.old) }
        ensures refused { IfErr result (λ f. Answers self.old command.now moment (Err f) self.old) }
        ensures err { OnErr result (self.new ≡ self.old) }
        ensures unasked { OnErr result (chooser.new ≡ chooser.old) }
    {
        let Some(key) = key_of(command) else {
            return self.step_on_no_lease(alloc, command, moment, logs, chooser);
        };
        let (place, found, row) = self.find(key);
        let decision = self.decide(command, key, found, row, moment)?;
        let Decision { change, reply } = decision;
        let others = others_for(alloc, &reply, logs)?;
        let held = copies_left(alloc, &change.lease, found, held)?;
        let undo = self.lease_before(key, found, row, &change)?;
        self.carry_out(alloc, key, place, row, change)?;
        Ok(Stepped {
            answered: Answered { reply, others },
            held,
            undo,
        })
    }

    /// The step of a command that is on no lease.
    fn step_on_no_lease<C: Chooser>(
        &mut self,
        alloc: Global,
        command: &Command,
        moment: Moment,
        logs: bool,
        chooser: &mut C,
    ) -> Result<Stepped, Fault>
        requires { (is_for_peers command.now ≡ false) × (key_of command.now ≡ None) }
        ensures ok { IfOk result (λ s. (m : ℕ) → Steps C.asks self.old chooser.old command.now moment logs m s self.new chooser.new) }
        ensures undo { IfOk result (λ s. undone command.now s.undo self.new ≡ self.old) }
        ensures refused { IfErr result (λ f. Answers self.old command.now moment (Err f) self.old) }
        ensures err { OnErr result (self.new ≡ self.old) }
        ensures unasked { OnErr result (chooser.new ≡ chooser.old) }
    {
        match command {
            Command::EndMinute => Ok(self.step_end_minute(alloc)),
            Command::Update => Ok(self.step_update(alloc)),
            Command::Reconfigure { config } => Ok(self.step_reconfigure(alloc, config)),
            Command::Evict => self.step_evict(alloc, moment, logs, chooser),
            _ => unreachable!(),
        }
    }

    /// What a command does to the lease of its key, where that is held and its id has that row.
    #[inline(always)]
    fn decide(
        &self,
        command: &Command,
        key: &Key,
        held: Option<&HeldLease>,
        row: Option<Status>,
        moment: Moment,
    ) -> Result<Decision, Fault>
        requires key { key_of command.now ≡ Some key.now }
        requires held { option_copied held ≡ map.get self.now.leases key.now }
        requires row { row ≡ map.get self.now.overrides key.now.id }
        ensures decides { IfOk result (Decides self.now command.now moment key.now) }
        ensures refused { IfErr result (λ f. Answers self.now command.now moment (Err f) self.now) }
    {
        match command {
            Command::Register {
                instance,
                replicated,
            } => self.registration(instance, held, row, *replicated, moment),
            Command::Renew {
                last_dirty,
                overridden,
                replicated,
                ..
            } => self.renewal(
                key,
                held,
                row,
                *last_dirty,
                *overridden,
                *replicated,
                moment,
            ),
            Command::Cancel { .. } => Ok(self.cancellation(key, held, row)),
            Command::SetStatus {
                status,
                last_dirty,
                ..
            } => Ok(self.status_setting(key, held, row, *status, *last_dirty, moment)),
            Command::UnsetStatus {
                status,
                last_dirty,
                ..
            } => Ok(self.status_unsetting(key, held, row, *status, *last_dirty, moment)),
            Command::Adopt { instance } => self.adoption(instance, held, row, moment),
            _ => unreachable!(),
        }
    }

    fn step_evict<C: Chooser>(
        &mut self,
        alloc: Global,
        moment: Moment,
        logs: bool,
        chooser: &mut C,
    ) -> Result<Stepped, Fault>
        ensures ok { IfOk result (λ s. (m : ℕ) → Steps C.asks self.old chooser.old Command.Evict moment logs m s self.new chooser.new) }
        ensures undo { IfOk result (λ s. undone Command.Evict s.undo self.new ≡ self.old) }
        ensures refused { IfErr result (λ f. Answers self.old Command.Evict moment (Err f) self.old) }
        ensures err { OnErr result (self.new ≡ self.old) }
        ensures unasked { OnErr result (chooser.new ≡ chooser.old) }
    {
        let mut before = Box::new(alloc, self.eviction_before(alloc))?;
        let eviction = self.evict_due(alloc, moment, replies_for(logs), chooser)?;
        before.victims = eviction.victims;
        before.removed = eviction.removed;
        Ok(Stepped {
            answered: split(eviction.replies),
            held: Vec::new(alloc),
            undo: Undo::Eviction(before),
        })
    }

    fn step_end_minute(&mut self, alloc: Global) -> Stepped
        ensures acts { (t m : ℕ) (logs : Bool) → Acts self.old Command.EndMinute t logs m result self.new }
        ensures undo { undone Command.EndMinute result.undo self.new ≡ self.old }
    {
        let undo = self.minute_before();
        let reply = self.end_minute();
        on_no_lease(alloc, reply, undo)
    }

    fn step_update(&mut self, alloc: Global) -> Stepped
        ensures acts { (t m : ℕ) (logs : Bool) → Acts self.old Command.Update t logs m result self.new }
        ensures undo { undone Command.Update result.undo self.new ≡ self.old }
    {
        let undo = self.expected_before();
        let reply = self.update();
        on_no_lease(alloc, reply, undo)
    }

    fn step_reconfigure(&mut self, alloc: Global, config: &Config) -> Stepped
        ensures acts { (t m : ℕ) (logs : Bool) → Acts self.old (Command.Reconfigure config.now) t logs m result self.new }
        ensures undo { undone (Command.Reconfigure config.now) result.undo self.new ≡ self.old }
    {
        let undo = self.settings_before();
        let reply = self.reconfigure(*config);
        on_no_lease(alloc, reply, undo)
    }
}

/// What a step gives that is on no lease, and whose reply owns no memory. Takes none.
fn on_no_lease(alloc: Global, reply: Reply, undo: Undo) -> Stepped
    requires { owns_nothing reply ≡ true }
    ensures reply { result.answered.reply ≡ reply }
    ensures answered { (logs : Bool) → IsAnswered logs result.answered }
    ensures held { result.held.items ≡ [] }
    ensures undo { result.undo ≡ undo }
{
    Stepped {
        answered: owning_nothing(alloc, reply),
        held: Vec::new(alloc),
        undo,
    }
}

/// The key of the lease that a command is on, if it is on one.
pub(crate) fn key_of(command: &Command) -> Option<&Key>
    ensures { option_map (λ (k : Bor Key). k.now) result ≡ key_of command.now }
{
    match command {
        Command::Register { instance, .. } | Command::Adopt { instance } => Some(instance.key()),
        Command::Renew { key, .. }
        | Command::Cancel { key, .. }
        | Command::SetStatus { key, .. }
        | Command::UnsetStatus { key, .. } => Some(key),
        _ => None,
    }
}
