//! The tasks that wait.
ghost use Rattle.std.specs.Prelude.{◌≡◌, ◌==◌, ◌+◌, ◌≤◌, ◌<◌, ◌↔◌, ◌&&◌, ◌∷◌, ◌++◌, [], not, drop, take, filter, length, map, option_to_list, true, false, nat_le, if◌then◌else◌, Some, None, IfNone, IfOk, OnOk, IsTrue};
ghost use Rattle.std.specs.VecDeque.{deque_len};
ghost use Rattle.eu_base.specs.Values.{same_name};
ghost use Rattle.eu_model.specs.Server.{again, after_codes, after_code, bounded, live, put, waits};
ghost use Rattle.eu_audit_queue.specs.PlainQueue.{are_apart};
ghost use Rattle.eu_audit_queue.specs.Names.{AreNoted, name_of};

use crate::ages::{Ages, forget, is_live, pop_old, remember};
use crate::name::Name;
use crate::order::Order;
use eu_base::{Action, MOST_SENT, MOST_WAITING, Moment, Task, Tasks};
use std::alloc::{AllocError, Global};
use std::collections::{BTreeSet, VecDeque};
use std::marker::Model;

/// The code of an answer to a heartbeat that found no lease.
const NOT_FOUND: u16 = 404;

/// The tasks that wait, in their order, with a note of when each was queued. Contracts see the tasks.
///
/// A note goes with its task, so there are as many. The old tasks are found by their notes, with no look at the others.
#[derive(Debug, Drop)]
pub(crate) struct Waiting {
    order: Order,
    ages: Ages,
}

impl Model for Waiting {
    ghost use Rattle.std.specs.Prelude.{List};
    ghost use Rattle.std.specs.Coded.{coded_list};
    ghost use Rattle.eu_base.specs.declared.tasks.Task.{Task};
    ghost use Rattle.eu_base.specs.contracts.tasks.Task as task;
    ghost use Rattle.eu_audit_queue.specs.Names.{AreNoted};

    ghost Value = { List Task };

    ghost coded = { coded_list task.the_row.coded };

    ghost view = { λ w. w.order };

    ghost invariant = { λ w. AreNoted w.ages w.order };
}

impl Waiting {
    /// No task. `AllocError` where no memory is left.
    fn new(alloc: Global) -> Result<Waiting, AllocError>
        ensures { IfOk result (λ waiting. waiting ≡ []) }
    {
        Ok(Waiting {
            order: Order::new(alloc)?,
            ages: BTreeSet::new(alloc),
        })
    }

    /// Copies of these tasks. None where they are more than 10,000, or two of them have one name. `AllocError` where no memory is left.
    pub(crate) fn read(alloc: Global, tasks: &[Task]) -> Result<Option<Waiting>, AllocError>
        ensures { IfOk result (λ found. found ≡ (if nat_le (length tasks.now) MOST_WAITING && are_apart tasks.now then Some tasks.now else None)) }
    {
        if tasks.len() > MOST_WAITING {
            return Ok(None);
        }
        let mut waiting = Waiting::new(alloc)?;
        for task in tasks {
            if waiting.order.has(alloc, task)? {
                return Ok(None);
            }
            waiting.push(alloc, task.copy(alloc)?)?;
        }
        Ok(Some(waiting))
    }

    /// Puts a task in the place of the one of its name that waits, else last; where 10,000 wait, the first is dropped then.
    /// `AllocError` where no memory is left.
    pub(crate) fn put(&mut self, alloc: Global, task: Task) -> Result<(), AllocError>
        ensures { OnOk result (self.new ≡ put task self.old) }
    {
        if self.order.has(alloc, &task)? {
            return self.replace(alloc, task);
        }
        if self.order.len() >= MOST_WAITING {
            self.pop_first();
        }
        self.push(alloc, task)
    }

    /// Puts a task in the place of the one of its name. `AllocError` where no memory is left.
    fn replace(&mut self, alloc: Global, task: Task) -> Result<(), AllocError>
        ensures { OnOk result (self.new ≡ map (λ other. if same_name task other then task else other) self.old) }
    {
        let name = Name::of(alloc, &task)?;
        let queued = task.queued;
        remember(&mut self.ages, alloc, &task)?;
        let Some(before) = self.order.replace(&name, task) else {
            return Ok(());
        };
        if before.ms() != queued.ms() {
            forget(&mut self.ages, name, before);
        }
        Ok(())
    }

    /// Puts a task of a name of which none waits last. `AllocError` where no memory is left.
    fn push(&mut self, alloc: Global, task: Task) -> Result<(), AllocError>
        requires new { waits task self.old ≡ false }
        requires few { length self.old < MOST_WAITING }
        ensures { OnOk result (self.new ≡ self.old ++ task ∷ []) }
    {
        remember(&mut self.ages, alloc, &task)?;
        self.order.put_last(alloc, task)?;
        Ok(())
    }

    /// Puts a task of a name of which none waits first. `AllocError` where no memory is left.
    fn push_first(&mut self, alloc: Global, task: Task) -> Result<(), AllocError>
        requires new { waits task self.old ≡ false }
        requires few { length self.old < MOST_WAITING }
        ensures { OnOk result (self.new ≡ task ∷ self.old) }
    {
        remember(&mut self.ages, alloc, &task)?;
        self.order.put_first(alloc, task)?;
        Ok(())
    }

    /// Puts tasks before the others. `AllocError` where no memory is left.
    fn push_all_first(&mut self, alloc: Global, mut tasks: VecDeque<Task>) -> Result<(), AllocError>
        requires apart { are_apart (tasks.items ++ self.old) ≡ true }
        requires few { deque_len tasks + length self.old ≤ MOST_WAITING }
        ensures { OnOk result (self.new ≡ tasks.items ++ self.old) }
    {
        while let Some(task) = tasks.pop_back() {
            self.push_first(alloc, task)?;
        }
        Ok(())
    }

    /// Takes out the first task. Takes no memory.
    fn pop_first(&mut self) -> Option<Task>
        ensures items { self.old ≡ option_to_list result ++ self.new }
        ensures none { IfNone result (self.old ≡ []) }
    {
        let (name, task) = self.order.pop_first()?;
        forget(&mut self.ages, name, task.queued);
        Some(task)
    }

    /// Whether a task waits that is still worth sending at the moment. Takes no memory.
    ///
    /// It looks at the first such task, and at those before it, which the drain that asks then drops: so each is looked at once. Where
    /// there is no such task it looks at all, and the drain is refused, which ends the audit.
    pub(crate) fn any_live(&self, moment: Moment) -> bool
        ensures { result ≡ not (length (live moment self.now) == 0) }
    {
        self.order.any_live(moment)
    }

    /// Takes out the first 250 tasks that are still worth sending at the moment, and drops those that aren't. `AllocError` where no
    /// memory is left.
    pub(crate) fn send(&mut self, alloc: Global, moment: Moment) -> Result<Vec<Task>, AllocError>
        ensures rest { OnOk result (self.new ≡ drop MOST_SENT (live moment self.old)) }
        ensures batch { IfOk result (λ batch. batch.items ≡ take MOST_SENT (live moment self.old)) }
        ensures apart { IfOk result (λ batch. are_apart batch.items ≡ true) }
    {
        drop_old(&mut self.order, &mut self.ages, moment);
        self.pop_batch(alloc)
    }

    /// Takes out the first 250 tasks. `AllocError` where no memory is left.
    fn pop_batch(&mut self, alloc: Global) -> Result<Vec<Task>, AllocError>
        ensures rest { OnOk result (self.new ≡ drop MOST_SENT self.old) }
        ensures batch { IfOk result (λ batch. batch.items ≡ take MOST_SENT self.old) }
        ensures apart { IfOk result (λ batch. are_apart batch.items ≡ true) }
    {
        let mut batch = Vec::with_capacity(alloc, MOST_SENT.min(self.order.len()))?;
        'tasks: while batch.len() < MOST_SENT {
            match self.pop_first() {
                Some(task) => batch.push(task)?,
                None => return Ok(batch),
            }
        }
        Ok(batch)
    }

    /// Puts those tasks of a batch that come back before the others, and drops the first until 10,000 wait. `AllocError` where no
    /// memory is left.
    pub(crate) fn give_back(
        &mut self,
        alloc: Global,
        batch: &[Task],
        moment: Moment,
    ) -> Result<(), AllocError>
        requires { are_apart batch.now ≡ true }
        ensures { OnOk result (self.new ≡ bounded (filter (λ task. not (waits task self.old)) (live moment batch.now) ++ self.old)) }
    {
        let mut tasks = self.returning(alloc, batch, moment)?;
        let surplus = (tasks.len() + self.order.len()).saturating_sub(MOST_WAITING);
        let kept = tasks.split_off(surplus)?;
        self.push_all_first(alloc, kept)
    }

    /// Copies of those tasks of a batch that are still worth sending at the moment, and of whose name none waits. `AllocError` where
    /// no memory is left.
    fn returning(
        &self,
        alloc: Global,
        batch: &[Task],
        moment: Moment,
    ) -> Result<VecDeque<Task>, AllocError>
        ensures { IfOk result (λ tasks. tasks.items ≡ filter (λ task. not (waits task self.now)) (live moment batch.now)) }
    {
        let mut tasks = VecDeque::new(alloc);
        for task in batch {
            if is_live(task, moment) && !self.order.has(alloc, task)? {
                tasks.push_back(task.copy(alloc)?)?;
            }
        }
        Ok(tasks)
    }

    /// Puts what the answers to a batch leave to wait. `AllocError` where no memory is left.
    pub(crate) fn answer_all(
        &mut self,
        alloc: Global,
        batch: &[Task],
        codes: &[u16],
        moment: Moment,
    ) -> Result<(), AllocError>
        ensures { OnOk result (self.new ≡ after_codes moment batch.now codes.now self.old) }
    {
        let mut codes = codes.iter();
        for task in batch {
            let Some(code) = codes.next() else {
                return Ok(());
            };
            self.answer(alloc, task, *code, moment)?;
        }
        Ok(())
    }

    /// Puts the registration by which a heartbeat that found no lease is followed, unless one waits. `AllocError` where no memory is
    /// left.
    fn answer(
        &mut self,
        alloc: Global,
        task: &Task,
        code: u16,
        moment: Moment,
    ) -> Result<(), AllocError>
        ensures { OnOk result (self.new ≡ after_code moment task.now code self.old) }
    {
        if !matches!(task.action, Action::Heartbeat) || code != NOT_FOUND {
            return Ok(());
        }
        let registration = registration(alloc, task, moment)?;
        if self.order.has(alloc, &registration)? {
            return Ok(());
        }
        self.put(alloc, registration)
    }

    /// Whether these tasks wait. Takes no memory.
    pub(crate) fn same(&self, tasks: &Tasks) -> bool
        ensures { IsTrue result ↔ (self.now ≡ tasks.now) }
    {
        self.order.same(tasks)
    }
}

/// Drops the tasks that aren't worth sending any more at the moment. Looks at those alone. Takes no memory.
fn drop_old(order: &mut Order, ages: &mut Ages, moment: Moment)
    requires { AreNoted ages.old order.old }
    ensures live { order.new ≡ live moment order.old }
    ensures noted { AreNoted ages.new order.new }
{
    while let Some(name) = pop_old(ages, moment) {
        order.drop_old(&name, moment);
    }
}

/// The registration by which a heartbeat is followed that found no lease. `AllocError` where no memory is left.
fn registration(alloc: Global, heartbeat: &Task, moment: Moment) -> Result<Task, AllocError>
    ensures { IfOk result (λ task. task ≡ again moment heartbeat.now) }
{
    let mut task = heartbeat.copy(alloc)?;
    task.action = Action::Register;
    task.status = None;
    task.queued = moment;
    Ok(task)
}
