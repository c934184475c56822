//! Tasks in a line, of which each is found by its name.
ghost use Rattle.std.specs.Prelude.{◌≡◌, ◌==◌, ◌≤◌, ◌<◌, ◌↔◌, ◌∷◌, ◌++◌, [], not, length, map, option_to_list, true, false, if◌then◌else◌, IfSome, IfNone, IfOk, OnOk, OnErr, IsTrue};
ghost use Rattle.std.specs.Option.{option_map};
ghost use Rattle.eu_base.specs.Values.{same_name};
ghost use Rattle.eu_model.specs.Server.{live, waits};
ghost use Rattle.eu_audit_queue.specs.PlainQueue.{are_apart};
ghost use Rattle.eu_audit_queue.specs.Names.{has_name, name_of, without_old};

use crate::ages::is_live;
use crate::name::Name;
use eu_base::{MOST_WAITING, Moment, Task, Tasks};
use lru::LruCache;
use std::alloc::{AllocError, Global};
use std::marker::Model;
use std::mem;

/// Tasks, first to last, at most 10,000, of which no two have one name. Contracts see the list.
///
/// The cache never drops an entry by itself: it serves as a table that keeps its entries in a line. Its most recently used entry is
/// the first task. A call takes the time of a look-up, where it says nothing else.
#[derive(Debug, Drop)]
pub(crate) struct Order {
    tasks: LruCache<Name, Task>,
}

impl Model for Order {
    ghost use Rattle.std.specs.Prelude.{◌≡◌, ◌≤◌, ◌-◌, ◌^◌, List, true, length};
    ghost use Rattle.std.specs.Map.{values_of};
    ghost use Rattle.std.specs.Coded.{coded_list};
    ghost use Rattle.eu_base.specs.declared.tasks.Task.{Task};
    ghost use Rattle.eu_base.specs.contracts.tasks.Task as task;
    ghost use Rattle.eu_audit_queue.specs.PlainQueue.{are_apart};
    ghost use Rattle.eu_audit_queue.specs.Names.{entries_of};
    ghost use Rattle.eu_base.specs.Limits.{most_waiting};

    ghost Value = { List Task };

    ghost coded = { coded_list task.the_row.coded };

    ghost view = { λ o. values_of o.tasks.entries };

    ghost invariant = { λ o. (o.tasks.entries ≡ entries_of (values_of o.tasks.entries)) × (are_apart (values_of o.tasks.entries) ≡ true) × (length (values_of o.tasks.entries) ≤ most_waiting) × (o.tasks.cap ≡ 2 ^ 64 - 1) };
}

impl Order {
    /// No task. `AllocError` where no memory is left.
    pub(crate) fn new(alloc: Global) -> Result<Order, AllocError>
        ensures { IfOk result (λ order. order ≡ []) }
    {
        let tasks = LruCache::unbounded(alloc)?;
        Ok(Order { tasks })
    }

    /// How many tasks there are.
    pub(crate) fn len(&self) -> usize
        ensures value { result ≡ length self.now }
        ensures few { length self.now ≤ MOST_WAITING }
        ensures apart { are_apart self.now ≡ true }
    {
        self.tasks.len()
    }

    /// Whether there is a task of its name. `AllocError` where no memory is left.
    pub(crate) fn has(&self, alloc: Global, task: &Task) -> Result<bool, AllocError>
        ensures { IfOk result (λ found. found ≡ waits task.now self.now) }
    {
        let name = Name::of(alloc, task)?;
        Ok(self.tasks.contains(&name))
    }

    /// Puts a task of a new name first. `AllocError` where no memory is left, and then nothing has changed.
    pub(crate) fn put_first(&mut self, alloc: Global, task: Task) -> Result<(), AllocError>
        requires new { waits task self.old ≡ false }
        requires few { length self.old < MOST_WAITING }
        ensures ok { OnOk result (self.new ≡ task ∷ self.old) }
        ensures err { OnErr result (self.new ≡ self.old) }
    {
        let name = Name::of(alloc, &task)?;
        let before = self.tasks.put(name, task)?;
        drop(before);
        Ok(())
    }

    /// Puts a task of a new name last. `AllocError` where no memory is left, and then nothing has changed.
    pub(crate) fn put_last(&mut self, alloc: Global, task: Task) -> Result<(), AllocError>
        requires new { waits task self.old ≡ false }
        requires few { length self.old < MOST_WAITING }
        ensures ok { OnOk result (self.new ≡ self.old ++ task ∷ []) }
        ensures err { OnErr result (self.new ≡ self.old) }
    {
        let name = Name::of(alloc, &task)?;
        let last = Name::of(alloc, &task)?;
        let before = self.tasks.put(name, task)?;
        drop(before);
        self.tasks.demote(&last);
        Ok(())
    }

    /// Takes out the first task, with its name. Takes no memory.
    pub(crate) fn pop_first(&mut self) -> Option<(Name, Task)>
        ensures items { self.old ≡ option_to_list (option_map (λ first. first.1) result) ++ self.new }
        ensures named { IfSome result (λ first. first.0 ≡ name_of first.1) }
        ensures apart { IfSome result (λ first. has_name first.0 self.new ≡ false) }
        ensures none { IfNone result (self.old ≡ []) }
    {
        self.tasks.pop_mru()
    }

    /// Puts a task in the place of the one of its name, and tells when that was queued. Takes no memory.
    pub(crate) fn replace(&mut self, name: &Name, task: Task) -> Option<Moment>
        requires { name.now ≡ name_of task }
        ensures { self.new ≡ map (λ other. if same_name task other then task else other) self.old }
    {
        let Some(place) = self.tasks.peek_mut(name) else {
            drop(task);
            return None;
        };
        let before = mem::replace(place, task);
        let queued = before.queued;
        drop(before);
        Some(queued)
    }

    /// Drops the task of that name, where it isn't worth sending any more at the moment. Takes no memory.
    pub(crate) fn drop_old(&mut self, name: &Name, moment: Moment)
        ensures { self.new ≡ without_old moment name.now self.old }
    {
        let Some(task) = self.tasks.peek(name) else {
            return;
        };
        if is_live(task, moment) {
            return;
        }
        drop(self.tasks.pop(name));
    }

    /// Whether a task is still worth sending at the moment. Looks at the tasks before the first that is. Takes no memory.
    pub(crate) fn any_live(&self, moment: Moment) -> bool
        ensures { result ≡ not (length (live moment self.now) == 0) }
    {
        for (_name, waiting) in self.tasks.iter() {
            if is_live(waiting, moment) {
                return true;
            }
        }
        false
    }

    /// Whether these are the tasks. Looks at each. Takes no memory.
    pub(crate) fn same(&self, tasks: &Tasks) -> bool
        ensures { IsTrue result ↔ (self.now ≡ tasks.now) }
    {
        let mut left = tasks.as_slice().iter();
        for (_name, task) in self.tasks.iter() {
            let Some(other) = left.next() else {
                return false;
            };
            if !task.same(other) {
                return false;
            }
        }
        left.next().is_none()
    }
}
