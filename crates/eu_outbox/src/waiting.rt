//! The tasks that wait, in their order.
ghost use Rattle.std.specs.Prelude.{◌≡◌, ◌+◌, ◌-◌, ◌==◌, ◌<◌, ◌≤◌, [], ◌∷◌, ◌++◌, not, drop, length, map, min, slice_get, take, vec_capacity, vec_len, nat_lt, option_to_list, IsOk, IfOk, IfNone, OnOk};
ghost use Rattle.std.specs.List.{list_any};
ghost use Rattle.std.specs.Option.{option_map};
ghost use Rattle.indexmap.specs.IndexMap.{spare};
ghost use Rattle.eu_model.specs.Server.{bounded, live, put, is_old};
ghost use Rattle.eu_outbox.specs.Steps.{IsApart, gave, gave_all, in_line, named, placed, task_of, task_shown};

use eu_base::{MOST_SENT, MOST_WAITING, Moment, SharedInstance, Status, TASK_AGE, Task, TaskName};
use eu_hash::HashKey;
use indexmap::IndexMap;
use std::alloc::{AllocError, Global};
use std::marker::Model;
use std::mem;

/// A task that waits, but for its name.
#[derive(Debug, Drop)]
pub(crate) struct Waiting {
    pub(crate) status: Option<Status>,
    pub(crate) instance: Option<SharedInstance>,
    pub(crate) queued: Moment,
}

/// Tasks by their names, which clients choose: so they are hashed by a key that is given.
type Entries = IndexMap<TaskName, Waiting, HashKey>;

/// Tasks in a line, of which no two have one name. The older are kept last to first, so that the first of all is taken from an
/// end. Contracts see the list, and how many more can be put without taking memory.
#[derive(Debug, Drop)]
pub(crate) struct Line {
    older: Entries,
    newer: Entries,
}

impl Model for Line {
    ghost use Rattle.std.specs.Prelude.{min};
    ghost use Rattle.indexmap.specs.IndexMap.{spare};
    ghost use Rattle.eu_outbox.specs.Lined.{Lined, coded_lined};

    ghost Value = { Lined };

    ghost coded = { coded_lined };

    ghost use Rattle.eu_outbox.specs.Steps.{in_line, IsApart};

    ghost view = { λ l. record { tasks = in_line l.older.entries l.newer.entries; room = min (spare l.older) (spare l.newer) } };

    ghost invariant = { λ l. IsApart (in_line l.older.entries l.newer.entries) };
}

impl Line {
    /// No task; the names are to be hashed by that key. Takes no memory.
    pub(crate) fn new(alloc: Global, hash_key: HashKey) -> Line
        ensures { result.tasks ≡ [] }
    {
        Line {
            older: IndexMap::with_hasher(alloc, hash_key),
            newer: IndexMap::with_hasher(alloc, hash_key),
        }
    }

    /// How many tasks wait.
    pub(crate) fn len(&self) -> usize
        ensures { result ≡ length self.now.tasks }
    {
        self.older.len() + self.newer.len()
    }

    /// Whether a task of that name waits.
    pub(crate) fn has(&self, name: &TaskName) -> bool
        ensures { result ≡ list_any (named name.now) self.now.tasks }
    {
        self.older.contains_key(name) || self.newer.contains_key(name)
    }

    /// Makes room for so many tasks.
    pub(crate) fn reserve(&mut self, count: usize) -> Result<(), AllocError>
        ensures tasks { self.new.tasks ≡ self.old.tasks }
        ensures ready { OnOk result (count ≤ self.new.room) }
        ensures succeeds { count ≤ self.old.room → IsOk result }
    {
        self.older.reserve(count)?;
        self.newer.reserve(count)
    }

    /// Puts a task in the place of the one of its name, else last; where 10,000 wait, the first is dropped then.
    pub(crate) fn put(&mut self, name: TaskName, waiting: Waiting)
        requires room { 0 < self.old.room }
        requires few { length self.old.tasks ≤ MOST_WAITING }
        ensures tasks { self.new.tasks ≡ put (task_of (name, waiting)) self.old.tasks }
        ensures room { self.old.room ≤ self.new.room + 1 }
    {
        if self.older.contains_key(&name) {
            insert(&mut self.older, name, waiting);
            return;
        }
        insert(&mut self.newer, name, waiting);
        self.bound();
    }

    /// Puts a task before the others, unless it is too old, or one of its name waits.
    pub(crate) fn give_back(&mut self, task: Task, moment: Moment)
        requires { 0 < self.old.room }
        ensures tasks { self.new.tasks ≡ gave moment task self.old.tasks }
        ensures room { self.old.room ≤ self.new.room + 1 }
    {
        let (name, waiting) = parts(task);
        if is_old(waiting.queued, moment) || self.has(&name) {
            return;
        }
        insert(&mut self.older, name, waiting);
    }

    /// Puts tasks before the others, the last of them first, but for those that are too old, or of whose name one waits.
    pub(crate) fn give_back_all(&mut self, tasks: &mut Vec<Task>, moment: Moment)
        requires { vec_len tasks.old ≤ self.old.room }
        ensures tasks { self.new.tasks ≡ gave_all moment tasks.old.items self.old.tasks }
        ensures none { tasks.new.items ≡ [] }
    {
        while let Some(task) = tasks.pop() {
            self.give_back(task, moment);
        }
    }

    /// Takes out the first task.
    fn take_first(&mut self) -> Option<Task>
        ensures tasks { self.old.tasks ≡ option_to_list result ++ self.new.tasks }
        ensures none { IfNone result (self.old.tasks ≡ []) }
        ensures room { self.old.room ≤ self.new.room }
    {
        turn(&mut self.older, &mut self.newer);
        match self.older.pop() {
            Some((name, waiting)) => Some(joined(name, waiting)),
            None => None,
        }
    }

    /// Drops the first task.
    fn drop_first(&mut self)
        ensures tasks { self.new.tasks ≡ drop 1 self.old.tasks }
        ensures room { self.old.room ≤ self.new.room }
    {
        self.take_first();
    }

    /// Drops the first tasks until 10,000 wait.
    pub(crate) fn bound(&mut self)
        ensures tasks { self.new.tasks ≡ bounded self.old.tasks }
        ensures room { self.old.room ≤ self.new.room }
    {
        while self.len() > MOST_WAITING {
            self.drop_first();
        }
    }

    /// Drops the tasks that are too old at the moment. No two of the others have one name.
    pub(crate) fn keep_live(&mut self, moment: Moment)
        ensures tasks { self.new.tasks ≡ live moment self.old.tasks }
        ensures apart { IsApart self.new.tasks }
    {
        keep_live(&mut self.older, moment);
        keep_live(&mut self.newer, moment);
    }

    /// Moves the first tasks, 250 at most, to the end of others.
    pub(crate) fn send(&mut self, batch: &mut Vec<Task>)
        requires { vec_len batch.old + MOST_SENT ≤ vec_capacity batch.old }
        ensures tasks { self.new.tasks ≡ drop MOST_SENT self.old.tasks }
        ensures batch { batch.new.items ≡ batch.old.items ++ take MOST_SENT self.old.tasks }
    {
        for _ in 0..MOST_SENT {
            let Some(task) = self.take_first() else {
                return;
            };
            batch.push_reserved(task);
        }
    }

    /// The task at that place.
    fn at(&self, place: usize) -> Option<(&TaskName, &Waiting)>
        ensures { option_map task_shown result ≡ slice_get self.now.tasks place }
    {
        let before = self.older.len();
        if place < before {
            self.older.get_index(before - 1 - place)
        } else {
            self.newer.get_index(place - before)
        }
    }

    /// The task at that place, unless it is too old at the moment.
    fn live_at(&self, place: usize, moment: Moment) -> Option<(&TaskName, &Waiting)>
        ensures { option_to_list (option_map task_shown result) ≡ live moment (take 1 (drop place self.now.tasks)) }
    {
        let Some((name, waiting)) = self.at(place) else {
            return None;
        };
        if is_old(waiting.queued, moment) {
            return None;
        }
        Some((name, waiting))
    }

    /// Whether a task waits that isn't too old at the moment.
    pub(crate) fn any_live(&self, moment: Moment) -> bool
        ensures { result ≡ not (length (live moment self.now.tasks) == 0) }
    {
        for place in 0..self.len() {
            if self.live_at(place, moment).is_some() {
                return true;
            }
        }
        false
    }

    /// Copies of all the tasks. `AllocError` where no memory is left.
    pub(crate) fn tasks(&self, alloc: Global) -> Result<Vec<Task>, AllocError>
        ensures { IfOk result (λ tasks. tasks.items ≡ self.now.tasks) }
    {
        let mut tasks = Vec::with_capacity(alloc, self.len())?;
        for place in 0..self.len() {
            push_copy(alloc, &mut tasks, self.at(place))?;
        }
        Ok(tasks)
    }

    /// Copies of the first tasks that aren't too old at the moment, 250 at most. `AllocError` where no memory is left.
    pub(crate) fn batch(&self, alloc: Global, moment: Moment) -> Result<Vec<Task>, AllocError>
        ensures { IfOk result (λ batch. batch.items ≡ take MOST_SENT (live moment self.now.tasks)) }
    {
        let mut batch = Vec::new(alloc);
        for place in 0..self.len() {
            if batch.len() >= MOST_SENT {
                return Ok(batch);
            }
            push_copy(alloc, &mut batch, self.live_at(place, moment))?;
        }
        Ok(batch)
    }
}

/// Whether a task that was queued then is too old at the moment.
fn is_old(queued: Moment, moment: Moment) -> bool
    ensures { result ≡ nat_lt (queued + TASK_AGE) moment }
{
    queued.ms() + TASK_AGE < moment.ms()
}

/// The entry of a task.
pub(crate) fn parts(task: Task) -> (TaskName, Waiting)
    ensures { task_of result ≡ task }
{
    let Task {
        action,
        key,
        status,
        instance,
        queued,
    } = task;
    let waiting = Waiting {
        status,
        instance,
        queued,
    };
    (TaskName { action, key }, waiting)
}

/// The task of an entry.
fn joined(name: TaskName, waiting: Waiting) -> Task
    ensures { result ≡ task_of (name, waiting) }
{
    Task {
        action: name.action,
        key: name.key,
        status: waiting.status,
        instance: waiting.instance,
        queued: waiting.queued,
    }
}

/// A copy of the task of an entry.
fn copied(alloc: Global, name: &TaskName, waiting: &Waiting) -> Result<Task, AllocError>
    ensures { IfOk result (λ task. task ≡ task_of (name.now, waiting.now)) }
{
    let key = name.key.copy(alloc)?;
    let instance = match &waiting.instance {
        Some(instance) => Some(instance.share()?),
        None => None,
    };
    Ok(Task {
        action: name.action,
        key,
        status: waiting.status,
        instance,
        queued: waiting.queued,
    })
}

/// Puts a copy of the task of an entry at the end, if there is an entry.
fn push_copy(
    alloc: Global,
    batch: &mut Vec<Task>,
    entry: Option<(&TaskName, &Waiting)>,
) -> Result<(), AllocError>
    ensures { OnOk result (batch.new.items ≡ batch.old.items ++ option_to_list (option_map task_shown entry.entry)) }
{
    let Some((name, waiting)) = entry else {
        return Ok(());
    };
    batch.push(copied(alloc, name, waiting)?)?;
    Ok(())
}

/// Puts an entry in the place of the one of its name, else last.
fn insert(entries: &mut Entries, name: TaskName, waiting: Waiting)
    requires { 0 < spare entries.old }
    ensures tasks { map task_of entries.new.entries ≡ placed (task_of (name, waiting)) (map task_of entries.old.entries) }
    ensures room { spare entries.old ≤ spare entries.new + 1 }
{
    // The length is what says that no two entries have one name.
    let _len = entries.len();
    entries.insert(name, waiting).unwrap();
}

/// Drops the entries of tasks that are too old at the moment.
fn keep_live(entries: &mut Entries, moment: Moment)
    ensures { map task_of entries.new.entries ≡ live moment (map task_of entries.old.entries) }
{
    entries.retain(|_, waiting| !is_old(waiting.queued, moment));
}

/// Makes the newer entries the older ones, where there are no older ones.
fn turn(older: &mut Entries, newer: &mut Entries)
    ensures tasks { in_line older.new.entries newer.new.entries ≡ in_line older.old.entries newer.old.entries }
    ensures none { older.new.entries ≡ [] → newer.new.entries ≡ [] }
    ensures room { min (spare older.old) (spare newer.old) ≤ min (spare older.new) (spare newer.new) }
{
    if older.is_empty() {
        mem::swap(older, newer);
        older.reverse();
    }
}
