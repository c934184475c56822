//! The override rows, by the ids of instances.
ghost use Rattle.std.specs.Prelude.{◌≡◌, ◌<◌, IfOk, OnOk};
ghost use Rattle.std.specs.Option.{option_map};
ghost use Rattle.std.specs.FinMap as map;
ghost use Rattle.std.specs.Prelude.{map as all};
ghost use Rattle.std.specs.Map.Iter.{deref_pair};
ghost use Rattle.eu_model.specs.Machine.{with_value};

use eu_base::{Id, Status};
use eu_hash::HashKey;
use eu_model::OverrideRows;
use indexmap::IndexMap;
use std::alloc::{AllocError, Global};
use std::marker::Model;

/// The override rows (`overriddenInstanceStatusMap` in Eureka). Contracts see a finite map and some room.
#[derive(Debug, Drop)]
pub struct Overrides {
    table: IndexMap<Id, Status, HashKey>,
}

impl Model for Overrides {
    ghost use Rattle.std.specs.FinMap as map;
    ghost use Rattle.indexmap.specs.IndexMap.{spare};
    ghost use Rattle.eu_eviction.specs.Rows.{Rows, coded_table};

    ghost Value = { Rows };

    ghost coded = { coded_table };

    ghost view = { λ a. record { rows = map.from_entries a.table.entries; room = spare a.table } };
}

impl Overrides {
    /// No row; the table is to hash by that key, since clients choose the ids. Takes no memory.
    pub fn new(alloc: Global, hash_key: HashKey) -> Overrides
        ensures { result.rows ≡ map.empty }
    {
        Overrides {
            table: IndexMap::with_hasher(alloc, hash_key),
        }
    }

    /// The row of that id.
    pub fn get(&self, id: &Id) -> Option<Status>
        ensures { result ≡ map.get self.now.rows id.now }
    {
        if self.table.is_empty() {
            return None;
        }
        self.table.get(id).copied()
    }

    /// The rows, in the order of their ids. `AllocError` where no memory is left.
    pub fn listed(&self, alloc: Global) -> Result<OverrideRows, AllocError>
        ensures { IfOk result (λ rows. rows ≡ map.entries self.now.rows) }
    {
        let sorted = self.sorted(alloc)?;
        let mut rows = Vec::with_capacity(alloc, sorted.len())?;
        for row in &sorted {
            rows.push((row.0.copy(alloc)?, *row.1))?;
        }
        Ok(OverrideRows::new(rows))
    }

    /// The same, not copied.
    fn sorted(&self, alloc: Global) -> Result<Vec<(&Id, &Status)>, AllocError>
        ensures { IfOk result (λ rows. all deref_pair rows.items ≡ map.entries self.now.rows) }
    {
        let mut rows = Vec::new(alloc);
        for (id, status) in self.table.iter() {
            rows.push((id, status))?;
        }
        rows.sort_by_key(|row| row.0)?;
        Ok(rows)
    }

    /// The same rows once more; they hash by the same key. `AllocError` where no memory is left.
    pub fn copy(&self, alloc: Global) -> Result<Overrides, AllocError>
        ensures { IfOk result (λ copy. copy.rows ≡ self.now.rows) }
    {
        let mut copy = Overrides::new(alloc, *self.table.hasher());
        let entries = self.table.as_slice();
        let mut left = self.table.len();
        while left > 0 {
            left -= 1;
            let (id, status) = entries.get_index(left).unwrap();
            copy.reserve()?;
            copy.insert(id.copy(alloc)?, *status);
        }
        Ok(copy)
    }

    /// Makes room for one row more. `AllocError` where no memory is left. Neither changes a row.
    pub fn reserve(&mut self) -> Result<(), AllocError>
        ensures rows { self.new.rows ≡ self.old.rows }
        ensures ready { OnOk result (0 < self.new.room) }
    {
        self.table.reserve(1)
    }

    /// Puts the row of an id that has none, into the room that was made. Takes no memory.
    pub fn insert(&mut self, id: Id, status: Status)
        requires room { 0 < self.old.room }
        ensures { self.new.rows ≡ map.insert self.old.rows id status }
    {
        self.table.insert(id, status).unwrap();
    }

    /// Puts this status in the row of an id; where it has none, nothing changes. Takes no memory.
    pub fn set(&mut self, id: &Id, status: Status)
        ensures { self.new.rows ≡ with_value self.old.rows id.now (option_map (λ _. status) (map.get self.old.rows id.now)) }
    {
        if let Some(row) = self.table.get_mut(id) {
            *row = status;
        }
    }

    /// Takes out the row of that id. Takes no memory.
    pub fn take(&mut self, id: &Id) -> Option<Status>
        ensures before { result ≡ map.get self.old.rows id.now }
        ensures rows { self.new.rows ≡ map.remove self.old.rows id.now }
    {
        self.table.swap_remove(id)
    }
}
