//! The override rows of a replayed registry.
ghost use Rattle.std.specs.Prelude.{◌≡◌, ◌↔◌, IsTrue, OnOk, OnErr};
ghost use Rattle.std.specs.FinMap as map;

use eu_base::{Id, Status};
use std::alloc::{AllocError, Global};
use std::collections::BTreeMap;
use std::marker::Model;

/// The override rows. Contracts see a finite map from ids to the status that overrides.
#[derive(Debug, Drop)]
pub struct Overrides {
    table: BTreeMap<Id, Status>,
}

impl Model for Overrides {
    ghost use Rattle.std.specs.FinMap as map;
    ghost use Rattle.std.specs.FinMap.{FinMap};
    ghost use Rattle.eu_base.specs.declared.statuses.Status.{Status};
    ghost use Rattle.eu_base.specs.Values.{name_cmp};
    ghost use Rattle.eu_model.specs.PlainCode.{coded_overrides};

    ghost Value = { FinMap name_cmp Status };

    ghost coded = { coded_overrides };

    ghost view = { λ r. map.from_entries r.table.entries };
}

impl Overrides {
    /// No row. Takes no memory.
    pub fn new(alloc: Global) -> Overrides
        ensures { result ≡ map.empty }
    {
        Overrides {
            table: BTreeMap::new(alloc),
        }
    }

    /// The row of that id.
    pub fn get(&self, id: &Id) -> Option<Status>
        ensures { result ≡ map.get self.now id.now }
    {
        self.table.get(id).copied()
    }

    /// Puts the row of that id, in place of the one that it has. `AllocError` where no memory is left, and then nothing changes.
    pub fn put(&mut self, id: Id, status: Status) -> Result<(), AllocError>
        ensures ok { OnOk result (self.new ≡ map.insert self.old id status) }
        ensures err { OnErr result (self.new ≡ self.old) }
    {
        self.table.insert(id, status)?;
        Ok(())
    }

    /// Takes out the row of that id. Takes no memory.
    pub fn remove(&mut self, id: &Id)
        ensures { self.new ≡ map.remove self.old id.now }
    {
        self.table.remove(id);
    }

    /// Whether these are the rows, in the order of their ids. Takes no memory.
    pub fn same(&self, overrides: &[(Id, Status)]) -> bool
        ensures { IsTrue result ↔ (map.entries self.now ≡ overrides.now) }
    {
        let mut left = overrides.iter();
        for (id, status) in self.table.iter() {
            let Some(row) = left.next() else {
                return false;
            };
            if !is_row(id, *status, row) {
                return false;
            }
        }
        left.next().is_none()
    }
}

/// Whether a row has that id and that status.
fn is_row(id: &Id, status: Status, row: &(Id, Status)) -> bool
    ensures { IsTrue result ↔ ((id.now, status) ≡ row.now) }
{
    *id == row.0 && status == row.1
}
