//! What is held at one moment, taken at little cost.
ghost use Rattle.std.specs.Prelude.{◌≡◌, ◌∷◌, ◌++◌, [], slice_index, IfOk, OnOk};
ghost use Rattle.eu_store.specs.Order.{undated_at, undated_in, lasting, snapped};
ghost use Rattle.std.specs.Option.{option_copied, option_map, option_map_or};

use crate::directory::{PART_ROOM, Part};
use eu_deadlines::DeadlineList;
use eu_model::{Listed, Times};
use std::alloc::{AllocError, Global};
use std::marker::Model;

/// Everything that was held at one moment, in key order. Contracts see the listing.
///
/// It's what a lock has to be held for: parts of the table are shared. The deadlines, of which the last updates follow, and the order of the keys are
/// copied as they lie in memory: no lease is looked at. A listing is made from it later, and shares the instances.
#[derive(Debug, Drop)]
pub struct Snapshot {
    parts: Vec<Part>,
    deadlines: DeadlineList,
    places: Vec<u16>,
}

impl Model for Snapshot {
    ghost use Rattle.std.specs.Prelude.{List};
    ghost use Rattle.std.specs.Coded.{coded_list};
    ghost use Rattle.eu_model.specs.declared.views.Listed.{Listed};
    ghost use Rattle.eu_model.specs.contracts.views.Listed as listed;
    ghost use Rattle.eu_store.specs.Order.{undated_in, snapped};

    ghost Value = { List Listed };

    ghost coded = { coded_list listed.the_row.coded };

    ghost view = { λ s. snapped (undated_in s.parts.items) s.deadlines s.places.items };
}

impl Snapshot {
    /// The leases of a table, without their last updates; until when each lasts; and their places, in key order.
    pub(crate) fn new(parts: Vec<Part>, deadlines: DeadlineList, places: Vec<u16>) -> Snapshot
        ensures { result ≡ snapped (undated_in parts.items) deadlines places.items }
    {
        Snapshot {
            parts,
            deadlines,
            places,
        }
    }

    /// The listing. `AllocError` where no memory is left.
    pub fn listed(&self, alloc: Global) -> Result<Vec<Listed>, AllocError>
        ensures { IfOk result (λ leases. leases.items ≡ self.now) }
    {
        let mut leases = Vec::with_capacity(alloc, self.places.len())?;
        for place in &self.places {
            let found = listed_at(&self.parts, &self.deadlines, usize::from(*place))?;
            append(&mut leases, found)?;
        }
        Ok(leases)
    }
}

/// What is listed of a place of the table. `AllocError` where 2^63 share the instance.
fn listed_at(
    parts: &[Part],
    deadlines: &DeadlineList,
    place: usize,
) -> Result<Option<Listed>, AllocError>
    ensures { IfOk result (λ found. found ≡ option_map (lasting (slice_index deadlines.now place)) (undated_at (undated_in parts.now) place)) }
{
    match undated_at(parts, place) {
        Some(undated) => Ok(Some(lasting(deadlines.get(place), undated)?)),
        None => Ok(None),
    }
}

/// The lease that lasts until then, in milliseconds. `AllocError` where 2^63 share the instance.
fn lasting(deadline: u64, undated: &Listed) -> Result<Listed, AllocError>
    ensures { IfOk result (λ l. l ≡ lasting deadline undated.now) }
{
    let instance = undated.instance.share()?;
    let duration = 1000 * u64::from(instance.secs().secs());
    Ok(Listed {
        instance,
        times: Times {
            updated: deadline.saturating_sub(duration),
            ..undated.times
        },
    })
}

/// Appends what was found, if anything was. `AllocError` where no memory is left.
fn append(leases: &mut Vec<Listed>, found: Option<Listed>) -> Result<(), AllocError>
    ensures { OnOk result (leases.new.items ≡ leases.old.items ++ option_map_or (λ l. l ∷ []) found []) }
{
    match found {
        Some(listed) => Ok(leases.push(listed)?),
        None => Ok(()),
    }
}

/// The lease of a place of the table, without its last update.
fn undated_at(parts: &[Part], place: usize) -> Option<&Listed>
    ensures { option_copied result ≡ undated_at (undated_in parts.now) place }
{
    parts.get(place / PART_ROOM)?.get(place % PART_ROOM)
}
