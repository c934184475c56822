//! Evictions.
ghost use Rattle.std.specs.Prelude.{◌≡◌, ◌≤◌, [], length, map, replicate, All, Contains, vec_len, vec_capacity, IfOk, OnOk, OnErr};
ghost use Rattle.std.specs.FinMap.{len};
ghost use Rattle.std.specs.List.{IsDistinct};
ghost use Rattle.eu_base.specs.Values.{key_eq};
ghost use Rattle.eu_clock.specs.Front.{state_after};
ghost use Rattle.eu_eviction.specs.Eviction.{due, number_of, drawn};
ghost use Rattle.eu_model.specs.Machine.{without};
ghost use Rattle.eu_store.specs.Removed.{with_values};
ghost use Rattle.eu_store.specs.Sweep.{Suffices};

use crate::lots::{draw_all, evictions, lots};
use crate::overrides::Overrides;
use eu_base::{Config, Key, Moment, Status};
use eu_clock::Chooser;
use eu_lease::evict_limit;
use eu_model::Reply;
use eu_store::{HeldLease, Leases, Taking};
use std::alloc::{AllocError, Global};

/// What an eviction took out, and so many replies that tell it.
#[derive(Debug, Drop)]
pub struct Eviction {
    /// The keys of the leases that went.
    pub victims: Vec<Key>,
    /// What stood under these keys.
    pub removed: Removed,
    /// The replies.
    pub replies: Vec<Reply>,
}

/// What stood under some keys, in their order.
#[derive(Debug, Drop)]
pub struct Removed {
    /// The lease of each key, where one was held.
    pub leases: Vec<Option<HeldLease>>,
    /// The override row of the id of each key, where it had one.
    pub rows: Vec<Option<Status>>,
}

/// Evicts leases that have expired, where eviction is permitted, and hands back their keys in the order in which they were
/// drawn, what stood under them, and so many replies that tell them (`AbstractInstanceRegistry.evict` in Eureka).
///
/// A lease has expired where its deadline is before the moment less the extra milliseconds. At most so many go as are held,
/// less the percentage of the settings, rounded down. The chooser draws them from the keys of the expired leases in key order,
/// by one word for each that goes. The override rows of their ids go with them.
///
/// `AllocError` where no memory is left for the keys, what stands under them, and the replies. All memory is taken before the first word is asked, so
/// then nothing changes, and no word is asked.
pub fn run_eviction<C: Chooser>(
    alloc: Global,
    leases: &mut Leases,
    overrides: &mut Overrides,
    config: &Config,
    permitted: bool,
    moment: Moment,
    extra: u64,
    replies: u32,
    chooser: &mut C,
) -> Result<Eviction, AllocError>
    ensures victims { IfOk result (λ v. v.victims.items ≡ drawn C.asks config.now leases.old.held (due permitted leases.old.held moment extra) chooser.old) }
    ensures chooser { OnOk result (chooser.new ≡ state_after C.asks (number_of config.now leases.old.held (due permitted leases.old.held moment extra)) (length (due permitted leases.old.held moment extra)) chooser.old) }
    ensures number { IfOk result (λ v. vec_len v.victims ≡ number_of config.now leases.old.held (due permitted leases.old.held moment extra)) }
    ensures expired { IfOk result (λ v. All (Contains (due permitted leases.old.held moment extra)) v.victims.items) }
    ensures once { IfOk result (λ v. IsDistinct key_eq v.victims.items) }
    ensures replies { IfOk result (λ v. v.replies.items ≡ replicate replies (Reply.Evicted v.victims.items)) }
    ensures leases { IfOk result (λ v. leases.new.held ≡ without leases.old.held v.victims.items) }
    ensures overrides { IfOk result (λ v. overrides.new.rows ≡ without overrides.old.rows (map (λ k. k.id) v.victims.items)) }
    ensures leases_back { IfOk result (λ v. with_values leases.new.held v.victims.items v.removed.leases.items ≡ leases.old.held) }
    ensures rows_back { IfOk result (λ v. with_values overrides.new.rows (map (λ k. k.id) v.victims.items) v.removed.rows.items ≡ overrides.old.rows) }
    ensures err_leases { OnErr result (leases.new ≡ leases.old) }
    ensures err_rows { OnErr result (overrides.new ≡ overrides.old) }
    ensures unasked { OnErr result (chooser.new ≡ chooser.old) }
{
    let mut keys = due_keys(alloc, leases, permitted, moment, extra)?;
    let number = keys.len().min(evict_limit(leases.len(), config.percent));
    let mut lots = lots(alloc, &keys, replies)?;
    let room = Vec::with_capacity(alloc, replies as usize)?;
    let taking = leases.room_for(alloc, number)?;
    let rows = Vec::with_capacity(alloc, number)?;
    draw_all(&mut keys, lots.as_mut_slice(), number, chooser);
    let replies = evictions(room, lots, &keys, number);
    keys.truncate(number);
    let removed = remove_all(leases, overrides, &keys, taking, rows);
    Ok(Eviction {
        victims: keys,
        removed,
        replies,
    })
}

/// The keys of the leases that have expired, in key order, where eviction is permitted, and else none. `AllocError` where no memory is left.
fn due_keys(
    alloc: Global,
    leases: &Leases,
    permitted: bool,
    moment: Moment,
    extra: u64,
) -> Result<Vec<Key>, AllocError>
    ensures { IfOk result (λ v. v.items ≡ due permitted leases.now.held moment extra) }
{
    if permitted {
        leases.expired_keys(alloc, moment, extra)
    } else {
        Ok(Vec::new(alloc))
    }
}

/// Takes out the leases of these keys and the override rows of their ids, into the room that was made. Takes no memory.
fn remove_all(
    leases: &mut Leases,
    overrides: &mut Overrides,
    keys: &[Key],
    taking: Taking,
    rows: Vec<Option<Status>>,
) -> Removed
    requires leases { Suffices taking (length keys.now) (len leases.old.held) }
    requires rows { (rows.items ≡ []) × (length keys.now ≤ vec_capacity rows) }
    ensures leases { leases.new.held ≡ without leases.old.held keys.now }
    ensures overrides { overrides.new.rows ≡ without overrides.old.rows (map (λ k. k.id) keys.now) }
    ensures leases_back { with_values leases.new.held keys.now result.leases.items ≡ leases.old.held }
    ensures rows_back { with_values overrides.new.rows (map (λ k. k.id) keys.now) result.rows.items ≡ overrides.old.rows }
{
    let mut rows = rows;
    let held = leases.take_all(keys, taking);
    for key in keys {
        rows.push_reserved(overrides.take(&key.id));
    }
    Removed { leases: held, rows }
}
