//! The leases beside a plain list of them, on the same drawn calls.
use crate::tests::store::{held, put};
use eu_base::{Fault, Moment, SharedInstance, Status};
use eu_clock::{Chooser, RngChooser};
use eu_fixtures::{ids, instance, key, moment};
use eu_hash::HashKey;
use eu_lease::Lease;
use eu_store::{Amendment, Leases, Place};
use std::alloc::{AllocError, Global};

/// A lease as the plain list keeps it, at the place of its number: its deadline, and how many seconds it lasts.
#[derive(Clone, Copy)]
struct Plain {
    deadline: u64,
    secs: u32,
}

/// What is drawn for a call. The hint is a number too: where that is below 300, the place of that lease is the hint, and else that of the lease.
#[derive(Clone, Copy)]
struct Drawn {
    call: u64,
    number: u64,
    hint: u64,
    ms: u64,
    secs: u32,
}

impl Drawn {
    fn of(chooser: &mut RngChooser) -> Drawn {
        Drawn {
            call: chooser.below(9),
            number: chooser.below(300),
            hint: chooser.below(600),
            ms: chooser.below(60_000),
            secs: if chooser.below(2) == 0 { 10 } else { 30 },
        }
    }
}

/// Makes a call at the place of a lease in the plain list. Tells whether one was held. A renewed lease lasts two durations.
fn change_plain(place: &mut Option<Plain>, drawn: Drawn) -> bool {
    let held = *place;
    let (ms, secs) = (drawn.ms, drawn.secs);
    let fresh = Plain {
        deadline: ms.saturating_add(u64::from(secs).saturating_mul(1000)),
        secs,
    };
    *place = match (drawn.call, held) {
        (7, _) => Some(fresh),
        (0, _) | (_, None) => None,
        (3 | 4, _) => Some(fresh),
        (_, Some(Plain { secs, .. })) => Some(Plain {
            deadline: ms.saturating_add(u64::from(secs).saturating_mul(2000)),
            secs,
        }),
    };
    held.is_some()
}

/// How many leases the plain list has.
fn count(plain: &[Option<Plain>]) -> usize {
    let mut count = 0usize;
    for place in plain {
        if place.is_some() {
            count = count.saturating_add(1);
        }
    }
    count
}

/// The ids of the leases of the plain list that have expired, each after a space.
fn expired_plain(
    alloc: Global,
    plain: &[Option<Plain>],
    ms: u64,
    extra: u64,
) -> Result<Vec<String>, AllocError> {
    let mut texts = Vec::new(alloc);
    for (number, place) in plain.iter().enumerate() {
        if let Some(lease) = place {
            if lease.deadline.saturating_add(extra) < ms {
                texts.push(format!(in alloc; " j{number}")?)?;
            }
        }
    }
    Ok(texts)
}

/// These ids in their order by bytes.
fn in_order(alloc: Global, mut texts: Vec<String>) -> Result<String, AllocError> {
    texts.sort()?;
    let mut text = String::new(alloc);
    for one in &texts {
        text.push_str(one)?;
    }
    Ok(text)
}

/// Whether both tell the same leases that have expired, and no more deadlines were read than twice as many and one.
fn expire_alike(
    alloc: Global,
    leases: &Leases,
    plain: &[Option<Plain>],
    ms: u64,
    extra: u64,
) -> Result<bool, Fault> {
    let wanted = in_order(alloc, expired_plain(alloc, plain, ms, extra)?)?;
    let (keys, read) = leases.expired_counted(alloc, moment(ms)?, extra)?;
    let few = 2 * keys.len() as u64 + 1;
    let told = ids(alloc, keys.as_slice())?;
    Ok(told.as_str() == wanted.as_str() && read <= few)
}

/// Where the drawn lease was found, or, as often, where another one was.
fn hint(alloc: Global, leases: &Leases, drawn: Drawn) -> Result<Place, Fault> {
    let other = if drawn.hint < 300 {
        drawn.hint
    } else {
        drawn.number
    };
    let id = format!(in alloc; "j{other}")?;
    let key = key(alloc, id.as_str())?;
    Ok(leases.find(&key).0)
}

/// What a call makes of a lease that is held.
fn amendment(
    alloc: Global,
    instance: &SharedInstance,
    moment: Moment,
    call: u64,
) -> Result<Amendment, Fault> {
    match call {
        1 => Ok(Amendment::Renewed { moment }),
        3 => Ok(Amendment::Rejoined {
            status: Status::Up,
            overridden: Status::Unknown,
            lease: Lease::fresh(moment, instance.secs()),
        }),
        4 => Ok(Amendment::Replaced(held(instance, moment)?)),
        call => Ok(Amendment::InStatuses {
            moment,
            status: Status::Down,
            overridden: Status::Unknown,
            last_dirty: None,
            comes_up: call == 6,
        }),
    }
}

/// Makes a call. Tells whether its lease was held.
fn change(alloc: Global, leases: &mut Leases, drawn: Drawn) -> Result<bool, Fault> {
    let id = format!(in alloc; "j{}", drawn.number)?;
    let instance = instance(alloc, id.as_str(), 0, drawn.secs)?;
    let (key, moment) = (instance.key(), moment(drawn.ms)?);
    let hint = hint(alloc, leases, drawn)?;
    match drawn.call {
        0 => Ok(leases.take(key, hint).is_some()),
        7 => put(alloc, leases, &instance, moment),
        call => {
            let amendment = amendment(alloc, &instance, moment, call)?;
            Ok(leases.amend(key, hint, amendment))
        }
    }
}

/// One drawn call on both. Tells whether they answer alike.
fn answers_alike(
    alloc: Global,
    leases: &mut Leases,
    plain: &mut Vec<Option<Plain>>,
    chooser: &mut RngChooser,
) -> Result<bool, Fault> {
    let drawn = Drawn::of(chooser);
    if drawn.call == 8 {
        let extra = chooser.below(5_000);
        return expire_alike(alloc, leases, plain.as_slice(), drawn.ms, extra);
    }
    let was_held = change(alloc, leases, drawn)?;
    match plain.get_mut(drawn.number as usize) {
        Some(place) => Ok(was_held == change_plain(place, drawn)),
        None => Err(Fault::BadValue),
    }
}

/// Whether both answer alike to so many drawn calls.
fn answer_alike(alloc: Global, seed: u64, calls: u32) -> Result<bool, Fault> {
    let mut leases = Leases::new(alloc, HashKey::new(0, 0));
    let mut plain = vec![in alloc; None; 300]?;
    let mut chooser = RngChooser::seeded(seed);
    for _call in 0..calls {
        let alike = answers_alike(alloc, &mut leases, &mut plain, &mut chooser)?;
        if !alike || leases.len() != count(plain.as_slice()) {
            return Ok(false);
        }
    }
    Ok(true)
}

#[test]
fn a_plain_list_answers_alike(rt: HostRuntime) {
    for seed in 0..5 {
        assert!(rt;
            answer_alike(rt.alloc(), seed, 2_000) == Ok(true),
            "seed {seed}"
        );
    }
}
