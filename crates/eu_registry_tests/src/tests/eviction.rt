//! Override rows, and an eviction by given words, with what it leaves worked out by hand.
use crate::tests::store::put_each;
use crate::tests::twins::{Twin, plays_long};
use eu_base::{Config, Fault, Id, Status};
use eu_clock::ListChooser;
use eu_eviction::{Overrides, run_eviction};
use eu_fixtures::{Told, cut, first_wrong, moment, tell_done, tell_ids};
use eu_hash::HashKey;
use eu_store::Leases;
use std::alloc::Global;
use std::test::Fail;

/// Leases and override rows.
///
/// `new ID ID` begins with leases of 10 s, made at 0, and no row; `put ID STATUS` puts a row of an id that has none, and `set ID STATUS` sets the
/// row of one that may have none; `reserve` makes room for a row; `row ID` tells one, and `shown` all leases and rows in full. `permitted` and `forbidden` evict at 10,001, and tell how
/// many replies there are, how many leases are left, and whom it takes: at 50 percent half may go, which the words 3 and 0 draw.
#[derive(Drop)]
struct Desk {
    leases: Leases,
    overrides: Overrides,
}

/// Changes the row of an id.
fn change(alloc: Global, overrides: &mut Overrides, verb: &str, words: &str) -> Result<(), Fault> {
    let (id, word) = cut(words);
    let status = Status::read(word.as_bytes()).ok_or(Fault::BadValue)?;
    let id = Id::read(alloc, id)?;
    match verb {
        "put" => {
            overrides.reserve()?;
            overrides.insert(id, status);
        }
        "set" => overrides.set(&id, status),
        _ => return Err(Fault::BadValue),
    }
    Ok(())
}

impl Desk {
    /// Leases of 10 s, made at 0, and no row.
    fn begin(alloc: Global, ids: &str) -> Result<Desk, Fault> {
        let mut leases = Leases::new(alloc, HashKey::new(0, 0));
        put_each(alloc, &mut leases, ids)?;
        Ok(Desk {
            leases,
            overrides: Overrides::new(alloc, HashKey::new(0, 0)),
        })
    }

    fn tell_row(&self, alloc: Global, id: &str, out: &mut String) -> Result<(), Fault> {
        let id = Id::read(alloc, id)?;
        Ok(write!(out, "{:?}", self.overrides.get(&id))?)
    }

    fn show(&self, alloc: Global, out: &mut String) -> Result<(), Fault> {
        let leases = self.leases.listed(alloc, None)?;
        write!(out, "{leases:?}")?;
        drop(leases);
        let rows = self.overrides.listed(alloc)?;
        Ok(write!(out, " {rows:?}")?)
    }

    fn evict(&mut self, alloc: Global, permitted: bool, out: &mut String) -> Result<(), Fault> {
        let config = Config::new(false, 50, 30, 60_000)?;
        let mut chooser = ListChooser::new(Vec::from_slice(alloc, [3u64, 0].as_slice())?);
        let eviction = run_eviction(
            alloc,
            &mut self.leases,
            &mut self.overrides,
            &config,
            permitted,
            moment(10_001)?,
            0,
            1,
            &mut chooser,
        )?;
        write!(out, "{} {}", eviction.replies.len(), self.leases.len())?;
        Ok(tell_ids(out, eviction.victims.as_slice())?)
    }
}

impl Told for Desk {
    fn tell(&mut self, alloc: Global, said: &str, out: &mut String) -> Result<(), Fault> {
        let (verb, rest) = cut(said);
        match verb {
            "new" => {
                *self = Desk::begin(alloc, rest)?;
                tell_done(out, Ok(()))
            }
            "reserve" => {
                self.overrides.reserve()?;
                tell_done(out, Ok(()))
            }
            "permitted" => self.evict(alloc, true, out),
            "forbidden" => self.evict(alloc, false, out),
            "row" => self.tell_row(alloc, rest, out),
            "shown" => self.show(alloc, out),
            _ => tell_done(out, change(alloc, &mut self.overrides, verb, rest)),
        }
    }
}

const ROWS: &str = "
    # Room for a row changes none.
    put i2 DOWN = done
    put i3 DOWN = done
    reserve = done
    row i2 = Some(Down)
    row i3 = Some(Down)
    # A row that is put stands.
    new i0 = done
    put i3 DOWN = done
    row i2 = None
    row i3 = Some(Down)
    # A row is set where one stands.
    set i2 UP = done
    set i3 OUT_OF_SERVICE = done
    row i2 = None
    row i3 = Some(OutOfService)
";

#[test]
fn a_row_is_set_where_one_stands(rt: HostRuntime) -> Result<(), Fail> {
    let mut desk = Desk::begin(rt.alloc(), "i0")?;
    assert_eq!(rt; first_wrong(rt.alloc(), &mut desk, ROWS), None);
    Ok(())
}

const EVICTIONS: &str = "
    # An eviction takes half of the expired with their rows.
    new i0 i1 i2 i3 = done
    put i2 DOWN = done
    put i3 DOWN = done
    permitted = 1 2 i3 i1
    row i2 = Some(Down)
    row i3 = None
    # One that isn't permitted takes nobody.
    new i0 i1 i2 i3 = done
    put i2 DOWN = done
    put i3 DOWN = done
    forbidden = 1 4
    row i2 = Some(Down)
    row i3 = Some(Down)
";

#[test]
fn an_eviction_takes_half_of_the_expired_with_their_rows(rt: HostRuntime) -> Result<(), Fail> {
    let mut desk = Desk::begin(rt.alloc(), "i0")?;
    assert_eq!(rt; first_wrong(rt.alloc(), &mut desk, EVICTIONS), None);
    Ok(())
}

const PLAYED: &str = "
    new i0 i1 i2 i3 = done
    put i2 DOWN = done
    put i3 DOWN = done
    forbidden = 1 4
    permitted = 1 2 i3 i1
    row i2 = Some(Down)
    row i3 = None
";

impl Twin for Desk {
    fn fresh(alloc: Global) -> Result<Desk, Fault> {
        Desk::begin(alloc, "i0")
    }

    fn whole() -> &'static str {
        "shown"
    }
}

#[test]
fn memory_eviction(rt: HostRuntime) {
    assert_eq!(rt; plays_long::<Desk>(rt.alloc(), PLAYED), Ok(None));
}
