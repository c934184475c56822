//! An eviction that is replayed: its victims are judged, and none is chosen.
ghost use Rattle.std.specs.Prelude.{◌≡◌, ◌↔◌, true, false, length, IsTrue};
ghost use Rattle.std.specs.Prelude.{map as all};
ghost use Rattle.std.specs.Option.{option_copied, option_map_or};
ghost use Rattle.std.specs.FinMap as map;
ghost use Rattle.eu_model.specs.Step.{extra_time};
ghost use Rattle.eu_model.specs.PlainSteps.{plain_evicted, plain_expired, plain_number_evicted, PlainStep};
ghost use Rattle.eu_model.specs.Machine.{without};
ghost use Rattle.eu_audit.specs.Verdict.{Judged};
ghost use Rattle.eu_audit.specs.Victims.{takes};

use crate::numbers::{extra_time, most_victims};
use crate::registry::Replica;
use eu_audit_changes::expired;
use eu_audit_tables::{Leases, Overrides};
use eu_base::{Key, Moment};
use eu_model::{Command, Listed, Reply};

/// Whether a lease is held, and has expired.
fn has_expired(held: Option<&Listed>, moment: Moment, extra: u64) -> bool
    ensures { result ≡ option_map_or (λ l. plain_expired l moment extra) (option_copied held.entry) false }
{
    match held {
        Some(held) => expired(held, moment, extra),
        None => false,
    }
}

/// Takes victims out, and the rows of their ids. Tells whether each was held then, and had expired.
fn take_all(
    leases: &mut Leases,
    overrides: &mut Overrides,
    victims: &[Key],
    moment: Moment,
    extra: u64,
) -> bool
    ensures taken { result ≡ takes leases.old moment extra victims.now }
    ensures leases { result ≡ true → leases.new ≡ without leases.old victims.now }
    ensures overrides { result ≡ true → overrides.new ≡ without overrides.old (all (λ k. k.id) victims.now) }
{
    for victim in victims {
        if !has_expired(leases.get(victim), moment, extra) {
            return false;
        }
        leases.remove(victim);
        overrides.remove(&victim.id);
    }
    true
}

impl Replica {
    /// How many leases an eviction takes at that moment.
    fn number_evicted(&self, moment: Moment, extra: u64) -> u128
        requires { extra ≡ extra_time self.now.config self.now.previous moment }
        ensures { result ≡ plain_number_evicted self.now moment }
    {
        let held = self.leases.len() as u64;
        let most = most_victims(&self.config, self.permits(), held);
        self.leases.expired(moment, extra, most)
    }

    /// Whether these are as many as an eviction takes at that moment.
    fn evicts_as_many(&self, victims: &[Key], moment: Moment, extra: u64) -> bool
        requires { extra ≡ extra_time self.now.config self.now.previous moment }
        ensures { IsTrue result ↔ (length victims.now ≡ plain_number_evicted self.now moment) }
    {
        victims.len() as u128 == self.number_evicted(moment, extra)
    }

    /// The registry after an eviction that takes these, where each was held then and had expired; else none.
    fn without(self, victims: &[Key], moment: Moment, extra: u64) -> Option<Replica>
        ensures { Judged (λ new. (takes self.leases moment extra victims.now ≡ true) × (new ≡ plain_evicted self moment victims.now)) result }
    {
        let Replica {
            config,
            mut leases,
            mut overrides,
            expected,
            last,
            since,
            previous: _,
        } = self;
        if !take_all(&mut leases, &mut overrides, victims, moment, extra) {
            return None;
        }
        Some(Replica {
            config,
            leases,
            overrides,
            expected: expected.saturating_sub(victims.len() as u64),
            last,
            since,
            previous: Some(moment),
        })
    }

    /// Judges an eviction by the victims that were told.
    pub(crate) fn evict(self, moment: Moment, reply: &Reply) -> Option<Replica>
        ensures { Judged (PlainStep self Command.Evict moment reply.now) result }
    {
        let Reply::Evicted(victims) = reply else {
            return None;
        };
        let victims = victims.as_slice();
        let extra = extra_time(&self.config, self.previous, moment);
        if !self.evicts_as_many(victims, moment, extra) {
            return None;
        }
        self.without(victims, moment, extra)
    }
}
