//! Laws of the lease machine, without code.
//!
//! The first four speak of every run from an opening, that is of every list of commands and replies that the machine may give. What
//! such a list says stands in `specs/History.antt`; newest means last in the list, also where moments go back.
ghost use Rattle.eu_model.specs.Law.{StepsAlike, FaultsAlike, ViewsAlike, EachIsHeld, VictimsHaveExpired, EvictionsKeepTheShare, PreservationForbids, LeasesAreAccounted};
ghost use Rattle.eu_model.specs.RunLaw.{LeasesAreAsSaid, NumbersAreAsSaid, UpdatesAreAsSaid, DueAreAsSaid, WhoRenewsIsKept, EvictionsAreNeverRefused, EvictionsTakeTheirNumber, WhoIsSilentGoes, PreservationKeepsAll};
ghost use Rattle.eu_model.specs.ServerLaw.{NothingIsQueued, ServersStepAlike, ServersFaultAlike, EachServerIsHeld};

/// A law without code: after every run what is held is what its entries say.
///
/// A lease is held where the newest entry that registered or ended it registered it: a registration or an adoption, against a cancel
/// that found it or an eviction that took it. It lasts from the newest entry that touched it on (a registration, an adoption, a
/// heartbeat, a status set or unset, the last three unless they were answered that nothing was found) for the duration, in seconds, of
/// its newest registration; twice that where the touch was no registration, as in Eureka (`Lease.renew`).
///
/// The settings are those of the newest change, or of the opening. The number expected rises and falls with registrations, cancels,
/// evictions and updates, and an update answers what it is to. The renewals of the last minute are the heartbeats that were counted
/// between the last two ends of minutes, or up to the only one; 0 where no minute has ended. The leases that are due for an eviction
/// are those that are held and whose time is over, with the time that the eviction grants beyond, each once.
pub fn runs_are_what_entries_say()
    ensures leases { LeasesAreAsSaid }
    ensures numbers { NumbersAreAsSaid }
    ensures updates { UpdatesAreAsSaid }
    ensures due { DueAreAsSaid }
{}

/// A law without code: who sends heartbeats is kept. Whomever an eviction of a run takes, the newest entry that touched its lease lies
/// further back than its duration, or twice that where the entry renewed it, and the time that the eviction grants beyond.
pub fn who_renews_is_kept()
    ensures { WhoRenewsIsKept }
{}

/// A law without code: who is silent goes.
///
/// An eviction is never refused. It takes distinct leases that are due: where it is permitted as many as are due, up to its share, and
/// else none.
///
/// And take some leases that are due at an eviction, and let the run go on, with nothing that touches them and no eviction before the
/// moment of that first one. Once all its evictions together might have taken as many leases as these, and as many more as the times
/// that they took others, none of them is held. An eviction might take its share where it is permitted, and else none.
///
/// Which of the leases that are due an eviction takes is free, so that a lease may be passed over for others; it is never passed over
/// for nobody.
pub fn who_is_silent_goes()
    ensures possible { EvictionsAreNeverRefused }
    ensures number { EvictionsTakeTheirNumber }
    ensures silent { WhoIsSilentGoes }
{}

/// A law without code: self-preservation keeps all. While it is on, and the heartbeats that were counted in the last whole minute are
/// at most the threshold, no eviction of a run takes anybody.
pub fn preservation_keeps_all()
    ensures { PreservationKeepsAll }
{}

/// A law without code: what a registry may do next, and what is seen of it, depends on its plain form alone; and each
/// plain form is that of some machine.
pub fn plain_form_decides()
    ensures steps { StepsAlike }
    ensures faults { FaultsAlike }
    ensures views { ViewsAlike }
    ensures each { EachIsHeld }
{}

/// A law without code, over every step of the machine that is an eviction: each victim's lease had expired, there are
/// no more victims than the share, and there is none while self-preservation is on and the last minute's renewals are at
/// most the threshold.
pub fn evictions_are_safe()
    ensures expired { VictimsHaveExpired }
    ensures share { EvictionsKeepTheShare }
    ensures preservation { PreservationForbids }
{}

/// A law without code, over every step of the machine: as many leases are held after it as before, with those that came by it
/// and without those that went.
pub fn leases_are_accounted()
    ensures { LeasesAreAccounted }
{}

/// A law without code: what a server with peers may do next depends on the plain form of its machine and on its queues
/// alone; and each plain form with queues is that of some server.
pub fn plain_servers_decide()
    ensures steps { ServersStepAlike }
    ensures faults { ServersFaultAlike }
    ensures each { EachServerIsHeld }
{}

/// A law without code, over every step of a server: nothing is queued for a peer by a step that a peer sent, by an adoption, by
/// a timer's command or by a change of the settings.
pub fn peers_and_timers_queue_nothing()
    ensures { NothingIsQueued }
{}
