//! Laws without code: what is read again of what was written, and what a listing of all has.
ghost use Rattle.eu_json.specs.BatchLaw.{BatchesComeBack};
ghost use Rattle.eu_json.specs.ListingLaw.{ItemsAreOfApplications, LeasesAreOfApplications};

/// A law without code: each task of a batch asks its receiver for a command, and each text whose JSON is that of `batch_text` says, at any
/// moment, these commands in their order. That is for up to 250 tasks, each with just those of status and instance that its action has (a `Register`
/// and a `Heartbeat` an instance, a `StatusUpdate` and a `DeleteStatusOverride` both, a `Cancel` none), where each instance
/// has its task's key and is one that `read_instance` can give, and names are as `App` and `Id` have them: 1 to 255 bytes, the
/// ASCII letters of an application in capitals.
///
/// A `Register` asks for the registration of its instance, a `Heartbeat` for a renewal with its instance's stamp and
/// overridden status, a `Cancel` for a cancel, a `StatusUpdate` and a `DeleteStatusOverride` for their status to be set and
/// to be taken back, with their instance's stamp; each as a peer's.
pub fn batches_come_back()
    ensures { BatchesComeBack }
{}

/// A law without code: where leases are in key order, a listing of all has one item for each application that holds a lease, in the
/// order of the names. The item has the name of the application and all its leases, in their order. And each lease is in one item: the
/// leases of all items, one item after the other, are all that are listed.
///
/// Key order is that of the applications' names, by their bytes, and then that of the ids. (In Eureka an `Applications` has one
/// `Application` for each name that has a lease, and none for a name without:
/// `AbstractInstanceRegistry.getApplicationsFromMultipleRegions`. The order is left open there. The wiki, "Eureka REST operations", has
/// the query for all instances.)
pub fn items_are_of_applications()
    ensures items { ItemsAreOfApplications }
    ensures leases { LeasesAreOfApplications }
{}
