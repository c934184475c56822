//! What a listing of all has in each state that a run reaches.
ghost use Rattle.eu_session.specs.Listings.{OpenedAreByApplication, ResumedAreByApplication};

/// A law without code: wherever entries lead, from an opening or from plain data, each lease stands under the key of its instance. So a
/// listing of all has one item for each application that holds a lease, and the item is that of a query for the application alone.
///
/// It joins two laws: by `listings_ascend` of `eu_book` a listing of all is in key order there (an opening is plain data without leases), and by `items_are_of_applications` of
/// `eu_json` the items are then those of the applications, in the order of their names.
pub fn listings_are_by_application()
    ensures opened { OpenedAreByApplication }
    ensures resumed { ResumedAreByApplication }
{}
