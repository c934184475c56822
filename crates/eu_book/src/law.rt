//! In what order a listing stands, and what a batch in flight keeps back.
ghost use Rattle.eu_book.specs.Busy.{DrainsAreBusy};
ghost use Rattle.eu_book.specs.Listing.{ListingsAscend};

/// A law without code: wherever entries lead from plain data, the keys of the instances in a listing of all strictly ascend. So none is
/// listed twice, and the leases of one application stand together (`Applications` in Eureka). An opening is plain data without leases.
pub fn listings_ascend()
    ensures { ListingsAscend }
{}

/// A law without code: a book with a batch in flight for a peer refuses every drain for that peer by `Busy`, and none for want of memory, until 2^62
/// steps were made. So a turn for that peer waits (`eu_peer::busy_turns_wait`).
pub fn drains_are_busy()
    ensures { DrainsAreBusy }
{}
