//! What the reasons and the moments that an operator sees mean.
ghost use Rattle.eu_admin.specs.Law.{LeasesEndAsTold, ReasonsAreTheRule, SilencesAreSinceTouches};

/// A law without code: whatever a registry's past is, the reason that [`why`](crate::why) gives of its counts says how its renewals and its threshold stand, and
/// evictions are permitted by exactly the two reasons that say so.
pub fn reasons_are_the_rule()
    ensures { ReasonsAreTheRule }
{}

/// A law without code: what [`app_page`](crate::app_page) tells of a lease as it is listed is so by its whole history. It was last heard of at its newest touch, its
/// registration or a renewal; and at a moment it has expired exactly where the end that is told lies before.
pub fn silences_are_since_touches()
    ensures heard { SilencesAreSinceTouches }
    ensures ends { LeasesEndAsTold }
{}
