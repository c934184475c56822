//! What the definition of the next request decides.
ghost use Rattle.eu_framing.specs.Law.{OneMessage, WholeIsFaultless, EndIsAlone, CutHasNone, OneFault};

/// A law without code: bytes begin with one request at most; where they do, they have no fault; where they end before one,
/// they have neither, so that what a failed read leaves begins with no request; and they have one fault at most, but that a
/// head may be too long and also broken or cut.
pub fn one_request_at_most()
    ensures one { OneMessage }
    ensures whole { WholeIsFaultless }
    ensures end { EndIsAlone }
    ensures cut { CutHasNone }
    ensures fault { OneFault }
{}
