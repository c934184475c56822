//! A law of runs, without code.
ghost use Rattle.eu_audit.specs.PlainRuns.{RunsArePlain};

/// A law without code: a list of entries is a run of the lease machine and its peers' queues between two plain forms exactly where
/// each entry in turn is accepted, answered and carried out on plain forms, from the first plain form to the second.
///
/// So whether it is one can be told without the machine's past, an entry at a time; and of an eviction by its victims alone, however
/// they were drawn.
pub fn runs_are_plain()
    ensures { RunsArePlain }
{}
