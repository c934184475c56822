//! The values that a query may have.
ghost use Rattle.std.specs.Prelude.{◌≡◌};
ghost use Rattle.eu_routes.specs.Query as spec;

/// A value that a query may have.
#[derive(Clone, Copy, Debug, PartialEq, Eq)]
pub enum Parameter {
    /// The stamp of the instance that the client has.
    LastDirtyTimestamp,
    /// The status that is to override the instance's own.
    Value,
    /// The status of which the client says that it overrides the instance's own.
    OverriddenStatus,
    /// Whether self-preservation is on (`enableSelfPreservation` in Eureka).
    Preservation,
    /// The percentage of the threshold (`renewalPercentThreshold`).
    Percent,
    /// The seconds between two renewals (`expectedClientRenewalIntervalSeconds`).
    Interval,
    /// The milliseconds between two evictions (`evictionIntervalTimerInMs`).
    EvictMs,
}

impl Parameter {
    /// Its name in a query. Each byte of it stands for itself (URL Standard, section 5.1).
    pub fn name(self) -> &'static str
        ensures { result.now ≡ spec.name_of self }
    {
        match self {
            Parameter::LastDirtyTimestamp => "lastDirtyTimestamp",
            Parameter::Value => "value",
            Parameter::OverriddenStatus => "overriddenstatus",
            Parameter::Preservation => "preservation",
            Parameter::Percent => "percent",
            Parameter::Interval => "interval",
            Parameter::EvictMs => "evictMs",
        }
    }
}
