//! The status of an instance.
ghost use Rattle.std.specs.Prelude.{◌≡◌};
ghost use Rattle.std.specs.Str.{bytes_eq, str_to_ascii_uppercase};
ghost use Rattle.eu_base.specs.Values.{status_name, status_of};

/// The status of an instance (`InstanceInfo.InstanceStatus` in Eureka).
#[derive(Clone, Copy, Debug, PartialEq, Eq)]
pub enum Status {
    /// Ready for traffic.
    Up,
    /// Its health check failed.
    Down,
    /// About to start.
    Starting,
    /// Taken out of traffic on purpose.
    OutOfService,
    /// Not known.
    Unknown,
}

impl Status {
    /// The status in Eureka's spelling, as `OUT_OF_SERVICE`.
    pub fn name(self) -> &'static str
        ensures { result.now ≡ status_name self }
    {
        match self {
            Status::Up => "UP",
            Status::Down => "DOWN",
            Status::Starting => "STARTING",
            Status::OutOfService => "OUT_OF_SERVICE",
            Status::Unknown => "UNKNOWN",
        }
    }

    /// The status of that name, in capitals. None for any other text.
    pub fn read(text: &[u8]) -> Option<Status>
        ensures { result ≡ status_of text.now }
    {
        if is_text(text, "UP") {
            return Some(Status::Up);
        }
        if is_text(text, "DOWN") {
            return Some(Status::Down);
        }
        if is_text(text, "STARTING") {
            return Some(Status::Starting);
        }
        if is_text(text, "OUT_OF_SERVICE") {
            return Some(Status::OutOfService);
        }
        if is_text(text, "UNKNOWN") {
            return Some(Status::Unknown);
        }
        None
    }

    /// The status of that name, in letters of either case. None for any other text.
    pub fn read_any_case(text: &str) -> Option<Status>
        ensures { result ≡ status_of (str_to_ascii_uppercase text.now) }
    {
        if is_name(text, "UP") {
            return Some(Status::Up);
        }
        if is_name(text, "DOWN") {
            return Some(Status::Down);
        }
        if is_name(text, "STARTING") {
            return Some(Status::Starting);
        }
        if is_name(text, "OUT_OF_SERVICE") {
            return Some(Status::OutOfService);
        }
        if is_name(text, "UNKNOWN") {
            return Some(Status::Unknown);
        }
        None
    }
}

fn is_text(bytes: &[u8], text: &str) -> bool
    ensures { result ≡ bytes_eq bytes.now text.now }
{
    bytes == text.as_bytes()
}

/// Whether a text is this one, which is in capitals, in letters of either case.
fn is_name(text: &str, name: &str) -> bool
    requires { str_to_ascii_uppercase name.now ≡ name.now }
    ensures { result ≡ bytes_eq (str_to_ascii_uppercase text.now) name.now }
{
    text.eq_ignore_ascii_case(name)
}
