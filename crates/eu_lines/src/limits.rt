//! How long a text and its lines may be.
ghost use Rattle.std.specs.Prelude.{◌≡◌};
ghost use Rattle.eu_lines.specs.Lines.{script_limits};

/// The most bytes of a line of a script, without its LF.
pub const LONGEST_LINE: usize = 4_096;

/// The most bytes of a script.
pub const MOST_BYTES: usize = 16_777_216;

/// How long a text and its lines may be.
#[derive(Clone, Copy, Debug, PartialEq, Eq)]
pub struct Limits {
    /// The most bytes of a line, without its LF. A longer line is bad.
    pub line: usize,
    /// The most bytes of a text.
    pub text: usize,
}

impl Limits {
    /// Those of a script: `LONGEST_LINE` and `MOST_BYTES`.
    pub fn of_scripts() -> Limits
        ensures { result ≡ script_limits }
    {
        Limits {
            line: LONGEST_LINE,
            text: MOST_BYTES,
        }
    }
}
