//! How far a text was looked through for the line that ends it.
ghost use Rattle.std.specs.Prelude.{◌≡◌, ◌==◌, ◌<◌, ◌≤◌, Bool, drop, length, max, true, false};
ghost use Rattle.eu_framing.specs.Scanning.{IsAt, begun_after, has_end, is_end, line_after};

/// Looks through a text, as it grows, for the empty line that ends a head or a trailer. No byte is looked at twice.
///
/// It only tells when it is worth while to parse what didn't come whole at first. What is read rests on its answers in nothing but how
/// often that is done, that no byte behind a request is waited for, and that a failed read leaves no whole request.
#[derive(Clone, Copy)]
pub struct Scan {
    /// So many bytes were looked at.
    seen: usize,
    /// The line that they end in has a byte, CR aside.
    in_line: bool,
    /// An empty line ends the text; before a head it doesn't.
    begun: bool,
}

impl Scan {
    /// Before a head, at which empty lines may stand.
    pub fn of_head() -> Scan
        ensures { result ≡ record { seen = 0; in_line = false; begun = false } }
    {
        Scan {
            seen: 0,
            in_line: false,
            begun: false,
        }
    }

    /// Before a trailer, which an empty line ends at once.
    pub fn of_trailer() -> Scan
        ensures { result ≡ record { seen = 0; in_line = false; begun = true } }
    {
        Scan {
            seen: 0,
            in_line: false,
            begun: true,
        }
    }

    /// Whether no byte was looked at.
    pub fn is_new(&self) -> bool
        ensures { result ≡ (self.now.seen == 0) }
    {
        self.seen == 0
    }

    /// Whether an empty line ends the text within the bytes that weren't looked at before. Where it does, it has come as far as that
    /// line's end; else to the text's end.
    pub fn finds_empty_line(&mut self, text: &[u8]) -> bool
        ensures found { result ≡ true → (self.old.seen < self.new.seen) × (self.new.seen ≤ length text.now) }
        ensures all { result ≡ false → self.new.seen ≡ max self.old.seen (length text.now) }
        ensures at { (begun : Bool) → IsAt begun text.now self.old → IsAt begun text.now self.new }
        ensures ends { result ≡ has_end self.old.in_line self.old.begun (drop self.old.seen text.now) }
    {
        'bytes: while self.seen < text.len() {
            let byte = text[self.seen];
            self.seen += 1;
            if self.ends_at(byte) {
                return true;
            }
        }
        false
    }

    /// Takes one byte, and tells whether it ends an empty line that ends the text.
    fn ends_at(&mut self, byte: u8) -> bool
        ensures seen { self.new.seen ≡ self.old.seen }
        ensures line { self.new.in_line ≡ line_after self.old.in_line byte }
        ensures begun { self.new.begun ≡ begun_after self.old.begun byte }
        ensures ends { result ≡ is_end self.old.in_line self.old.begun byte }
    {
        match byte {
            b'\n' => {
                let ends = self.begun && !self.in_line;
                self.in_line = false;
                ends
            }
            b'\r' => false,
            _ => {
                self.in_line = true;
                self.begun = true;
                false
            }
        }
    }
}
