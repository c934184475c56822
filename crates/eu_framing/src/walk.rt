//! How far a chunked body was gone through, so that it needn't be begun again.
ghost use Rattle.std.specs.Prelude.{◌≡◌, ◌≤◌, ◌+◌, [], None};
ghost use Rattle.eu_framing.specs.Chunks.{max_raw, max_trailer};

use std::alloc::Global;

/// A chunked body as far as it was gone through.
///
/// Where a read fails, as it does where no more has come so far, the next call goes on with it. So each byte of the body is looked at once,
/// in however many pieces it comes.
#[derive(Debug, Drop)]
pub struct Walk {
    /// The chunks before this place were taken.
    pub at: usize,
    /// The line there doesn't end before this place, unless it is known.
    pub seen: usize,
    /// The line there, once it is whole: its length, and the size of its data.
    pub line: Option<(usize, u64)>,
    /// The data of the chunks that were taken.
    pub body: Vec<u8>,
}

impl Walk {
    /// Before the first chunk. Takes no memory.
    pub fn new(alloc: Global, start: usize) -> Walk
        ensures at { result.at ≡ start }
        ensures seen { result.seen ≡ start }
        ensures line { result.line ≡ None }
        ensures body { result.body.items ≡ [] }
    {
        Walk {
            at: start,
            seen: start,
            line: None,
            body: Vec::new(alloc),
        }
    }

    /// Goes on behind a chunk of so many bytes.
    pub fn pass(&mut self, len: usize)
        requires { self.old.at + len ≤ max_raw + max_trailer }
        ensures at { self.new.at ≡ self.old.at + len }
        ensures seen { self.new.seen ≡ self.old.at + len }
        ensures line { self.new.line ≡ None }
        ensures body { self.new.body ≡ self.old.body }
    {
        self.at += len;
        self.seen = self.at;
        self.line = None;
    }
}
