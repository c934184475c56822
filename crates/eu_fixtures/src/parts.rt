//! A reader of two texts, of which each byte is given.
ghost use Rattle.std.specs.Prelude.{None};

use eu_stream::{ReadFault, Source};

/// Gives two texts, so many bytes at a time and no read over both, and then ends or fails.
#[derive(Drop)]
pub struct Parts<'a> {
    first: &'a [u8],
    second: &'a [u8],
    size: usize,
    fails: bool,
    /// Whether a read has failed.
    pub has_failed: bool,
}

impl<'a> Parts<'a> {
    /// Two texts, so many bytes at a time, and whether a read behind them fails.
    fn of(first: &'a [u8], second: &'a [u8], size: usize, fails: bool) -> Parts<'a> {
        Parts {
            first,
            second,
            size,
            fails,
            has_failed: false,
        }
    }

    /// One text, so many bytes at a time, and whether a read behind it fails.
    pub fn new(text: &'a [u8], size: usize, fails: bool) -> Parts<'a> {
        Parts::of(text, b"", size, fails)
    }

    /// Two texts, each at once, and then the end.
    pub fn ending(first: &'a [u8], second: &'a [u8]) -> Parts<'a> {
        Parts::of(first, second, usize::MAX, false)
    }

    /// Two texts, each at once, and a read behind them fails.
    pub fn failing(first: &'a [u8], second: &'a [u8]) -> Parts<'a> {
        Parts::of(first, second, usize::MAX, true)
    }
}

impl Source for Parts<'_> {
    ghost stream = { λ _. 0 };

    ghost remaining = { λ _. None };

    ghost failed = { λ s. s.has_failed };

    fn read_some(&mut self, buffer: &mut [u8]) -> Result<usize, ReadFault> {
        if self.first.is_empty() {
            self.first = self.second;
            self.second = b"".as_slice();
        }
        if self.first.is_empty() && self.fails {
            self.has_failed = true;
            return Err(ReadFault);
        }
        let count = self.first.len().min(self.size).min(buffer.len());
        buffer[..count].copy_from_slice(&self.first[..count]);
        self.first = &self.first[count..];
        Ok(count)
    }
}
