ghost use Rattle.std.specs.Prelude.{None, false};

use eu_fixtures::Parts;
use eu_lines::{Answerer, LONGEST_LINE, Limits, LineError, MOST_BYTES, ScriptFault, answer_lines};
use eu_stream::{Discarding, ReadFault, Reading, Sink, Source, WriteFault, Writing};
use std::alloc::{AllocError, Global};
use std::cell::Cell;

/// Prints the length of each line, and finds lines bad that begin with '!'. Its context counts the lines.
#[derive(Drop)]
struct Lengths;

impl Answerer<u64> for Lengths {
    ghost answers = { λ _ _ _ _. Unit {0} };

    ghost refuses = { λ _ _. Unit {0} };

    fn answer(
        &mut self,
        _alloc: Global,
        context: &mut u64,
        line: &[u8],
        out: &mut String,
    ) -> Result<(), LineError> {
        let length = line.len();
        writeln!(out, "{length}")?;
        if line[0] == b'!' {
            return Err(LineError::Bad);
        }
        *context = context.wrapping_add(1);
        Ok(())
    }
}

/// Gives one byte again and again, as often as it's told to.
#[derive(Drop)]
struct Repeated {
    byte: u8,
    left: usize,
}

impl Source for Repeated {
    ghost stream = { λ _. 0 };

    ghost remaining = { λ _. None };

    ghost failed = { λ _. false };

    fn read_some(&mut self, buffer: &mut [u8]) -> Result<usize, ReadFault> {
        let count = self.left.min(buffer.len());
        self.left -= count;
        buffer.fill(self.byte);
        Ok(count)
    }
}

/// Takes so many bytes at a time, and fails once it's full.
#[derive(Drop)]
struct Held {
    text: Vec<u8>,
    size: usize,
    most: usize,
    flushes: usize,
    has_failed: bool,
}

impl Held {
    fn new(alloc: Global, size: usize, most: usize) -> Held {
        Held {
            text: Vec::new(alloc),
            size,
            most,
            flushes: 0,
            has_failed: false,
        }
    }
}

impl Sink for Held {
    ghost stream = { λ _. 0 };

    ghost contents = { λ _. None };

    ghost failed = { λ s. s.has_failed };

    fn write_some(&mut self, bytes: &[u8]) -> Result<usize, WriteFault> {
        let room = self.most.saturating_sub(self.text.len());
        let count = bytes.len().min(self.size).min(room);
        let is_full = count == 0 && !bytes.is_empty();
        if is_full || self.text.extend_from_slice(&bytes[..count]).is_err() {
            self.has_failed = true;
            return Err(WriteFault);
        }
        Ok(count)
    }

    fn flush(&mut self) -> Result<(), WriteFault> {
        self.flushes = self.flushes.wrapping_add(1);
        Ok(())
    }
}

/// Takes whatever is written, and fails after so many good writes, or so many good flushes.
#[derive(Drop)]
struct Failing {
    text: Vec<u8>,
    writes: usize,
    flushes: usize,
    has_failed: bool,
}

impl Failing {
    fn new(alloc: Global, writes: usize, flushes: usize) -> Failing {
        Failing {
            text: Vec::new(alloc),
            writes,
            flushes,
            has_failed: false,
        }
    }
}

impl Sink for Failing {
    ghost stream = { λ _. 0 };

    ghost contents = { λ _. None };

    ghost failed = { λ s. s.has_failed };

    fn write_some(&mut self, bytes: &[u8]) -> Result<usize, WriteFault> {
        if self.writes == 0 || self.text.extend_from_slice(bytes).is_err() {
            self.has_failed = true;
            return Err(WriteFault);
        }
        self.writes -= 1;
        Ok(bytes.len())
    }

    fn flush(&mut self) -> Result<(), WriteFault> {
        if self.flushes == 0 {
            self.has_failed = true;
            return Err(WriteFault);
        }
        self.flushes -= 1;
        Ok(())
    }
}

/// Gives a line three times, and sees at each read how much was flushed before.
#[derive(Drop)]
struct Watching<'a> {
    flushed: &'a Cell<usize>,
    reads: usize,
    is_behind: bool,
}

impl Source for Watching<'_> {
    ghost stream = { λ _. 0 };

    ghost remaining = { λ _. None };

    ghost failed = { λ _. false };

    fn read_some(&mut self, buffer: &mut [u8]) -> Result<usize, ReadFault> {
        self.is_behind = self.is_behind || self.flushed.get() < self.reads;
        if self.reads >= 3 || buffer.len() < 2 {
            return Ok(0);
        }
        self.reads += 1;
        buffer[0] = b'a';
        buffer[1] = b'\n';
        Ok(2)
    }
}

/// Tells how many lines were written and flushed.
#[derive(Drop)]
struct Telling<'a> {
    flushed: &'a Cell<usize>,
    written: usize,
}

impl Sink for Telling<'_> {
    ghost stream = { λ _. 0 };

    ghost contents = { λ _. None };

    ghost failed = { λ _. false };

    fn write_some(&mut self, bytes: &[u8]) -> Result<usize, WriteFault> {
        self.written = self.written.wrapping_add(bytes.len() / 2);
        Ok(bytes.len())
    }

    fn flush(&mut self) -> Result<(), WriteFault> {
        self.flushed.set(self.written);
        Ok(())
    }
}

#[test]
fn answers_before_the_next_read(rt: HostRuntime) {
    let flushed = Cell::new(0);
    let mut reader = Watching {
        flushed: &flushed,
        reads: 0,
        is_behind: false,
    };
    let mut writer = Telling {
        flushed: &flushed,
        written: 0,
    };
    let mut count = 0;
    let result = answer_lines(
        rt.alloc(),
        Limits::of_scripts(),
        &mut reader,
        &mut writer,
        &mut Lengths,
        &mut count,
    );
    assert!(rt; result == Ok(()));
    assert!(rt; reader.reads == 3);
    assert!(rt; !reader.is_behind);
}

#[test]
fn answers_over_std_readers_and_writers(rt: HostRuntime) {
    let mut reader = b"a\n\nbbbb\ncc".as_slice();
    let mut out = Vec::new(rt.alloc());
    let mut count = 0;
    let result = answer_lines(
        rt.alloc(),
        Limits::of_scripts(),
        &mut Reading::new(&mut reader),
        &mut Writing::new(&mut out),
        &mut Lengths,
        &mut count,
    );
    assert!(rt; result == Ok(()));
    assert!(rt; out.as_slice() == b"1\n4\n2\n".as_slice());
    assert!(rt; count == 3);
}

/// Whether the lines of a reader are answered so, and the writer then holds this.
fn answers(
    alloc: Global,
    mut reader: Parts<'_>,
    mut writer: Held,
    wanted: Result<(), ScriptFault>,
    printed: &[u8],
) -> bool {
    let mut count = 0;
    let result = answer_lines(
        alloc,
        Limits::of_scripts(),
        &mut reader,
        &mut writer,
        &mut Lengths,
        &mut count,
    );
    result == wanted && writer.text.as_slice() == printed
}

const ENDS: [(&[u8], bool, Result<(), ScriptFault>, &[u8]); 9] = [
    (b"", false, Ok(()), b""),
    (b"\n", false, Ok(()), b""),
    (b"a\nbb", false, Ok(()), b"1\n2\n"),
    (b"a\nbb\n", false, Ok(()), b"1\n2\n"),
    (b"a\nbb", true, Err(ScriptFault::Read), b"1\n"),
    (b"a\n\n!\nb", false, Err(ScriptFault::BadLine(3)), b"1\n"),
    (b"a\n!", false, Err(ScriptFault::BadLine(2)), b"1\n"),
    (b"a\n!", true, Err(ScriptFault::Read), b"1\n"),
    (b"!\nb", true, Err(ScriptFault::BadLine(1)), b""),
];

#[test]
fn ends_as_the_script_says(rt: HostRuntime) {
    for (text, fails, wanted, printed) in ENDS {
        for size in [1usize, 2, 3, 100] {
            let reader = Parts::new(text, size, fails);
            let writer = Held::new(rt.alloc(), size, 100);
            assert!(rt;
                answers(rt.alloc(), reader, writer, wanted, printed),
                "at {size}"
            );
        }
    }
}

const FULL: [(&[u8], usize, usize); 6] = [
    (b"a\nbb\nccc", 5, 1),
    (b"a\nbb\nccc", 5, 100),
    (b"a\nbb\n!\n", 3, 1),
    (b"a\nbb\n!\n", 3, 100),
    (b"a\nbb\nccc", 0, 1),
    (b"a\nbb\nccc", 0, 100),
];

#[test]
fn a_writer_fails_after_some_bytes(rt: HostRuntime) {
    for (text, most, size) in FULL {
        let reader = Parts::new(text, size, false);
        let writer = Held::new(rt.alloc(), size, most);
        let printed = &b"1\n2\n3\n"[..most.min(6)];
        assert!(rt;
            answers(rt.alloc(), reader, writer, Err(ScriptFault::Write), printed),
            "at {most} {size}"
        );
    }
}

/// Whether answering the lines of a reader fails at a write or a flush, the writer having failed after it took this.
fn fails(alloc: Global, mut reader: Parts<'_>, mut writer: Failing, printed: &[u8]) -> bool {
    let mut count = 0;
    let result = answer_lines(
        alloc,
        Limits::of_scripts(),
        &mut reader,
        &mut writer,
        &mut Lengths,
        &mut count,
    );
    result == Err(ScriptFault::Write) && writer.has_failed && writer.text.as_slice() == printed
}

const FAILS: [(&[u8], bool, usize, usize, &[u8]); 10] = [
    (b"a\nb\nc\n", false, 0, 9, b""),
    (b"a\nb\nc\n", false, 1, 9, b"1\n"),
    (b"a\nb\nc\n", false, 2, 9, b"1\n1\n"),
    (b"a\nb\nc\n", false, 9, 0, b"1\n"),
    (b"a\nb\nc\n", false, 9, 1, b"1\n1\n"),
    (b"a\nb\nc\n", false, 9, 2, b"1\n1\n1\n"),
    (b"a\n", true, 9, 0, b"1\n"),
    (b"a", false, 0, 9, b""),
    (b"a", false, 9, 1, b"1\n"),
    (b"!\n", false, 9, 0, b""),
];

#[test]
fn a_writer_fails_at_a_write_or_at_a_flush(rt: HostRuntime) {
    for (text, ends, writes, flushes, printed) in FAILS {
        let reader = Parts::new(text, 2, ends);
        let writer = Failing::new(rt.alloc(), writes, flushes);
        assert!(rt;
            fails(rt.alloc(), reader, writer, printed),
            "at {writes} {flushes}"
        );
    }
}

/// A short line, one of so many bytes, and this.
fn long(alloc: Global, length: usize, end: &[u8]) -> Result<Vec<u8>, AllocError> {
    let mut text = Vec::from_slice(alloc, b"a\n")?;
    text.extend_from_slice(vec![in alloc; b'x'; length]?.as_slice())?;
    text.extend_from_slice(end)?;
    Ok(text)
}

/// Whether those lines, given so many bytes at a time, are answered so, and this is printed.
fn answers_long(
    alloc: Global,
    text: (usize, &[u8]),
    size: usize,
    wanted: Result<(), ScriptFault>,
    printed: &[u8],
) -> Result<bool, AllocError> {
    let (length, end) = text;
    let text = long(alloc, length, end)?;
    let reader = Parts::new(text.as_slice(), size, false);
    let writer = Held::new(alloc, 100, 100);
    Ok(answers(alloc, reader, writer, wanted, printed))
}

/// What ends a long line, and how many bytes are given at a time.
const LONG: [(&[u8], usize); 3] = [(b"\n", 100_000), (b"\n", 1000), (b"", 1)];

#[test]
fn lines_are_answered_up_to_their_longest(rt: HostRuntime) {
    for (end, size) in LONG {
        let longest = answers_long(rt.alloc(), (LONGEST_LINE, end), size, Ok(()), b"1\n4096\n");
        assert!(rt; longest == Ok(true), "at {size}");
    }
}

#[test]
fn a_line_above_the_longest_is_bad(rt: HostRuntime) {
    for (end, size) in LONG {
        let bad = Err(ScriptFault::BadLine(2));
        let longer = answers_long(rt.alloc(), (LONGEST_LINE + 1, end), size, bad, b"1\n");
        assert!(rt; longer == Ok(true), "at {size}");
    }
}

#[test]
fn a_script_has_a_bound(rt: HostRuntime) {
    let cases = [
        (b'\n', MOST_BYTES, Ok(())),
        (b'\n', MOST_BYTES + 1, Err(ScriptFault::Read)),
        (b'x', MOST_BYTES, Err(ScriptFault::BadLine(1))),
        (b'x', MOST_BYTES + 1, Err(ScriptFault::Read)),
        (b'x', usize::MAX, Err(ScriptFault::Read)),
        (b'\n', usize::MAX, Err(ScriptFault::Read)),
    ];
    for (byte, left, wanted) in cases {
        let mut reader = Repeated { byte, left };
        let mut count = 0;
        let result = answer_lines(
            rt.alloc(),
            Limits::of_scripts(),
            &mut reader,
            &mut Discarding,
            &mut Lengths,
            &mut count,
        );
        assert!(rt; result == wanted, "at {byte} {left}");
        assert!(rt; count == 0);
    }
}
