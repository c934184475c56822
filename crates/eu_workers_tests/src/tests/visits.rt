//! Connections as a worker visits them, over what a test reads and writes.
use eu_hall::{Awaited, Guest, PATIENCE, Phase, Unsent, Visit};
use eu_session::Talk;
use std::alloc::{AllocError, Global};
use std::io::{self, Read, Write};

/// The two sides of a connection.
#[derive(Drop)]
pub struct Sides<R, W> {
    /// What is read from.
    pub reader: R,
    /// What is written to.
    pub writer: W,
}

impl<R: Read, W> Read for Sides<R, W> {
    fn read(&mut self, buffer: &mut [u8]) -> io::Result<usize> {
        self.reader.read(buffer)
    }
}

impl<R, W: Write> Write for Sides<R, W> {
    fn write(&mut self, bytes: &[u8]) -> io::Result<usize> {
        self.writer.write(bytes)
    }

    fn flush(&mut self) -> io::Result<()> {
        self.writer.flush()
    }
}

/// A visit of a connection that has just come, with so many turns; it may be read on once all that came is answered. `AllocError` where no memory is left for it.
pub fn visit<S: Drop>(
    alloc: Global,
    socket: S,
    most_turns: u32,
    reads_on: bool,
) -> Result<Visit<S, Talk>, AllocError> {
    let guest = Guest {
        socket,
        talk: Talk::new(alloc),
        unsent: Unsent::new(alloc),
        has_ended: false,
        dropped: 0,
    };
    Ok(Visit {
        key: 0,
        guest: Box::new(alloc, guest)?,
        awaited: Awaited::begin(PATIENCE, Phase::Idle, 0),
        most_turns,
        leaves_long: false,
        reads_on,
        is_drained: false,
        sends_on: true,
        is_warming: false,
        operator: None,
    })
}
