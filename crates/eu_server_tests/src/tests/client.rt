//! A client of a server: a list of what it does, and of what it is to read.
use std::alloc::{AllocError, Global};
use std::io::{Error, ErrorKind, Read, Write};
use std::net::{Net, Shutdown, SocketAddr, TcpStream};
use std::time::{Clock, Duration, Instant};
use std::{io, thread};

/// Texts that are sent at once, one behind the other, each so many times.
pub type Text<'a> = &'a [(&'a str, usize)];

/// What a client does. Its connections have numbers, from 0.
#[derive(Clone, Copy)]
pub enum Step<'a> {
    /// It has so many connections more.
    Connect(usize),
    /// It sends that on a connection.
    Send(usize, Text<'a>),
    /// It sends that so many times on a connection, each time behind a pause of so many milliseconds.
    Dribble(usize, Text<'a>, usize, u64),
    /// So it does, and the server closes the connection meanwhile.
    CutOff(usize, Text<'a>, usize, u64),
    /// It reads that on a connection, and then the end.
    Read(usize, &'a str),
    /// It reads that on a connection, behind which more may come.
    Next(usize, Text<'a>),
    /// It reads a connection to its end, and finds each of these in that.
    Finds(usize, &'a [&'a str]),
    /// It reads so many bytes on a connection, and then the end.
    Length(usize, usize),
    /// It ends its side of a connection.
    End(usize),
    /// It reads nothing on a connection for half a second.
    Silence(usize),
    /// It leaves so many of its connections, the first ones.
    Leave(usize),
    /// So many times it sends and reads that, each time on a connection that it leaves then.
    Ask(usize, Text<'a>, &'a str),
    /// So it does once, and sends a request in two writes.
    Cut(&'a str, &'a str, &'a str),
    /// It waits for so many milliseconds.
    Sleep(u64),
    /// It has come here within so many milliseconds.
    Within(u64),
}

/// A client of the server of that address.
#[derive(Drop)]
pub struct Client<'a, R> {
    rt: &'a R,
    alloc: Global,
    address: SocketAddr,
    began: Instant,
    streams: Vec<TcpStream>,
}

fn push_times(out: &mut String, text: &str, times: usize) -> Result<(), AllocError> {
    for _ in 0..times {
        out.push_str(text)?;
    }
    Ok(())
}

fn whole(alloc: Global, text: Text<'_>) -> Result<String, AllocError> {
    let mut out = String::new(alloc);
    for (part, times) in text {
        push_times(&mut out, part, *times)?;
    }
    Ok(out)
}

/// Whether that is read of a connection, and then the end.
fn reads(alloc: Global, stream: &mut TcpStream, wanted: &str) -> io::Result<bool> {
    let mut answer = Vec::new(alloc);
    stream.read_to_end(&mut answer)?;
    Ok(answer.as_slice() == wanted.as_bytes())
}

/// Whether so many bytes are read of a connection, and then the end.
fn reads_so_many(alloc: Global, stream: &mut TcpStream, wanted: usize) -> io::Result<bool> {
    let mut answer = Vec::new(alloc);
    stream.read_to_end(&mut answer)?;
    Ok(answer.len() == wanted)
}

/// Whether that is read of a connection, behind which more may come.
fn reads_next(alloc: Global, stream: &mut TcpStream, wanted: Text<'_>) -> io::Result<bool> {
    let wanted = whole(alloc, wanted)?;
    let mut answer = Vec::from_elem(alloc, 0u8, wanted.len())?;
    stream.read_exact(&mut answer)?;
    Ok(answer.as_slice() == wanted.as_bytes())
}

/// Whether each of these is found in what is read of a connection, to its end.
fn finds(alloc: Global, stream: &mut TcpStream, wanted: &[&str]) -> io::Result<bool> {
    let mut answer = Vec::new(alloc);
    stream.read_to_end(&mut answer)?;
    let Ok(text) = str::from_utf8(answer.as_slice()) else {
        return Ok(false);
    };
    for part in wanted {
        if !text.contains(part) {
            return Ok(false);
        }
    }
    Ok(true)
}

/// Whether a write failed since the server had closed the connection, rather than that the client gave up.
fn was_cut_off(sent: io::Result<bool>) -> bool {
    match sent {
        Ok(_) => false,
        Err(error) => matches!(
            error.kind(),
            ErrorKind::ConnectionReset | ErrorKind::BrokenPipe
        ),
    }
}

impl<'a, R: Clock + Net<Stream = TcpStream>> Client<'a, R> {
    /// A client without a connection.
    pub fn new(rt: &'a R, alloc: Global, address: SocketAddr) -> io::Result<Client<'a, R>> {
        Ok(Client {
            rt,
            alloc,
            address,
            began: Instant::now(rt)?,
            streams: Vec::new(alloc),
        })
    }

    /// A new connection, which sends at once. A read of it waits for 20 seconds at most, and a write for 10.
    fn connection(&self) -> io::Result<TcpStream> {
        let stream = TcpStream::connect(self.rt, self.address)?;
        stream.set_nodelay(true)?;
        stream.set_read_timeout(Some(Duration::from_secs(20)))?;
        stream.set_write_timeout(Some(Duration::from_secs(10)))?;
        Ok(stream)
    }

    /// The connection of that number.
    fn stream(&mut self, number: usize) -> io::Result<&mut TcpStream> {
        match self.streams.get_mut(number) {
            Some(stream) => Ok(stream),
            None => Err(Error::from(ErrorKind::NotConnected)),
        }
    }

    fn connect(&mut self, count: usize) -> io::Result<bool> {
        for _ in 0..count {
            let stream = self.connection()?;
            self.streams.push(stream)?;
        }
        Ok(true)
    }

    fn dribble(
        &mut self,
        number: usize,
        text: Text<'_>,
        times: usize,
        ms: u64,
    ) -> io::Result<bool> {
        let text = whole(self.alloc, text)?;
        let (rt, pause) = (self.rt, Duration::from_millis(ms));
        let stream = self.stream(number)?;
        for _ in 0..times {
            if ms > 0 {
                thread::sleep(rt, pause);
            }
            stream.write_all(text.as_bytes())?;
        }
        Ok(true)
    }

    fn reads(&mut self, number: usize, wanted: &str) -> io::Result<bool> {
        let alloc = self.alloc;
        reads(alloc, self.stream(number)?, wanted)
    }

    fn reads_next(&mut self, number: usize, wanted: Text<'_>) -> io::Result<bool> {
        let alloc = self.alloc;
        reads_next(alloc, self.stream(number)?, wanted)
    }

    fn finds(&mut self, number: usize, wanted: &[&str]) -> io::Result<bool> {
        let alloc = self.alloc;
        finds(alloc, self.stream(number)?, wanted)
    }

    fn reads_so_many(&mut self, number: usize, wanted: usize) -> io::Result<bool> {
        let alloc = self.alloc;
        reads_so_many(alloc, self.stream(number)?, wanted)
    }

    fn ends(&mut self, number: usize) -> io::Result<bool> {
        self.stream(number)?.shutdown(Shutdown::Write)?;
        Ok(true)
    }

    fn reads_nothing(&mut self, number: usize) -> io::Result<bool> {
        let stream = self.stream(number)?;
        stream.set_read_timeout(Some(Duration::from_millis(500)))?;
        let mut byte = [0u8; 1];
        let waits = stream.read(&mut byte).is_err();
        stream.set_read_timeout(Some(Duration::from_secs(20)))?;
        Ok(waits)
    }

    fn leave(&self, count: usize) -> io::Result<bool> {
        for stream in self.streams.iter().take(count) {
            stream.shutdown(Shutdown::Both)?;
        }
        Ok(true)
    }

    fn asks_once(&self, first: &str, second: &str, wanted: &str) -> io::Result<bool> {
        let mut stream = self.connection()?;
        stream.write_all(first.as_bytes())?;
        if !second.is_empty() {
            thread::sleep(self.rt, Duration::from_millis(1));
            stream.write_all(second.as_bytes())?;
        }
        reads(self.alloc, &mut stream, wanted)
    }

    fn asks(&self, times: usize, text: Text<'_>, wanted: &str) -> io::Result<bool> {
        let request = whole(self.alloc, text)?;
        for _ in 0..times {
            if !self.asks_once(&request, "", wanted)? {
                return Ok(false);
            }
        }
        Ok(true)
    }

    fn sleep(&self, ms: u64) -> io::Result<bool> {
        thread::sleep(self.rt, Duration::from_millis(ms));
        Ok(true)
    }

    fn is_within(&self, ms: u64) -> io::Result<bool> {
        Ok(self.began.elapsed(self.rt)? < Duration::from_millis(ms))
    }

    /// Does that. Whether what it reads is as it is to be.
    fn act(&mut self, step: &Step<'_>) -> io::Result<bool> {
        match *step {
            Step::Connect(count) => self.connect(count),
            Step::Send(number, text) => self.dribble(number, text, 1, 0),
            Step::Dribble(number, text, times, ms) => self.dribble(number, text, times, ms),
            Step::CutOff(number, text, times, ms) => {
                Ok(was_cut_off(self.dribble(number, text, times, ms)))
            }
            Step::Read(number, wanted) => self.reads(number, wanted),
            Step::Next(number, wanted) => self.reads_next(number, wanted),
            Step::Finds(number, wanted) => self.finds(number, wanted),
            Step::Length(number, wanted) => self.reads_so_many(number, wanted),
            Step::End(number) => self.ends(number),
            Step::Silence(number) => self.reads_nothing(number),
            Step::Leave(count) => self.leave(count),
            Step::Ask(times, text, wanted) => self.asks(times, text, wanted),
            Step::Cut(first, second, wanted) => self.asks_once(first, second, wanted),
            Step::Sleep(ms) => self.sleep(ms),
            Step::Within(ms) => self.is_within(ms),
        }
    }

    /// The number, from 1, of the first step that fails, or reads something else.
    pub fn first_wrong(&mut self, steps: &[Step<'_>]) -> Option<usize> {
        let mut number = 0usize;
        for step in steps {
            number = number.saturating_add(1);
            if !self.act(step).unwrap_or(false) {
                return Some(number);
            }
        }
        None
    }
}
