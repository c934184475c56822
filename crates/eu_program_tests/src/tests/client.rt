//! A client of a server: a list of what it does, and of what it is to read.
use crate::tests::fits::{fits, has_each};
use std::alloc::Global;
use std::io::{Error, ErrorKind, Read, Write};
use std::net::{Net, SocketAddr, TcpStream};
use std::time::{Clock, Duration, Instant};
use std::{io, str, thread};

/// What a client does.
#[derive(Clone, Copy)]
pub enum Step {
    /// It has one more connection.
    Connect,
    /// It sends that on the connection of that number, counted from 0.
    Send(usize, &'static str),
    /// It reads that on it, and then the end.
    Read(usize, &'static str),
    /// It sends and reads that on a connection that it has for no longer.
    Ask(&'static str, &'static str),
    /// So it does at the port of operators.
    Watch(&'static str, &'static str),
    /// So it does at its own, and in what it reads each of these stands, and none of those.
    List(&'static str, &'static [&'static str], &'static [&'static str]),
    /// It waits for so many milliseconds.
    Sleep(u64),
    /// It has come here within so many milliseconds.
    Within(u64),
}

/// A client of the server of that address, to which operators connect at another.
#[derive(Drop)]
pub struct Client<'a, R> {
    rt: &'a R,
    alloc: Global,
    address: SocketAddr,
    operators: SocketAddr,
    began: Instant,
    streams: Vec<TcpStream>,
}

/// What is read of a connection on which that is sent.
fn answered(alloc: Global, stream: &mut TcpStream, request: &str) -> io::Result<Vec<u8>> {
    stream.write_all(request.as_bytes())?;
    let mut answer = Vec::new(alloc);
    stream.read_to_end(&mut answer)?;
    Ok(answer)
}

impl<'a, R: Clock + Net<Stream = TcpStream>> Client<'a, R> {
    /// A client without a connection.
    pub fn new(
        rt: &'a R,
        alloc: Global,
        address: SocketAddr,
        operators: SocketAddr,
    ) -> io::Result<Client<'a, R>> {
        Ok(Client {
            rt,
            alloc,
            address,
            operators,
            began: Instant::now(rt)?,
            streams: Vec::new(alloc),
        })
    }

    /// A new connection to that address, of which a read waits for 20 seconds at most.
    fn connection(&self, address: SocketAddr) -> io::Result<TcpStream> {
        let stream = TcpStream::connect(self.rt, address)?;
        stream.set_read_timeout(Some(Duration::from_secs(20)))?;
        Ok(stream)
    }

    /// The connection of that number.
    fn stream(&mut self, number: usize) -> io::Result<&mut TcpStream> {
        match self.streams.get_mut(number) {
            Some(stream) => Ok(stream),
            None => Err(Error::from(ErrorKind::NotConnected)),
        }
    }

    fn connect(&mut self) -> io::Result<bool> {
        let stream = self.connection(self.address)?;
        self.streams.push(stream)?;
        Ok(true)
    }

    fn send(&mut self, number: usize, text: &str) -> io::Result<bool> {
        self.stream(number)?.write_all(text.as_bytes())?;
        Ok(true)
    }

    fn reads(&mut self, number: usize, pattern: &str) -> io::Result<bool> {
        let alloc = self.alloc;
        let answer = answered(alloc, self.stream(number)?, "")?;
        Ok(fits(str::from_utf8(&answer).unwrap_or(""), pattern))
    }

    fn asks(&self, address: SocketAddr, request: &str, pattern: &str) -> io::Result<bool> {
        let mut stream = self.connection(address)?;
        let answer = answered(self.alloc, &mut stream, request)?;
        Ok(fits(str::from_utf8(&answer).unwrap_or(""), pattern))
    }

    fn lists(&self, request: &str, held: &[&str], gone: &[&str]) -> io::Result<bool> {
        let mut stream = self.connection(self.address)?;
        let answer = answered(self.alloc, &mut stream, request)?;
        let text = str::from_utf8(&answer).unwrap_or("");
        Ok(has_each(text, held, true) && has_each(text, gone, false))
    }

    fn sleep(&self, ms: u64) -> io::Result<bool> {
        thread::sleep(self.rt, Duration::from_millis(ms));
        Ok(true)
    }

    fn is_within(&self, ms: u64) -> io::Result<bool> {
        Ok(self.began.elapsed(self.rt)? < Duration::from_millis(ms))
    }

    /// Does that. Whether what it reads is as it is to be.
    fn act(&mut self, step: &Step) -> io::Result<bool> {
        match *step {
            Step::Connect => self.connect(),
            Step::Send(number, text) => self.send(number, text),
            Step::Read(number, pattern) => self.reads(number, pattern),
            Step::Ask(request, pattern) => self.asks(self.address, request, pattern),
            Step::Watch(request, pattern) => self.asks(self.operators, request, pattern),
            Step::List(request, held, gone) => self.lists(request, held, gone),
            Step::Sleep(ms) => self.sleep(ms),
            Step::Within(ms) => self.is_within(ms),
        }
    }

    /// The number, from 1, of the first step that fails, or reads something else.
    pub fn first_wrong(&mut self, steps: &[Step]) -> Option<usize> {
        let mut number = 0usize;
        for step in steps {
            number = number.saturating_add(1);
            if !self.act(step).unwrap_or(false) {
                return Some(number);
            }
        }
        None
    }
}
