//! A machine whose words and input are given, and which keeps what is written to it.
use crate::tests::files::{Kept, Place, open_kept};
use libc::net::{SHUT_RDWR, shutdown};
use std::alloc::{Alloc, Allocator, Global};
use std::env::FillError;
use std::fmt::Display;
use std::fs::{Metadata, OpenOptions};
use std::io;
use std::io::{BufRead, Error, ErrorKind, Lines, Read, Write};
use std::net::{Net, SocketAddr, TcpListener, TcpStream};
use std::os::fd::AsRawFd;
use std::random::RandomSource;
use std::rt::{Env, Files};
use std::sync::{Mutex, Wait};
use std::thread::Threads;
use std::time::{Clock, Duration};

/// What doesn't work at a machine.
#[derive(Clone, Copy)]
pub enum Broken {
    Nothing,
    /// Its words aren't UTF-8.
    Words,
    /// No connection can be accepted.
    Accept,
    /// The monotonic clock can't be read.
    Clock,
    /// Standard output takes no bytes.
    Output,
    /// A read of standard input fails.
    Input,
    /// The system draws no random bytes.
    Random,
}

/// An input, whose reads fail where it is broken.
#[derive(Drop)]
pub struct Given<'a> {
    bytes: &'a [u8],
    is_broken: bool,
}

impl Read for Given<'_> {
    fn read(&mut self, buffer: &mut [u8]) -> io::Result<usize> {
        if self.is_broken {
            return Err(Error::from(ErrorKind::Unsupported));
        }
        self.bytes.read(buffer)
    }
}

impl BufRead for Given<'_> {
    fn fill_buf(&mut self) -> io::Result<&[u8]> {
        if self.is_broken {
            return Err(Error::from(ErrorKind::Unsupported));
        }
        Ok(self.bytes)
    }

    fn consume(&mut self, amount: usize) {
        self.bytes = &self.bytes[amount.min(self.bytes.len())..];
    }
}

/// What was written to standard output and to standard error.
#[derive(Drop)]
pub struct Told {
    pub out: Mutex<Vec<u8>>,
    pub err: Mutex<Vec<u8>>,
}

impl Told {
    /// Nothing yet.
    pub fn new(alloc: Global) -> Told {
        Told {
            out: Mutex::new(Vec::new(alloc)),
            err: Mutex::new(Vec::new(alloc)),
        }
    }
}

/// A machine with such words and such an input, and with that file.
#[derive(Drop)]
pub struct Machine<'a, R> {
    pub rt: &'a R,
    pub alloc: Global,
    pub words: &'a [&'a str],
    pub input: &'a str,
    pub broken: Broken,
    pub place: &'a Place,
    pub told: &'a Told,
}

/// Writes a text behind what is kept.
fn keep<R: Wait, D: Display + Drop>(rt: &R, kept: &Mutex<Vec<u8>>, text: D) -> io::Result<()> {
    let mut kept = kept.lock(rt);
    let bytes: &mut Vec<u8> = &mut kept;
    write!(bytes, "{text}")
}

impl<R> Alloc for Machine<'_, R> {
    type A = Global;

    fn alloc(&self) -> Global {
        self.alloc
    }
}

impl<R: Threads> Threads for Machine<'_, R> {}

impl<R: Wait> Wait for Machine<'_, R> {}

impl<R: Clock> Clock for Machine<'_, R> {
    fn monotonic(&self) -> io::Result<Duration> {
        if matches!(self.broken, Broken::Clock) {
            return Err(Error::from(ErrorKind::Unsupported));
        }
        self.rt.monotonic()
    }

    fn since_1970(&self) -> io::Result<Duration> {
        self.rt.since_1970()
    }
}

impl<R: Net<Listener = TcpListener, Stream = TcpStream>> Net for Machine<'_, R> {
    type Stream = TcpStream;

    type Listener = TcpListener;

    fn bind(&self, address: SocketAddr) -> io::Result<TcpListener> {
        let listener = self.rt.bind(address)?;
        if matches!(self.broken, Broken::Accept) {
            let _ = shutdown(listener.as_raw_fd(), SHUT_RDWR);
        }
        Ok(listener)
    }

    fn connect(&self, address: SocketAddr) -> io::Result<TcpStream> {
        self.rt.connect(address)
    }
}

/// The seed that is drawn is 3.
impl<R> RandomSource for Machine<'_, R> {
    fn fill_bytes(&self, buf: &mut [u8]) -> io::Result<()> {
        if matches!(self.broken, Broken::Random) {
            return Err(Error::from(ErrorKind::Unsupported));
        }
        buf.fill(0);
        if let Some(first) = buf.first_mut() {
            *first = 3;
        }
        Ok(())
    }
}

impl<R> Env for Machine<'_, R> {
    fn arg(&self, i: usize, buf: &mut [u8]) -> Result<usize, FillError> {
        let Some(word) = self.words.get(i) else {
            return Err(FillError::NotPresent);
        };
        let bytes = match self.broken {
            Broken::Words => b"\xff".as_slice(),
            _ => word.as_bytes(),
        };
        if bytes.len() > buf.len() {
            return Err(FillError::TooLong);
        }
        buf[..bytes.len()].copy_from_slice(bytes);
        Ok(bytes.len())
    }

    fn var(&self, _name: &str, _buf: &mut [u8]) -> Result<usize, FillError> {
        Err(FillError::NotPresent)
    }

    fn var_at(&self, _i: usize, _buf: &mut [u8]) -> Result<usize, FillError> {
        Err(FillError::NotPresent)
    }
}

/// There is nothing but the one file.
fn no_file<T>() -> io::Result<T> {
    Err(Error::from(ErrorKind::Unsupported))
}

impl<'a, R> Files for Machine<'a, R> {
    type File = Kept<'a>;

    type Dir = <HostRuntime as Files>::Dir;

    fn open_file(&self, how: &OpenOptions, path: &str) -> io::Result<Kept<'a>> {
        open_kept(self.place, self.alloc, how, path)
    }

    fn open_dir(&self, _path: &str) -> io::Result<<HostRuntime as Files>::Dir> {
        no_file()
    }

    fn metadata(&self, _path: &str) -> io::Result<Metadata> {
        no_file()
    }

    fn symlink_metadata(&self, _path: &str) -> io::Result<Metadata> {
        no_file()
    }

    fn copy(&self, _from: &str, _to: &str) -> io::Result<u64> {
        no_file()
    }

    fn rename(&self, _from: &str, _to: &str) -> io::Result<()> {
        no_file()
    }

    fn remove_file(&self, _path: &str) -> io::Result<()> {
        no_file()
    }

    fn create_dir(&self, _path: &str) -> io::Result<()> {
        no_file()
    }

    fn remove_dir(&self, _path: &str) -> io::Result<()> {
        no_file()
    }

    fn remove_dir_all<B: Allocator>(&self, _alloc: B, _path: &str) -> io::Result<()> {
        no_file()
    }
}

impl<'a, R> Input for Machine<'a, R> {
    type Reader = Given<'a>;

    fn read_line<A: Allocator + Clone>(&self, _buf: &mut String<A>) -> io::Result<usize> {
        Err(Error::from(ErrorKind::Unsupported))
    }

    fn lines<A: Allocator>(&self, alloc: A) -> Lines<Given<'a>, A> {
        self.reader().lines(alloc)
    }

    fn reader(&self) -> Given<'a> {
        Given {
            bytes: self.input.as_bytes(),
            is_broken: matches!(self.broken, Broken::Input),
        }
    }
}

impl<R: Wait> Print for Machine<'_, R> {
    fn print<D: Display + Drop>(&self, value: D) -> io::Result<()> {
        keep(self.rt, &self.told.out, value)
    }

    fn println<D: Display + Drop>(&self, value: D) -> io::Result<()> {
        keep(self.rt, &self.told.out, value)?;
        keep(self.rt, &self.told.out, "\n")
    }

    fn write_all(&self, bytes: &[u8]) -> io::Result<()> {
        if matches!(self.broken, Broken::Output) {
            return Err(Error::from(ErrorKind::BrokenPipe));
        }
        self.told.out.lock(self.rt).write_all(bytes)
    }
}

impl<R: Wait> Eprint for Machine<'_, R> {
    fn eprint<D: Display + Drop>(&self, value: D) -> io::Result<()> {
        keep(self.rt, &self.told.err, value)
    }

    fn eprintln<D: Display + Drop>(&self, value: D) -> io::Result<()> {
        keep(self.rt, &self.told.err, value)?;
        keep(self.rt, &self.told.err, "\n")
    }
}
