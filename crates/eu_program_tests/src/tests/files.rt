//! A file in memory, for a machine that has no other.
use crate::tests::fits::has_each;
use eu_fixtures::text_of;
use std::alloc::{AllocError, Global};
use std::fs::{Metadata, OpenFile, OpenOptions};
use std::io::{Error, ErrorKind, Read, Seek, SeekFrom, Write};
use std::sync::Mutex;
use std::{io, str};

/// The path of the file.
const PATH: &str = "kept.journal";

/// The bytes of the file. None where there is no file.
pub type Place = Mutex<Option<Vec<u8>>>;

/// The lines of a file. None where there is no file.
pub type Lines = Option<&'static [&'static str]>;

/// Where a file is that has these lines.
pub fn place_of(alloc: Global, lines: Lines) -> Result<Place, AllocError> {
    let Some(lines) = lines else {
        return Ok(Mutex::new(None));
    };
    let text = text_of(alloc, lines)?;
    let bytes = Vec::from_slice(alloc, text.as_bytes())?;
    Ok(Mutex::new(Some(bytes)))
}

/// Whether the file is there and has just these lines, or there is none and is to be none.
pub fn holds(alloc: Global, place: Place, lines: Lines) -> Result<bool, AllocError> {
    let Some(lines) = lines else {
        return Ok(place.into_inner().is_none());
    };
    let text = text_of(alloc, lines)?;
    Ok(match place.into_inner() {
        Some(bytes) => bytes.as_slice() == text.as_bytes(),
        None => false,
    })
}

/// Whether the file is there and each of these stands in it.
pub fn holds_each(place: Place, parts: &[&str]) -> bool {
    match place.into_inner() {
        Some(bytes) => has_each(str::from_utf8(&bytes).unwrap_or(""), parts, true),
        None => false,
    }
}

/// The file, open, from a byte on. What is written to it comes behind its last byte.
#[derive(Drop)]
pub struct Kept<'a> {
    place: &'a Place,
    at: usize,
}

/// Opens the file as it is asked: one that is asked to be created is there then, and one that is asked to be truncated is empty.
/// `NotFound` where the path is another, or there is no file then.
pub fn open_kept<'a>(
    place: &'a Place,
    alloc: Global,
    how: &OpenOptions,
    path: &str,
) -> io::Result<Kept<'a>> {
    how.check()?;
    let Some(mut guard) = place.try_lock() else {
        return Err(Error::from(ErrorKind::WouldBlock));
    };
    let held: &mut Option<Vec<u8>> = &mut guard;
    if path != PATH || (held.is_none() && !how.asks_create()) {
        return Err(Error::from(ErrorKind::NotFound));
    }
    if held.is_none() || how.asks_truncate() {
        *held = Some(Vec::new(alloc));
    }
    Ok(Kept { place, at: 0 })
}

impl Read for Kept<'_> {
    fn read(&mut self, buffer: &mut [u8]) -> io::Result<usize> {
        let place = self.place;
        let Some(guard) = place.try_lock() else {
            return Err(Error::from(ErrorKind::WouldBlock));
        };
        let held: &Option<Vec<u8>> = &guard;
        let Some(bytes) = held.as_ref() else {
            return Err(Error::from(ErrorKind::NotFound));
        };
        let mut rest = &bytes.as_slice()[self.at.min(bytes.len())..];
        let count = rest.read(buffer)?;
        self.at = self.at.saturating_add(count);
        Ok(count)
    }
}

impl Write for Kept<'_> {
    fn write(&mut self, buffer: &[u8]) -> io::Result<usize> {
        let place = self.place;
        let Some(mut guard) = place.try_lock() else {
            return Err(Error::from(ErrorKind::WouldBlock));
        };
        let held: &mut Option<Vec<u8>> = &mut guard;
        let Some(bytes) = held.as_mut() else {
            return Err(Error::from(ErrorKind::NotFound));
        };
        bytes.extend_from_slice(buffer)?;
        Ok(buffer.len())
    }

    fn flush(&mut self) -> io::Result<()> {
        Ok(())
    }
}

impl Seek for Kept<'_> {
    fn seek(&mut self, _to: SeekFrom) -> io::Result<u64> {
        Err(Error::from(ErrorKind::Unsupported))
    }
}

impl OpenFile for Kept<'_> {
    fn metadata(&self) -> io::Result<Metadata> {
        Err(Error::from(ErrorKind::Unsupported))
    }

    fn set_len(&self, _size: u64) -> io::Result<()> {
        Err(Error::from(ErrorKind::Unsupported))
    }

    fn sync_all(&self) -> io::Result<()> {
        Err(Error::from(ErrorKind::Unsupported))
    }

    fn sync_data(&self) -> io::Result<()> {
        Err(Error::from(ErrorKind::Unsupported))
    }
}
