//! Files that the options name.

use std::fs;
use std::rt::Files;

/// Creates a file, or empties it where it is there already. Where that fails, standard error is told why, and there is none.
pub fn create<R: Files + Eprint>(rt: &R, path: &str) -> Option<R::File> {
    match fs::create(rt, path) {
        Ok(file) => Some(file),
        Err(error) => {
            let _ = eprintln!(rt; "{path}: {error}");
            None
        }
    }
}

/// Opens a file to be read. Where that fails, standard error is told why, and there is none.
pub fn open<R: Files + Eprint>(rt: &R, path: &str) -> Option<R::File> {
    match fs::open(rt, path) {
        Ok(file) => Some(file),
        Err(error) => {
            let _ = eprintln!(rt; "{path}: {error}");
            None
        }
    }
}
