//! What the words of a script ask for.
use crate::told::{number_of, numbered};
use crate::values::moment;
use eu_base::{App, Config, Fault, Moment};
use eu_lines::LineError;
use eu_model::{Ask, Command, Query};
use eu_words::{Line, read_line};
use std::alloc::Global;

/// What a line of a script says.
pub fn read_said(alloc: Global, words: &str) -> Result<Line, Fault> {
    match read_line(alloc, words.as_bytes()) {
        Ok(line) => Ok(line),
        Err(LineError::OutOfMemory) => Err(Fault::OutOfMemory),
        Err(LineError::Bad) => Err(Fault::BadValue),
    }
}

/// What a line asks for, and when.
fn ask_of(line: Line) -> Result<(Moment, Ask), Fault> {
    match line {
        Line::Apply { moment, command } => Ok((moment, Ask::Do(command))),
        Line::Look { moment, key } => Ok((moment, Ask::See(Query::One(key)))),
        Line::Counts { moment } => Ok((moment, Ask::See(Query::Counts))),
        Line::Page { moment } => Ok((moment, Ask::See(Query::Page))),
        Line::Open(_) => Err(Fault::BadValue),
    }
}

/// What asks for the leases of an application, and when.
fn read_of(alloc: Global, words: &str) -> Result<(Moment, Ask), Fault> {
    let (ms, app) = numbered(words)?;
    let app = App::read(alloc, app)?;
    Ok((moment(ms)?, Ask::See(Query::OfApp(app))))
}

/// What a script's line asks for, and when; or `all MS` or `of MS APP`, for all leases, or those of an application.
pub fn read_ask(alloc: Global, words: &str) -> Result<(Moment, Ask), Fault> {
    if let Some(ms) = words.strip_prefix("all ") {
        return Ok((moment(number_of(ms)?)?, Ask::See(Query::All)));
    }
    match words.strip_prefix("of ") {
        Some(words) => read_of(alloc, words),
        None => ask_of(read_said(alloc, words)?),
    }
}

/// The command of a script's line, and its moment.
pub fn read_command(alloc: Global, words: &str) -> Result<(Moment, Command), Fault> {
    match read_said(alloc, words)? {
        Line::Apply { moment, command } => Ok((moment, command)),
        _ => Err(Fault::BadValue),
    }
}

/// The settings of a line `config T on P I M`, as a script has it.
pub fn read_config(alloc: Global, words: &str) -> Result<Config, Fault> {
    let (_, command) = read_command(alloc, words)?;
    match command {
        Command::Reconfigure { config } => Ok(config),
        other => {
            drop(other);
            Err(Fault::BadValue)
        }
    }
}
