//! The words of a line.
ghost use Rattle.std.specs.Prelude.{◌≡◌, ◌≢◌, ◌∷◌, ◌≤◌, List, ℕ, IfErr, IfOk, IfSome, IsSome, None, Some, Err, true, IsAscii, IsUtf8};
ghost use Rattle.std.specs.Str.{bytes_eq};
ghost use Rattle.eu_words.specs.Words.{words_of, words_left, number, Takes, IsReading, word_at, absent_at, number_at, moment_at, app_at, id_at, key_at, status_at, maybe_status_at, secs_at, stamp_at, last_dirty_at, source_at, peers_at, u32_at, peer_at, switch_at, settings_at, code_at, codes_of, end_at};

use crate::openings::PeerCount;
use eu_base::{
    App, Codes, Config, Fault, Id, Key, LAST_MOMENT, LONGEST_LEASE, LeaseSecs, MOST_PEERS, Moment,
    Stamp, Status, read_digits,
};
use eu_lines::LineError;
use std::alloc::Global;
use std::marker::Model;
use std::str;

/// The greatest stamp, 2^63 - 1.
const LAST_STAMP: u64 = 0x7fff_ffff_ffff_ffff;

/// The words of a line that are still to be read. Contracts see the list of them.
#[derive(Drop)]
pub struct Words<'a> {
    rest: Option<&'a [u8]>,
}

impl<'a> Model for Words<'a> {
    ghost Value = { List (List ℕ) };

    ghost view = { λ w. words_left w.rest };
}

impl<'a> Words<'a> {
    /// The words of a line.
    pub fn of(line: &'a [u8]) -> Words<'a>
        ensures { result ≡ words_of line.entry.now }
    {
        Words { rest: Some(line) }
    }

    /// The next word. `Bad` where none is left.
    pub fn next_word(&mut self) -> Result<&'a [u8], LineError>
        ensures said { IfOk result (λ word. word_at self.old ≡ Some (word.now, self.new)) }
        ensures bad { IfErr result (λ e. (e ≡ LineError.Bad) × (word_at self.old ≡ None)) }
    {
        let Some(text) = self.rest else {
            return Err(LineError::Bad);
        };
        let (word, rest) = cut(text);
        self.rest = rest;
        Ok(word)
    }

    /// No word is left, else `Bad`.
    pub fn end(&self) -> Result<(), LineError>
        ensures said { Takes result self.now (end_at self.now) }
        ensures memory { result ≢ Err LineError.OutOfMemory }
    {
        match self.rest {
            None => Ok(()),
            Some(_) => Err(LineError::Bad),
        }
    }

    /// Whether the next word is `-`, which is then read; any other word is left. `Bad` where none is left.
    #[tactic(auto, unfolding(crate::specs::Words::absent_at))]
    fn absent_at(&mut self) -> Result<bool, LineError>
        ensures said { Takes result self.new (absent_at self.old) }
        ensures memory { result ≢ Err LineError.OutOfMemory }
    {
        let before = self.rest;
        let absent = is_text(self.next_word()?, "-");
        if !absent {
            self.rest = before;
        }
        Ok(absent)
    }

    /// A number up to `most`, else `Bad`.
    #[tactic(auto, unfolding(crate::specs::Words::number_at))]
    pub fn number_at(&mut self, most: u64) -> Result<u64, LineError>
        ensures said { Takes result self.new (number_at most self.old) }
        ensures small { IfOk result (λ n. n ≤ most) }
        ensures memory { result ≢ Err LineError.OutOfMemory }
    {
        let word = self.next_word()?;
        let Some(n) = number(word) else {
            return Err(LineError::Bad);
        };
        if n > u128::from(most) {
            return Err(LineError::Bad);
        }
        Ok(n as u64)
    }

    /// The number of peers, up to 8, or 0 where no word is left; else `Bad`.
    #[tactic(auto, unfolding(crate::specs::Words::peers_at), using(crate::proofs::Left::peers_told))]
    pub fn peers_at(&mut self) -> Result<PeerCount, LineError>
        ensures said { Takes result self.new (peers_at self.old) }
        ensures memory { result ≢ Err LineError.OutOfMemory }
    {
        if self.rest.is_none() {
            return Ok(PeerCount::NONE);
        }
        let peers = self.number_at(u64::from(MOST_PEERS))?;
        PeerCount::new(peers as u32).ok_or(LineError::Bad)
    }

    /// A number below 2^32, else `Bad`.
    fn u32_at(&mut self) -> Result<u32, LineError>
        ensures said { Takes result self.new (u32_at self.old) }
        ensures memory { result ≢ Err LineError.OutOfMemory }
    {
        let number = self.number_at(u64::from(u32::MAX))?;
        Ok(number as u32)
    }

    /// The number of a peer, below 2^32, else `Bad`.
    pub fn peer_at(&mut self) -> Result<u32, LineError>
        ensures said { Takes result self.new (peer_at self.old) }
        ensures memory { result ≢ Err LineError.OutOfMemory }
    {
        self.u32_at()
    }

    /// Whether a setting is `on` or `off`, else `Bad`.
    #[tactic(auto, unfolding(crate::specs::Words::switch_at))]
    fn switch_at(&mut self) -> Result<bool, LineError>
        ensures said { Takes result self.new (switch_at self.old) }
        ensures memory { result ≢ Err LineError.OutOfMemory }
    {
        let word = self.next_word()?;
        if is_text(word, "on") {
            return Ok(true);
        }
        if is_text(word, "off") {
            return Ok(false);
        }
        Err(LineError::Bad)
    }

    /// Settings: whether self-preservation is `on` or `off`, the percentage, the seconds between two renewals, and the milliseconds
    /// between two evictions. `Bad` where one of these isn't there or is past its limits (`Config::new`).
    #[tactic(auto, unfolding(crate::specs::Words::settings_at))]
    pub fn config_at(&mut self) -> Result<Config, LineError>
        ensures said { Takes result self.new (settings_at self.old) }
        ensures memory { result ≢ Err LineError.OutOfMemory }
    {
        let preservation = self.switch_at()?;
        let percent = self.u32_at()?;
        let interval = self.u32_at()?;
        let evict_ms = self.u32_at()?;
        Config::of_values(preservation, percent, interval, evict_ms).ok_or(LineError::Bad)
    }

    /// An HTTP status, 100 to 999, else `Bad`.
    #[tactic(auto, unfolding(crate::specs::Words::code_at))]
    fn code(&mut self) -> Result<u16, LineError>
        ensures said { Takes result self.new (code_at self.old) }
        ensures memory { result ≢ Err LineError.OutOfMemory }
    {
        let code = self.number_at(999)?;
        if code < 100 {
            return Err(LineError::Bad);
        }
        Ok(code as u16)
    }

    /// The HTTP statuses that are left, each 100 to 999, else `Bad`; `OutOfMemory`. No word is left behind them.
    pub fn codes(&mut self, alloc: Global) -> Result<Codes, LineError>
        ensures { IsReading result (codes_of self.old) }
    {
        let mut codes = Vec::new(alloc);
        'words: while self.rest.is_some() {
            codes.push(self.code()?)?;
        }
        Ok(Codes::new(codes))
    }

    /// A moment, else `Bad`.
    pub fn moment_at(&mut self) -> Result<Moment, LineError>
        ensures said { Takes result self.new (moment_at self.old) }
        ensures memory { result ≢ Err LineError.OutOfMemory }
    {
        let ms = self.number_at(LAST_MOMENT)?;
        Moment::new(ms).ok_or(LineError::Bad)
    }

    /// An application, else `Bad`; `OutOfMemory`, where the word is one.
    #[tactic(auto, unfolding(crate::specs::Words::app_at))]
    pub fn app_at(&mut self, alloc: Global) -> Result<App, LineError>
        ensures said { Takes result self.new (app_at self.old) }
        ensures memory { result ≡ Err LineError.OutOfMemory → IsSome (app_at self.old) }
    {
        let word = self.next_word()?;
        let Some(text) = text_of(word) else {
            return Err(LineError::Bad);
        };
        match App::read(alloc, text) {
            Ok(app) => Ok(app),
            Err(Fault::OutOfMemory) => Err(LineError::OutOfMemory),
            Err(_) => Err(LineError::Bad),
        }
    }

    /// The id of an instance, else `Bad`; `OutOfMemory`, where the word is one.
    #[tactic(auto, unfolding(crate::specs::Words::id_at))]
    pub fn id_at(&mut self, alloc: Global) -> Result<Id, LineError>
        ensures said { Takes result self.new (id_at self.old) }
        ensures memory { result ≡ Err LineError.OutOfMemory → IsSome (id_at self.old) }
    {
        let word = self.next_word()?;
        let Some(text) = text_of(word) else {
            return Err(LineError::Bad);
        };
        match Id::read(alloc, text) {
            Ok(id) => Ok(id),
            Err(Fault::OutOfMemory) => Err(LineError::OutOfMemory),
            Err(_) => Err(LineError::Bad),
        }
    }

    /// An application and an id, else `Bad`; `OutOfMemory`.
    #[tactic(auto, unfolding(crate::specs::Words::key_at))]
    pub fn key_at(&mut self, alloc: Global) -> Result<Key, LineError>
        ensures { Takes result self.new (key_at self.old) }
    {
        let app = self.app_at(alloc)?;
        let id = self.id_at(alloc)?;
        Ok(Key { app, id })
    }

    /// A status, else `Bad`.
    #[tactic(auto, unfolding(crate::specs::Words::status_at))]
    pub fn status_at(&mut self) -> Result<Status, LineError>
        ensures said { Takes result self.new (status_at self.old) }
        ensures memory { result ≢ Err LineError.OutOfMemory }
    {
        let word = self.next_word()?;
        Status::read(word).ok_or(LineError::Bad)
    }

    /// A status, or none where `-` stands, else `Bad`.
    #[tactic(auto, unfolding(crate::specs::Words::maybe_status_at))]
    pub fn maybe_status_at(&mut self) -> Result<Option<Status>, LineError>
        ensures said { Takes result self.new (maybe_status_at self.old) }
        ensures memory { result ≢ Err LineError.OutOfMemory }
    {
        if self.absent_at()? {
            return Ok(None);
        }
        Ok(Some(self.status_at()?))
    }

    /// The seconds that a lease lasts, else `Bad`. 0 stands for `LeaseSecs::DEFAULT`.
    #[tactic(auto, unfolding(crate::specs::Words::secs_at))]
    #[inline(always)]
    pub fn secs_at(&mut self) -> Result<LeaseSecs, LineError>
        ensures said { Takes result self.new (secs_at self.old) }
        ensures memory { result ≢ Err LineError.OutOfMemory }
    {
        match self.number_at(u64::from(LONGEST_LEASE))? {
            0 => Ok(LeaseSecs::DEFAULT),
            secs => LeaseSecs::new(secs as u32).ok_or(LineError::Bad),
        }
    }

    /// A stamp, or none where `-` stands, else `Bad`.
    #[tactic(auto, unfolding(crate::specs::Words::stamp_at))]
    #[inline(always)]
    pub fn stamp_at(&mut self) -> Result<Option<Stamp>, LineError>
        ensures said { Takes result self.new (stamp_at self.old) }
        ensures memory { result ≢ Err LineError.OutOfMemory }
    {
        if self.absent_at()? {
            return Ok(None);
        }
        let value = self.number_at(LAST_STAMP)?;
        Ok(Some(Stamp::new(value).ok_or(LineError::Bad)?))
    }

    /// A stamp, else `Bad`. `-` stands for the number of the moment.
    #[tactic(auto, unfolding(crate::specs::Words::last_dirty_at))]
    #[inline(always)]
    pub fn last_dirty_at(&mut self, moment: Moment) -> Result<Stamp, LineError>
        ensures said { Takes result self.new (last_dirty_at moment self.old) }
        ensures memory { result ≢ Err LineError.OutOfMemory }
    {
        match self.stamp_at()? {
            Some(stamp) => Ok(stamp),
            None => Stamp::new(moment.ms()).ok_or(LineError::Bad),
        }
    }

    /// Whether a peer sends the line: `r`, or `c` for a client, else `Bad`.
    #[tactic(auto, unfolding(crate::specs::Words::source_at))]
    pub fn source_at(&mut self) -> Result<bool, LineError>
        ensures said { Takes result self.new (source_at self.old) }
        ensures memory { result ≢ Err LineError.OutOfMemory }
    {
        let word = self.next_word()?;
        if is_text(word, "c") {
            return Ok(false);
        }
        if is_text(word, "r") {
            return Ok(true);
        }
        Err(LineError::Bad)
    }
}

/// The part of a text before the first space, and what is after that, where there is one.
fn cut(text: &[u8]) -> (&[u8], Option<&[u8]>)
    ensures { words_of text.now ≡ result.0.now ∷ words_left result.1 }
{
    for (i, byte) in text.iter().enumerate() {
        if *byte == b' ' {
            return (&text[..i], Some(&text[i + 1..]));
        }
    }
    (text, None)
}

/// 1 to 20 decimal digits as a number. None for any other word.
fn number(word: &[u8]) -> Option<u128>
    ensures { result ≡ number word.now }
{
    let (last, front) = word.split_last()?;
    let value = read_digits(front)?;
    if !last.is_ascii_digit() {
        return None;
    }
    Some(u128::from(value) * 10 + u128::from(*last - b'0'))
}

/// A word as text; none where it isn't UTF-8. Most words are short and ASCII: for these, a look at each byte is the quickest test.
fn text_of(word: &[u8]) -> Option<&str>
    ensures some { IfSome result (λ text. (text.now ≡ word.now) × IsUtf8 word.now) }
    ensures none { result ≡ None → IsUtf8 word.now → ⊥ }
{
    if is_ascii(word) {
        return Some(unsafe { str::from_utf8_unchecked(word) });
    }
    match str::from_utf8(word) {
        Ok(text) => Some(text),
        Err(_) => None,
    }
}

/// Whether a word is ASCII.
fn is_ascii(word: &[u8]) -> bool
    ensures { result ≡ true → IsAscii word.now }
{
    for byte in word {
        if !byte.is_ascii() {
            return false;
        }
    }
    true
}

/// Whether a word is this text.
pub fn is_text(word: &[u8], text: &str) -> bool
    ensures { result ≡ bytes_eq word.now text.now }
{
    word == text.as_bytes()
}
