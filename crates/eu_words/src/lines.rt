//! What a line says.
ghost use Rattle.std.specs.Prelude.{◌≢◌, Err};
ghost use Rattle.eu_words.specs.Words.{Takes, IsReading};
ghost use Rattle.eu_words.specs.Lines.{line_of, words_say, open_says, config_says, drain_says, landed_says, lost_says, others_say, newcomer_at, register_says, renew_says, cancel_says, set_says, unset_says, adopt_says, look_says, moment_says};

use crate::openings::Opening;
use crate::words::{Words, is_text};
use eu_base::{Instance, Key, Moment, RenewalSecs, Rest, SharedInstance};
use eu_lines::LineError;
use eu_model::Command;
use std::alloc::Global;

/// What a line says.
#[derive(Drop)]
pub enum Line {
    /// The registry is to be opened.
    Open(Opening),
    /// A command is to be applied.
    Apply {
        /// When.
        moment: Moment,
        /// The command.
        command: Command,
    },
    /// A lease is asked for.
    Look {
        /// When.
        moment: Moment,
        /// The lease.
        key: Key,
    },
    /// The counts are asked for.
    Counts {
        /// When.
        moment: Moment,
    },
    /// The status page is asked for.
    Page {
        /// When.
        moment: Moment,
    },
}

/// What a line says, by its words. The first is its verb, and T is a moment in milliseconds.
///
/// - `open N`, `open N P`: N is below 2^32, and P, the number of peers, up to 8; without it there are none.
/// - `register T APP ID SECS STATUS OVR DIRTY SRC`, `adopt T APP ID SECS STATUS OVR DIRTY`: SECS is 0 to 2,147,483, and 0
///   means 90. DIRTY is a stamp, and `-` means T.
/// - `renew T APP ID DIRTY OVR SRC`, `set T APP ID STATUS DIRTY SRC`, `unset T APP ID STATUS DIRTY SRC`: DIRTY may be `-` for
///   none, as may the OVR of `renew` and the STATUS of `unset`.
/// - `cancel T APP ID SRC`, `look T APP ID`.
/// - `drain T P`, `lost T P`, `landed T P CODE..`: P is the number of a peer, from 0, below 2^32; a CODE is 100 to 999, and there are
///   any number of them.
/// - `config T on P I M`, `config T off P I M`: P, I and M are below 2^32, and those that `Config::new` takes: a percentage up to 100,
///   1 to 3,600 s between two renewals, and milliseconds between two evictions.
/// - `roll T`, `update T`, `evict T`, `counts T`, `page T`.
///
/// APP and ID are names, STATUS and OVR statuses in capitals. SRC is `c` for a client, or `r` for a peer.
///
/// `Bad` where it says none of these; `OutOfMemory`.
pub fn read_line(alloc: Global, line: &[u8]) -> Result<Line, LineError>
    ensures { IsReading result (line_of line.now) }
{
    say(alloc, &mut Words::of(line))
}

#[tactic(auto, unfolding(crate::specs::Lines::words_say))]
fn say(alloc: Global, words: &mut Words<'_>) -> Result<Line, LineError>
    ensures { IsReading result (words_say words.old) }
{
    let verb = words.next_word()?;
    if is_text(verb, "open") {
        return open_line(words);
    }
    if is_text(verb, "register") {
        return register_line(alloc, words);
    }
    if is_text(verb, "renew") {
        return renew_line(alloc, words);
    }
    if is_text(verb, "cancel") {
        return cancel_line(alloc, words);
    }
    if is_text(verb, "set") {
        return set_line(alloc, words);
    }
    if is_text(verb, "unset") {
        return unset_line(alloc, words);
    }
    if is_text(verb, "adopt") {
        return adopt_line(alloc, words);
    }
    other_line(alloc, verb, words)
}

/// What the words behind another verb say.
fn other_line(alloc: Global, verb: &[u8], words: &mut Words<'_>) -> Result<Line, LineError>
    ensures { IsReading result (others_say verb.now words.old) }
{
    if is_text(verb, "config") {
        return config_line(words);
    }
    if is_text(verb, "drain") {
        return drain_line(words);
    }
    if is_text(verb, "landed") {
        return landed_line(alloc, words);
    }
    if is_text(verb, "lost") {
        return lost_line(words);
    }
    if is_text(verb, "look") {
        return look_line(alloc, words);
    }
    moment_line(verb, words)
}

#[tactic(auto, unfolding(crate::specs::Lines::open_says))]
fn open_line(words: &mut Words<'_>) -> Result<Line, LineError>
    ensures said { IsReading result (open_says words.old) }
    ensures memory { result ≢ Err LineError.OutOfMemory }
{
    let expected = words.number_at(u64::from(u32::MAX))?;
    let peers = words.peers_at()?;
    words.end()?;
    Ok(Line::Open(Opening {
        expected: expected as u32,
        peers,
    }))
}

#[tactic(auto, unfolding(crate::specs::Lines::config_says))]
fn config_line(words: &mut Words<'_>) -> Result<Line, LineError>
    ensures said { IsReading result (config_says words.old) }
    ensures memory { result ≢ Err LineError.OutOfMemory }
{
    let moment = words.moment_at()?;
    let config = words.config_at()?;
    words.end()?;
    let command = Command::Reconfigure { config };
    Ok(Line::Apply { moment, command })
}

#[tactic(auto, unfolding(crate::specs::Lines::drain_says))]
fn drain_line(words: &mut Words<'_>) -> Result<Line, LineError>
    ensures said { IsReading result (drain_says words.old) }
    ensures memory { result ≢ Err LineError.OutOfMemory }
{
    let moment = words.moment_at()?;
    let peer = words.peer_at()?;
    words.end()?;
    let command = Command::Drain { peer };
    Ok(Line::Apply { moment, command })
}

#[tactic(auto, unfolding(crate::specs::Lines::lost_says))]
fn lost_line(words: &mut Words<'_>) -> Result<Line, LineError>
    ensures said { IsReading result (lost_says words.old) }
    ensures memory { result ≢ Err LineError.OutOfMemory }
{
    let moment = words.moment_at()?;
    let peer = words.peer_at()?;
    words.end()?;
    let command = Command::Lost { peer };
    Ok(Line::Apply { moment, command })
}

#[tactic(auto, unfolding(crate::specs::Lines::landed_says))]
fn landed_line(alloc: Global, words: &mut Words<'_>) -> Result<Line, LineError>
    ensures { IsReading result (landed_says words.old) }
{
    let moment = words.moment_at()?;
    let peer = words.peer_at()?;
    let codes = words.codes(alloc)?;
    let command = Command::Landed { peer, codes };
    Ok(Line::Apply { moment, command })
}

#[tactic(auto, unfolding(crate::specs::Lines::register_says))]
fn register_line(alloc: Global, words: &mut Words<'_>) -> Result<Line, LineError>
    ensures { IsReading result (register_says words.old) }
{
    let moment = words.moment_at()?;
    let instance = instance_at(alloc, words, moment)?;
    let replicated = words.source_at()?;
    words.end()?;
    let command = Command::Register {
        instance,
        replicated,
    };
    Ok(Line::Apply { moment, command })
}

/// An instance, else `Bad`; `OutOfMemory`. Its stamp is the moment where `-` stands for it; its host is its id.
#[inline(always)]
#[tactic(auto, unfolding(crate::specs::Lines::newcomer_at))]
fn instance_at(
    alloc: Global,
    words: &mut Words<'_>,
    moment: Moment,
) -> Result<SharedInstance, LineError>
    ensures { Takes result words.new (newcomer_at moment words.old) }
{
    let key = words.key_at(alloc)?;
    let secs = words.secs_at()?;
    let status = words.status_at()?;
    let overridden = words.status_at()?;
    let last_dirty = words.last_dirty_at(moment)?;
    let rest = Rest::of_host(alloc, key.id.as_str())?;
    Ok(SharedInstance::new(
        alloc,
        Instance {
            key,
            status,
            overridden,
            last_dirty,
            secs,
            interval: RenewalSecs::DEFAULT,
            rest,
        },
    )?)
}

#[tactic(auto, unfolding(crate::specs::Lines::renew_says))]
fn renew_line(alloc: Global, words: &mut Words<'_>) -> Result<Line, LineError>
    ensures { IsReading result (renew_says words.old) }
{
    let moment = words.moment_at()?;
    let key = words.key_at(alloc)?;
    let last_dirty = words.stamp_at()?;
    let overridden = words.maybe_status_at()?;
    let replicated = words.source_at()?;
    words.end()?;
    let command = Command::Renew {
        key,
        last_dirty,
        overridden,
        replicated,
    };
    Ok(Line::Apply { moment, command })
}

#[tactic(auto, unfolding(crate::specs::Lines::cancel_says))]
fn cancel_line(alloc: Global, words: &mut Words<'_>) -> Result<Line, LineError>
    ensures { IsReading result (cancel_says words.old) }
{
    let moment = words.moment_at()?;
    let key = words.key_at(alloc)?;
    let replicated = words.source_at()?;
    words.end()?;
    let command = Command::Cancel { key, replicated };
    Ok(Line::Apply { moment, command })
}

#[tactic(auto, unfolding(crate::specs::Lines::set_says))]
fn set_line(alloc: Global, words: &mut Words<'_>) -> Result<Line, LineError>
    ensures { IsReading result (set_says words.old) }
{
    let moment = words.moment_at()?;
    let key = words.key_at(alloc)?;
    let status = words.status_at()?;
    let last_dirty = words.stamp_at()?;
    let replicated = words.source_at()?;
    words.end()?;
    let command = Command::SetStatus {
        key,
        status,
        last_dirty,
        replicated,
    };
    Ok(Line::Apply { moment, command })
}

#[tactic(auto, unfolding(crate::specs::Lines::unset_says))]
fn unset_line(alloc: Global, words: &mut Words<'_>) -> Result<Line, LineError>
    ensures { IsReading result (unset_says words.old) }
{
    let moment = words.moment_at()?;
    let key = words.key_at(alloc)?;
    let status = words.maybe_status_at()?;
    let last_dirty = words.stamp_at()?;
    let replicated = words.source_at()?;
    words.end()?;
    let command = Command::UnsetStatus {
        key,
        status,
        last_dirty,
        replicated,
    };
    Ok(Line::Apply { moment, command })
}

#[tactic(auto, unfolding(crate::specs::Lines::adopt_says))]
fn adopt_line(alloc: Global, words: &mut Words<'_>) -> Result<Line, LineError>
    ensures { IsReading result (adopt_says words.old) }
{
    let moment = words.moment_at()?;
    let instance = instance_at(alloc, words, moment)?;
    words.end()?;
    let command = Command::Adopt { instance };
    Ok(Line::Apply { moment, command })
}

#[tactic(auto, unfolding(crate::specs::Lines::look_says))]
fn look_line(alloc: Global, words: &mut Words<'_>) -> Result<Line, LineError>
    ensures { IsReading result (look_says words.old) }
{
    let moment = words.moment_at()?;
    let key = words.key_at(alloc)?;
    words.end()?;
    Ok(Line::Look { moment, key })
}

/// What a moment alone says after this verb.
#[tactic(auto, unfolding(crate::specs::Lines::moment_says))]
fn moment_line(verb: &[u8], words: &mut Words<'_>) -> Result<Line, LineError>
    ensures said { IsReading result (moment_says verb.now words.old) }
    ensures memory { result ≢ Err LineError.OutOfMemory }
{
    let moment = words.moment_at()?;
    words.end()?;
    if is_text(verb, "roll") {
        let command = Command::EndMinute;
        return Ok(Line::Apply { moment, command });
    }
    if is_text(verb, "update") {
        let command = Command::Update;
        return Ok(Line::Apply { moment, command });
    }
    if is_text(verb, "evict") {
        let command = Command::Evict;
        return Ok(Line::Apply { moment, command });
    }
    if is_text(verb, "counts") {
        return Ok(Line::Counts { moment });
    }
    if is_text(verb, "page") {
        return Ok(Line::Page { moment });
    }
    Err(LineError::Bad)
}
