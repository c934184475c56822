//! A journal as a text.
ghost use Rattle.std.specs.Io.KnownBytes.{Appends, Keeps};
ghost use Rattle.std.specs.Prelude.{◌≡◌, ◌≢◌, ◌<◌, ◌++◌, ℕ, length, take, true, IfErr, IfOk, OnOk, string_bytes};
ghost use Rattle.std.specs.List.{AllByRecursion};
ghost use Rattle.eu_journal_text.specs.Text.{IsReadBack, entries_lines, journal_lines, journal_text, lines_text, seal_line, sealed, state_lines};

use crate::entries::push_entries;
use crate::faults::WriteError;
use crate::push::push_line;
use crate::states::push_state;
use eu_journal::digest_value;
use eu_model::{Entry, State};
use eu_stream::{Sink, write_whole};
use sha2::{Digest, Sha256};
use std::alloc::{AllocError, Global};

/// Puts the line of a text's digest behind it. `AllocError` where no memory is left.
#[tactic(auto, unfolding(crate::specs::Text::line_text, crate::specs::Text::IsReadBack))]
fn seal(alloc: Global, out: &mut String) -> Result<(), AllocError>
    ensures text { OnOk result (string_bytes out.new ≡ sealed (string_bytes out.old)) }
    ensures back { OnOk result (IsReadBack (seal_line (string_bytes out.old))) }
{
    let mut hasher = Sha256::new();
    hasher.update(out.as_bytes());
    let text = hex::encode(alloc, hasher.finalize())?;
    let line = digest_value(alloc, text.as_str())?;
    push_line(alloc, out, &line)
}

/// Puts the lines of entries, and then those of a state at the end.
#[tactic(auto, using(crate::proofs::PutLemmas::put_two, crate::proofs::PutLemmas::all_append))]
fn push_rest(
    alloc: Global,
    out: &mut String,
    entries: &[Entry],
    end: &State,
) -> Result<(), AllocError>
    ensures text { OnOk result (string_bytes out.new ≡ string_bytes out.old ++ lines_text (entries_lines entries.now ++ state_lines end.now)) }
    ensures back { OnOk result (AllByRecursion IsReadBack (entries_lines entries.now ++ state_lines end.now)) }
{
    push_entries(alloc, out, entries)?;
    push_state(alloc, out, end)
}

/// The text of a journal but for the line of its digest. `AllocError` where no memory is left.
#[tactic(auto, using(crate::proofs::PutLemmas::put_two, crate::proofs::PutLemmas::all_append))]
fn body_text(
    alloc: Global,
    base: &State,
    entries: &[Entry],
    end: &State,
) -> Result<String, AllocError>
    ensures text { IfOk result (λ text. string_bytes text ≡ lines_text (journal_lines base.now entries.now end.now)) }
    ensures back { OnOk result (AllByRecursion IsReadBack (journal_lines base.now entries.now end.now)) }
{
    let mut out = String::new(alloc);
    push_state(alloc, &mut out, base)?;
    push_rest(alloc, &mut out, entries, end)?;
    Ok(out)
}

/// The text of a journal: the lines of the state with which it begins, those of its entries, those of the state with which it ends,
/// and a line with the SHA-256 of all bytes before it. `AllocError` where no memory is left.
pub fn journal_text(
    alloc: Global,
    base: &State,
    entries: &[Entry],
    end: &State,
) -> Result<String, AllocError>
    ensures text { IfOk result (λ text. string_bytes text ≡ journal_text base.now entries.now end.now) }
    ensures back { OnOk result (AllByRecursion IsReadBack (journal_lines base.now entries.now end.now)) }
    ensures sealed_back { OnOk result (IsReadBack (seal_line (lines_text (journal_lines base.now entries.now end.now)))) }
{
    let mut out = body_text(alloc, base, entries, end)?;
    seal(alloc, &mut out)?;
    Ok(out)
}

/// Writes the text of a journal, as `journal_text` gives it. It takes memory for the whole text.
///
/// `OutOfMemory` where no memory is left: nothing was written then. `Write` where a write failed, now or before: some front of the
/// text is written then, and not all of it.
pub fn write_journal<W: Sink>(
    alloc: Global,
    writer: &mut W,
    base: &State,
    entries: &[Entry],
    end: &State,
) -> Result<(), WriteError>
    ensures ok { OnOk result (Appends (W.contents writer.old) (W.contents writer.new) (journal_text base.now entries.now end.now)) }
    ensures sound { OnOk result (W.failed writer.new ≡ W.failed writer.old) }
    ensures memory { result ≡ Err WriteError.OutOfMemory → Keeps (W.contents writer.old) (W.contents writer.new) }
    ensures front { result ≡ Err WriteError.Write
        → (k : ℕ) × (k < length (journal_text base.now entries.now end.now)) × Appends (W.contents writer.old) (W.contents writer.new) (take k (journal_text base.now entries.now end.now)) }
    ensures failed { result ≡ Err WriteError.Write → W.failed writer.new ≡ true }
    ensures told { IfErr result (λ fault. fault ≢ WriteError.Write → W.failed writer.new ≡ W.failed writer.old) }
    ensures same_stream { W.stream writer.new ≡ W.stream writer.old }
{
    let text = journal_text(alloc, base, entries, end)?;
    write_whole(writer, text.as_bytes())?;
    Ok(())
}
