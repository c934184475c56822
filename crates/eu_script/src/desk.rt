//! A book that answers the lines of a script.
ghost use Rattle.std.specs.Prelude.{◌≡◌, ◌≢◌, ◌++◌, [], None, OnOk, IfOk, IfErr, IfSome, Err, IsTrue, not, string_bytes};
ghost use Rattle.eu_lines.specs.Script.{Wrote, place};
ghost use Rattle.eu_script.specs.Texts.{answer_text, settled_text};
ghost use Rattle.eu_model.specs.Answers.{Shows};
ghost use Rattle.eu_model.specs.View.{counts, listing, status_counts};
ghost use Rattle.eu_page.specs.Page.{shown_page};
ghost use Rattle.eu_script.specs.Script.{opens};
ghost use Rattle.eu_script.specs.ScriptDesk.{Audits, DeskAnswers, DeskRefuses, ClosedAnswers, OpenedAnswers, AccountDoes, Writes, text_of};

use crate::printing::{print_counts, print_look, print_page, print_refusal, print_reply};
use eu_audit::audit;
use eu_base::{Config, Fault, Moment};
use eu_book::{Book, Receipt};
use eu_clock::Chooser;
use eu_core::Registry;
use eu_hash::HashKey;
use eu_journal_text::{WriteError, write_journal};
use eu_lines::{Answerer, LineError, ScriptFault};
use eu_model::Command;
use eu_stream::Sink;
use eu_words::{Line, Opening, read_line};
use std::alloc::{AllocError, Global};

/// The number by which a script asks its book.
const PASS: u64 = 0;

/// What an audit of a book's journal finds.
#[derive(Clone, Copy, Debug)]
pub struct Verdict {
    /// Whether its entries are a run of the lease machine, from its base to where the book is.
    pub is_run: bool,
    /// How many entries it has.
    pub entries: usize,
}

/// Answers the lines of a script, by a registry and its journal once a line has opened them.
#[derive(Drop)]
pub struct ScriptDesk {
    config: Config,
    book: Option<Book>,
}

impl ScriptDesk {
    /// With these settings, before the registry is opened.
    pub fn new(config: Config) -> ScriptDesk
        ensures config { result.config ≡ config }
        ensures book { result.book ≡ None }
    {
        ScriptDesk { config, book: None }
    }

    /// Audits the journal of the book: whether its entries are a run of the lease machine, from its base to where the book is
    /// (`eu_audit::audit`), and their number. Before the registry is open there are none, and they are one. `AllocError` where no
    /// memory is left.
    pub fn judge(&self, alloc: Global) -> Result<Verdict, AllocError>
        ensures { IfOk result (λ v. Audits self.now.book v.is_run v.entries) }
    {
        let Some(book) = self.book.as_ref() else {
            return Ok(Verdict {
                is_run: true,
                entries: 0,
            });
        };
        let entries = book.entries();
        let base = book.base(alloc)?;
        let end = book.state(alloc)?;
        let is_run = audit(alloc, &base, entries, &end)?;
        Ok(Verdict {
            is_run,
            entries: entries.len(),
        })
    }

    /// Writes the text of the book's journal (`eu_journal_text::write_journal`): its base, its entries, and the state in which the
    /// book is. Before the registry is open there is none, and nothing is written. `OutOfMemory` where no memory is left: nothing
    /// was written then. `Write` where a write failed, now or before: a front of the text is written then.
    pub fn write_journal<J: Sink>(&self, alloc: Global, journal: &mut J) -> Result<(), ScriptFault>
        ensures wrote { Wrote (J.contents journal.old) (J.contents journal.new) (Writes (text_of self.now.book) (J.failed journal.new) result) }
        ensures sound { OnOk result (J.failed journal.new ≡ J.failed journal.old) }
        ensures told { IfErr result (λ fault. fault ≢ ScriptFault.Write → J.failed journal.new ≡ J.failed journal.old) }
        ensures same_stream { J.stream journal.new ≡ J.stream journal.old }
    {
        let Some(book) = self.book.as_ref() else {
            return Ok(());
        };
        let entries = book.entries();
        let base = book.base(alloc)?;
        let end = book.state(alloc)?;
        match write_journal(alloc, journal, &base, entries, &end) {
            Ok(()) => Ok(()),
            Err(WriteError::Write) => Err(ScriptFault::Write),
            Err(WriteError::OutOfMemory) => Err(ScriptFault::OutOfMemory),
        }
    }

    /// Answers a line before the registry is open: opens it. `Bad` where the line doesn't say that; `OutOfMemory`.
    fn open(&mut self, alloc: Global, line: Line, out: &mut String) -> Result<(), LineError>
        requires { string_bytes out.old ≡ [] }
        ensures ok { OnOk result (ClosedAnswers self.old line (string_bytes out.new) self.new) }
        ensures bad { result ≡ Err LineError.Bad → IsTrue (not (opens line)) }
    {
        let opening = opening_of(&line);
        drop(line);
        let Some(opening) = opening else {
            return Err(LineError::Bad);
        };
        out.push_str("opened\n")?;
        // Nobody else waits for a script, so it hashes by the same key each time.
        let hash_key = HashKey::new(0, 0);
        let peers = opening.peers.count();
        let book = Book::open(alloc, self.config, opening.expected, peers, hash_key)?;
        drop(self.book.replace(book));
        Ok(())
    }
}

/// How a line opens the registry; `None` where it doesn't say that.
fn opening_of(line: &Line) -> Option<Opening>
    ensures some { IfSome result (λ opening. line.now ≡ Line.Open opening) }
    ensures none { result ≡ None → IsTrue (not (opens line.now)) }
{
    match line {
        Line::Open(opening) => Some(*opening),
        _ => None,
    }
}

impl<C: Chooser> Answerer<C> for ScriptDesk {
    ghost answers = { DeskAnswers C.asks };

    ghost refuses = { DeskRefuses };

    fn answer(
        &mut self,
        alloc: Global,
        chooser: &mut C,
        line: &[u8],
        out: &mut String,
    ) -> Result<(), LineError> {
        let line = read_line(alloc, line)?;
        let Some(book) = self.book.as_mut() else {
            return self.open(alloc, line, out);
        };
        answer_opened(alloc, book, chooser, line, out)
    }
}

/// Answers a line once the registry is open. `Bad` where the line opens it once more, which asks no word; `OutOfMemory`.
fn answer_opened<C: Chooser>(
    alloc: Global,
    book: &mut Book,
    chooser: &mut C,
    line: Line,
    out: &mut String,
) -> Result<(), LineError>
    requires { string_bytes out.old ≡ [] }
    ensures ok { OnOk result (OpenedAnswers C.asks line (place book.old chooser.old) (string_bytes out.new) (place book.new chooser.new)) }
    ensures bad { result ≡ Err LineError.Bad → IsTrue (opens line) }
    ensures kept { result ≡ Err LineError.Bad → chooser.new ≡ chooser.old }
{
    match line {
        Line::Open(_) => Err(LineError::Bad),
        Line::Apply { moment, command } => {
            answer_command(alloc, book, chooser, command, moment, out)
        }
        Line::Look { moment, key } => Ok(print_look(out, book.registry().look(&key, moment))?),
        Line::Counts { .. } => Ok(print_counts(out, &book.registry().counts())?),
        Line::Page { .. } => answer_page(alloc, book.registry(), out),
    }
}

/// Prints the status page of a registry. `OutOfMemory`.
fn answer_page(alloc: Global, registry: &Registry, out: &mut String) -> Result<(), LineError>
    ensures text { OnOk result (Shows registry.now (λ s. string_bytes out.old ++ shown_page (counts s) (status_counts (listing None s))) (string_bytes out.new)) }
    ensures err { IfErr result (λ e. e ≡ LineError.OutOfMemory) }
{
    let (counts, statuses) = (registry.counts(), registry.status_counts());
    Ok(print_page(alloc, out, &counts, &statuses)?)
}

/// Applies a command at a moment, and prints its answer. `OutOfMemory`.
fn answer_command<C: Chooser>(
    alloc: Global,
    book: &mut Book,
    chooser: &mut C,
    command: Command,
    moment: Moment,
    out: &mut String,
) -> Result<(), LineError>
    requires { string_bytes out.old ≡ [] }
    ensures ok { OnOk result (AccountDoes C.asks (place book.old chooser.old) command moment (string_bytes out.new) (place book.new chooser.new)) }
    ensures err { IfErr result (λ e. e ≡ LineError.OutOfMemory) }
{
    let settled = settled_line(&command);
    let answer = book.apply(alloc, PASS, command, moment, chooser);
    print_answer(out, settled, &answer)
}

/// What a command prints that ends a flight; nothing for any other.
fn settled_line(command: &Command) -> &'static str
    ensures { result.now ≡ settled_text command.now }
{
    match command {
        Command::Landed { .. } => "landed\n",
        Command::Lost { .. } => "lost\n",
        _ => "",
    }
}

/// Prints the line of a command's answer; `settled` is what it prints where it ended a flight. `OutOfMemory` where that is the
/// answer, or none was left to print it.
#[inline(always)]
fn print_answer(
    out: &mut String,
    settled: &str,
    answer: &Result<Receipt, Fault>,
) -> Result<(), LineError>
    ensures text { OnOk result (string_bytes out.new ≡ string_bytes out.old ++ answer_text settled.now answer.now) }
    ensures known { OnOk result (answer.now ≢ Err Fault.OutOfMemory) }
    ensures err { IfErr result (λ e. e ≡ LineError.OutOfMemory) }
{
    match answer {
        Ok(receipt) => Ok(print_reply(out, settled, &receipt.reply)?),
        Err(Fault::OutOfMemory) => Err(LineError::OutOfMemory),
        Err(fault) => Ok(print_refusal(out, *fault)?),
    }
}
