//! How an accepted command is entered in the journal.
ghost use Rattle.std.specs.Prelude.{◌≡◌, ◌≢◌, ◌+◌, ◌<◌, ◌^◌, ◌++◌, ◌∷◌, ◌==◌, [], Ok, length, true, IfOk, IfErr, OnOk, OnErr};
ghost use Rattle.eu_core.specs.Stepped.{Chooses};
ghost use Rattle.eu_model.specs.Delta.{added_by, counted_by, delta, plus, removed_by};
ghost use Rattle.eu_model.specs.Answers.{ServerAnswers};
ghost use Rattle.eu_book.specs.Account.{entry, known_fault};
ghost use Rattle.eu_base.specs.Limits.{most_entries, most_steps};
ghost use Rattle.eu_core.specs.Answered.{for_log, IsAnswered};
ghost use Rattle.eu_core.specs.Undone.{undone};
ghost use Rattle.eu_book.specs.Peers.{IsRefused, queues_of, server_with};
ghost use Rattle.eu_book.specs.Checkpoint.{begun, BeginsAt, HasRoom, IsSame};

use crate::book::{Entered, Receipt};
use crate::checkpoint::make_room;
use crate::journal::Journal;
use crate::peers::Peers;
use crate::serving::serve;
use eu_base::{Fault, MOST_STEPS, Moment};
use eu_clock::Chooser;
use eu_core::{Answered, Registry, Stepped};
use eu_model::{Command, Entry, Tally};
use std::alloc::Global;
use std::mem;

/// Answers a command, once there is room for its entry. `Exhausted` where the steps are as many as a book counts; this, and the
/// refusal of a peer's queue, come before any memory is taken.
#[inline(always)]
pub(crate) fn answer<C: Chooser>(
    alloc: Global,
    journal: &mut Journal,
    spare: &mut Journal,
    steps: u64,
    registry: &mut Registry,
    peers: &mut Peers,
    command: &Command,
    moment: Moment,
    chooser: &mut C,
    logs: bool,
) -> Result<Stepped, Fault>
    ensures journal { IsSame journal.new journal.old }
    ensures next { OnOk result ((length journal.old.entries.items == most_entries) ≡ true → BeginsAt steps (queues_of peers.old) spare.new) }
    ensures room { OnOk result (HasRoom (begun (length journal.old.entries.items == most_entries) spare.new journal.new)) }
    ensures counts { OnOk result (steps ≢ most_steps) }
    ensures same { IfOk result (λ s. IsAnswered logs s.answered) }
    ensures answers { IfOk result (λ s. ServerAnswers (server_with registry.old peers.old) command.now moment (Ok s.answered.reply) (server_with registry.new peers.new)) }
    ensures chooses { IfOk result (λ s. Chooses C.asks registry.old chooser.old command.now moment s.answered.reply chooser.new) }
    ensures undo { IfOk result (λ s. undone command.now s.undo registry.new ≡ registry.old) }
    ensures refused { IfErr result (λ f. IsRefused steps (server_with registry.old peers.old) command.now moment f) }
    ensures memory { IfErr result (λ f. f ≡ Fault.OutOfMemory → known_fault steps (queues_of peers.old) command.now moment ≡ None) }
    ensures err { OnErr result (server_with registry.new peers.new ≡ server_with registry.old peers.old) }
    ensures unasked { OnErr result (chooser.new ≡ chooser.old) }
{
    if steps == MOST_STEPS {
        return Err(Fault::Exhausted);
    }
    if let Some(fault) = peers.refusal(command, moment) {
        return Err(fault);
    }
    make_room(alloc, journal, spare, peers, steps)?;
    serve(alloc, registry, peers, command, moment, chooser, logs)
}

/// Enters in the journal a command, its reply, and what its step replaced. A journal that begins anew trades its place with the spare one before, which
/// takes no memory. Adds what the command did, and gives who asked the replies that are theirs.
#[inline(always)]
pub(crate) fn note(
    journal: &mut Journal,
    spare: &mut Journal,
    totals: &mut Tally,
    pass: u64,
    command: Command,
    moment: Moment,
    stepped: Stepped,
    begins_anew: bool,
    logs: bool,
) -> Entered
    requires room { HasRoom (begun begins_anew spare.old journal.old) }
    requires same { IsAnswered logs stepped.answered }
    requires steps { totals.old.steps + 1 < 2 ^ 64 }
    requires counted { totals.old.counted + counted_by command stepped.answered.reply < 2 ^ 64 }
    requires added { totals.old.added + added_by command stepped.answered.reply < 2 ^ 64 }
    requires removed { totals.old.removed + removed_by command stepped.answered.reply < 2 ^ 64 }
    ensures first { journal.new.first ≡ (begun begins_anew spare.old journal.old).first }
    ensures queues { journal.new.queues ≡ (begun begins_anew spare.old journal.old).queues }
    ensures entries { journal.new.entries.items ≡ (begun begins_anew spare.old journal.old).entries.items ++ entry pass totals.old.steps command moment stepped.answered.reply ∷ [] }
    ensures undos { journal.new.undos.items ≡ (begun begins_anew spare.old journal.old).undos.items ++ stepped.undo ∷ [] }
    ensures totals { totals.new ≡ plus totals.old (delta command stepped.answered.reply) }
    ensures number { result.receipt.number ≡ totals.old.steps }
    ensures told { result.receipt.reply ≡ stepped.answered.reply }
    ensures logged { result.logged ≡ for_log logs stepped.answered.reply }
{
    let Stepped { answered, undo, .. } = stepped;
    let Answered { reply, others } = answered;
    let number = totals.steps;
    if begins_anew {
        mem::swap(journal, spare);
    }
    *totals = totals.plus(Tally::of(&command, &reply));
    let (answer, logged) = eu_core::told_and_logged(&reply, others, logs);
    journal.entries.push_reserved(Entry {
        pass,
        number,
        command,
        moment,
        reply,
    });
    journal.undos.push_reserved(undo);
    Entered {
        receipt: Receipt {
            reply: answer,
            number,
        },
        logged,
    }
}
