//! The book.
ghost use Rattle.std.specs.Prelude.{◌≡◌, ◌≤◌, length, None, Some, unwrap_or, IfOk, IfErr, OnErr, OnOk};
ghost use Rattle.eu_model.specs.Answers.{Shows};
ghost use Rattle.eu_model.specs.State.{server_of_state};
ghost use Rattle.eu_model.specs.View.{view};
ghost use Rattle.eu_book.specs.Account.{cleared, entry, known_fault, opened, logged, Applies, Refuses, IsLawful};
ghost use Rattle.eu_base.specs.Limits.{most_entries};
ghost use Rattle.eu_core.specs.Answered.{for_log};
ghost use Rattle.eu_book.specs.Checkpoint.{IsJournal, IsRoom};
ghost use Rattle.eu_book.specs.Peers.{state_of};
ghost use Rattle.eu_book.specs.Snapshot.{view_of};

use crate::checkpoint::prepare;
use crate::entering::{answer, note};
use crate::journal::{Dropped, Journal, Logged};
use crate::peers::Peers;
use crate::snapshot::ViewSnapshot;
use crate::undoing::{plain_base, plain_state};
use eu_base::{Config, Fault, MOST_ENTRIES, MOST_PEERS, MOST_STEPS, Moment};
use eu_clock::Chooser;
use eu_core::Registry;
use eu_hash::HashKey;
use eu_model::{Command, Entry, Listed, Listing, Query, Reply, State, Tally, View};
use std::alloc::{AllocError, Global};
use std::marker::Model;
use std::mem;

/// What an accepted command is given.
#[derive(Debug, Drop)]
pub struct Receipt {
    /// The reply.
    pub reply: Reply,
    /// The number of its entry in the journal: that of the commands accepted before it.
    pub number: u64,
}

/// What an accepted command is given, for who keeps a log of their own.
#[derive(Debug, Drop)]
pub struct LoggedReceipt {
    /// What the command is given.
    pub receipt: Receipt,
    /// What a log keeps of it.
    pub logged: Logged,
}

/// What a command that was entered in the journal is given, and its reply once more for a log.
#[derive(Drop)]
pub(crate) struct Entered {
    pub(crate) receipt: Receipt,
    pub(crate) logged: Option<Reply>,
}

/// A registry with the outboxes of its peers, and the journal of what it was told. Contracts see its account.
#[derive(Debug, Drop)]
pub struct Book {
    journal: Journal,
    spare: Journal,
    totals: Tally,
    registry: Registry,
    peers: Peers,
}

impl Model for Book {
    ghost use Rattle.eu_book.specs.Account.{Account, IsKept};
    ghost use Rattle.eu_book.specs.AccountCode.{coded_account};
    ghost use Rattle.eu_book.specs.Checkpoint.{account_with, IsPaired};

    ghost Value = { Account };

    ghost coded = { coded_account };

    ghost view = { λ b. account_with b.journal b.totals b.registry b.peers };

    ghost invariant = { λ b. IsPaired b.journal × IsKept (account_with b.journal b.totals b.registry b.peers) };
}

impl Book {
    /// The book of a registry that is opened now, and expects so many clients to renew (`Registry::open`), with so many peers, for
    /// whom nothing waits. No more than 8 are handed in. All tables are to hash by that key. `AllocError` where no memory is left.
    pub fn open(
        alloc: Global,
        config: Config,
        expected: u32,
        peers: u32,
        hash_key: HashKey,
    ) -> Result<Book, AllocError>
        requires { peers ≤ MOST_PEERS }
        ensures { IfOk result (λ book. book ≡ opened config expected peers) }
    {
        let peers = Peers::open(alloc, peers, hash_key)?;
        let mut journal = Journal::empty(alloc)?;
        prepare(&mut journal, alloc, &peers, 0)?;
        Ok(Book {
            journal,
            spare: Journal::empty(alloc)?,
            totals: Tally::nothing(),
            registry: Registry::open(alloc, config, expected, hash_key),
            peers,
        })
    }

    /// Puts a command to the registry at a moment. `pass` is the number of who asks: it is only noted in the entry.
    ///
    /// The registry answers as the call does that the command names (`Registry`), and the command with its reply is one entry
    /// more of the journal. Only an eviction asks the chooser.
    ///
    /// What a client did goes into the outbox of each peer, as its task; what a peer sent, an adoption and a timer's command put
    /// nothing there. `Drain`, `Landed` and `Lost` are the calls of that name on the outbox of the peer that they name.
    ///
    /// Where the journal has 65,536 entries, it begins anew before (`Book::checkpoint`), in a spare journal that the book keeps; and each call lets
    /// go of one entry that it had before (`Book::let_go`).
    ///
    /// Refused, in this order: `Exhausted` where 2^62 commands were accepted; `NoPeer` where the command names a peer and there
    /// is none of that number; then as its call refuses. `OutOfMemory` may come in place of what the registry refuses by, but never of
    /// `Exhausted` after 2^62 commands, of `NoPeer` or of what an outbox refuses by: these take no memory. A refusal changes
    /// nothing, the journal neither, and asks no word.
    #[inline(always)]
    pub fn apply<C: Chooser>(
        &mut self,
        alloc: Global,
        pass: u64,
        command: Command,
        moment: Moment,
        chooser: &mut C,
    ) -> Result<Receipt, Fault>
        ensures applied { IfOk result (λ r. Applies C.asks self.old chooser.old (entry pass r.number command moment r.reply) self.new chooser.new) }
        ensures refused { IfErr result (λ f. Refuses self.old command moment f) }
        ensures memory { IfErr result (λ f. f ≡ Fault.OutOfMemory → known_fault self.old.totals.steps self.old.state.queues command moment ≡ None) }
        ensures err { OnErr result (self.new ≡ self.old) }
        ensures unasked { OnErr result (chooser.new ≡ chooser.old) }
    {
        let outcome = self.enter(alloc, pass, command, moment, chooser, false);
        drop(self.let_go(alloc));
        Ok(outcome?.receipt)
    }

    /// As `apply`, but that no entry is let go of; and what a log of one's own keeps, for who has one. Of the command the log keeps `mine`,
    /// which is to be the command once more: so whoever holds a lock can have copied it before. All else is made before anything changes.
    pub fn apply_logged<C: Chooser>(
        &mut self,
        alloc: Global,
        pass: u64,
        command: Command,
        mine: Command,
        moment: Moment,
        chooser: &mut C,
    ) -> Result<LoggedReceipt, Fault>
        ensures applied { IfOk result (λ r. Applies C.asks self.old chooser.old (entry pass r.receipt.number command moment r.receipt.reply) self.new chooser.new) }
        ensures logged { IfOk result (λ r. r.logged ≡ logged mine moment r.receipt.reply r.receipt.number) }
        ensures refused { IfErr result (λ f. Refuses self.old command moment f) }
        ensures memory { IfErr result (λ f. f ≡ Fault.OutOfMemory → known_fault self.old.totals.steps self.old.state.queues command moment ≡ None) }
        ensures err { OnErr result (self.new ≡ self.old) }
        ensures unasked { OnErr result (chooser.new ≡ chooser.old) }
    {
        match self.enter(alloc, pass, command, moment, chooser, true) {
            Ok(entered) => Ok(hand_out(entered, mine, moment)),
            Err(fault) => {
                drop(mine);
                Err(fault)
            }
        }
    }

    /// Puts a command to the registry, and enters it in the journal; gives its reply once more for a log, where one `logs` it.
    #[inline(always)]
    fn enter<C: Chooser>(
        &mut self,
        alloc: Global,
        pass: u64,
        command: Command,
        moment: Moment,
        chooser: &mut C,
        logs: bool,
    ) -> Result<Entered, Fault>
        ensures applied { IfOk result (λ e. Applies C.asks self.old chooser.old (entry pass e.receipt.number command moment e.receipt.reply) self.new chooser.new) }
        ensures logged { IfOk result (λ e. e.logged ≡ for_log logs e.receipt.reply) }
        ensures refused { IfErr result (λ f. Refuses self.old command moment f) }
        ensures memory { IfErr result (λ f. f ≡ Fault.OutOfMemory → known_fault self.old.totals.steps self.old.state.queues command moment ≡ None) }
        ensures err { OnErr result (self.new ≡ self.old) }
        ensures unasked { OnErr result (chooser.new ≡ chooser.old) }
    {
        let steps = self.totals.steps;
        let begins_anew = self.journal.entries.len() == MOST_ENTRIES;
        match answer(
            alloc,
            &mut self.journal,
            &mut self.spare,
            steps,
            &mut self.registry,
            &mut self.peers,
            &command,
            moment,
            chooser,
            logs,
        ) {
            Ok(stepped) => Ok(note(
                &mut self.journal,
                &mut self.spare,
                &mut self.totals,
                pass,
                command,
                moment,
                stepped,
                begins_anew,
                logs,
            )),
            Err(fault) => {
                drop(command);
                Err(fault)
            }
        }
    }

    /// What a command is refused by where no memory is left: by the fault that needs none to be known (`Exhausted`, `NoPeer`, or what
    /// the queue of its peer refuses it by), else by `OutOfMemory`. Takes no memory.
    pub fn refusal_without_memory(&self, command: &Command, moment: Moment) -> Fault
        ensures value { result ≡ unwrap_or (known_fault self.now.totals.steps self.now.state.queues command.now moment) Fault.OutOfMemory }
        ensures refused { Refuses self.now command.now moment result }
        ensures memory { result ≡ Fault.OutOfMemory → known_fault self.now.totals.steps self.now.state.queues command.now moment ≡ None }
    {
        if self.totals.steps == MOST_STEPS {
            return Fault::Exhausted;
        }
        match self.peers.refusal(command, moment) {
            Some(fault) => fault,
            None => Fault::OutOfMemory,
        }
    }

    /// Makes room for as many leases as may be held (`Registry::reserve_all`). The book stays as it is. `AllocError` where no memory is left.
    pub fn reserve_all(&mut self) -> Result<(), AllocError>
        ensures { self.new ≡ self.old }
    {
        self.registry.reserve_all()
    }

    /// Lets go of one entry that the journal had when it was full and began anew last, if one is left, with what its step replaced. To do so
    /// at each command spreads over all of them what a whole journal would take at once. Takes no memory, and all else stays as it is.
    pub fn let_go(&mut self, alloc: Global) -> Dropped
        ensures { self.new ≡ self.old }
    {
        self.spare.let_go(alloc)
    }

    /// Begins the journal anew: the registry and what waits for its peers, as they are, become its base, and it has no entries. They
    /// stay as they are, and so do the totals. Gives the journal, its entries as they were; its base is asked for before (`Book::base`). It
    /// copies what waits for the peers, and no lease. `AllocError` where no memory is left, which changes nothing.
    pub fn checkpoint(&mut self, alloc: Global) -> Result<Box<Journal>, AllocError>
        ensures ok { OnOk result (self.new ≡ cleared self.old) }
        ensures retired { IfOk result (λ j. IsJournal self.old j.value) }
        ensures err { OnErr result (self.new ≡ self.old) }
    {
        let room = Journal::room(alloc)?;
        self.checkpoint_in(alloc, room)
    }

    /// As `checkpoint`, for who holds a lock: the room was made before (`Journal::room`), and no more is taken than a copy of what waits for
    /// the peers. `AllocError` where no memory is left for that, which changes nothing; then the room is let go of.
    pub fn checkpoint_in(
        &mut self,
        alloc: Global,
        room: Box<Journal>,
    ) -> Result<Box<Journal>, AllocError>
        requires { IsRoom room.value }
        ensures ok { OnOk result (self.new ≡ cleared self.old) }
        ensures retired { IfOk result (λ j. IsJournal self.old j.value) }
        ensures err { OnErr result (self.new ≡ self.old) }
    {
        let mut room = room;
        prepare(room.as_mut(), alloc, &self.peers, self.totals.steps)?;
        mem::swap(&mut self.journal, room.as_mut());
        Ok(room)
    }

    /// What a query sees at a moment; the book stays as it is. `AllocError` where no memory is left.
    pub fn read(&self, alloc: Global, query: &Query, moment: Moment) -> Result<View, AllocError>
        ensures { IfOk result (λ v. Shows self.now.state.registry (λ s. view s query.now moment) v) }
    {
        Ok(match query {
            Query::One(key) => View::One(match self.registry.look(key, moment) {
                Some((instance, times)) => Some(Listed {
                    instance: instance.share()?,
                    times,
                }),
                None => None,
            }),
            Query::OfApp(app) => View::OfApp(Listing::new(self.registry.list(alloc, Some(app))?)),
            Query::All => View::All(Listing::new(self.registry.list(alloc, None)?)),
            Query::Counts => View::Counts(self.registry.counts()),
            Query::Page => View::Page(self.registry.counts(), self.registry.status_counts()),
        })
    }

    /// The same, for who holds a lock: a listing of all is taken at little cost (`Registry::snapshot`), and made of it later. The book
    /// stays as it is. `AllocError` where no memory is left.
    pub fn snapshot(
        &mut self,
        alloc: Global,
        query: &Query,
        moment: Moment,
    ) -> Result<ViewSnapshot, AllocError>
        ensures view { IfOk result (λ v. Shows self.old.state.registry (λ s. view s query.now moment) (view_of v)) }
        ensures same { self.new ≡ self.old }
    {
        Ok(match query {
            Query::All => ViewSnapshot::All(self.registry.snapshot(alloc)?),
            query => ViewSnapshot::View(self.read(alloc, query, moment)?),
        })
    }

    /// The registry as it is, to be looked at.
    pub fn registry(&self) -> &Registry
        ensures { result.now ≡ self.now.state.registry }
    {
        &self.registry
    }

    /// The number of the journal's first entry: that of the commands that were accepted before its base.
    pub fn first(&self) -> u64
        ensures first { result ≡ self.now.first }
        ensures lawful { IsLawful self.now }
    {
        self.journal.first
    }

    /// What the registry was told last, at most 65,536 commands. These entries are a run of the lease machine from the base to the
    /// registry and the outboxes as they are, numbered from `first` on.
    pub fn entries(&self) -> &[Entry]
        ensures entries { result.now ≡ self.now.entries }
        ensures fits { length self.now.entries ≤ most_entries }
        ensures lawful { IsLawful self.now }
    {
        self.journal.entries.as_slice()
    }

    /// The same, where no more is wanted of the book. Takes no memory.
    pub fn into_entries(self) -> Vec<Entry>
        ensures { result.items ≡ self.entries }
    {
        let Book {
            journal,
            spare: _,
            totals: _,
            registry: _,
            peers: _,
        } = self;
        journal.entries
    }

    /// The base, as plain data: what the registry and its peers' queues were before the first entry, as they were opened or at the last
    /// checkpoint. It isn't kept: a copy of the registry is led back to it, entry by entry. `AllocError` where no memory is left.
    pub fn base(&self, alloc: Global) -> Result<State, AllocError>
        ensures { IfOk result (λ s. (server_of_state s ≡ self.now.base) × (s ≡ state_of self.now.base)) }
    {
        plain_base(alloc, &self.registry, &self.journal)
    }

    /// What all accepted commands did together, those too that the journal has dropped.
    pub fn totals(&self) -> Tally
        ensures { result ≡ self.now.totals }
    {
        self.totals
    }

    /// The registry and what waits for its peers, as they are, as plain data (`Registry::plain`). `AllocError` where no memory is
    /// left.
    pub fn state(&self, alloc: Global) -> Result<State, AllocError>
        ensures { IfOk result (λ s. s ≡ state_of self.now.state) }
    {
        plain_state(alloc, &self.registry, &self.peers)
    }
}

/// What is handed out of a command that was entered, with the command once more.
fn hand_out(entered: Entered, command: Command, moment: Moment) -> LoggedReceipt
    requires { entered.logged ≡ Some entered.receipt.reply }
    ensures receipt { result.receipt ≡ entered.receipt }
    ensures logged { result.logged ≡ logged command moment entered.receipt.reply entered.receipt.number }
{
    let Entered { receipt, logged } = entered;
    let number = receipt.number;
    match logged {
        Some(reply) => LoggedReceipt {
            receipt,
            logged: Logged {
                command,
                moment,
                reply,
                number,
            },
        },
        None => unreachable!(),
    }
}
