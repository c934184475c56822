//! Commands and replies.
ghost use Rattle.std.specs.Prelude.{◌≡◌, ◌↔◌, true, IfOk, IsOk, IsTrue};
ghost use Rattle.eu_model.specs.Owned.{names_nothing, owns_nothing};

use eu_base::{Codes, Config, Key, Keys, Moment, SharedInstance, Stamp, Status, Tasks};
use std::alloc::{AllocError, Global};

/// What changes a registry, or a server with peers. Each is one step of the lease machine, but for `Drain`, `Landed` and `Lost`, which
/// are steps of a peer's queue.
#[derive(Debug, Drop)]
pub enum Command {
    /// An instance comes, or comes again (`AbstractInstanceRegistry.register`).
    Register {
        /// The instance.
        instance: SharedInstance,
        /// Whether a peer sends it.
        replicated: bool,
    },
    /// A heartbeat (`AbstractInstanceRegistry.renew`).
    Renew {
        /// The lease.
        key: Key,
        /// The stamp that the sender knows the instance by.
        last_dirty: Option<Stamp>,
        /// The overridden status that the sender knows.
        overridden: Option<Status>,
        /// Whether a peer sends it.
        replicated: bool,
    },
    /// A client leaves (`AbstractInstanceRegistry.cancel`).
    Cancel {
        /// The lease.
        key: Key,
        /// Whether a peer sends it.
        replicated: bool,
    },
    /// An operator overrides the status of an instance (`AbstractInstanceRegistry.statusUpdate`).
    SetStatus {
        /// The lease.
        key: Key,
        /// The status.
        status: Status,
        /// The stamp of the change.
        last_dirty: Option<Stamp>,
        /// Whether a peer sends it.
        replicated: bool,
    },
    /// An operator takes an override back (`AbstractInstanceRegistry.deleteStatusOverride`).
    UnsetStatus {
        /// The lease.
        key: Key,
        /// The status that the instance may have now; `Unknown` where none is given.
        status: Option<Status>,
        /// The stamp of the change.
        last_dirty: Option<Stamp>,
        /// Whether a peer sends it.
        replicated: bool,
    },
    /// A peer told of a newer instance than the one that is held here (`PeerEurekaNode.syncInstancesIfTimestampDiffers`).
    Adopt {
        /// The instance.
        instance: SharedInstance,
    },
    /// A minute ends (`MeasuredRate`'s timer).
    EndMinute,
    /// The number of clients is counted anew (`PeerAwareInstanceRegistryImpl.updateRenewalThreshold`).
    Update,
    /// An operator changes the settings while the registry runs (Eureka reads its `EurekaServerConfig` from properties, which may
    /// change so).
    Reconfigure {
        /// The settings from now on.
        config: Config,
    },
    /// An eviction (`AbstractInstanceRegistry.evict`).
    Evict,
    /// The next tasks that wait for a peer go in flight to it, as one batch (`TaskExecutors` in Eureka).
    Drain {
        /// The peer's number, from 0.
        peer: u32,
    },
    /// The batch in flight to a peer has landed, and was answered (`ReplicationTaskProcessor.process`).
    Landed {
        /// The peer's number, from 0.
        peer: u32,
        /// What each task was answered.
        codes: Codes,
    },
    /// The batch in flight to a peer was lost (`AcceptorExecutor.reprocess`).
    Lost {
        /// The peer's number, from 0.
        peer: u32,
    },
}

impl Command {
    /// Whether both are equal in every field. Takes no memory.
    pub fn same(&self, other: &Command) -> bool
        ensures { IsTrue result ↔ (self.now ≡ other.now) }
    {
        match self {
            Command::Register {
                instance,
                replicated,
            } => is_register(other, instance, *replicated),
            Command::Renew {
                key,
                last_dirty,
                overridden,
                replicated,
            } => is_renew(other, key, *last_dirty, *overridden, *replicated),
            Command::Cancel { key, replicated } => is_cancel(other, key, *replicated),
            Command::SetStatus {
                key,
                status,
                last_dirty,
                replicated,
            } => is_set_status(other, key, *status, *last_dirty, *replicated),
            Command::UnsetStatus {
                key,
                status,
                last_dirty,
                replicated,
            } => is_unset_status(other, key, *status, *last_dirty, *replicated),
            Command::Adopt { instance } => is_adopt(other, instance),
            Command::EndMinute => matches!(other, Command::EndMinute),
            Command::Update => matches!(other, Command::Update),
            Command::Reconfigure { config } => is_reconfigure(other, config),
            Command::Evict => matches!(other, Command::Evict),
            Command::Drain { peer } =>
                matches!(other, Command::Drain { peer: theirs } if *theirs == *peer),
            Command::Landed { peer, codes } => is_landed(other, *peer, codes),
            Command::Lost { peer } =>
                matches!(other, Command::Lost { peer: theirs } if *theirs == *peer),
        }
    }

    /// The same command once more. Takes memory for its key or its codes alone; `AllocError` where none is left.
    pub fn copy(&self, alloc: Global) -> Result<Command, AllocError>
        ensures same { IfOk result (λ c. c ≡ self.now) }
        ensures memory { names_nothing self.now ≡ true → IsOk result }
    {
        match self {
            Command::Register {
                instance,
                replicated,
            } => copy_register(instance, *replicated),
            Command::Renew {
                key,
                last_dirty,
                overridden,
                replicated,
            } => copy_renew(alloc, key, *last_dirty, *overridden, *replicated),
            Command::Cancel { key, replicated } => copy_cancel(alloc, key, *replicated),
            Command::SetStatus {
                key,
                status,
                last_dirty,
                replicated,
            } => copy_set_status(alloc, key, *status, *last_dirty, *replicated),
            Command::UnsetStatus {
                key,
                status,
                last_dirty,
                replicated,
            } => copy_unset_status(alloc, key, *status, *last_dirty, *replicated),
            Command::Adopt { instance } => copy_adopt(instance),
            Command::EndMinute => Ok(Command::EndMinute),
            Command::Update => Ok(Command::Update),
            Command::Reconfigure { config } => Ok(Command::Reconfigure { config: *config }),
            Command::Evict => Ok(Command::Evict),
            Command::Drain { peer } => Ok(Command::Drain { peer: *peer }),
            Command::Landed { peer, codes } => copy_landed(alloc, *peer, codes),
            Command::Lost { peer } => Ok(Command::Lost { peer: *peer }),
        }
    }
}

/// Whether it is that stamp, or neither is there.
fn is_stamp(stamp: Option<Stamp>, other: Option<Stamp>) -> bool
    ensures { IsTrue result ↔ (stamp ≡ other) }
{
    match (stamp, other) {
        (Some(stamp), Some(other)) => stamp.value() == other.value(),
        (None, None) => true,
        _ => false,
    }
}

/// Whether it is this registration.
fn is_register(command: &Command, instance: &SharedInstance, replicated: bool) -> bool
    ensures { IsTrue result ↔ (command.now ≡ Command.Register instance.now replicated) }
{
    match command {
        Command::Register {
            instance: theirs,
            replicated: so,
        } => *so == replicated && theirs.same(instance),
        _ => false,
    }
}

/// Whether it is this renewal.
fn is_renew(
    command: &Command,
    key: &Key,
    last_dirty: Option<Stamp>,
    overridden: Option<Status>,
    replicated: bool,
) -> bool
    ensures { IsTrue result ↔ (command.now ≡ Command.Renew key.now last_dirty overridden replicated) }
{
    match command {
        Command::Renew {
            key: theirs,
            last_dirty: stamp,
            overridden: status,
            replicated: so,
        } => theirs == key
            && is_stamp(*stamp, last_dirty)
            && *status == overridden
            && *so == replicated,
        _ => false,
    }
}

/// Whether it is this cancel.
fn is_cancel(command: &Command, key: &Key, replicated: bool) -> bool
    ensures { IsTrue result ↔ (command.now ≡ Command.Cancel key.now replicated) }
{
    match command {
        Command::Cancel {
            key: theirs,
            replicated: so,
        } => theirs == key && *so == replicated,
        _ => false,
    }
}

/// Whether it sets this status so.
fn is_set_status(
    command: &Command,
    key: &Key,
    status: Status,
    last_dirty: Option<Stamp>,
    replicated: bool,
) -> bool
    ensures { IsTrue result ↔ (command.now ≡ Command.SetStatus key.now status last_dirty replicated) }
{
    match command {
        Command::SetStatus {
            key: theirs,
            status: set,
            last_dirty: stamp,
            replicated: so,
        } => theirs == key && *set == status && is_stamp(*stamp, last_dirty) && *so == replicated,
        _ => false,
    }
}

/// Whether it takes this override back so.
fn is_unset_status(
    command: &Command,
    key: &Key,
    status: Option<Status>,
    last_dirty: Option<Stamp>,
    replicated: bool,
) -> bool
    ensures { IsTrue result ↔ (command.now ≡ Command.UnsetStatus key.now status last_dirty replicated) }
{
    match command {
        Command::UnsetStatus {
            key: theirs,
            status: left,
            last_dirty: stamp,
            replicated: so,
        } => theirs == key && *left == status && is_stamp(*stamp, last_dirty) && *so == replicated,
        _ => false,
    }
}

/// Whether it is this adoption.
fn is_adopt(command: &Command, instance: &SharedInstance) -> bool
    ensures { IsTrue result ↔ (command.now ≡ Command.Adopt instance.now) }
{
    match command {
        Command::Adopt { instance: theirs } => theirs.same(instance),
        _ => false,
    }
}

/// Whether it is this change of the settings.
fn is_reconfigure(command: &Command, config: &Config) -> bool
    ensures { IsTrue result ↔ (command.now ≡ Command.Reconfigure config.now) }
{
    match command {
        Command::Reconfigure { config: theirs } => theirs.same(config),
        _ => false,
    }
}

/// Whether it is this landing.
fn is_landed(command: &Command, peer: u32, codes: &Codes) -> bool
    ensures { IsTrue result ↔ (command.now ≡ Command.Landed peer codes.now) }
{
    match command {
        Command::Landed {
            peer: number,
            codes: theirs,
        } => *number == peer && theirs.same(codes),
        _ => false,
    }
}

/// A registration of the same instance.
fn copy_register(instance: &SharedInstance, replicated: bool) -> Result<Command, AllocError>
    ensures { IfOk result (λ c. c ≡ Command.Register instance.now replicated) }
{
    Ok(Command::Register {
        instance: instance.share()?,
        replicated,
    })
}

/// A renewal under a copy of the key.
fn copy_renew(
    alloc: Global,
    key: &Key,
    last_dirty: Option<Stamp>,
    overridden: Option<Status>,
    replicated: bool,
) -> Result<Command, AllocError>
    ensures { IfOk result (λ c. c ≡ Command.Renew key.now last_dirty overridden replicated) }
{
    let key = key.copy(alloc)?;
    Ok(Command::Renew {
        key,
        last_dirty,
        overridden,
        replicated,
    })
}

/// A cancel under a copy of the key.
fn copy_cancel(alloc: Global, key: &Key, replicated: bool) -> Result<Command, AllocError>
    ensures { IfOk result (λ c. c ≡ Command.Cancel key.now replicated) }
{
    let key = key.copy(alloc)?;
    Ok(Command::Cancel { key, replicated })
}

/// A status set under a copy of the key.
fn copy_set_status(
    alloc: Global,
    key: &Key,
    status: Status,
    last_dirty: Option<Stamp>,
    replicated: bool,
) -> Result<Command, AllocError>
    ensures { IfOk result (λ c. c ≡ Command.SetStatus key.now status last_dirty replicated) }
{
    let key = key.copy(alloc)?;
    Ok(Command::SetStatus {
        key,
        status,
        last_dirty,
        replicated,
    })
}

/// An override taken back under a copy of the key.
fn copy_unset_status(
    alloc: Global,
    key: &Key,
    status: Option<Status>,
    last_dirty: Option<Stamp>,
    replicated: bool,
) -> Result<Command, AllocError>
    ensures { IfOk result (λ c. c ≡ Command.UnsetStatus key.now status last_dirty replicated) }
{
    let key = key.copy(alloc)?;
    Ok(Command::UnsetStatus {
        key,
        status,
        last_dirty,
        replicated,
    })
}

/// An adoption of the same instance.
fn copy_adopt(instance: &SharedInstance) -> Result<Command, AllocError>
    ensures { IfOk result (λ c. c ≡ Command.Adopt instance.now) }
{
    let instance = instance.share()?;
    Ok(Command::Adopt { instance })
}

/// A batch that has landed, with a copy of its codes.
fn copy_landed(alloc: Global, peer: u32, codes: &Codes) -> Result<Command, AllocError>
    ensures { IfOk result (λ c. c ≡ Command.Landed peer codes.now) }
{
    let codes = codes.copy(alloc)?;
    Ok(Command::Landed { peer, codes })
}

/// What a command is answered.
#[derive(Debug, Drop)]
pub enum Reply {
    /// The instance is registered.
    Registered {
        /// Whether no lease was there.
        fresh: bool,
    },
    /// It is done.
    Done,
    /// No lease is there; or it isn't to be renewed, or, for a change of status, it isn't visible.
    NotFound,
    /// The sender knows a newer instance than the registry, and is to register it.
    Stale,
    /// The registry holds a newer instance than the peer that asks: this one.
    Conflict(SharedInstance),
    /// The renewals of the minute that ended.
    Last(u64),
    /// The number of clients that are expected now.
    Expected(u64),
    /// The leases that an eviction took out.
    Evicted(Keys),
    /// The tasks that are in flight now.
    Batch(Tasks),
    /// A batch is in flight no more.
    Settled,
}

impl Reply {
    /// Whether both are equal in every field. Takes no memory.
    pub fn same(&self, other: &Reply) -> bool
        ensures { IsTrue result ↔ (self.now ≡ other.now) }
    {
        match (self, other) {
            (Reply::Registered { fresh }, Reply::Registered { fresh: theirs }) => *fresh == *theirs,
            (Reply::Done, Reply::Done) => true,
            (Reply::NotFound, Reply::NotFound) => true,
            (Reply::Stale, Reply::Stale) => true,
            (Reply::Conflict(held), Reply::Conflict(theirs)) => held.same(theirs),
            (Reply::Last(renewals), Reply::Last(theirs)) => *renewals == *theirs,
            (Reply::Expected(clients), Reply::Expected(theirs)) => *clients == *theirs,
            (Reply::Evicted(victims), Reply::Evicted(theirs)) => victims.same(theirs),
            (Reply::Batch(tasks), Reply::Batch(theirs)) => tasks.same(theirs),
            (Reply::Settled, Reply::Settled) => true,
            _ => false,
        }
    }

    /// The same reply once more. Takes memory for an `Evicted` and a `Batch` alone; `AllocError` where none is left.
    #[inline(always)]
    pub fn copy(&self, alloc: Global) -> Result<Reply, AllocError>
        ensures same { IfOk result (λ r. r ≡ self.now) }
        ensures memory { owns_nothing self.now ≡ true → IsOk result }
    {
        match self {
            Reply::Registered { fresh } => Ok(Reply::Registered { fresh: *fresh }),
            Reply::Done => Ok(Reply::Done),
            Reply::NotFound => Ok(Reply::NotFound),
            Reply::Stale => Ok(Reply::Stale),
            Reply::Conflict(held) => {
                let held = held.share()?;
                Ok(Reply::Conflict(held))
            }
            Reply::Last(renewals) => Ok(Reply::Last(*renewals)),
            Reply::Expected(clients) => Ok(Reply::Expected(*clients)),
            Reply::Evicted(victims) => {
                let victims = victims.copy(alloc)?;
                Ok(Reply::Evicted(victims))
            }
            Reply::Batch(tasks) => {
                let tasks = tasks.copy(alloc)?;
                Ok(Reply::Batch(tasks))
            }
            Reply::Settled => Ok(Reply::Settled),
        }
    }
}

/// A command that was accepted, with its reply.
#[derive(Debug, Drop)]
pub struct Entry {
    /// The number of who asked; it means nothing to the registry.
    pub pass: u64,
    /// The number of the step, from 0.
    pub number: u64,
    /// The command.
    pub command: Command,
    /// The moment at which it was asked.
    pub moment: Moment,
    /// The reply.
    pub reply: Reply,
}
