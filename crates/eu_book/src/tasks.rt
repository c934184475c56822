//! What a command tells the peers.
ghost use Rattle.std.specs.Prelude.{◌≡◌, Some};
ghost use Rattle.std.specs.Borrow.{Bor};
ghost use Rattle.std.specs.Option.{option_map};
ghost use Rattle.eu_base.specs.declared.instances.Instance.{Instance};
ghost use Rattle.eu_base.specs.declared.names.Key.{Key};
ghost use Rattle.eu_model.specs.Server.{task_for, task};
ghost use Rattle.eu_book.specs.Peers.{told_key};

use eu_base::{Action, Key, Moment, SharedInstance, Status, Task};
use eu_model::{Command, Reply};

/// The key of the lease of which the peers may be told by a command: one that no peer sent, and that names a lease.
pub(crate) fn told_key(command: &Command) -> Option<&Key>
    ensures { option_map (λ (k : Bor Key). k.now) result ≡ told_key command.now }
{
    let (key, replicated) = match command {
        Command::Register {
            instance,
            replicated,
        } => (instance.key(), *replicated),
        Command::Renew {
            key,
            replicated,
            ..
        }
        | Command::Cancel { key, replicated }
        | Command::SetStatus {
            key,
            replicated,
            ..
        }
        | Command::UnsetStatus {
            key,
            replicated,
            ..
        } => (key, *replicated),
        _ => return None,
    };
    if replicated { None } else { Some(key) }
}

/// The task of an accepted command, if it has one (`PeerAwareInstanceRegistryImpl.replicateToPeers`). It is handed its key and what
/// is held under it.
pub(crate) fn task_for(
    command: &Command,
    reply: &Reply,
    moment: Moment,
    key: Key,
    held: Option<SharedInstance>,
) -> Option<Task>
    requires { told_key command.now ≡ Some key }
    ensures { result ≡ task_for command.now moment reply.now held }
{
    match (command, reply) {
        (Command::Register { .. }, Reply::Registered { .. }) => {
            Some(task(Action::Register, key, None, held, moment))
        }
        (Command::Renew { .. }, Reply::Done | Reply::Stale) => {
            Some(task(Action::Heartbeat, key, None, held, moment))
        }
        (Command::Cancel { .. }, Reply::Done) => {
            Some(task(Action::Cancel, key, None, None, moment))
        }
        (Command::SetStatus { status, .. }, Reply::Done) => {
            Some(task(Action::StatusUpdate, key, Some(*status), held, moment))
        }
        (Command::UnsetStatus { .. }, Reply::Done) => {
            let status = status_of(&held);
            Some(task(Action::DeleteStatusOverride, key, status, held, moment))
        }
        _ => None,
    }
}

fn task(
    action: Action,
    key: Key,
    status: Option<Status>,
    instance: Option<SharedInstance>,
    moment: Moment,
) -> Task
    ensures { result ≡ task action key status instance moment }
{
    Task {
        action,
        key,
        status,
        instance,
        queued: moment,
    }
}

/// The status of what is held.
fn status_of(held: &Option<SharedInstance>) -> Option<Status>
    ensures { result ≡ option_map (λ (i : Instance). i.status) held.now }
{
    match held {
        Some(instance) => Some(instance.status()),
        None => None,
    }
}
