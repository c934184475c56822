//! A turn: what waits for a peer is sent to it.
ghost use Rattle.std.specs.Prelude.{◌≡◌, map, IfOk, MatchOption};
ghost use Rattle.eu_peer.specs.Turns as spec;

use crate::peer::Peer;
use eu_base::{Action, Codes, Fault, Moment, SharedInstance, Task, Tasks};
use eu_clock::Clock;
use eu_json::ItemAnswer;
use eu_model::{Answer, Ask, Command, Desk, Reply};
use http::StatusCode;
use std::alloc::{AllocError, Global};

/// What came of a turn.
#[derive(Clone, Copy, Debug, PartialEq, Eq)]
pub enum Turn {
    /// Nothing waits that is worth sending.
    Idle,
    /// A batch of an earlier turn was still in flight, and was taken for lost: what isn't too old of its tasks waits again.
    Waiting,
    /// A batch was sent and answered.
    Sent {
        /// Its tasks.
        tasks: usize,
        /// How many newer instances of the peer's were adopted.
        adopted: usize,
    },
    /// A batch was sent and not answered, or not with one answer a task: what isn't too old of its tasks waits again, but where a
    /// newer one of its name does.
    Lost {
        /// Its tasks.
        tasks: usize,
    },
}

/// The statuses of the answers.
fn codes_of(alloc: Global, answers: &[ItemAnswer]) -> Result<Codes, AllocError>
    ensures { IfOk result (λ codes. codes ≡ map spec.code answers.now) }
{
    let mut codes = Vec::with_capacity(alloc, answers.len())?;
    for answer in answers {
        codes.push(answer.code)?;
    }
    Ok(Codes::new(codes))
}

/// The newer instance that the peer holds, by its answer to a heartbeat.
fn newer(task: &Task, answer: ItemAnswer) -> Option<SharedInstance>
    ensures { result ≡ spec.newer task.now answer }
{
    if task.action == Action::Heartbeat && answer.code == StatusCode::CONFLICT.as_u16() {
        answer.instance
    } else {
        None
    }
}

/// The newer instances that the peer holds, by its answers, in order.
fn all_newer(
    alloc: Global,
    tasks: &[Task],
    answers: Vec<ItemAnswer>,
) -> Result<Vec<SharedInstance>, AllocError>
    ensures { IfOk result (λ instances. instances.items ≡ spec.all_newer tasks.now answers.items) }
{
    let mut instances = Vec::new(alloc);
    for (task, answer) in tasks.iter().zip(answers) {
        if let Some(instance) = newer(task, answer) {
            instances.push(instance)?;
        }
    }
    Ok(instances)
}

/// Asks for each to be adopted, in order, and tells how many were.
fn adopt_all<D: Desk>(
    alloc: Global,
    desk: &mut D,
    instances: Vec<SharedInstance>,
    moment: Moment,
) -> usize
    ensures { spec.Adopts D.asked moment desk.old instances.items result desk.new }
{
    let mut adopted = 0;
    for instance in instances {
        let ask = Ask::Do(Command::Adopt { instance });
        if desk.ask(alloc, ask, moment).is_ok() {
            adopted += 1;
        }
    }
    adopted
}

/// Gives the tasks in flight back to those that wait.
fn give_back<D: Desk>(alloc: Global, desk: &mut D, peer: u32, moment: Moment) -> Result<(), Fault>
    ensures { spec.GivesBack D.asked moment peer desk.old result desk.new }
{
    desk.ask(alloc, Ask::Do(Command::Lost { peer }), moment)?;
    Ok(())
}

/// Ends the batch in flight by its answers, one a task.
fn land<D: Desk>(
    alloc: Global,
    desk: &mut D,
    peer: u32,
    tasks: &[Task],
    answers: Vec<ItemAnswer>,
    moment: Moment,
) -> Result<Turn, Fault>
    ensures { spec.Lands D.asked moment peer desk.old tasks.now answers.items result desk.new }
{
    let codes = codes_of(alloc, &answers)?;
    let instances = all_newer(alloc, tasks, answers)?;
    desk.ask(alloc, Ask::Do(Command::Landed { peer, codes }), moment)?;
    Ok(Turn::Sent {
        tasks: tasks.len(),
        adopted: adopt_all(alloc, desk, instances, moment),
    })
}

/// Sends the batch in flight.
fn send<D: Desk, P: Peer>(
    alloc: Global,
    desk: &mut D,
    number: u32,
    peer: &mut P,
    tasks: &Tasks,
    moment: Moment,
) -> Result<Turn, Fault>
    ensures { spec.Sends D.asked moment P.submits number desk.old peer.old tasks.now result desk.new peer.new }
{
    match peer.submit(alloc, tasks.as_slice()) {
        Ok(answers) if answers.len() == tasks.as_slice().len() => land(
            alloc,
            desk,
            number,
            tasks.as_slice(),
            answers,
            moment,
        ),
        Ok(_) | Err(_) => {
            give_back(alloc, desk, number, moment)?;
            Ok(Turn::Lost {
                tasks: tasks.as_slice().len(),
            })
        }
    }
}

/// The batch with which a drain was answered; none where another answer came.
fn batch_of(answer: Answer) -> Option<Tasks>
    ensures { MatchOption result (spec.NoBatch answer) (λ tasks. answer ≡ Answer.Did (Reply.Batch tasks)) }
{
    match answer {
        Answer::Did(Reply::Batch(tasks)) => Some(tasks),
        other => {
            drop(other);
            None
        }
    }
}

/// Sends what waits for the peer of that number, counted from 0, and asks what its answers want (`ReplicationTaskProcessor` and
/// `PeerEurekaNode.heartbeat` in Eureka).
///
/// The clock is read once. The turn asks for `Drain`, hands the tasks to the peer while no lock is held, asks for `Landed` with its
/// codes, or for `Lost` where no answer came or not one a task, and then for `Adopt` of each instance that came with a 409 to a
/// heartbeat, in order. An adoption that is refused is dropped, and not counted.
///
/// `Waiting` where a batch was in flight already: it is taken for lost, as the turn that sent it found no memory for its end, or its
/// end was refused. So two turns for one peer must not run at once.
///
/// Faults: those of the asks, but for `EmptyBatch` and `Busy` of the drain; after one nothing more is asked. `OutOfMemory` also where
/// no memory is left between the drain and its end; the batch may then stay in flight until the next turn.
pub fn replicate_turn<D: Desk, P: Peer, C: Clock>(
    alloc: Global,
    desk: &mut D,
    number: u32,
    peer: &mut P,
    clock: &mut C,
) -> Result<Turn, Fault>
    ensures { spec.Turns D.asked P.submits C.tells number
        (record { desk = desk.old; peer = peer.old; clock = clock.old }) result
        (record { desk = desk.new; peer = peer.new; clock = clock.new }) }
{
    let moment = clock.now();
    let drain = Ask::Do(Command::Drain { peer: number });
    match desk.ask(alloc, drain, moment) {
        Ok(answer) => match batch_of(answer) {
            Some(tasks) => send(alloc, desk, number, peer, &tasks, moment),
            None => Ok(Turn::Idle),
        },
        Err(Fault::EmptyBatch) => Ok(Turn::Idle),
        Err(Fault::Busy) => {
            give_back(alloc, desk, number, moment)?;
            Ok(Turn::Waiting)
        }
        Err(fault) => Err(fault),
    }
}
