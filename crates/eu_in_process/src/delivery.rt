//! A server of this process as a peer.
ghost use Rattle.std.specs.Prelude.{◌≡◌, None, IfOk, OnErr};
ghost use Rattle.eu_http.specs.Response.{item_of};
ghost use Rattle.eu_in_process.specs.Delivery.{AnswersItem};
ghost use Rattle.eu_model.specs.Chain.{Pairs};

use crate::commands::commands_of;
use eu_base::{Fault, Moment, Task};
use eu_clock::Clock;
use eu_json::ItemAnswer;
use eu_model::{Answer, Ask, Command, Desk, Reply};
use eu_peer::{Lost, Peer};
use http::StatusCode;
use std::alloc::{AllocError, Global};

/// An item's answer that tells no instance.
fn coded(status: StatusCode) -> ItemAnswer
    ensures { result ≡ record { code = status; instance = None } }
{
    ItemAnswer {
        code: status.as_u16(),
        instance: None,
    }
}

/// What an item of a batch is answered, by the reply to its command: as over HTTP, and without taking memory.
fn item_by(answer: Result<Answer, Fault>) -> ItemAnswer
    ensures { result ≡ item_of answer }
{
    match answer {
        Ok(Answer::Did(Reply::Registered { fresh: _ } | Reply::Done)) => coded(StatusCode::OK),
        Ok(Answer::Did(Reply::Conflict(instance))) => ItemAnswer {
            code: StatusCode::CONFLICT.as_u16(),
            instance: Some(instance),
        },
        Ok(_) => coded(StatusCode::NOT_FOUND),
        Err(_) => coded(StatusCode::SERVICE_UNAVAILABLE),
    }
}

/// Asks for one command; of a task that has none nothing is asked.
fn answer_item<D: Desk>(
    alloc: Global,
    desk: &mut D,
    command: Option<Command>,
    moment: Moment,
) -> ItemAnswer
    ensures { AnswersItem D.asked moment desk.old command result desk.new }
{
    match command {
        Some(command) => item_by(desk.ask(alloc, Ask::Do(command), moment)),
        None => coded(StatusCode::BAD_REQUEST),
    }
}

/// Asks for each command, in order. Where there is no room for the answers nothing is asked.
fn answer_items<D: Desk>(
    alloc: Global,
    desk: &mut D,
    commands: Vec<Option<Command>>,
    moment: Moment,
) -> Result<Vec<ItemAnswer>, AllocError>
    ensures made { IfOk result (λ items. Pairs (λ s command item s'. AnswersItem D.asked moment s command item s') desk.old commands.items items.items desk.new) }
    ensures err { OnErr result (desk.new ≡ desk.old) }
{
    let mut items = Vec::with_capacity(alloc, commands.len())?;
    for command in commands {
        items
            .push(answer_item(alloc, desk, command, moment))
            .unwrap();
    }
    Ok(items)
}

/// A server of this process as a peer: a way to its book, a pass in its seat mostly, and a clock, which is read once for a batch.
///
/// It asks the command of each task, as a peer's, in order, and answers what the server would over HTTP
/// (`PeerReplicationResource.batchReplication` in Eureka): 200 for what was done, 404, 409 with the instance that is held, and 503
/// for a refusal. A task that lacks what its action needs is answered 400, and nothing is asked. `Lost` only where there is no memory
/// for the commands or for the answers; then nothing was asked.
#[derive(Drop)]
pub struct InProcess<D: Desk, C: Clock> {
    /// Who answers for the server.
    pub desk: D,
    /// The server's clock.
    pub clock: C,
}

impl<D: Desk, C: Clock> Peer for InProcess<D, C> {
    ghost use Rattle.eu_in_process.specs.Delivery.{Delivers};

    ghost submits = { λ before batch answers after. Delivers D.asked C.tells before.desk before.clock batch answers after.desk after.clock };

    fn submit(&mut self, alloc: Global, batch: &[Task]) -> Result<Vec<ItemAnswer>, Lost> {
        let Ok(commands) = commands_of(alloc, batch) else {
            return Err(Lost);
        };
        let moment = self.clock.now();
        answer_items(alloc, &mut self.desk, commands, moment).map_err(|_| Lost)
    }
}
