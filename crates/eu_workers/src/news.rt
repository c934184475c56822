//! What is told of a turn of the evictor.
ghost use Rattle.std.specs.Prelude.{◌≡◌};
ghost use Rattle.eu_workers.specs.News as spec;

use eu_base::Fault;
use eu_book::Receipt;
use eu_gate::News;
use eu_model::{Gauges, Reply};

/// How many leases an ask evicted.
fn evicted_by(asked: &Result<Receipt, Fault>) -> u64
    ensures { result ≡ spec.evicted_by asked.now }
{
    let Ok(receipt) = asked else {
        return 0;
    };
    match &receipt.reply {
        Reply::Evicted(victims) => victims.as_slice().len() as u64,
        _ => 0,
    }
}

/// What is told of a turn before which this was seen, and whose ask was answered so.
pub(crate) fn news_of(seen: &Gauges, asked: &Result<Receipt, Fault>) -> News
    ensures { result ≡ spec.news_of seen.now asked.now }
{
    News {
        permitted: seen.counts.permitted,
        renewals: seen.counts.last,
        threshold: seen.counts.threshold,
        due: seen.due,
        evicted: evicted_by(asked),
    }
}
