//! What was done for passes together.
ghost use Rattle.std.specs.Prelude.{◌≡◌, ◌+◌, ◌<◌, vec_len};
ghost use Rattle.std.specs.Vec.{vec_capacity};
ghost use Rattle.eu_model.specs.Delta.{plus};
ghost use Rattle.eu_shared.specs.Passes.{done_for};
ghost use Rattle.eu_shared.specs.Shares.{IsAtMost, IsSmall};

use crate::pass::Pass;
use crate::shares::{Label, Shares, Totals};
use eu_model::Tally;

/// Adds what was done for the passes to what was done for those before. Their shares are lent to `all` one after the other, until
/// the ledgers tell how all of them stand to the totals, and are taken back: nothing has changed then.
#[tactic(auto, using(crate::proofs::SumLemmas::done_for_push))]
pub(crate) fn sum_up<K: Label>(
    passes: &mut Vec<Pass<K>>,
    all: &mut Shares<K>,
    totals: &mut Totals<K>,
    so_far: Tally,
) -> Tally
    requires some { 0 < all.old.parts }
    requires so_far { all.old.tally ≡ so_far }
    requires small { IsSmall totals.old }
    ensures passes { passes.new.items ≡ passes.old.items }
    ensures room { (vec_capacity passes.new ≡ vec_capacity passes.old) × (vec_len passes.new ≡ vec_len passes.old) }
    ensures all { all.new ≡ all.old }
    ensures totals { totals.new ≡ totals.old }
    ensures sum { result ≡ plus so_far (done_for passes.old.items) }
    ensures most { IsAtMost result totals.old }
    ensures whole { all.old.parts + vec_len passes.old ≡ K.parts → result ≡ totals.old }
{
    let Some(pass) = passes.pop() else {
        totals.audit(all);
        return so_far;
    };
    let Pass {
        number,
        log,
        tally,
        journal_first,
        is_stale,
        mut shares,
    } = pass;
    shares.lend(all, 1, tally);
    totals.audit(all);
    let sums = sum_up(passes, all, totals, so_far.plus(tally));
    shares.take_back(all, 1, tally);
    passes.push_reserved(Pass {
        number,
        log,
        tally,
        journal_first,
        is_stale,
        shares,
    });
    sums
}
