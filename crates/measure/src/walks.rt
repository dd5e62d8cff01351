// A walk to its end.
ghost use Rattle.std.specs.Prelude.{◌≡◌};
ghost use Rattle.format.specs.Buffer.{own_reader};
ghost use Rattle.walk.specs.Walk.{walk_of, call_of};
ghost use Rattle.measure.specs.Sum.{walk_sum};

use crate::added::{added, refused_code};
use walk::walk::{Walk, walk_by};

// The trees of a walk, or with `skip` those that it does not pass: their words added up, or a refusal.
#[tactic(auto, using(crate::proofs::SumReturns::walk_sum_cases))]
pub fn walk_sum(b: &[u8], trees: u32, parts: &[u32], symbols: &[u32], from: Walk, skip: bool) -> u64
    ensures { result ≡ walk_sum (own_reader b.now trees parts.now symbols.now)
        (call_of skip) trees (walk_of from) 0 }
{
    let mut walk = from;
    let mut sum: u64 = 0;
    for n in 0..trees {
        let step = walk_by(b, trees, parts, symbols, walk, skip);
        match step.answer {
            Ok(None) => return sum,
            Ok(Some(read)) => {
                sum = added(sum, read.tree);
                walk = step.walk;
            }
            Err(refusal) => return refused_code(refusal.number),
        }
    }
    sum
}
