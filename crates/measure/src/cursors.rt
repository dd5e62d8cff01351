// Cursors to the end of a buffer, `token_tree` and `bump_or_end` in turn.
ghost use Rattle.std.specs.Prelude.{◌&&◌, ◌≡◌, leb, eqb, ◌*◌};
ghost use Rattle.format.specs.Buffer.{own_reader};
ghost use Rattle.format.specs.Cursor.{fresh_cursor};
ghost use Rattle.walk.specs.Source.{answer_words};
ghost use Rattle.cursor.specs.Open.{cursor_of};
ghost use Rattle.cursor.specs.Plan.{answer_of};
ghost use Rattle.measure.specs.Sum.{looked, moved, cursor_sum};

use crate::added::{added, refused_code};
use cursor::cursor::fresh;
use cursor::lent::bump_or_end;
use cursor::look::token_tree;
use cursor::plan::Reply;
use cursor::state::At;
use tree::refusal::Refusal;

// Behind the last tree, with none open.
fn is_over(trees: u32, at: At) -> bool
    ensures { result ≡ (leb trees at.number && eqb at.depth 0) }
{
    trees <= at.number && at.depth == 0
}

// The sum with the tree that the cursor stands at, or what the loop answers.
#[tactic(auto, using(crate::proofs::CursorReturns::look_cases))]
fn look(
    b: &[u8],
    trees: u32,
    parts: &[u32],
    symbols: &[u32],
    at: At,
    sum: u64,
    numbers: &[u32; 256],
    counts: &[u32; 256],
    places: &[usize; 256],
) -> Result<u64, u64>
    ensures { result ≡ looked (own_reader b.now trees parts.now symbols.now) trees
        (cursor_of at numbers.now counts.now places.now) sum }
{
    if is_over(trees, at) {
        return Err(sum);
    }
    match token_tree(b, trees, parts, symbols, at, numbers, counts, places) {
        Ok(Reply::Tree(read)) => Ok(added(sum, read.tree)),
        Ok(Reply::Done) => Ok(sum),
        Ok(Reply::None) => Ok(sum),
        Err(refusal) => Err(refused_code(refusal.number)),
    }
}

// A step's refusal ends the loop.
#[tactic(auto, using(crate::proofs::CursorReturns::after_step_cases))]
fn after_step(sum: u64, answer: Result<Reply, Refusal>) -> Result<u64, u64>
    ensures { result ≡ moved sum (answer_words (answer_of answer)) }
{
    match answer {
        Ok(Reply::Tree(_)) => Ok(sum),
        Ok(Reply::Done) => Ok(sum),
        Ok(Reply::None) => Ok(sum),
        Err(refusal) => Err(refused_code(refusal.number)),
    }
}

// Each tree is gone to and each subtree shut: twice the trees are steps enough.
#[tactic(auto, using(crate::proofs::CursorReturns::cursor_sum_cases))]
pub fn lent_sum(b: &[u8], trees: u32, parts: &[u32], symbols: &[u32]) -> u64
    ensures { result ≡ cursor_sum (own_reader b.now trees parts.now symbols.now)
        trees (2 * trees) fresh_cursor 0 }
{
    let mut numbers = [0u32; 256];
    let mut counts = [0u32; 256];
    let mut places = [0usize; 256];
    let mut at = At {
        place: 0,
        number: 0,
        depth: 0,
    };
    let mut sum: u64 = 0;
    for n in 0..2 * u64::from(trees) {
        let seen = match look(
            b, trees, parts, symbols, at, sum, &numbers, &counts, &places,
        ) {
            Ok(seen) => seen,
            Err(end) => return end,
        };
        let step = bump_or_end(
            b,
            trees,
            parts,
            symbols,
            at,
            &mut numbers,
            &mut counts,
            &mut places,
        );
        match after_step(seen, step.answer) {
            Ok(more) => sum = more,
            Err(end) => return end,
        }
        at = step.at;
    }
    sum
}

// The same with a cursor by value, whose arrays are lent to the look.
#[tactic(auto, using(crate::proofs::CursorReturns::cursor_sum_cases))]
pub fn value_sum(b: &[u8], trees: u32, parts: &[u32], symbols: &[u32]) -> u64
    ensures { result ≡ cursor_sum (own_reader b.now trees parts.now symbols.now)
        trees (2 * trees) fresh_cursor 0 }
{
    let mut cursor = fresh();
    let mut sum: u64 = 0;
    for n in 0..2 * u64::from(trees) {
        let at = At {
            place: cursor.place,
            number: cursor.number,
            depth: cursor.depth,
        };
        let seen = match look(
            b,
            trees,
            parts,
            symbols,
            at,
            sum,
            &cursor.numbers,
            &cursor.counts,
            &cursor.places,
        ) {
            Ok(seen) => seen,
            Err(end) => return end,
        };
        let next = cursor.bump_or_end(b, trees, parts, symbols);
        match after_step(seen, next.answer) {
            Ok(more) => sum = more,
            Err(end) => return end,
        }
        cursor = next.cursor;
    }
    sum
}
