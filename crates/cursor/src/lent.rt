// The calls over a small state and three lent arrays, for callers that cannot pay two copies of a whole cursor a call.
ghost use Rattle.std.specs.Prelude.{◌≡◌, ◌+◌, ◌<◌};
ghost use Rattle.format.specs.Cursor.{bump, end, bump_or_end};
ghost use Rattle.tree.specs.Tables.{mode_in};
ghost use Rattle.cursor.specs.Plan.{May};
ghost use Rattle.cursor.specs.declared.plan.Change.TheVariants as changes;
ghost use Rattle.cursor.specs.Moves.{Applied, Moves, MovesIn};

use crate::plan::{Change, Opening, Reply, plan_bump, plan_bump_or_end, plan_end};
use crate::state::At;
use tree::refusal::Refusal;
use walk::buffer::Buffer;
use walk::sizes::own_buffer;

#[derive(Clone, Copy)]
pub struct Moved {
    pub answer: Result<Reply, Refusal>,
    pub at: At,
}

// An opening writes the one entry behind the open subtrees, and nothing else is written.
#[tactic(auto, using(crate::proofs::MovesReturns::apply_cases))]
fn enter(
    at: At,
    opening: Opening,
    numbers: &mut [u32; 256],
    counts: &mut [u32; 256],
    places: &mut [usize; 256],
) -> At
    requires { (at.number + 1 < 4294967296) × (at.depth < 256) }
    ensures { Applied at (changes.Open opening)
        numbers.old counts.old places.old
        result numbers.new counts.new places.new }
{
    let depth = at.depth;
    numbers[depth] = at.number;
    counts[depth] = opening.count.0;
    places[depth] = at.place;
    At {
        place: opening.next,
        number: at.number + 1,
        depth: depth + 1,
    }
}

#[tactic(auto, using(crate::proofs::MovesReturns::apply_cases))]
fn apply(
    at: At,
    change: Change,
    numbers: &mut [u32; 256],
    counts: &mut [u32; 256],
    places: &mut [usize; 256],
) -> At
    requires { May at change }
    ensures { Applied at change
        numbers.old counts.old places.old
        result numbers.new counts.new places.new }
{
    match change {
        Change::Stay => at,
        Change::On(next) => At {
            place: next,
            number: at.number + 1,
            depth: at.depth,
        },
        Change::Shut => At {
            place: at.place,
            number: at.number,
            depth: at.depth - 1,
        },
        Change::Open(opening) => enter(at, opening, numbers, counts, places),
    }
}

// ---- behind row 1

pub fn bump_in(
    buffer: &Buffer,
    at: At,
    numbers: &mut [u32; 256],
    counts: &mut [u32; 256],
    places: &mut [usize; 256],
) -> Moved
    ensures { MovesIn buffer.now.bytes.now buffer.now.trees (mode_in buffer.now.tables) bump
        at numbers.old counts.old places.old
        result.answer result.at numbers.new counts.new places.new }
{
    let plan = plan_bump(buffer, at, numbers, counts, places);
    Moved {
        answer: plan.answer,
        at: apply(at, plan.change, numbers, counts, places),
    }
}

pub fn end_in(
    buffer: &Buffer,
    at: At,
    numbers: &mut [u32; 256],
    counts: &mut [u32; 256],
    places: &mut [usize; 256],
) -> Moved
    ensures { MovesIn buffer.now.bytes.now buffer.now.trees (mode_in buffer.now.tables) end
        at numbers.old counts.old places.old
        result.answer result.at numbers.new counts.new places.new }
{
    let plan = plan_end(buffer, at, numbers, counts, places);
    Moved {
        answer: plan.answer,
        at: apply(at, plan.change, numbers, counts, places),
    }
}

pub fn bump_or_end_in(
    buffer: &Buffer,
    at: At,
    numbers: &mut [u32; 256],
    counts: &mut [u32; 256],
    places: &mut [usize; 256],
) -> Moved
    ensures { MovesIn buffer.now.bytes.now buffer.now.trees (mode_in buffer.now.tables) bump_or_end
        at numbers.old counts.old places.old
        result.answer result.at numbers.new counts.new places.new }
{
    let plan = plan_bump_or_end(buffer, at, numbers, counts, places);
    Moved {
        answer: plan.answer,
        at: apply(at, plan.change, numbers, counts, places),
    }
}

// ---- over a part table whose last two are the root's, row 1 first

pub fn bump(
    b: &[u8],
    trees: u32,
    parts: &[u32],
    symbols: &[u32],
    at: At,
    numbers: &mut [u32; 256],
    counts: &mut [u32; 256],
    places: &mut [usize; 256],
) -> Moved
    ensures { Moves b.now trees parts.now symbols.now bump
        at numbers.old counts.old places.old
        result.answer result.at numbers.new counts.new places.new }
{
    match own_buffer(b, trees, parts, symbols) {
        Ok(buffer) => bump_in(&buffer, at, numbers, counts, places),
        Err(refusal) => Moved {
            answer: Err(refusal),
            at,
        },
    }
}

pub fn end(
    b: &[u8],
    trees: u32,
    parts: &[u32],
    symbols: &[u32],
    at: At,
    numbers: &mut [u32; 256],
    counts: &mut [u32; 256],
    places: &mut [usize; 256],
) -> Moved
    ensures { Moves b.now trees parts.now symbols.now end
        at numbers.old counts.old places.old
        result.answer result.at numbers.new counts.new places.new }
{
    match own_buffer(b, trees, parts, symbols) {
        Ok(buffer) => end_in(&buffer, at, numbers, counts, places),
        Err(refusal) => Moved {
            answer: Err(refusal),
            at,
        },
    }
}

pub fn bump_or_end(
    b: &[u8],
    trees: u32,
    parts: &[u32],
    symbols: &[u32],
    at: At,
    numbers: &mut [u32; 256],
    counts: &mut [u32; 256],
    places: &mut [usize; 256],
) -> Moved
    ensures { Moves b.now trees parts.now symbols.now bump_or_end
        at numbers.old counts.old places.old
        result.answer result.at numbers.new counts.new places.new }
{
    match own_buffer(b, trees, parts, symbols) {
        Ok(buffer) => bump_or_end_in(&buffer, at, numbers, counts, places),
        Err(refusal) => Moved {
            answer: Err(refusal),
            at,
        },
    }
}
