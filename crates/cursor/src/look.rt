// The calls that look and change nothing, over a small state and three lent arrays.
ghost use Rattle.std.specs.Prelude.{◌≡◌, ◌+◌, ◌<◌};
ghost use Rattle.tree.specs.Tables.{mode_in};
ghost use Rattle.cursor.specs.Look.{Here, Second, First, Tells, TellsIn, Peeks, PeeksIn};

use crate::open::{agrees, lies_inside};
use crate::plan::Reply;
use crate::state::At;
use decode::loose::loose_at;
use pack::row;
use tree::loose::{Loose, ReportedTree};
use tree::refusal::Refusal;
use tree::types::{Leaf, TokenTree};
use walk::buffer::Buffer;
use walk::read::read_tree;
use walk::sizes::own_buffer;

// A leaf ahead of the cursor, and its report.
#[derive(Clone, Copy)]
pub struct Ahead {
    pub leaf: Leaf,
    pub loose: Loose,
}

// The tree that the cursor stands at.
#[tactic(auto, using(crate::proofs::LookReturns::here_got))]
fn tree_here(buffer: &Buffer, at: At) -> Result<Reply, Refusal>
    ensures { Here buffer.now.bytes.now (mode_in buffer.now.tables) at result }
{
    let read = read_tree(buffer, at.number, at.place)?;
    Ok(Reply::Tree(ReportedTree {
        tree: read.tree,
        loose: loose_at(buffer.bytes, at.place),
    }))
}

// None where it lies outside the list or the last open subtree.
#[tactic(auto, using(crate::proofs::LookReturns::tells_cases))]
pub fn token_tree_in(
    buffer: &Buffer,
    at: At,
    numbers: &[u32; 256],
    counts: &[u32; 256],
    places: &[usize; 256],
) -> Result<Reply, Refusal>
    ensures { TellsIn buffer.now.bytes.now buffer.now.trees (mode_in buffer.now.tables)
        at numbers.now counts.now places.now result }
{
    if !agrees(buffer, at, numbers, counts, places) {
        return Err(Refusal {
            number: row::STATE,
            tree: 0,
        });
    }
    if !lies_inside(buffer.trees, at, 0, numbers, counts) {
        return Ok(Reply::None);
    }
    tree_here(buffer, at)
}

// ---- two leaves, the nearer first

#[tactic(auto, using(crate::proofs::LookReturns::second_cases))]
fn second(
    buffer: &Buffer,
    number: u32,
    place: usize,
    near: Ahead,
) -> Result<Option<[Ahead; 2]>, Refusal>
    requires { number + 1 < 4294967296 }
    ensures { Second buffer.now.bytes.now (mode_in buffer.now.tables) number place near result }
{
    let here = read_tree(buffer, number + 1, place)?;
    let TokenTree::Leaf(leaf) = here.tree else {
        return Ok(None);
    };
    let far = Ahead {
        leaf,
        loose: loose_at(buffer.bytes, place),
    };
    Ok(Some([near, far]))
}

// If the first is no leaf, the second is not read.
#[tactic(auto, using(crate::proofs::LookReturns::first_cases))]
fn first(buffer: &Buffer, at: At) -> Result<Option<[Ahead; 2]>, Refusal>
    requires { at.number + 1 < 4294967296 }
    ensures { First buffer.now.bytes.now (mode_in buffer.now.tables) at result }
{
    let here = read_tree(buffer, at.number, at.place)?;
    let TokenTree::Leaf(leaf) = here.tree else {
        return Ok(None);
    };
    let near = Ahead {
        leaf,
        loose: loose_at(buffer.bytes, at.place),
    };
    second(buffer, at.number, here.next, near)
}

// None where one of the two lies outside the list or the last open subtree.
#[tactic(auto, using(crate::proofs::LookReturns::peeks_cases))]
pub fn peek_two_leaves_in(
    buffer: &Buffer,
    at: At,
    numbers: &[u32; 256],
    counts: &[u32; 256],
    places: &[usize; 256],
) -> Result<Option<[Ahead; 2]>, Refusal>
    ensures { PeeksIn buffer.now.bytes.now buffer.now.trees (mode_in buffer.now.tables)
        at numbers.now counts.now places.now result }
{
    if !agrees(buffer, at, numbers, counts, places) {
        return Err(Refusal {
            number: row::STATE,
            tree: 0,
        });
    }
    if !lies_inside(buffer.trees, at, 1, numbers, counts) {
        return Ok(None);
    }
    first(buffer, at)
}

// ---- over a part table whose last two are the root's, row 1 first

pub fn token_tree(
    b: &[u8],
    trees: u32,
    parts: &[u32],
    symbols: &[u32],
    at: At,
    numbers: &[u32; 256],
    counts: &[u32; 256],
    places: &[usize; 256],
) -> Result<Reply, Refusal>
    ensures { Tells b.now trees parts.now symbols.now
        at numbers.now counts.now places.now result }
{
    let buffer = own_buffer(b, trees, parts, symbols)?;
    token_tree_in(&buffer, at, numbers, counts, places)
}

pub fn peek_two_leaves(
    b: &[u8],
    trees: u32,
    parts: &[u32],
    symbols: &[u32],
    at: At,
    numbers: &[u32; 256],
    counts: &[u32; 256],
    places: &[usize; 256],
) -> Result<Option<[Ahead; 2]>, Refusal>
    ensures { Peeks b.now trees parts.now symbols.now
        at numbers.now counts.now places.now result }
{
    let buffer = own_buffer(b, trees, parts, symbols)?;
    peek_two_leaves_in(&buffer, at, numbers, counts, places)
}
