// The steps of a walk. Any walk may be handed in, over any buffer: what it says is held against them first.
ghost use Rattle.std.specs.Prelude.{◌≡◌, ◌&&◌, ◌+◌, ◌-◌, ◌<◌, ◌≤◌, leb, length};
ghost use Rattle.format.specs.Reader.{none, one, refused};
ghost use Rattle.format.specs.Walk.{advance, skip, walk_step};
ghost use Rattle.tree.specs.Loose.{loose_of};
ghost use Rattle.tree.specs.Tables.{mode_in};
ghost use Rattle.walk.specs.Source.{report_shape, report_reader_in};
ghost use Rattle.walk.specs.Walk.{walk_of, step_of, Within, Begins, passed, passed_over, call_of, Stepped};

use crate::buffer::Buffer;
use crate::read::read_tree;
use crate::sizes::own_buffer;
use decode::decode::TreeAt;
use decode::loose::loose_at;
use pack::row::{self, Row};
use tree::loose::{Loose, ReportedTree};
use tree::raw::{Descendants, place};
use tree::refusal::Refusal;
use tree::types::TokenTree;

#[derive(Clone, Copy)]
pub struct Walk {
    pub place: usize,
    pub number: u32,
    pub left: u32,
}

// What a step answers, None where none is left, and the walk that it leaves.
#[derive(Clone, Copy)]
pub struct Step {
    pub answer: Result<Option<ReportedTree>, Refusal>,
    pub walk: Walk,
}

// At the first of `trees` trees.
pub fn fresh(trees: u32) -> Walk
    ensures { walk_of result ≡ record { place = 0; number = 0; left = trees } }
{
    Walk {
        place: 0,
        number: 0,
        left: trees,
    }
}

#[tactic(auto, unfolding(crate::specs::Walk::answer_of))]
pub fn refuse(number: Row, tree: u32, walk: Walk) -> Step
    ensures { step_of result ≡ (refused number tree, walk_of walk) }
{
    Step {
        answer: Err(Refusal { number, tree }),
        walk,
    }
}

// None is left.
#[tactic(auto, unfolding(crate::specs::Walk::answer_of))]
fn over(walk: Walk) -> Step
    ensures { step_of result ≡ (none, walk_of walk) }
{
    Step {
        answer: Ok(None),
        walk,
    }
}

// The walk `trees` trees on.
#[tactic(auto, unfolding(crate::specs::Walk::answer_of))]
fn onward(walk: Walk, tree: TokenTree, loose: Loose, trees: u32, next: usize) -> Step
    requires { (walk.number + trees < 4294967296) × (trees ≤ walk.left) }
    ensures { step_of result ≡ (
      one (tree, loose_of loose),
      record { place = next; number = walk.number + trees; left = walk.left - trees },
    ) }
{
    Step {
        answer: Ok(Some(ReportedTree { tree, loose })),
        walk: Walk {
            place: next,
            number: walk.number + trees,
            left: walk.left - trees,
        },
    }
}

// Whether row 10 is silent.
fn fits(b: &[u8], trees: u32, walk: Walk) -> bool
    ensures { result ≡ (leb walk.place (length b.now) && leb (walk.number + walk.left) trees) }
{
    walk.place <= b.len() && walk.left <= trees && walk.number <= trees - walk.left
}

// What both steps begin with: the step is over, or a tree is read. A whole step in here would hold a tree at another
// place than the tree that is read, and both would be copied through memory.
#[tactic(auto, using(crate::proofs::WalkReturns::begin_cases))]
fn begin(buffer: &Buffer, walk: Walk) -> Result<Option<TreeAt>, Refusal>
    ensures { Begins buffer.now.bytes.now buffer.now.trees (mode_in buffer.now.tables) walk result }
{
    if !fits(buffer.bytes, buffer.trees, walk) {
        return Err(Refusal {
            number: row::STATE,
            tree: 0,
        });
    }
    if walk.left == 0 {
        return Ok(None);
    }
    Ok(Some(read_tree(buffer, walk.number, walk.place)?))
}

// Past a subtree: 3 if its count overruns the trees left, else 9 if its bytes overrun the buffer.
#[tactic(auto, unfolding(crate::specs::Walk::passed_over))]
fn past_subtree(b: &[u8], walk: Walk, here: TreeAt, loose: Loose, count: Descendants) -> Step
    requires { Within b.now walk here }
    ensures { step_of result ≡ passed_over (length b.now) (walk_of walk) here (loose_of loose)
        count.0 }
{
    if walk.left <= count.0 {
        return refuse(row::NEST, walk.number, walk);
    }
    let bytes = place(here.children.0);
    if b.len() - here.next < bytes {
        return refuse(row::BYTES, walk.number, walk);
    }
    onward(walk, here.tree, loose, 1 + count.0, here.next + bytes)
}

// Past the tree that was read and all that it holds.
#[tactic(auto, using(crate::proofs::WalkReturns::past_cases))]
fn past(b: &[u8], walk: Walk, here: TreeAt, loose: Loose) -> Step
    requires { Within b.now walk here }
    ensures { step_of result ≡ passed (length b.now) (walk_of walk) here (loose_of loose) }
{
    match here.tree {
        TokenTree::Leaf(_) => onward(walk, here.tree, loose, 1, here.next),
        TokenTree::Subtree(subtree) => past_subtree(b, walk, here, loose, subtree.len),
    }
}

// The next tree; with `skip` past all that it holds.
#[tactic(auto, using(crate::proofs::WalkReturns::step_cases))]
pub fn walk_in(buffer: &Buffer, walk: Walk, skip: bool) -> Step
    ensures { step_of result ≡ walk_step report_shape (report_reader_in buffer.now.bytes.now
        buffer.now.trees (mode_in buffer.now.tables)) (call_of skip) (walk_of walk) }
{
    match begin(buffer, walk) {
        Ok(None) => over(walk),
        Err(refusal) => refuse(refusal.number, refusal.tree, walk),
        Ok(Some(here)) => {
            let loose = loose_at(buffer.bytes, walk.place);
            if skip {
                return past(buffer.bytes, walk, here, loose);
            }
            onward(walk, here.tree, loose, 1, here.next)
        }
    }
}

// Over a part table whose last two are the root's, row 1 first.
pub fn walk_by(b: &[u8], trees: u32, parts: &[u32], symbols: &[u32], walk: Walk, skip: bool) -> Step
    ensures { Stepped b.now trees parts.now symbols.now (call_of skip) walk result }
{
    match own_buffer(b, trees, parts, symbols) {
        Ok(buffer) => walk_in(&buffer, walk, skip),
        Err(refusal) => refuse(refusal.number, refusal.tree, walk),
    }
}

// The next tree.
pub fn advance(b: &[u8], trees: u32, parts: &[u32], symbols: &[u32], walk: Walk) -> Step
    ensures { Stepped b.now trees parts.now symbols.now advance walk result }
{
    walk_by(b, trees, parts, symbols, walk, false)
}

// The next tree, and past all that it holds.
pub fn advance_skip_subtree(
    b: &[u8],
    trees: u32,
    parts: &[u32],
    symbols: &[u32],
    walk: Walk,
) -> Step
    ensures { Stepped b.now trees parts.now symbols.now skip walk result }
{
    walk_by(b, trees, parts, symbols, walk, true)
}
