// Stores into lent runs, for callers that have seen to the room.
ghost use Rattle.std.specs.Prelude.{◌≡◌, ◌∷◌, [], ◌++◌, ◌+◌, ◌*◌, ◌≤◌, length};
ghost use Rattle.format.specs.Word.{put};
ghost use Rattle.tree.specs.Loose.{loose_of};
ghost use Rattle.tree.specs.Types.{tree_words_of};
ghost use Rattle.tree.specs.declared.types.TokenTree.TheVariants as trees;
ghost use Rattle.export.specs.Steps.{loose_size, reported_size, loose_words, report_list};
ghost use Rattle.export.specs.Cursors.{ahead_list, AnswerStored, BothStored, LeavesStored};

use crate::replies::Code;
use cursor::look::Ahead;
use cursor::plan::Reply;
use cursor::state::At;
use tree::loose::{Loose, bit, closing_loose, loose_spans, opening_loose};
use tree::raw::place as wide;
use tree::refusal::Refusal;
use tree::types::TokenTree;
use tree::unchecked::put_words;
use tree::words::tree_words;
use width::TREE_WORDS;

// A report: of the span or the open one, of the close one, and how many of the stored ones are loose.
pub(crate) const LOOSE_WORDS: usize = 3;

// A tree's words and its report.
pub(crate) const REPORTED_WORDS: usize = TREE_WORDS + LOOSE_WORDS;

// Two leaves go to so many words.
pub(crate) const TWO_TREES: usize = 2 * REPORTED_WORDS;

pub(crate) fn store_loose(words: &mut [u32], at: usize, loose: Loose)
    requires { at + loose_size ≤ length words.old }
    ensures { words.new ≡ put words.old at (loose_words (loose_of loose)) }
{
    let report = [
        bit(opening_loose(loose)),
        bit(closing_loose(loose)),
        loose_spans(loose),
    ];
    put_words(words, at, &report);
}

// A tree's words, and its report behind them.
pub(crate) fn store_reported(words: &mut [u32], at: usize, from: [u32; TREE_WORDS], loose: Loose)
    requires { at + reported_size ≤ length words.old }
    ensures { words.new ≡ put words.old at (report_list (from, loose_of loose)) }
{
    put_words(words, at, &from);
    store_loose(words, at + TREE_WORDS, loose);
}

// A byte place, a tree number, and a third number: the state of a walk or a cursor.
pub(crate) fn store_state(next: &mut [usize], place: usize, number: u32, third: usize)
    requires { 3 ≤ length next.old }
    ensures { next.new ≡ put next.old 0 (place ∷ number ∷ third ∷ []) }
{
    next[0] = place;
    next[1] = wide(number);
    next[2] = third;
}

// ---- a cursor's answers

pub(crate) fn store_answer(
    answer: Result<Reply, Refusal>,
    at: At,
    next: &mut [usize],
    words: &mut [u32],
) -> u64
    requires { (3 ≤ length next.old) × (2 * reported_size ≤ length words.old) }
    ensures { AnswerStored answer at next.old words.old
        result next.new words.new }
{
    match answer {
        Err(refusal) => refusal.code(),
        Ok(Reply::None) => {
            store_state(next, at.place, at.number, at.depth);
            0
        }
        Ok(Reply::Done) => {
            store_state(next, at.place, at.number, at.depth);
            3
        }
        Ok(Reply::Tree(read)) => {
            let tree = read.tree;
            let loose = read.loose;
            store_state(next, at.place, at.number, at.depth);
            store_reported(words, 0, tree_words(tree), loose);
            1
        }
    }
}

fn ahead_words(ahead: Ahead) -> [u32; TREE_WORDS]
    ensures { result ≡ tree_words_of (trees.Leaf ahead.leaf) }
{
    let leaf = ahead.leaf;
    tree_words(TokenTree::Leaf(leaf))
}

fn store_ahead(words: &mut [u32], at: usize, ahead: Ahead)
    requires { at + reported_size ≤ length words.old }
    ensures { words.new ≡ put words.old at (ahead_list ahead) }
{
    let loose = ahead.loose;
    store_reported(words, at, ahead_words(ahead), loose);
}

fn store_two(words: &mut [u32], near: Ahead, far: Ahead)
    requires { 2 * reported_size ≤ length words.old }
    ensures { words.new ≡ put words.old 0 (ahead_list near ++ ahead_list far) }
{
    store_ahead(words, 0, near);
    store_ahead(words, REPORTED_WORDS, far);
}

fn store_both(leaves: [Ahead; 2], at: At, next: &mut [usize], words: &mut [u32]) -> u64
    requires { (3 ≤ length next.old) × (2 * reported_size ≤ length words.old) }
    ensures { BothStored leaves at next.old words.old
        result next.new words.new }
{
    let near = leaves[0];
    let far = leaves[1];
    store_state(next, at.place, at.number, at.depth);
    store_two(words, near, far);
    2
}

pub(crate) fn store_leaves(
    two: Result<Option<[Ahead; 2]>, Refusal>,
    at: At,
    next: &mut [usize],
    words: &mut [u32],
) -> u64
    requires { (3 ≤ length next.old) × (2 * reported_size ≤ length words.old) }
    ensures { LeavesStored two at next.old words.old
        result next.new words.new }
{
    match two {
        Err(refusal) => refusal.code(),
        Ok(None) => {
            store_state(next, at.place, at.number, at.depth);
            0
        }
        Ok(Some(leaves)) => store_both(leaves, at, next, words),
    }
}
