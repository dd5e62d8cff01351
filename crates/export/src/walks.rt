// Walks: a step, and the last span of what a walk has left.
ghost use Rattle.std.specs.Prelude.{◌≡◌, ◌≤◌, length};
ghost use Rattle.format.specs.Width.{span_size};
ghost use Rattle.format.specs.Word.{put};
ghost use Rattle.tree.specs.Types.{span_list};
ghost use Rattle.walk.specs.Walk.{Stepped};
ghost use Rattle.export.specs.Steps.{reported_size, last_size, step_call, walk_list};
ghost use Rattle.export.specs.Steps.{StepStored, WalkReplied, LastStored, LastReplied};

use crate::replies::{Code, TOO_SHORT};
use crate::unchecked::{REPORTED_WORDS, store_reported, store_state};
use tree::loose::bit;
use tree::raw::place as wide;
use tree::refusal::Refusal;
use tree::types::Span;
use tree::unchecked::put_words;
use tree::words::tree_words;
use walk::last_span::{ReportedSpan, last_span};
use walk::walk::{Step, Walk, advance, advance_skip_subtree};
use width::SPAN_WORDS;

fn walk_step(b: &[u8], trees: u32, parts: &[u32], symbols: &[u32], walk: Walk, skip: bool) -> Step
    ensures { Stepped b.now trees parts.now symbols.now (step_call skip) walk
        result }
{
    if skip {
        advance_skip_subtree(b, trees, parts, symbols, walk)
    } else {
        advance(b, trees, parts, symbols, walk)
    }
}

fn store_walk(next: &mut [usize], walk: Walk)
    requires { 3 ≤ length next.old }
    ensures { next.new ≡ put next.old 0 (walk_list walk) }
{
    let left = wide(walk.left);
    store_state(next, walk.place, walk.number, left);
}

fn store_step(step: Step, next: &mut [usize], words: &mut [u32]) -> u64
    requires { (3 ≤ length next.old) × (reported_size ≤ length words.old) }
    ensures { StepStored step next.old words.old result next.new
        words.new }
{
    let walk = step.walk;
    match step.answer {
        Err(refusal) => refusal.code(),
        Ok(None) => {
            store_walk(next, walk);
            0
        }
        Ok(Some(read)) => {
            let tree = read.tree;
            let loose = read.loose;
            store_walk(next, walk);
            store_reported(words, 0, tree_words(tree), loose);
            1
        }
    }
}

// The answer is 0 for none, 1 for a tree, whose list words and report are stored, or a refusal.
// Unless refused, place, number and trees left of the next walk are stored.
#[unsafe(no_mangle)]
pub extern "C" fn tt_walk(
    b: &[u8],
    trees: u32,
    parts: &[u32],
    symbols: &[u32],
    place: usize,
    number: u32,
    left: u32,
    skip: bool,
    next: &mut [usize],
    words: &mut [u32],
) -> u64
    ensures { WalkReplied b.now trees parts.now symbols.now
        (record { place = place; number = number; left = left }) skip next.old words.old
        result next.new words.new }
{
    if next.len() < 3 || words.len() < REPORTED_WORDS {
        return TOO_SHORT;
    }
    let walk = Walk {
        place,
        number,
        left,
    };
    let step = walk_step(b, trees, parts, symbols, walk, skip);
    store_step(step, next, words)
}

fn store_span(words: &mut [u32], span: Span)
    requires { span_size ≤ length words.old }
    ensures { words.new ≡ put words.old 0 (span_list span) }
{
    let parts = [span.file, span.ast_id, span.context, span.start, span.len];
    put_words(words, 0, &parts);
}

// A span's words and its report.
const LAST_WORDS: usize = SPAN_WORDS + 1;

fn store_last(last: Result<Option<ReportedSpan>, Refusal>, words: &mut [u32]) -> u64
    requires { last_size ≤ length words.old }
    ensures { LastStored last words.old result words.new }
{
    match last {
        Err(refusal) => refusal.code(),
        Ok(None) => 0,
        Ok(Some(found)) => {
            store_span(words, found.span);
            words[SPAN_WORDS] = bit(found.loose);
            1
        }
    }
}

// The answer is as for a step; the words of a span and its report are stored.
#[unsafe(no_mangle)]
pub extern "C" fn tt_last_span(
    b: &[u8],
    trees: u32,
    parts: &[u32],
    symbols: &[u32],
    place: usize,
    number: u32,
    left: u32,
    words: &mut [u32],
) -> u64
    ensures { LastReplied b.now trees parts.now symbols.now
        (record { place = place; number = number; left = left }) words.old result words.new }
{
    if words.len() < LAST_WORDS {
        return TOO_SHORT;
    }
    let walk = Walk {
        place,
        number,
        left,
    };
    let last = last_span(b, trees, parts, symbols, walk);
    store_last(last, words)
}
