// The builder's steps: its count and depth by number, its open trees in a lent array, its list in a lent run.
// Count and depth of the builder behind a step, refused or not, go to two words.
ghost use Rattle.std.specs.Prelude.{◌≡◌};
ghost use Rattle.format.specs.Width.{span_size};
ghost use Rattle.format.specs.Builder.{push, open_subtree, close_subtree, restore};
ghost use Rattle.tree.specs.Types.{words_of};
ghost use Rattle.export.specs.Roots.{span_in};
ghost use Rattle.export.specs.Builders.{lent, StepStored, StepReplied, NewReplied};
ghost use Rattle.export.specs.Builders.{PointReplied, BuildReplied};

use crate::replies::{Code, reply};
use crate::roots::{TWO_SPANS, span_in};
use builder::state::{Builder, Point, Stepped};
use tree::raw::place as wide;
use width::{SPAN_WORDS, TREE_WORDS};

fn store_step(stepped: Stepped, next: &mut [usize; 2], opened: &mut [u32; 256]) -> u64
    ensures { StepStored stepped result next.new opened.new }
{
    let builder = stepped.builder;
    let opens = builder.opened;
    *opened = opens;
    *next = [wide(builder.count), builder.depth];
    reply(stepped.verdict)
}

// The builder of a count, a depth and open trees.
fn lent(count: u32, depth: usize, opened: &[u32; 256]) -> Builder
    ensures { result ≡ lent count depth opened.now }
{
    Builder {
        count,
        depth,
        opened: *opened,
    }
}

// The words of the root's opening span, then those of its closing one.
#[unsafe(no_mangle)]
pub extern "C" fn tt_builder_new(
    list: &mut [u32],
    kind: u32,
    spans: &[u32; TWO_SPANS],
    next: &mut [usize; 2],
    opened: &mut [u32; 256],
) -> u64
    ensures { NewReplied kind (span_in spans.now 0) (span_in spans.now span_size)
        list.old result next.new opened.new list.new }
{
    let opening = span_in(spans, 0);
    let closing = span_in(spans, SPAN_WORDS);
    let stepped = Builder::new(list, kind, opening, closing);
    store_step(stepped, next, opened)
}

// A leaf by its list words.
#[unsafe(no_mangle)]
pub extern "C" fn tt_builder_push(
    list: &mut [u32],
    count: u32,
    depth: usize,
    leaf: &[u32; TREE_WORDS],
    next: &mut [usize; 2],
    opened: &mut [u32; 256],
) -> u64
    ensures { StepReplied (push leaf.now)
        (lent count depth opened.old) list.old
        result next.new opened.new list.new }
{
    let builder = lent(count, depth, opened);
    let stepped = builder.push_words(list, leaf);
    store_step(stepped, next, opened)
}

#[unsafe(no_mangle)]
pub extern "C" fn tt_builder_open(
    list: &mut [u32],
    count: u32,
    depth: usize,
    kind: u32,
    span: &[u32; SPAN_WORDS],
    next: &mut [usize; 2],
    opened: &mut [u32; 256],
) -> u64
    ensures { StepReplied (open_subtree kind (words_of (span_in span.now 0)))
        (lent count depth opened.old) list.old
        result next.new opened.new list.new }
{
    let builder = lent(count, depth, opened);
    let opening = span_in(span, 0);
    let stepped = builder.open(list, kind, opening);
    store_step(stepped, next, opened)
}

#[unsafe(no_mangle)]
pub extern "C" fn tt_builder_close(
    list: &mut [u32],
    count: u32,
    depth: usize,
    span: &[u32; SPAN_WORDS],
    next: &mut [usize; 2],
    opened: &mut [u32; 256],
) -> u64
    ensures { StepReplied (close_subtree (words_of (span_in span.now 0)))
        (lent count depth opened.old) list.old
        result next.new opened.new list.new }
{
    let builder = lent(count, depth, opened);
    let closing = span_in(span, 0);
    let stepped = builder.close(list, closing);
    store_step(stepped, next, opened)
}

// A point's trees and open trees.
#[unsafe(no_mangle)]
pub extern "C" fn tt_builder_point(
    list: &[u32],
    count: u32,
    depth: usize,
    opened: &[u32; 256],
    point: &mut [u32; 2],
) -> u64
    ensures { PointReplied (lent count depth opened.now) list.now point.old
        result point.new }
{
    let builder = lent(count, depth, opened);
    match builder.restore_point(list) {
        Err(refusal) => refusal.code(),
        Ok(taken) => {
            let words = [taken.trees, taken.opened];
            *point = words;
            0
        }
    }
}

#[unsafe(no_mangle)]
pub extern "C" fn tt_builder_restore(
    list: &[u32],
    count: u32,
    depth: usize,
    trees: u32,
    opens: u32,
    next: &mut [usize; 2],
    opened: &mut [u32; 256],
) -> u64
    ensures { StepReplied (restore (record { trees = trees; opened = opens }))
        (lent count depth opened.old) list.now
        result next.new opened.new list.now }
{
    let builder = lent(count, depth, opened);
    let point = Point {
        trees,
        opened: opens,
    };
    let stepped = builder.restore(list, point);
    store_step(stepped, next, opened)
}

// The bytes of the list over given tables; `skip` leaves the root out where one subtree holds all others.
#[unsafe(no_mangle)]
pub extern "C" fn tt_builder_build(
    list: &[u32],
    count: u32,
    depth: usize,
    opened: &[u32; 256],
    skip: bool,
    parts: &[u32],
    symbols: &[u32],
    work: &mut [u32],
    out: &mut [u8],
) -> u64
    ensures { BuildReplied (lent count depth opened.now) skip list.now
        parts.now symbols.now work.old out.old
        result work.new out.new }
{
    let builder = lent(count, depth, opened);
    if skip {
        reply(builder.build_skip_top_subtree(list, parts, symbols, work, out))
    } else {
        reply(builder.build(list, parts, symbols, work, out))
    }
}
