// The listing of a bundle. The bytes are read where they stand, and no table entry is looked up.
ghost use Rattle.std.specs.Prelude.{◌≡◌, ◌≤◌, length};
ghost use Rattle.format.specs.Verdict.{passed};
ghost use Rattle.format.specs.Check.{check as checked};
ghost use Rattle.format.specs.Buffer.{raw_shape, size_reader};
ghost use Rattle.format.specs.Lister.{lister_text};
ghost use Rattle.text.specs.Typed.{Typed};
ghost use Rattle.tree.specs.Raw.{raw_of};
ghost use Rattle.lister.specs.BySizes.{size_lines, sizes_text};
ghost use Rattle.lister.specs.Ends.{Follows};
ghost use Rattle.lister.specs.TreePut.{TreePut};

use crate::depth::{MAX_DEPTH, open_tree, still_open};
use crate::lines::{put_header, put_line, put_refusal};
use crate::loose::loose_below;
use bundle::read::read_bundle;
use checker::check::check;
use decode::judge::tree_at;
use pack::row;
use tree::raw::{RawTree, place};

// The bytes that are taken.
const MOST: usize = 65536;

// Where the next line goes, and how many subtrees are on the stack.
#[derive(Clone, Copy)]
struct Done {
    next: usize,
    depth: usize,
}

// The line of tree n, which may be a subtree that is then open.
fn put_tree(
    out: &mut [u8],
    at: usize,
    ends: &mut [u32; MAX_DEPTH],
    depth: usize,
    n: u32,
    first: usize,
    tree: RawTree,
) -> Done
    requires at_in_bounds { at ≤ length out.old }
    requires follows { Follows ends.old depth n (raw_of tree) }
    ensures { TreePut out.old at ends.old depth n first (raw_of tree) result
        out.new ends.new }
{
    let around = still_open(ends, depth, n);
    let next = put_line(out, at, place(n), first, around + 1, tree);
    let inside = open_tree(ends, around, n, tree);
    Done {
        next,
        depth: inside,
    }
}

// The lines of all trees of a buffer that the check has passed.
fn put_lines(out: &mut [u8], at: usize, b: &[u8], trees: u32, parts: usize, symbols: usize) -> usize
    requires at_in_bounds { at ≤ length out.old }
    requires passes { checked raw_shape (size_reader b.now trees parts symbols) ≡ passed }
    ensures { Typed out.old at (size_lines b.now trees parts symbols)
        result out.new }
{
    let mut ends = [0u32; MAX_DEPTH];
    let mut depth: usize = 0;
    let mut first: usize = 0;
    let mut next = at;
    for n in 0..trees {
        let Ok(here) = tree_at(b, parts, symbols, n, first) else {
            // Not in a buffer that the check has passed.
            return next;
        };
        let done = put_tree(out, next, &mut ends, depth, n, first, here.tree);
        next = done.next;
        depth = done.depth;
        first = here.next;
    }
    next
}

// The listing or the refusal of a buffer, by the sizes of its tables.
fn list_buffer(out: &mut [u8], b: &[u8], trees: u32, parts: usize, symbols: usize) -> usize
    requires { length b.now ≤ 65536 }
    ensures text { Typed out.old 0 (sizes_text b.now trees parts symbols)
        result out.new }
    ensures fits { length (sizes_text b.now trees parts symbols) ≤ 327755 }
{
    match check(b, trees, parts, symbols) {
        Err(refusal) => put_refusal(out, 0, place(refusal.number), place(refusal.tree)),
        Ok(()) => {
            let loose = loose_below(b, trees, parts, symbols);
            let next = put_header(out, 0, place(trees), b.len(), parts, symbols, loose);
            put_lines(out, next, b, trees, parts, symbols)
        }
    }
}

// As much of the text as the run has room for; 327,755 bytes are always enough.
pub(crate) fn list_bundle(out: &mut [u8], b: &[u8]) -> usize
    ensures text { Typed out.old 0 (lister_text b.now) result out.new }
    ensures fits { length (lister_text b.now) ≤ 327755 }
{
    if MOST < b.len() {
        return put_refusal(out, 0, row::SIZE as usize, 0);
    }
    let Some(contents) = read_bundle(b) else {
        return put_refusal(out, 0, row::SIZE as usize, 0);
    };
    list_buffer(
        out,
        &b[contents.start..],
        contents.trees,
        contents.parts,
        contents.symbols,
    )
}
