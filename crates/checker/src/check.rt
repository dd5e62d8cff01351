// The check of a lent buffer. A run checker and a subtree checker call each other and read every tree once.
ghost use Rattle.std.specs.Prelude.{◌+◌, ◌<◌, ◌≤◌, ◌≡◌, Ok};
ghost use Rattle.format.specs.Verdict as verdict;
ghost use Rattle.format.specs.Check.{place_of, check as checked};
ghost use Rattle.format.specs.Buffer.{raw_shape, size_reader, buffer_check};
ghost use Rattle.checker.specs.Descent.{after_sizes};
ghost use Rattle.tree.specs.Refusal.{verdict_answer};
ghost use Rattle.checker.specs.Glance.{reader_of, glance_at};
ghost use Rattle.checker.specs.Says.{is_sized, earlier, RunSays, RootSays, RootStops, Ends};
ghost use Rattle.checker.specs.declared.glance.Glance.TheVariants as gl;

use crate::glance::{Glance, Opening, Sizes, glance_at};
use pack::row;
use pack::row::Row;
use tree::limits::own_limits;
use tree::raw::place;
use tree::refusal::Refusal;
use tree::sizes::{counts_sized, trees_sized};
use width::PART_WORDS;

// Subtrees that may nest, the root counting 1.
const MAX_DEPTH: u32 = 256;

// How far the check of a run has come.
#[derive(Clone, Copy)]
struct Ran {
    // The next tree, and its byte place.
    tree: u32,
    at: usize,
    // The lowest subtree with a wrong byte count (the tree count if none).
    wrong: u32,
}

// Why the check of a run has stopped.
#[derive(Clone, Copy)]
enum Stop {
    // A tree that cannot be read.
    Unread(Refusal),
    // Row 3 or 4, and the tree's byte place.
    Unnested(Refusal, usize),
}

#[tactic(auto, unfolding(tree::specs::Refusal::verdict_answer))]
pub fn refused(number: Row, tree: u32) -> Result<(), Refusal>
    ensures { result ≡ verdict_answer (verdict.refused number tree) }
{
    Err(Refusal { number, tree })
}

// The lower of two wrong subtrees, where the first, if there is one, stands before the second.
fn earlier_wrong(trees: u32, first: u32, second: u32) -> u32
    ensures { result ≡ earlier trees first second }
{
    if first < trees { first } else { second }
}

// The trees from n up to end, where so many more subtrees may be opened.
#[cycle(check_run_check_subtree)]
fn check_run(b: &[u8], sizes: Sizes, n: u32, end: u32, depth: u32, at: usize) -> Result<Ran, Stop>
    requires n_le_end { n ≤ end }
    requires end_le_trees { end ≤ sizes.trees }
    requires at_place { at ≡ place_of raw_shape (reader_of b.now sizes) n }
    ensures { RunSays raw_shape (reader_of b.now sizes) n end depth end result }
{
    let mut tree = n;
    let mut place = at;
    let mut wrong = sizes.trees;
    while tree < end {
        match glance_at(b, sizes, tree, place) {
            Err(number) => return Err(Stop::Unread(Refusal { number, tree })),
            Ok(Glance::Leaf(next)) => {
                tree += 1;
                place = next;
            }
            Ok(Glance::Subtree(o)) => {
                let below = check_subtree(b, sizes, tree, end, depth, place, o)?;
                wrong = earlier_wrong(sizes.trees, wrong, below.wrong);
                place = below.at;
                tree = below.tree;
            }
        }
    }
    Ok(Ran {
        tree: end,
        at: place,
        wrong,
    })
}

// Subtree n with all its descendants, under a subtree that ends at end.
#[cycle(check_run_check_subtree)]
fn check_subtree(
    b: &[u8],
    sizes: Sizes,
    n: u32,
    end: u32,
    depth: u32,
    at: usize,
    o: Opening,
) -> Result<Ran, Stop>
    requires n_lt_end { n < end }
    requires end_le_trees { end ≤ sizes.trees }
    requires at_place { at ≡ place_of raw_shape (reader_of b.now sizes) n }
    requires o_there { Ok (gl.Subtree o) ≡ glance_at b.now sizes n at }
    ensures { RunSays raw_shape (reader_of b.now sizes) n end depth (n + 1 + o.count.0) result }
{
    let count = o.count.0;
    if end - n - 1 < count {
        return Err(Stop::Unnested(
            Refusal {
                number: row::NEST,
                tree: n,
            },
            at,
        ));
    }
    if depth == 0 {
        return Err(Stop::Unnested(
            Refusal {
                number: row::DEPTH,
                tree: n,
            },
            at,
        ));
    }
    let below = check_run(b, sizes, n + 1, n + 1 + count, depth - 1, o.next)?;
    if below.at < o.next || below.at - o.next != place(o.kids.0) {
        return Ok(Ran { wrong: n, ..below });
    }
    Ok(below)
}

// The root, which is to hold all other trees, and all of them.
fn check_root(b: &[u8], sizes: Sizes) -> Result<Ran, Stop>
    requires { 1 ≤ sizes.trees }
    ensures { RootSays raw_shape (reader_of b.now sizes) result }
{
    match glance_at(b, sizes, 0, 0) {
        Err(number) => Err(Stop::Unread(Refusal { number, tree: 0 })),
        Ok(Glance::Leaf(_)) => Err(Stop::Unnested(
            Refusal {
                number: row::NEST,
                tree: 0,
            },
            0,
        )),
        Ok(Glance::Subtree(o)) => {
            if o.count.0 != sizes.trees - 1 {
                return Err(Stop::Unnested(
                    Refusal {
                        number: row::NEST,
                        tree: 0,
                    },
                    0,
                ));
            }
            check_subtree(b, sizes, 0, sizes.trees, MAX_DEPTH, 0, o)
        }
    }
}

// The trees from n on are read, to find one that cannot be, or the end.
fn read_on(b: &[u8], sizes: Sizes, n: u32, at: usize) -> Result<usize, Refusal>
    requires n_le_trees { n ≤ sizes.trees }
    requires at_place { at ≡ place_of raw_shape (reader_of b.now sizes) n }
    ensures { Ends raw_shape (reader_of b.now sizes) n result }
{
    let mut place = at;
    for tree in n..sizes.trees {
        match glance_at(b, sizes, tree, place) {
            Err(number) => return Err(Refusal { number, tree }),
            Ok(seen) => place = seen.next(),
        }
    }
    Ok(place)
}

// After a stop the trees behind it are read too: an unreadable one, or bytes left over, counts before rows 3 and 4.
fn finish_stopped(b: &[u8], sizes: Sizes, stop: Stop) -> Result<(), Refusal>
    requires { RootStops raw_shape (reader_of b.now sizes) stop }
    ensures { result ≡ verdict_answer (after_sizes raw_shape (reader_of b.now sizes)) }
{
    match stop {
        Stop::Unread(refusal) => Err(refusal),
        Stop::Unnested(refusal, at) => {
            let place = read_on(b, sizes, refusal.tree, at)?;
            if place != b.len() {
                return refused(row::BYTES, sizes.trees);
            }
            Err(refusal)
        }
    }
}

// What is left to say once all trees have been gone through.
fn finish(b: &[u8], sizes: Sizes, ran: Ran) -> Result<(), Refusal>
    requires { RootSays raw_shape (reader_of b.now sizes) (Ok ran) }
    ensures { result ≡ verdict_answer (after_sizes raw_shape (reader_of b.now sizes)) }
{
    if ran.at != b.len() {
        return refused(row::BYTES, sizes.trees);
    }
    if ran.wrong < sizes.trees {
        return refused(row::BYTES, ran.wrong);
    }
    Ok(())
}

// The check behind row 1, which whoever knows the table mode asks.
pub fn check_in(b: &[u8], sizes: Sizes) -> Result<(), Refusal>
    requires { 1 ≤ sizes.trees }
    ensures { result ≡ verdict_answer (after_sizes raw_shape (reader_of b.now sizes)) }
{
    match check_root(b, sizes) {
        Ok(ran) => finish(b, sizes, ran),
        Err(stop) => finish_stopped(b, sizes, stop),
    }
}

// Row 1, but for part words that are no multiple of 3.
fn is_sized(trees: u32, parts: usize, symbols: usize) -> bool
    ensures { result ≡ is_sized trees parts symbols }
{
    trees_sized(trees) && counts_sized(parts, symbols)
}

// The check by the sizes of the tables: no entry is looked at.
pub fn check(b: &[u8], trees: u32, parts: usize, symbols: usize) -> Result<(), Refusal>
    ensures { result ≡ verdict_answer (checked raw_shape (size_reader b.now trees parts symbols)) }
{
    if !is_sized(trees, parts, symbols) {
        return refused(row::SIZE, 0);
    }
    let limits = own_limits(parts, symbols);
    check_in(b, Sizes { trees, limits })
}

// The check of a buffer with its part words and symbols.
pub fn check_buffer(b: &[u8], trees: u32, parts: &[u32], symbols: &[u32]) -> Result<(), Refusal>
    ensures { result ≡ verdict_answer
        (buffer_check b.now trees parts.now symbols.now) }
{
    if parts.len() % PART_WORDS != 0 {
        return refused(row::SIZE, 0);
    }
    check(b, trees, parts.len() / PART_WORDS, symbols.len())
}
