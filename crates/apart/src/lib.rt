// A table mode beside document 01's, read by the same core: a stated number of parts in a run that may be longer, and
// the root's two parts in a run of their own under an index of their own. It shows that a mode costs fronts and no
// copies.
#![tactic(auto)]

ghost use Rattle.std.specs.Prelude.{◌≡◌};
ghost use Rattle.format.specs.Tables.{mode_tables};
ghost use Rattle.format.specs.Check.{check};
ghost use Rattle.format.specs.Buffer.{word_shape, reader};
ghost use Rattle.format.specs.Walk.{walk_step};
ghost use Rattle.tree.specs.Mode.{limits_of};
ghost use Rattle.tree.specs.Refusal.{verdict_answer};
ghost use Rattle.walk.specs.Source.{report_shape, report_reader_in};
ghost use Rattle.walk.specs.Walk.{step_of, walk_of, call_of};
ghost use Rattle.apart.specs.Apart.{apart_mode, sized_apart, sizes_apart};

use checker::check::{check_in, refused};
use checker::glance::Sizes;
use pack::row;
use tree::limits::Limits;
use tree::refusal::Refusal;
use tree::sizes::trees_sized;
use tree::tables::Tables;
use walk::buffer::Buffer;
use walk::walk::{Step, Walk, refuse, walk_in};
use width::PART_WORDS;

const MOST_PARTS: usize = 2097152;

const MOST_SYMBOLS: usize = 1048576;

// The root's two parts.
const PAIR_WORDS: usize = 2 * PART_WORDS;

// Whether row 1 is silent on the tables.
#[tactic(auto, unfolding(crate::specs::Apart::sized_apart))]
fn tables_apart(count: usize, parts: &[u32], pair: &[u32], symbols: &[u32]) -> bool
    ensures { result ≡ sized_apart count parts.now pair.now symbols.now }
{
    count <= MOST_PARTS
        && PART_WORDS * count <= parts.len()
        && pair.len() == PAIR_WORDS
        && symbols.len() <= MOST_SYMBOLS
}

// Whether row 1 is silent.
#[tactic(auto, unfolding(crate::specs::Apart::sizes_apart))]
fn sized(trees: u32, count: usize, parts: &[u32], pair: &[u32], symbols: &[u32]) -> bool
    ensures { result ≡ sizes_apart trees count parts.now pair.now symbols.now }
{
    trees_sized(trees) && tables_apart(count, parts, pair, symbols)
}

fn stated(count: usize, root: usize, symbols: usize) -> Limits
    ensures { limits_of result ≡ record { limit = count; root = root; symbols = symbols } }
{
    Limits {
        limit: count,
        root,
        symbols,
    }
}

#[tactic(auto, using(crate::proofs::Returns::check_cases))]
pub fn check_apart(
    b: &[u8],
    trees: u32,
    count: usize,
    root: usize,
    parts: &[u32],
    pair: &[u32],
    symbols: &[u32],
) -> Result<(), Refusal>
    ensures { result ≡ verdict_answer (check word_shape (reader b.now trees
        (mode_tables (apart_mode count root parts.now pair.now symbols.now)))) }
{
    if !sized(trees, count, parts, pair, symbols) {
        return refused(row::SIZE, 0);
    }
    let sizes = Sizes {
        trees,
        limits: stated(count, root, symbols.len()),
    };
    check_in(b, sizes)
}

#[tactic(auto, using(crate::proofs::Returns::walk_cases))]
pub fn walk_apart<'a>(
    b: &'a [u8],
    trees: u32,
    count: usize,
    root: usize,
    parts: &'a [u32],
    pair: &'a [u32],
    symbols: &'a [u32],
    walk: Walk,
    skip: bool,
) -> Step
    ensures { step_of result ≡ walk_step report_shape (report_reader_in b.now trees
        (apart_mode count root parts.now pair.now symbols.now))
        (call_of skip) (walk_of walk) }
{
    if !sized(trees, count, parts, pair, symbols) {
        return refuse(row::SIZE, 0, walk);
    }
    let tables = Tables {
        limits: stated(count, root, symbols.len()),
        parts,
        pair,
        symbols,
    };
    let buffer = Buffer {
        bytes: b,
        trees,
        tables,
    };
    walk_in(&buffer, walk, skip)
}
