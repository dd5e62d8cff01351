// `preview`: what `set_token` would answer of outputs with room enough. Nothing but work words is written.
ghost use Rattle.std.specs.Prelude.{◌≤◌, length};
ghost use Rattle.format.specs.WordList.{list_count};
ghost use Rattle.format.specs.Unpack.{count_work};
ghost use Rattle.builder.specs.Given.{pushed};
ghost use Rattle.replace.specs.Previewed.{FreshFound, Previewed};

use crate::change::Change;
use crate::fresh::own_tables;
use crate::own::Own;
use crate::prepare::prepare;
use crate::report::Sizes;
use builder::range::leaf_words;
use tree::raw::place;
use tree::refusal::Refusal;
use tree::types::Leaf;
use width::{PART_WORDS, TREE_WORDS};
use writer::write::write_own;

// How many bytes the writer makes of a list over its tables, and how many entries these have. The writer is lent no
// room: it fills the sizes all the same, and the first is that of all trees. Not compiled into its caller, so that
// the writer's arrays get a frame of their own.
#[inline(never)]
fn fresh_sizes(own: &Own, counts: &mut [u32]) -> Sizes
    requires { count_work (list_count own.now.list.now) ≤ length counts.old }
    ensures { FreshFound own.now.list.now result counts.old counts.new }
{
    let mut out = [0u8; 0];
    let _ = write_own(own.list, own.parts, own.symbols, counts, &mut out);
    Sizes {
        bytes: place(counts[0]),
        parts: own.parts.len() / PART_WORDS,
        symbols: own.symbols.len(),
    }
}

// A leaf by its list words, of which row 2 is asked as they are.
pub fn preview_words(
    b: &[u8],
    trees: u32,
    parts: &[u32],
    symbols: &[u32],
    number: u32,
    leaf: &[u32; TREE_WORDS],
    list: &mut [u32],
    tables: &mut [u32],
    counts: &mut [u32],
) -> Result<Sizes, Refusal>
    ensures { Previewed b.now trees parts.now symbols.now number
        leaf.now
        list.old tables.old counts.old result
        list.new tables.new counts.new }
{
    let change = Change {
        b,
        trees,
        parts,
        symbols,
        number,
        leaf,
    };
    let made = prepare(&change, list, tables, counts)?;
    let end = TREE_WORDS * place(trees);
    let own = own_tables(&list[0..end], made, tables);
    Ok(fresh_sizes(&own, counts))
}

pub fn preview(
    b: &[u8],
    trees: u32,
    parts: &[u32],
    symbols: &[u32],
    number: u32,
    leaf: Leaf,
    list: &mut [u32],
    tables: &mut [u32],
    counts: &mut [u32],
) -> Result<Sizes, Refusal>
    ensures { Previewed b.now trees parts.now symbols.now number (pushed leaf)
        list.old tables.old counts.old result
        list.new tables.new counts.new }
{
    let words = leaf_words(leaf);
    preview_words(
        b, trees, parts, symbols, number, &words, list, tables, counts,
    )
}
