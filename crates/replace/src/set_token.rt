// `set_token`: tree number and new leaf in, new buffer and new tables out.
ghost use Rattle.builder.specs.Given.{pushed};
ghost use Rattle.replace.specs.Replaced.{Replaced};

use crate::change::Change;
use crate::fresh::{own_tables, put_fresh};
use crate::prepare::prepare;
use crate::report::Sizes;
use builder::range::leaf_words;
use tree::raw::place;
use tree::refusal::Refusal;
use tree::types::Leaf;
use width::TREE_WORDS;

// A leaf by its list words, of which row 2 is asked as they are.
pub fn set_token_words(
    b: &[u8],
    trees: u32,
    parts: &[u32],
    symbols: &[u32],
    number: u32,
    leaf: &[u32; TREE_WORDS],
    list: &mut [u32],
    tables: &mut [u32],
    counts: &mut [u32],
    out: &mut [u8],
    out_parts: &mut [u32],
    out_symbols: &mut [u32],
) -> Result<Sizes, Refusal>
    ensures { Replaced b.now trees parts.now symbols.now number
        leaf.now
        list.old tables.old counts.old
        out.old out_parts.old out_symbols.old result
        list.new tables.new counts.new
        out.new out_parts.new out_symbols.new }
{
    let change = Change {
        b,
        trees,
        parts,
        symbols,
        number,
        leaf,
    };
    let made = prepare(&change, list, tables, counts)?;
    let end = TREE_WORDS * place(trees);
    let own = own_tables(&list[0..end], made, tables);
    put_fresh(&own, counts, out, out_parts, out_symbols)
}

pub fn set_token(
    b: &[u8],
    trees: u32,
    parts: &[u32],
    symbols: &[u32],
    number: u32,
    leaf: Leaf,
    list: &mut [u32],
    tables: &mut [u32],
    counts: &mut [u32],
    out: &mut [u8],
    out_parts: &mut [u32],
    out_symbols: &mut [u32],
) -> Result<Sizes, Refusal>
    ensures { Replaced b.now trees parts.now symbols.now number (pushed leaf)
        list.old tables.old counts.old
        out.old out_parts.old out_symbols.old result
        list.new tables.new counts.new
        out.new out_parts.new out_symbols.new }
{
    let words = leaf_words(leaf);
    set_token_words(
        b,
        trees,
        parts,
        symbols,
        number,
        &words,
        list,
        tables,
        counts,
        out,
        out_parts,
        out_symbols,
    )
}
