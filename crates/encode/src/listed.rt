// The size and the bytes of a tree of a list, straight from its words: no tree is made between.
ghost use Rattle.std.specs.Prelude.{◌≡◌, ◌+◌, ◌<◌, ◌≤◌, length};
ghost use Rattle.format.specs.Verdict.{passed};
ghost use Rattle.format.specs.Word.{put};
ghost use Rattle.format.specs.WordList.{list_count, word_of, raw_from};
ghost use Rattle.format.specs.Write.{tree_bytes};
ghost use Rattle.pack.specs.Answer.{span_of};
ghost use Rattle.tree.specs.Listed.{open_span};
ghost use Rattle.encode.specs.Encode.{pack_tree};
ghost use Rattle.encode.specs.Listed.{char_size, tail_size};
ghost use Rattle.encode.specs.Ready.{span_size};

use crate::encode::{put_ident, put_literal, put_punct, put_subtree};
use crate::size::{ASCII, literal_size, small_span, small_symbol, subtree_size};
use tree::listed::{ident_at, literal_at, open_span, punct_at, sort_at, subtree_at};
use tree::raw::ChildrenBytes;
use tree::sort;
use width::TREE_WORDS;

// The bytes of a punct behind its span.
fn char_size(char: u32) -> usize
    ensures { (result ≡ char_size char) × (result ≤ 5) }
{
    if char < ASCII { 1 } else { 5 }
}

// The bytes of a punct or an ident behind its span.
fn tail_size(sort: u32, char: u32, symbol: u32) -> usize
    ensures { (result ≡ tail_size sort char symbol) × (result ≤ 5) }
{
    let one = char_size(char);
    let other = small_symbol(symbol);
    if sort == sort::PUNCT { one } else { other }
}

// The size of a punct or an ident: which of the two it is, is not branched on.
fn short_size(l: &[u32], n: usize, sort: u32, open_index: u32, symbol_index: u32) -> usize
    requires { n < list_count l.now }
    ensures { result ≡ span_size (span_of (open_span l.now n open_index)) +
        tail_size sort (word_of l.now n 1) symbol_index }
{
    let span = small_span(open_span(l, n, open_index));
    let tail = tail_size(sort, l[TREE_WORDS * n + 1], symbol_index);
    span + tail
}

// The bytes that tree n takes below the root, with these indices.
pub fn listed_size(
    l: &[u32],
    n: usize,
    open_index: u32,
    close_index: u32,
    symbol_index: u32,
    children: ChildrenBytes,
) -> usize
    requires { n < list_count l.now }
    ensures { result ≡ length (tree_bytes 1
        (raw_from open_index close_index symbol_index (word_of l.now n)) children.0) }
{
    match sort_at(l, n) {
        sort @ (sort::PUNCT | sort::IDENT) => short_size(l, n, sort, open_index, symbol_index),
        sort::LITERAL => literal_size(literal_at(l, n, open_index, symbol_index)),
        _ => subtree_size(subtree_at(l, n, open_index, close_index), children),
    }
}

// Writes tree n below the root, with these indices: it has passed every row.
pub fn put_listed(
    out: &mut [u8],
    at: usize,
    l: &[u32],
    n: usize,
    open_index: u32,
    close_index: u32,
    symbol_index: u32,
    children: ChildrenBytes,
)
    requires n_bound { n < list_count l.now }
    requires children_value { pack_tree out.old at 1 (raw_from open_index close_index symbol_index (word_of l.now n))
        children.0 ≡ passed }
    ensures { out.new ≡ put out.old at (tree_bytes 1
        (raw_from open_index close_index symbol_index (word_of l.now n)) children.0) }
{
    match sort_at(l, n) {
        sort::PUNCT => put_punct(out, at, punct_at(l, n, open_index)),
        sort::IDENT => put_ident(out, at, ident_at(l, n, open_index, symbol_index)),
        sort::LITERAL => put_literal(out, at, literal_at(l, n, open_index, symbol_index)),
        _ => put_subtree(out, at, subtree_at(l, n, open_index, close_index), children),
    }
}
