// One tree of a list that holds it, as a value of the sort that its first word says.
ghost use Rattle.std.specs.Prelude.{◌≡◌, ◌+◌, ◌<◌, ◌≤◌};
ghost use Rattle.format.specs.Width.{span_size, tree_size};
ghost use Rattle.format.specs.Part.{span_from, indexed};
ghost use Rattle.format.specs.WordList.{list_count, word_of};
ghost use Rattle.pack.specs.Answer.{packed_of};
ghost use Rattle.tree.specs.Listed.{open_span, punct_at, ident_at, literal_at, subtree_at};

use crate::raw::{Descendants, RawIdent, RawLiteral, RawPunct, RawSubtree};
use crate::sort::Sort;
use pack::span::PackedSpan;
use width::{CLOSE_AT, OPEN_AT, PART_WORDS, TREE_WORDS};

// Word 0.
pub fn sort_at(l: &[u32], n: usize) -> Sort
    requires { n < list_count l.now }
    ensures { result ≡ word_of l.now n 0 }
{
    l[TREE_WORDS * n]
}

// The span whose file is word j, with the index of its part.
fn span_at(l: &[u32], n: usize, j: usize, index: u32) -> PackedSpan
    requires { (n < list_count l.now) × (j + span_size ≤ tree_size) }
    ensures { result ≡ packed_of (indexed index (span_from (word_of l.now n) j)) }
{
    let at = TREE_WORDS * n + j + PART_WORDS;
    PackedSpan {
        index,
        start: l[at],
        len: l[at + 1],
    }
}

// The span, or the opening one.
pub fn open_span(l: &[u32], n: usize, index: u32) -> PackedSpan
    requires { n < list_count l.now }
    ensures { result ≡ open_span l.now n index }
{
    span_at(l, n, OPEN_AT, index)
}

pub fn punct_at(l: &[u32], n: usize, index: u32) -> RawPunct
    requires { n < list_count l.now }
    ensures { result ≡ punct_at l.now n index }
{
    RawPunct {
        span: open_span(l, n, index),
        char: l[TREE_WORDS * n + 1],
        spacing: l[TREE_WORDS * n + 2],
    }
}

pub fn ident_at(l: &[u32], n: usize, index: u32, symbol: u32) -> RawIdent
    requires { n < list_count l.now }
    ensures { result ≡ ident_at l.now n index symbol }
{
    RawIdent {
        span: open_span(l, n, index),
        symbol,
        raw: l[TREE_WORDS * n + 2],
    }
}

pub fn literal_at(l: &[u32], n: usize, index: u32, symbol: u32) -> RawLiteral
    requires { n < list_count l.now }
    ensures { result ≡ literal_at l.now n index symbol }
{
    let second = l[TREE_WORDS * n + 2];
    RawLiteral {
        span: open_span(l, n, index),
        symbol,
        kind: second % 256,
        raw_count: second / 256 % 256,
        suffix_len: second / 65536,
    }
}

pub fn subtree_at(l: &[u32], n: usize, open_index: u32, close_index: u32) -> RawSubtree
    requires { n < list_count l.now }
    ensures { result ≡ subtree_at l.now n open_index close_index }
{
    RawSubtree {
        opening: open_span(l, n, open_index),
        closing: span_at(l, n, CLOSE_AT, close_index),
        len: Descendants(l[TREE_WORDS * n + 1]),
        kind: l[TREE_WORDS * n + 2],
    }
}
