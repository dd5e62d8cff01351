// How many bytes a tree below the root takes, and the form that it is written in.
ghost use Rattle.std.specs.Prelude.{◌≡◌, ◌&&◌, ◌≤◌, length, ltb, leb};
ghost use Rattle.format.specs.Tree.{literal, subtree};
ghost use Rattle.format.specs.Write.{span_bytes, symbol_bytes, short_base, near, fits000, fits001, fits010, tree_bytes};
ghost use Rattle.pack.specs.Answer.{span_of};
ghost use Rattle.tree.specs.Raw.{raw_of, punct_raw, ident_raw, literal_raw, subtree_raw};
ghost use Rattle.encode.specs.Encode.{subtree_form};

use pack::span::{PackedSpan, span_size};
use pack::symbol::symbol_size;
use tree::fields::is_raw_kind;
use tree::raw::{ChildrenBytes, Descendants, RawIdent, RawLiteral, RawPunct, RawSubtree, RawTree};

// A character below this is ASCII.
pub const ASCII: u32 = 128;

// The forms of a subtree below the root, in the order in which they are tried.
#[derive(Clone, Copy)]
pub enum SubtreeForm {
    // 000: both delimiters have length 1 and are of one part.
    Brackets,
    // 001: they are of one part, equally long and at most 7 apart.
    Equal,
    // 010: the close delimiter has a part of its own.
    TwoParts,
    // 101: the close span is written out.
    Apart,
}

// Whether the close span starts at the open one or at most `most` after it.
fn is_near(opening: PackedSpan, closing: PackedSpan, most: u32) -> bool
    ensures { result ≡ near (span_of opening) (span_of closing) most }
{
    opening.start <= closing.start && closing.start - opening.start <= most
}

// Whether the descendants fit a byte, and their bytes a limit.
fn is_few(len: Descendants, children: ChildrenBytes, most: u32) -> bool
    ensures { result ≡ (leb len.0 255 && leb children.0 most) }
{
    len.0 <= 255 && children.0 <= most
}

fn fits_brackets(p: RawSubtree, children: ChildrenBytes) -> bool
    ensures { result ≡ fits000 (span_of p.opening) (span_of p.closing) p.len.0 children.0 }
{
    p.opening.index == p.closing.index
        && is_few(p.len, children, 255)
        && p.opening.len == 1
        && p.closing.len == 1
        && is_near(p.opening, p.closing, 2047)
}

fn fits_equal(p: RawSubtree, children: ChildrenBytes) -> bool
    ensures { result ≡ fits001 (span_of p.opening) (span_of p.closing) p.len.0 children.0 }
{
    p.opening.index == p.closing.index
        && is_few(p.len, children, 255)
        && p.opening.len == p.closing.len
        && is_near(p.opening, p.closing, 7)
}

fn fits_two_parts(p: RawSubtree, children: ChildrenBytes) -> bool
    ensures { result ≡ fits010 (span_of p.opening) (span_of p.closing) p.len.0 children.0 }
{
    is_few(p.len, children, 4095)
        && p.opening.len == p.closing.len
        && is_near(p.opening, p.closing, 255)
        && p.closing.index <= 127
}

pub(crate) fn form_of(p: RawSubtree, children: ChildrenBytes) -> SubtreeForm
    ensures { result ≡ subtree_form (span_of p.opening) (span_of p.closing) p.len.0 children.0 }
{
    if fits_brackets(p, children) {
        SubtreeForm::Brackets
    } else if fits_equal(p, children) {
        SubtreeForm::Equal
    } else if fits_two_parts(p, children) {
        SubtreeForm::TwoParts
    } else {
        SubtreeForm::Apart
    }
}

// The control base of the four literals that have a short form, 0 for any other.
pub(crate) fn short_base(kind: u32, raw_count: u32) -> u32
    ensures { (result ≡ short_base kind raw_count) × (result ≤ 12) }
{
    match (kind, raw_count) {
        (4, _) => 3,
        (2, _) => 12,
        (5, 0) => 4,
        (5, 1) => 11,
        _ => 0,
    }
}

// Whether the short form holds the literal.
pub(crate) fn is_short(p: RawLiteral) -> bool
    ensures { result ≡ (ltb 0 (short_base p.kind p.raw_count) && leb p.suffix_len 15) }
{
    0 < short_base(p.kind, p.raw_count) && p.suffix_len <= 15
}

// The size of a span in its smallest form, with its bound.
pub(crate) fn small_span(span: PackedSpan) -> usize
    ensures { (result ≡ length (span_bytes 0 (span_of span))) × (result ≤ 12) }
{
    span_size(span, false)
}

pub(crate) fn small_symbol(index: u32) -> usize
    ensures { (result ≡ length (symbol_bytes 0 index)) × (result ≤ 4) }
{
    symbol_size(index)
}

fn punct_size(p: RawPunct) -> usize
    ensures { result ≡ length (tree_bytes 1 (punct_raw p) 0) }
{
    let span = small_span(p.span);
    if p.char < ASCII { span + 1 } else { span + 5 }
}

fn ident_size(p: RawIdent) -> usize
    ensures { result ≡ length (tree_bytes 1 (ident_raw p) 0) }
{
    let span = small_span(p.span);
    span + small_symbol(p.symbol)
}

pub(crate) fn literal_size(p: RawLiteral) -> usize
    ensures { result ≡ length (tree_bytes 1 (literal_raw p) 0) }
{
    let span = small_span(p.span);
    let symbol = small_symbol(p.symbol);
    if is_short(p) {
        span + 1 + symbol
    } else if is_raw_kind(p.kind) {
        span + 3 + symbol
    } else {
        span + 2 + symbol
    }
}

pub(crate) fn subtree_size(p: RawSubtree, children: ChildrenBytes) -> usize
    ensures { result ≡ length (tree_bytes 1 (subtree_raw p) children.0) }
{
    match form_of(p, children) {
        // The distance stands for the length.
        SubtreeForm::Brackets => {
            let span = small_span(PackedSpan {
                index: p.opening.index,
                start: p.opening.start,
                len: p.closing.start - p.opening.start,
            });
            span + 3
        }
        SubtreeForm::Equal => {
            let span = small_span(p.opening);
            span + 3
        }
        SubtreeForm::TwoParts => {
            let span = small_span(p.opening);
            span + 5
        }
        SubtreeForm::Apart => {
            let opening = small_span(p.opening);
            let closing = small_span(p.closing);
            opening + 1 + closing + 8
        }
    }
}

// The bytes that a tree below the root takes, a subtree's by the bytes of its children.
pub(crate) fn tree_size(tree: RawTree, children: ChildrenBytes) -> usize
    ensures { result ≡ length (tree_bytes 1 (raw_of tree) children.0) }
{
    match tree {
        RawTree::Punct(p) => punct_size(p),
        RawTree::Ident(p) => ident_size(p),
        RawTree::Literal(p) => literal_size(p),
        RawTree::Subtree(p) => subtree_size(p, children),
    }
}
