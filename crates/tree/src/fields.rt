// Row 2 for one tree with indices: whether its fields are in range.
#![tactic(auto, unfolding(crate::specs::Raw::raw_of))]

ghost use Rattle.std.specs.Prelude.{◌≡◌, leb, eqb, if◌then◌else◌};
ghost use Rattle.format.specs.Fields.{span_fits, is_scalar, fields};
ghost use Rattle.format.specs.Tree.{is_raw_kind};
ghost use Rattle.pack.specs.Answer.{span_of};
ghost use Rattle.tree.specs.Raw.{raw_of, punct_raw, ident_raw, literal_raw, subtree_raw};

use crate::raw::{RawIdent, RawLiteral, RawPunct, RawSubtree, RawTree};
use pack::span::{PackedSpan, range_fits};

fn span_fits(span: PackedSpan) -> bool
    ensures { result ≡ span_fits (span_of span) }
{
    range_fits(span.start, span.len)
}

// A scalar value of Unicode.
pub fn is_scalar(c: u32) -> bool
    ensures { result ≡ is_scalar c }
{
    c <= 0xD7FF || 0xE000 <= c && c <= 0x10FFFF
}

// The kinds StrRaw, ByteStrRaw and CStrRaw.
pub fn is_raw_kind(kind: u32) -> bool
    ensures { result ≡ is_raw_kind kind }
{
    kind == 5 || kind == 7 || kind == 9
}

fn punct_fits(p: RawPunct) -> bool
    ensures { result ≡ fields (punct_raw p) }
{
    span_fits(p.span) && is_scalar(p.char) && p.spacing <= 2
}

fn ident_fits(p: RawIdent) -> bool
    ensures { result ≡ fields (ident_raw p) }
{
    span_fits(p.span) && p.raw <= 1
}

pub(crate) fn raw_count_fits(kind: u32, raw_count: u32) -> bool
    ensures { result ≡ (if is_raw_kind kind then leb raw_count 255 else eqb raw_count 0) }
{
    if is_raw_kind(kind) {
        raw_count <= 255
    } else {
        raw_count == 0
    }
}

fn literal_fits(p: RawLiteral) -> bool
    ensures { result ≡ fields (literal_raw p) }
{
    span_fits(p.span) && p.kind <= 10 && raw_count_fits(p.kind, p.raw_count) && p.suffix_len <= 255
}

pub fn subtree_fits(p: RawSubtree) -> bool
    ensures { result ≡ fields (subtree_raw p) }
{
    span_fits(p.opening) && span_fits(p.closing) && p.kind <= 3
}

// Whether all fields of a tree are in range.
pub fn tree_fits(tree: RawTree) -> bool
    ensures { result ≡ fields (raw_of tree) }
{
    match tree {
        RawTree::Punct(p) => punct_fits(p),
        RawTree::Ident(p) => ident_fits(p),
        RawTree::Literal(p) => literal_fits(p),
        RawTree::Subtree(p) => subtree_fits(p),
    }
}
