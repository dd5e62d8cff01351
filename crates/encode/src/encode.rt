// Writing of one tree: rows 2, 8 and 6 first, then its bytes.
ghost use Rattle.std.specs.Prelude.{◌≡◌, ◌&&◌, [], ◌∷◌, ◌+◌, ◌*◌, ◌-◌, ◌/◌, ◌%◌, ◌≤◌, ◌<◌, length, leb};
ghost use Rattle.format.specs.Verdict.{passed};
ghost use Rattle.format.specs.Word.{word_bytes, put};
ghost use Rattle.format.specs.Write.{join, byte, span_bytes, heavy_bytes, symbol_bytes, short_base, tree_bytes};
ghost use Rattle.format.specs.Write.{bytes000, bytes001, bytes010, bytes101};
ghost use Rattle.pack.specs.Answer.{span_of};
ghost use Rattle.tree.specs.Raw.{raw_of, punct_raw, literal_raw, subtree_raw};
ghost use Rattle.encode.specs.Ready.{span_size, symbol_size, distance_span, Within};
ghost use Rattle.encode.specs.Ready.{SpanReady, PunctReady, IdentReady, LiteralReady, SubtreeReady};
ghost use Rattle.encode.specs.Encode.{part_fits, symbol_fits, indices, pack_tree, TreePacked};

use crate::size::{ASCII, SubtreeForm, form_of, is_short, short_base, tree_size};
use pack::row::{self, Row};
use pack::span::{PackedSpan, encode_span_no_map};
use pack::symbol::encode_symbol;
use pack::unchecked::{put_byte, put_half, put_word};
use tree::fields::{is_raw_kind, subtree_fits, tree_fits};
use tree::raw::{ChildrenBytes, Descendants, RawIdent, RawLiteral, RawPunct, RawSubtree, RawTree};

// The bytes of the root.
pub const ROOT: usize = 33;

// ---- row 8

// Part and symbol indices below these can be packed.
const MOST_PARTS: u32 = 268435456;

const MOST_SYMBOLS: u32 = 536870912;

fn part_fits(span: PackedSpan) -> bool
    ensures { result ≡ part_fits (span_of span) }
{
    span.index < MOST_PARTS
}

fn leaf_fits(span: PackedSpan, symbol: u32) -> bool
    ensures { result ≡ (part_fits (span_of span) && symbol_fits symbol) }
{
    part_fits(span) && symbol < MOST_SYMBOLS
}

fn parts_fit(opening: PackedSpan, closing: PackedSpan) -> bool
    ensures { result ≡ (part_fits (span_of opening) && part_fits (span_of closing)) }
{
    part_fits(opening) && part_fits(closing)
}

// Whether the indices of a tree can be packed.
pub(crate) fn indices_fit(tree: RawTree) -> bool
    ensures { result ≡ indices (raw_of tree) }
{
    match tree {
        RawTree::Punct(p) => part_fits(p.span),
        RawTree::Ident(p) => leaf_fits(p.span, p.symbol),
        RawTree::Literal(p) => leaf_fits(p.span, p.symbol),
        RawTree::Subtree(p) => parts_fit(p.opening, p.closing),
    }
}

// ---- pieces, where they fit and there is room

// Answers the place behind the span.
fn put_span(out: &mut [u8], at: usize, span: PackedSpan, extra: u32) -> usize
    requires { (extra ≤ 3) × SpanReady (span_of span) × (at + span_size (span_of span) ≤ length out.old) }
    ensures { (result ≡ at + span_size (span_of span))
        × (out.new ≡ put out.old at (span_bytes extra (span_of span))) }
{
    let Ok(n) = encode_span_no_map(out, at, span, extra, false) else {
        return at;
    };
    at + n
}

fn put_heavy(out: &mut [u8], at: usize, span: PackedSpan)
    requires { SpanReady (span_of span) × (at + 12 ≤ length out.old) }
    ensures { out.new ≡ put out.old at (heavy_bytes 0 (span_of span)) }
{
    let _ = encode_span_no_map(out, at, span, 0, true);
}

fn put_symbol(out: &mut [u8], at: usize, tag: u32, index: u32)
    requires { (tag ≤ 1) × (index < 536870912) × (at + symbol_size index ≤ length out.old) }
    ensures { out.new ≡ put out.old at (symbol_bytes tag index) }
{
    let _ = encode_symbol(out, at, tag, index);
}

fn put_two(out: &mut [u8], at: usize, a: u32, b: u32)
    requires { (at + 2 ≤ length out.old) × (a < 256) × (b < 256) }
    ensures { out.new ≡ put out.old at (a ∷ b ∷ []) }
{
    put_byte(out, at, a);
    put_byte(out, at + 1, b);
}

fn put_three(out: &mut [u8], at: usize, a: u32, b: u32, c: u32)
    requires { (at + 3 ≤ length out.old) × (a < 256) × (b < 256) × (c < 256) }
    ensures { out.new ≡ put out.old at (a ∷ b ∷ c ∷ []) }
{
    put_two(out, at, a, b);
    put_byte(out, at + 2, c);
}

// A control byte and both counts, a byte each.
fn put_counts(out: &mut [u8], at: usize, control: u32, len: Descendants, children: ChildrenBytes)
    requires { (at + 3 ≤ length out.old) × (control < 256) × (len.0 < 256) × (children.0 < 256) }
    ensures { out.new ≡ put out.old at (control ∷ len.0 ∷ children.0 ∷ []) }
{
    put_three(out, at, control, len.0, children.0);
}

// ---- leaves, form by form

fn put_ascii(out: &mut [u8], at: usize, p: RawPunct)
    requires { PunctReady p × (p.char < 128) × (at + span_size (span_of p.span) + 1 ≤ length out.old) }
    ensures { out.new ≡ put out.old at
        (join (span_bytes (1 + 2 * (p.spacing / 2)) (span_of p.span) ∷ byte (2 * p.char + p.spacing % 2) ∷ [])) }
{
    let next = put_span(out, at, p.span, 1 + 2 * (p.spacing / 2));
    put_byte(out, next, 2 * p.char + p.spacing % 2);
}

fn put_other(out: &mut [u8], at: usize, p: RawPunct)
    requires { PunctReady p × (at + span_size (span_of p.span) + 5 ≤ length out.old) }
    ensures { out.new ≡ put out.old at
        (join (span_bytes 0 (span_of p.span) ∷ byte (6 + 8 * p.spacing) ∷ word_bytes p.char ∷ [])) }
{
    let next = put_span(out, at, p.span, 0);
    put_byte(out, next, 6 + 8 * p.spacing);
    put_word(out, next + 1, p.char);
}

pub(crate) fn put_ident(out: &mut [u8], at: usize, p: RawIdent)
    requires { IdentReady p × (at + span_size (span_of p.span) + symbol_size p.symbol ≤ length out.old) }
    ensures { out.new ≡ put out.old at
        (join (span_bytes 2 (span_of p.span) ∷ symbol_bytes p.raw p.symbol ∷ [])) }
{
    let next = put_span(out, at, p.span, 2);
    put_symbol(out, next, p.raw, p.symbol);
}

fn put_short(out: &mut [u8], at: usize, p: RawLiteral)
    requires { LiteralReady p × (p.suffix_len ≤ 15)
        × (at + span_size (span_of p.span) + 1 + symbol_size p.symbol ≤ length out.old) }
    ensures { out.new ≡ put out.old at
        (join (span_bytes 0 (span_of p.span) ∷ byte (short_base p.kind p.raw_count + 16 * p.suffix_len)
        ∷ symbol_bytes 0 p.symbol ∷ [])) }
{
    let base = short_base(p.kind, p.raw_count);
    let next = put_span(out, at, p.span, 0);
    put_byte(out, next, base + 16 * p.suffix_len);
    put_symbol(out, next + 1, 0, p.symbol);
}

fn put_raw(out: &mut [u8], at: usize, p: RawLiteral)
    requires { LiteralReady p × (at + span_size (span_of p.span) + 3 + symbol_size p.symbol ≤ length
        out.old) }
    ensures { out.new ≡ put out.old at
        (join (span_bytes 0 (span_of p.span) ∷ byte (7 + 8 * p.kind) ∷ byte p.raw_count ∷ byte p.suffix_len
        ∷ symbol_bytes 0 p.symbol ∷ [])) }
{
    let next = put_span(out, at, p.span, 0);
    put_three(out, next, 7 + 8 * p.kind, p.raw_count, p.suffix_len);
    put_symbol(out, next + 3, 0, p.symbol);
}

fn put_long(out: &mut [u8], at: usize, p: RawLiteral)
    requires { LiteralReady p × (at + span_size (span_of p.span) + 2 + symbol_size p.symbol ≤ length
        out.old) }
    ensures { out.new ≡ put out.old at
        (join (span_bytes 0 (span_of p.span) ∷ byte (7 + 8 * p.kind) ∷ byte p.suffix_len
        ∷ symbol_bytes 0 p.symbol ∷ [])) }
{
    let next = put_span(out, at, p.span, 0);
    put_two(out, next, 7 + 8 * p.kind, p.suffix_len);
    put_symbol(out, next + 2, 0, p.symbol);
}

// ---- subtrees, form by form

fn put_brackets(out: &mut [u8], at: usize, p: RawSubtree, children: ChildrenBytes)
    requires { SubtreeReady p × Within p children.0 2047 255
        × (at + span_size (distance_span p) + 3 ≤ length out.old) }
    ensures { out.new ≡ put out.old at
        (bytes000 (span_of p.opening) (span_of p.closing) p.len.0 p.kind children.0) }
{
    let distance = p.closing.start - p.opening.start;
    let span = PackedSpan {
        index: p.opening.index,
        start: p.opening.start,
        len: distance,
    };
    let next = put_span(out, at, span, 0);
    put_counts(
        out,
        next,
        8 * p.kind + 32 * (distance / 256),
        p.len,
        children,
    );
}

fn put_equal(out: &mut [u8], at: usize, p: RawSubtree, children: ChildrenBytes)
    requires { SubtreeReady p × Within p children.0 7 255
        × (at + span_size (span_of p.opening) + 3 ≤ length out.old) }
    ensures { out.new ≡ put out.old at
        (bytes001 (span_of p.opening) (span_of p.closing) p.len.0 p.kind children.0) }
{
    let distance = p.closing.start - p.opening.start;
    let next = put_span(out, at, p.opening, 0);
    put_counts(out, next, 1 + 8 * p.kind + 32 * distance, p.len, children);
}

fn put_two_parts(out: &mut [u8], at: usize, p: RawSubtree, children: ChildrenBytes)
    requires { SubtreeReady p × Within p children.0 255 4095 × (p.closing.index ≤ 127)
        × (at + span_size (span_of p.opening) + 5 ≤ length out.old) }
    ensures { out.new ≡ put out.old at
        (bytes010 (span_of p.opening) (span_of p.closing) p.len.0 p.kind children.0) }
{
    let distance = p.closing.start - p.opening.start;
    let next = put_span(out, at, p.opening, 0);
    put_three(
        out,
        next,
        2 + 8 * p.kind + 32 * (p.closing.index % 8),
        distance,
        p.len.0,
    );
    put_half(out, next + 3, 16 * children.0 + p.closing.index / 8);
}

// The close span and both counts: what stands behind the control byte of form 101.
fn put_close(out: &mut [u8], at: usize, span: PackedSpan, len: Descendants, children: ChildrenBytes)
    requires { SpanReady (span_of span) × (at + span_size (span_of span) + 8 ≤ length out.old) }
    ensures { out.new ≡ put out.old at
        (join (span_bytes 0 (span_of span) ∷ word_bytes len.0 ∷ word_bytes children.0 ∷ [])) }
{
    let next = put_span(out, at, span, 0);
    put_word(out, next, len.0);
    put_word(out, next + 4, children.0);
}

fn put_apart(out: &mut [u8], at: usize, p: RawSubtree, children: ChildrenBytes)
    requires { SubtreeReady p
        × (at + span_size (span_of p.opening) + 1 + span_size (span_of p.closing) + 8 ≤ length out.old) }
    ensures { out.new ≡ put out.old at
        (bytes101 (span_of p.opening) (span_of p.closing) p.len.0 p.kind children.0) }
{
    let next = put_span(out, at, p.opening, 0);
    put_byte(out, next, 5 + 8 * p.kind);
    put_close(out, next + 1, p.closing, p.len, children);
}

// The same for the root, whose spans can be changed in place since they have the largest form.
fn put_root_close(
    out: &mut [u8],
    at: usize,
    span: PackedSpan,
    len: Descendants,
    children: ChildrenBytes,
)
    requires { SpanReady (span_of span) × (at + 20 ≤ length out.old) }
    ensures { out.new ≡ put out.old at
        (join (heavy_bytes 0 (span_of span) ∷ word_bytes len.0 ∷ word_bytes children.0 ∷ [])) }
{
    put_heavy(out, at, span);
    put_word(out, at + 12, len.0);
    put_word(out, at + 16, children.0);
}

fn put_root(out: &mut [u8], at: usize, p: RawSubtree, children: ChildrenBytes)
    requires { SubtreeReady p × (at + 33 ≤ length out.old) }
    ensures { out.new ≡ put out.old at (tree_bytes 0 (subtree_raw p) children.0) }
{
    put_heavy(out, at, p.opening);
    put_byte(out, at + 12, 5 + 8 * p.kind);
    put_root_close(out, at + 13, p.closing, p.len, children);
}

// ---- the form that is chosen

pub(crate) fn put_punct(out: &mut [u8], at: usize, p: RawPunct)
    requires { PunctReady p × (at + length (tree_bytes 1 (punct_raw p) 0) ≤ length out.old) }
    ensures { out.new ≡ put out.old at (tree_bytes 1 (punct_raw p) 0) }
{
    if p.char < ASCII {
        put_ascii(out, at, p);
    } else {
        put_other(out, at, p);
    }
}

pub(crate) fn put_literal(out: &mut [u8], at: usize, p: RawLiteral)
    requires { LiteralReady p × (at + length (tree_bytes 1 (literal_raw p) 0) ≤ length out.old) }
    ensures { out.new ≡ put out.old at (tree_bytes 1 (literal_raw p) 0) }
{
    if is_short(p) {
        put_short(out, at, p);
    } else if is_raw_kind(p.kind) {
        put_raw(out, at, p);
    } else {
        put_long(out, at, p);
    }
}

pub(crate) fn put_subtree(out: &mut [u8], at: usize, p: RawSubtree, children: ChildrenBytes)
    requires { SubtreeReady p × (at + length (tree_bytes 1 (subtree_raw p) children.0) ≤ length out.old) }
    ensures { out.new ≡ put out.old at (tree_bytes 1 (subtree_raw p) children.0) }
{
    match form_of(p, children) {
        SubtreeForm::Brackets => put_brackets(out, at, p, children),
        SubtreeForm::Equal => put_equal(out, at, p, children),
        SubtreeForm::TwoParts => put_two_parts(out, at, p, children),
        SubtreeForm::Apart => put_apart(out, at, p, children),
    }
}

// ---- a tree

// Writes a tree that has passed every row.
fn put_tree(out: &mut [u8], at: usize, tree: RawTree, children: ChildrenBytes)
    requires { pack_tree out.old at 1 (raw_of tree) children.0 ≡ passed }
    ensures { out.new ≡ put out.old at (tree_bytes 1 (raw_of tree) children.0) }
{
    match tree {
        RawTree::Punct(p) => put_punct(out, at, p),
        RawTree::Ident(p) => put_ident(out, at, p),
        RawTree::Literal(p) => put_literal(out, at, p),
        RawTree::Subtree(p) => put_subtree(out, at, p, children),
    }
}

fn put_top(out: &mut [u8], at: usize, p: RawSubtree, children: ChildrenBytes)
    requires { pack_tree out.old at 0 (subtree_raw p) children.0 ≡ passed }
    ensures { out.new ≡ put out.old at (tree_bytes 0 (subtree_raw p) children.0) }
{
    put_root(out, at, p, children);
}

// Whether n bytes fit at a place: compared so that no sum can wrap.
fn has_room(len: usize, at: usize, n: usize) -> bool
    ensures { result ≡ leb (at + n) len }
{
    at <= len && n <= len - at
}

// Writes a tree below the root at a place, a subtree with the bytes of its children.
pub fn encode(
    out: &mut [u8],
    at: usize,
    tree: RawTree,
    children: ChildrenBytes,
) -> Result<usize, Row>
    ensures { TreePacked out.old at 1 (raw_of tree) children.0 result out.new }
{
    if !tree_fits(tree) {
        return Err(row::FIELD);
    }
    if !indices_fit(tree) {
        return Err(row::INDEX);
    }
    let n = tree_size(tree, children);
    if !has_room(out.len(), at, n) {
        return Err(row::ROOM);
    }
    put_tree(out, at, tree, children);
    Ok(n)
}

// Writes the root at a place.
pub fn encode_top_subtree(
    out: &mut [u8],
    at: usize,
    p: RawSubtree,
    children: ChildrenBytes,
) -> Result<usize, Row>
    ensures { TreePacked out.old at 0 (subtree_raw p) children.0 result out.new }
{
    if !subtree_fits(p) {
        return Err(row::FIELD);
    }
    if !parts_fit(p.opening, p.closing) {
        return Err(row::INDEX);
    }
    if !has_room(out.len(), at, ROOT) {
        return Err(row::ROOM);
    }
    put_top(out, at, p, children);
    Ok(ROOT)
}
