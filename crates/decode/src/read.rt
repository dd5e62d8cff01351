// One tree at a place of a buffer, in whatever form its bytes say: its bytes first, then its fields.
#![tactic(auto, using(pack::proofs::Use::read_cases, tree::proofs::RawAgain::tree_again), unfolding(tree::specs::Raw::raw_answer, tree::specs::Raw::raw_of, tree::specs::Raw::in_range, format::specs::Tree::controlled, format::specs::Tree::tree_at, format::specs::Tree::after_span))]

ghost use Rattle.std.specs.Prelude.{◌≡◌, ◌+◌, ◌*◌, ◌/◌, ◌%◌, ◌≤◌, ◌<◌, length};
ghost use Rattle.format.specs.Reader.{got};
ghost use Rattle.format.specs.Span.{span_at, symbol_at};
ghost use Rattle.format.specs.Tree.{punct, literal, subtree, ident_of, literal_of, bits_agree, moved, short_kind, short_raw};
ghost use Rattle.format.specs.Tree.{form000, form001, form010, closed101, form110, form_short, form111};
ghost use Rattle.format.specs.Tree.{controlled, tree_at};
ghost use Rattle.pack.specs.Answer.{span_of};
ghost use Rattle.tree.specs.Raw.{raw_of, raw_answer, in_range};

use pack::row;
use pack::row::Row;
use pack::span::{PackedSpan, span_at};
use pack::symbol::decode_symbol;
use pack::unchecked::{byte_at, half_at, word_at};
use tree::fields::{is_raw_kind, tree_fits};
use tree::raw::{
    At, ChildrenBytes, Descendants, RawAt, RawIdent, RawLiteral, RawPunct, RawSubtree, RawTree,
};

// A tree all of whose bytes are there.
fn in_range(tree: RawTree, next: usize, children: ChildrenBytes) -> Result<RawAt, Row>
    ensures { result ≡ raw_answer (in_range (got (raw_of tree) next children.0)) }
{
    if !tree_fits(tree) {
        return Err(row::FIELD);
    }
    Ok(At {
        tree,
        next,
        children,
    })
}

// ---- the forms, by the control byte that stands at `at`

// A subtree whose close span has the open one's length and stands `distance` on.
// A start that passes the range is found before the sum is made.
fn subtree_on(
    opening: PackedSpan,
    index: u32,
    distance: u32,
    len: Descendants,
    kind: u32,
    next: usize,
    children: ChildrenBytes,
) -> Result<RawAt, Row>
    ensures { result ≡ raw_answer (in_range (got
        (subtree (span_of opening) (moved (span_of opening) index distance) len.0 kind)
        next children.0)) }
{
    if 4294967295 - opening.start < distance {
        return Err(row::FIELD);
    }
    let closing = PackedSpan {
        index,
        start: opening.start + distance,
        len: opening.len,
    };
    let tree = RawSubtree {
        opening,
        closing,
        len,
        kind,
    };
    in_range(RawTree::Subtree(tree), next, children)
}

// Whether the control byte of a 000 repeats the upper bits of the stored length.
fn bits_agree(span: PackedSpan, control: u32) -> bool
    ensures { result ≡ bits_agree (span_of span) control }
{
    control / 32 == span.len / 256
}

// Both lengths are 1, and the stored length is the distance.
fn form_000(b: &[u8], at: usize, control: u32, span: PackedSpan) -> Result<RawAt, Row>
    requires { (at + 1 ≤ length b.now) × (control < 256) }
    ensures { result ≡ raw_answer (in_range (form000 b.now (span_of span) at control)) }
{
    if b.len() - at < 3 {
        return Err(row::SHORT);
    }
    if !bits_agree(span, control) {
        return Err(row::FIELD);
    }
    let count = byte_at(b, at + 1);
    let bytes = byte_at(b, at + 2);
    let opening = PackedSpan {
        index: span.index,
        start: span.start,
        len: 1,
    };
    subtree_on(
        opening,
        span.index,
        span.len,
        Descendants(count),
        control / 8 % 4,
        at + 3,
        ChildrenBytes(bytes),
    )
}

fn form_001(b: &[u8], at: usize, control: u32, span: PackedSpan) -> Result<RawAt, Row>
    requires { (at + 1 ≤ length b.now) × (control < 256) }
    ensures { result ≡ raw_answer (in_range (form001 b.now (span_of span) at control)) }
{
    if b.len() - at < 3 {
        return Err(row::SHORT);
    }
    let count = byte_at(b, at + 1);
    let bytes = byte_at(b, at + 2);
    subtree_on(
        span,
        span.index,
        control / 32,
        Descendants(count),
        control / 8 % 4,
        at + 3,
        ChildrenBytes(bytes),
    )
}

fn form_010(b: &[u8], at: usize, control: u32, span: PackedSpan) -> Result<RawAt, Row>
    requires { (at + 1 ≤ length b.now) × (control < 256) }
    ensures { result ≡ raw_answer (in_range (form010 b.now (span_of span) at control)) }
{
    if b.len() - at < 5 {
        return Err(row::SHORT);
    }
    let distance = byte_at(b, at + 1);
    let count = byte_at(b, at + 2);
    let packed = half_at(b, at + 3);
    subtree_on(
        span,
        control / 32 + 8 * (packed % 16),
        distance,
        Descendants(count),
        control / 8 % 4,
        at + 5,
        ChildrenBytes(packed / 16),
    )
}

// The only form with a close span of its own, and the root's.
fn form_101(b: &[u8], at: usize, control: u32, span: PackedSpan) -> Result<RawAt, Row>
    requires { (at + 1 ≤ length b.now) × (control < 256) }
    ensures { result ≡ raw_answer (in_range
        (closed101 b.now (span_of span) control (span_at b.now (at + 1)))) }
{
    let close = span_at(b, at + 1).ok_or(row::SHORT)?;
    let next = close.next;
    if b.len() - next < 8 {
        return Err(row::SHORT);
    }
    let count = word_at(b, next);
    let bytes = word_at(b, next + 4);
    let closing = close.span;
    let tree = RawSubtree {
        opening: span,
        closing,
        len: Descendants(count),
        kind: control / 8,
    };
    in_range(RawTree::Subtree(tree), next + 8, ChildrenBytes(bytes))
}

fn form_110(b: &[u8], at: usize, control: u32, span: PackedSpan) -> Result<RawAt, Row>
    requires { (at + 1 ≤ length b.now) × (control < 256) }
    ensures { result ≡ raw_answer (in_range (form110 b.now (span_of span) at control)) }
{
    if b.len() - at < 5 {
        return Err(row::SHORT);
    }
    let char = word_at(b, at + 1);
    let tree = RawPunct {
        span,
        char,
        spacing: control / 8,
    };
    in_range(RawTree::Punct(tree), at + 5, ChildrenBytes(0))
}

// A literal whose symbol stands at a place. Its tag bit is not looked at.
fn literal_at(
    b: &[u8],
    at: usize,
    span: PackedSpan,
    kind: u32,
    raw_count: u32,
    suffix_len: u32,
) -> Result<RawAt, Row>
    ensures { result ≡ raw_answer (in_range
        (literal_of (span_of span) kind raw_count suffix_len (symbol_at b.now at))) }
{
    let symbol = decode_symbol(b, at).ok_or(row::SHORT)?;
    let tree = RawLiteral {
        span,
        symbol: symbol.index,
        kind,
        raw_count,
        suffix_len,
    };
    in_range(RawTree::Literal(tree), symbol.next, ChildrenBytes(0))
}

fn short_kind(low: u32) -> u32
    ensures { result ≡ short_kind low }
{
    match low {
        3 => 4,
        12 => 2,
        _ => 5,
    }
}

fn short_raw_count(low: u32) -> u32
    ensures { result ≡ short_raw low }
{
    match low {
        11 => 1,
        _ => 0,
    }
}

// Str, StrRaw(0), StrRaw(1) and Integer, by the low four bits.
fn form_short(b: &[u8], at: usize, control: u32, span: PackedSpan) -> Result<RawAt, Row>
    requires { (at + 1 ≤ length b.now) × (control < 256) }
    ensures { result ≡ raw_answer (in_range (form_short b.now (span_of span) at control)) }
{
    let kind = short_kind(control % 16);
    let raw_count = short_raw_count(control % 16);
    literal_at(b, at + 1, span, kind, raw_count, control / 16)
}

// A kind above 10 is refused before a further byte is asked for.
fn form_111(b: &[u8], at: usize, control: u32, span: PackedSpan) -> Result<RawAt, Row>
    requires { (at + 1 ≤ length b.now) × (control < 256) }
    ensures { result ≡ raw_answer (in_range (form111 b.now (span_of span) at control)) }
{
    let kind = control / 8;
    if 10 < kind {
        return Err(row::FIELD);
    }
    if b.len() - at < 2 {
        return Err(row::SHORT);
    }
    let first = byte_at(b, at + 1);
    if !is_raw_kind(kind) {
        return literal_at(b, at + 2, span, kind, 0, first);
    }
    if b.len() - at < 3 {
        return Err(row::SHORT);
    }
    let second = byte_at(b, at + 2);
    literal_at(b, at + 3, span, kind, first, second)
}

fn control_at(b: &[u8], at: usize, control: u32, span: PackedSpan) -> Result<RawAt, Row>
    requires { (at + 1 ≤ length b.now) × (control < 256) }
    ensures { result ≡ raw_answer (in_range (controlled b.now (span_of span) at control)) }
{
    let low = control % 8;
    match low {
        0 => form_000(b, at, control, span),
        1 => form_001(b, at, control, span),
        2 => form_010(b, at, control, span),
        5 => form_101(b, at, control, span),
        6 => form_110(b, at, control, span),
        7 => form_111(b, at, control, span),
        _ => form_short(b, at, control, span),
    }
}

fn ascii_punct(span: PackedSpan, extra: u32, x: u32, next: usize) -> Result<RawAt, Row>
    ensures { result ≡ raw_answer (in_range (got (punct (span_of span) (x / 2) (x % 2 + 2 * (extra / 2))) next 0)) }
{
    let tree = RawPunct {
        span,
        char: x / 2,
        spacing: x % 2 + 2 * (extra / 2),
    };
    in_range(RawTree::Punct(tree), next, ChildrenBytes(0))
}

fn ident_at(b: &[u8], at: usize, span: PackedSpan) -> Result<RawAt, Row>
    ensures { result ≡ raw_answer (in_range (ident_of (span_of span) (symbol_at b.now at))) }
{
    let symbol = decode_symbol(b, at).ok_or(row::SHORT)?;
    let tree = RawIdent {
        span,
        symbol: symbol.index,
        raw: symbol.tag,
    };
    in_range(RawTree::Ident(tree), symbol.next, ChildrenBytes(0))
}

// The tree at a place, with its fields in range, or 7 or 2.
pub(crate) fn raw_at(b: &[u8], at: usize) -> Result<RawAt, Row>
    ensures { result ≡ raw_answer (in_range (tree_at b.now at)) }
{
    let head = span_at(b, at).ok_or(row::SHORT)?;
    let next = head.next;
    if b.len() - next < 1 {
        return Err(row::SHORT);
    }
    let x = byte_at(b, next);
    if head.extra % 2 == 1 {
        return ascii_punct(head.span, head.extra, x, next + 1);
    }
    if head.extra / 2 == 1 {
        return ident_at(b, next, head.span);
    }
    control_at(b, next, x, head.span)
}
