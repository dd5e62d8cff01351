// Root rewriting: the root's kind, or its two spans, in a buffer that passes the check; nothing else changes.
#![tactic(auto)]

ghost use Rattle.std.specs.Prelude.{◌≡◌, ◌&&◌, ◌+◌, ◌*◌, ◌≤◌, ◌<◌, ◌++◌, length};
ghost use Rattle.format.specs.Width.{part_size};
ghost use Rattle.format.specs.Part.{part_words, indexed};
ghost use Rattle.format.specs.Word.{put};
ghost use Rattle.format.specs.Write.{heavy_bytes};
ghost use Rattle.format.specs.Root.{range_fits, new_kind, new_spans};
ghost use Rattle.tree.specs.Types.{words_of};
ghost use Rattle.root.specs.Rewrite.{KindSet, Storable, SpansJudged, SpansSet};

use checker::check::{check_buffer, refused};
use pack::row;
use pack::span::{PackedSpan, encode_span_no_map, range_fits};
use pack::unchecked::{byte_at, put_byte};
use tree::refusal::Refusal;
use tree::types::Span;
use width::PART_WORDS;

// The control byte of the root stands behind its open span, the close span behind that.
const CONTROL: usize = 12;

const CLOSE: usize = 13;

// The words of the last two parts, which are the root's.
const ROOT_WORDS: usize = 2 * PART_WORDS;

// ---- the kind

// Bits 3 and up of the control byte.
fn put_kind(b: &mut [u8], kind: u32)
    requires { (33 ≤ length b.old) × (kind ≤ 3) }
    ensures { b.new ≡ new_kind b.old kind }
{
    let control = byte_at(b, CONTROL);
    put_byte(b, CONTROL, control % 8 + 8 * kind);
}

pub fn set_top_subtree_delimiter_kind(
    b: &mut [u8],
    trees: u32,
    parts: &[u32],
    symbols: &[u32],
    kind: u32,
) -> Result<(), Refusal>
    ensures { KindSet b.old trees parts.now symbols.now kind
        result b.new }
{
    check_buffer(b, trees, parts, symbols)?;
    if 3 < kind {
        return refused(row::FIELD, 0);
    }
    put_kind(b, kind);
    Ok(())
}

// ---- the spans

// A span of the root is in the largest form, whatever it holds.
fn put_span(b: &mut [u8], at: usize, index: u32, span: Span)
    requires { (span.start + span.len ≤ 4294967295) × (index < 268435456) × (at + 12 ≤ length b.old) }
    ensures { b.new ≡ put b.old at (heavy_bytes 0 (indexed index (words_of span))) }
{
    let packed = PackedSpan {
        index,
        start: span.start,
        len: span.len,
    };
    let _ = encode_span_no_map(b, at, packed, 0, true);
}

// The root's open part has this index, its close part the next.
fn put_spans(b: &mut [u8], root: u32, opening: Span, closing: Span)
    requires { Storable (length b.old) root opening closing }
    ensures { b.new ≡ new_spans b.old root (words_of opening) (words_of closing) }
{
    put_span(b, 0, root, opening);
    put_span(b, CLOSE, root + 1, closing);
}

fn put_part(parts: &mut [u32], at: usize, span: Span)
    requires { at + part_size ≤ length parts.old }
    ensures { parts.new ≡ put parts.old at (part_words (words_of span).part) }
{
    parts[at] = span.file;
    parts[at + 1] = span.ast_id;
    parts[at + 2] = span.context;
}

// The root's two parts, from a place of a run on.
fn put_pair(run: &mut [u32], at: usize, opening: Span, closing: Span)
    requires { at + 2 * part_size ≤ length run.old }
    ensures { run.new ≡ put run.old at
        (part_words (words_of opening).part ++ part_words (words_of closing).part) }
{
    put_part(run, at, opening);
    put_part(run, at + PART_WORDS, closing);
}

fn both_fit(opening: Span, closing: Span) -> bool
    ensures { result ≡ (range_fits (words_of opening) && range_fits (words_of closing)) }
{
    range_fits(opening.start, opening.len) && range_fits(closing.start, closing.len)
}

// The check's refusal, or row 2 of the spans.
fn spans_verdict(
    b: &[u8],
    trees: u32,
    parts: &[u32],
    symbols: &[u32],
    opening: Span,
    closing: Span,
) -> Result<(), Refusal>
    ensures { SpansJudged b.now trees parts.now symbols.now opening closing
        result }
{
    check_buffer(b, trees, parts, symbols)?;
    if !both_fit(opening, closing) {
        return refused(row::FIELD, 0);
    }
    Ok(())
}

pub fn set_top_subtree_delimiter_span(
    b: &mut [u8],
    trees: u32,
    parts: &mut [u32],
    symbols: &[u32],
    opening: Span,
    closing: Span,
) -> Result<(), Refusal>
    ensures { SpansSet b.old trees parts.old symbols.now opening closing
        result b.new parts.new }
{
    spans_verdict(b, trees, parts, symbols, opening, closing)?;
    put_spans(b, (parts.len() / PART_WORDS - 2) as u32, opening, closing);
    put_pair(parts, parts.len() - ROOT_WORDS, opening, closing);
    Ok(())
}
