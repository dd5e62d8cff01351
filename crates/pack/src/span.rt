// Packing and reading of one span: one, two or three little-endian words.
ghost use Rattle.std.specs.Prelude.{◌≡◌, ◌+◌, ◌≤◌, ◌<◌, length, ltb, leb};
ghost use Rattle.format.specs.Span.{span_at};
ghost use Rattle.format.specs.Write.{span_bytes};
ghost use Rattle.format.specs.Pack.{span_form};
ghost use Rattle.pack.specs.Answer.{span_of, span_here, span_above, span_answer, decoded_answer, all_below};
ghost use Rattle.pack.specs.Packing.{words_bytes, Stored, SpanPacked};

use crate::rests::{
    are_none, first_word, fit_second_word, heavy_second, heavy_third, rests_of, second_word,
    taken_of,
};
use crate::row::{self, Row};
use crate::unchecked::{put_word, word_at};

// A span as it is packed: the index of its part, its start and its length.
#[derive(Clone, Copy)]
pub struct PackedSpan {
    pub index: u32,
    pub start: u32,
    pub len: u32,
}

// What one word takes of a span is modulo these,
pub const ONE_WORD: PackedSpan = PackedSpan {
    index: 16,
    start: 131072,
    len: 256,
};

// and two words modulo these: a span that is below them has such a form.
pub const TWO_WORDS: PackedSpan = PackedSpan {
    index: 32768,
    start: 134217728,
    len: 262144,
};

// Row 8: no form holds an index from here on.
pub const INDEX_END: u32 = 268435456;

// A span that was read, its extra bits, and the place behind it.
#[derive(Clone, Copy)]
pub struct SpanAt {
    pub span: PackedSpan,
    pub extra: u32,
    pub next: usize,
}

// The same, and whether a form of fewer bytes holds the span.
#[derive(Clone, Copy)]
pub struct DecodedSpan {
    pub span: PackedSpan,
    pub extra: u32,
    pub next: usize,
    pub loose: bool,
}

// The span of a first word and of what the other words add above its bits.
fn span_here(w: u32, above: PackedSpan, next: usize) -> SpanAt
    requires { (above.index < 16777216) × (above.start < 32768) × (above.len < 16777216) }
    ensures { result ≡ span_here w (span_above w (span_of above)) next }
{
    SpanAt {
        span: PackedSpan {
            index: w / 4 % ONE_WORD.index + ONE_WORD.index * above.index,
            start: w / 32768 + ONE_WORD.start * above.start,
            len: w / 64 % ONE_WORD.len + ONE_WORD.len * above.len,
        },
        extra: w % 4,
        next,
    }
}

// The span at a place, and the place behind it, or None where the buffer ends inside. What is loose is asked by itself
// (`is_loose`): a reader of trees that does not use the answer does not pay for it.
#[tactic(auto, using(crate::proofs::SpanReturns::span_at_cases))]
pub fn span_at(b: &[u8], at: usize) -> Option<SpanAt>
    ensures { result ≡ span_answer (span_at b.now at) }
{
    let left = b.len().saturating_sub(at);
    if left < 4 {
        return None;
    }
    let w = word_at(b, at);
    if w / 16384 % 2 == 0 {
        let above = PackedSpan {
            index: 0,
            start: 0,
            len: 0,
        };
        return Some(span_here(w, above, at + 4));
    }
    if left < 8 {
        return None;
    }
    let v = word_at(b, at + 4);
    if v % 2 == 0 {
        let above = PackedSpan {
            index: v / 2 % 2048,
            start: v / 4194304,
            len: v / 4096 % 1024,
        };
        return Some(span_here(w, above, at + 8));
    }
    if left < 12 {
        return None;
    }
    let u = word_at(b, at + 8);
    let above = PackedSpan {
        index: u % 16777216,
        start: v / 131072,
        len: u / 16777216 + 256 * (v / 2 % 65536),
    };
    Some(span_here(w, above, at + 12))
}

// Whether index, start and length are below the limits of a form.
pub fn is_below(span: PackedSpan, limits: PackedSpan) -> bool
    ensures { result ≡ all_below (span_of span) limits.index limits.start limits.len }
{
    span.index < limits.index && span.start < limits.start && span.len < limits.len
}

// The bytes that a span takes: the extra bits do not change their number.
#[tactic(auto, using(crate::proofs::Sizes::size_cases))]
pub fn span_size(span: PackedSpan, heavy: bool) -> usize
    ensures { result ≡ length (span_form heavy 0 (span_of span)) }
{
    if heavy {
        return 12;
    }
    if is_below(span, ONE_WORD) {
        return 4;
    }
    if is_below(span, TWO_WORDS) {
        return 8;
    }
    12
}

// Whether so many bytes are more than the span's packed form has.
#[tactic(auto, using(crate::proofs::SpanReturns::decode_span_cases))]
pub fn is_loose(span: PackedSpan, bytes: usize) -> bool
    ensures { result ≡ ltb (length (span_bytes 0 (span_of span))) bytes }
{
    // No form has fewer bytes than four.
    4 < bytes && span_size(span, false) < bytes
}

// The span at a place, the place behind it, and whether it is loose.
#[tactic(auto, using(crate::proofs::SpanReturns::decode_span_cases))]
pub fn decode_span(b: &[u8], at: usize) -> Option<DecodedSpan>
    ensures { result ≡ decoded_answer at (span_at b.now at) }
{
    let here = span_at(b, at)?;
    Some(DecodedSpan {
        span: here.span,
        extra: here.extra,
        next: here.next,
        loose: is_loose(here.span, here.next - at),
    })
}

// The words of a form, where there is room: the place is held against the last from which they fit, which takes less
// time here than what is left behind it.
#[tactic(auto, using(crate::proofs::PackReturns::put_words_cases))]
pub fn put_words<const N: usize>(out: &mut [u8], at: usize, words: &[u32; N]) -> Result<usize, Row>
    requires { N ≤ 3 }
    ensures { Stored out.old at (words_bytes words.now) result out.new }
{
    let bytes = 4 * N;
    if out.len() < bytes || out.len() - bytes < at {
        return Err(row::ROOM);
    }
    for (i, word) in words.iter().enumerate() {
        put_word(out, at + 4 * i, *word);
    }
    Ok(bytes)
}

// Packs a span that has passed rows 2 and 8. Each number is divided once, into what the first word takes and a rest;
// the rests choose the form and fill the other words. Where there is none, the first word takes the span as it is.
#[tactic(auto, using(crate::proofs::PackReturns::pack_rests_cases))]
fn pack_by_rests(
    out: &mut [u8],
    at: usize,
    span: PackedSpan,
    extra: u32,
    heavy: bool,
) -> Result<usize, Row>
    requires { (extra ≤ 3) × (span.index < 268435456) }
    ensures { Stored out.old at (span_form heavy extra (span_of span)) result out.new }
{
    let rests = rests_of(span);
    if !heavy {
        if are_none(rests) {
            return put_words(out, at, &[first_word(extra, 0, span)]);
        }
        if fit_second_word(rests) {
            let taken = taken_of(span, rests);
            return put_words(out, at, &[first_word(extra, 1, taken), second_word(rests)]);
        }
    }
    let taken = taken_of(span, rests);
    let words = [
        first_word(extra, 1, taken),
        heavy_second(rests),
        heavy_third(rests),
    ];
    put_words(out, at, &words)
}

// Row 2 of a span: start + length is at most 4,294,967,295.
pub fn range_fits(start: u32, len: u32) -> bool
    ensures { result ≡ leb (start + len) 4294967295 }
{
    len <= u32::MAX - start
}

// Packs a span at a place in its smallest form, or in the largest where that is forced.
#[tactic(auto, using(crate::proofs::PackReturns::encode_span_cases))]
pub fn encode_span_no_map(
    out: &mut [u8],
    at: usize,
    span: PackedSpan,
    extra: u32,
    heavy: bool,
) -> Result<usize, Row>
    ensures { SpanPacked out.old at heavy extra (span_of span) result out.new }
{
    if 3 < extra || !range_fits(span.start, span.len) {
        return Err(row::FIELD);
    }
    if INDEX_END <= span.index {
        return Err(row::INDEX);
    }
    pack_by_rests(out, at, span, extra, heavy)
}
