// The span packer that holds the three numbers against the limits of a form first and packs them then. It is the
// reference for `encode_span_no_map`, with which it shares the contract: only comparison and measuring call it.
ghost use Rattle.std.specs.Prelude.{◌≡◌, ◌≤◌, ◌<◌};
ghost use Rattle.format.specs.Word.{word_bytes};
ghost use Rattle.format.specs.Write.{first_word, second_word, heavy_second, heavy_third, heavy_bytes};
ghost use Rattle.format.specs.Pack.{span_form};
ghost use Rattle.pack.specs.Answer.{span_of};
ghost use Rattle.pack.specs.Packing.{Stored, SpanPacked};
ghost use Rattle.reference.specs.Packing.{extended_bytes};

use pack::row::{self, Row};
use pack::span::{INDEX_END, ONE_WORD, PackedSpan, TWO_WORDS, is_below, range_fits};
use pack::unchecked::put_word;

fn first_word(extra: u32, extend: u32, span: PackedSpan) -> u32
    requires { (extra ≤ 3) × (extend ≤ 1) }
    ensures { result ≡ first_word extra extend (span_of span) }
{
    extra
        + 4 * (span.index % ONE_WORD.index)
        + 64 * (span.len % ONE_WORD.len)
        + 16384 * extend
        + 32768 * (span.start % ONE_WORD.start)
}

fn second_word(span: PackedSpan) -> u32
    requires { (span.index < 32768) × (span.start < 134217728) × (span.len < 262144) }
    ensures { result ≡ second_word (span_of span) }
{
    2 * (span.index / ONE_WORD.index)
        + 4096 * (span.len / ONE_WORD.len)
        + 4194304 * (span.start / ONE_WORD.start)
}

fn heavy_second(span: PackedSpan) -> u32
    ensures { result ≡ heavy_second (span_of span) }
{
    1 + 2 * (span.len / 65536) + 131072 * (span.start / ONE_WORD.start)
}

fn heavy_third(span: PackedSpan) -> u32
    requires { span.index < 268435456 }
    ensures { result ≡ heavy_third (span_of span) }
{
    span.index / ONE_WORD.index + 16777216 * (span.len / ONE_WORD.len % 256)
}

fn pack_small(out: &mut [u8], at: usize, span: PackedSpan, extra: u32) -> Result<usize, Row>
    requires { extra ≤ 3 }
    ensures { Stored out.old at (word_bytes (first_word extra 0 (span_of span))) result
        out.new }
{
    if out.len().saturating_sub(at) < 4 {
        return Err(row::ROOM);
    }
    put_word(out, at, first_word(extra, 0, span));
    Ok(4)
}

fn pack_extended(out: &mut [u8], at: usize, span: PackedSpan, extra: u32) -> Result<usize, Row>
    requires { (extra ≤ 3) × (span.index < 32768) × (span.start < 134217728) × (span.len < 262144) }
    ensures { Stored out.old at (extended_bytes extra (span_of span)) result out.new }
{
    if out.len().saturating_sub(at) < 8 {
        return Err(row::ROOM);
    }
    put_word(out, at, first_word(extra, 1, span));
    put_word(out, at + 4, second_word(span));
    Ok(8)
}

fn pack_heavy(out: &mut [u8], at: usize, span: PackedSpan, extra: u32) -> Result<usize, Row>
    requires { (extra ≤ 3) × (span.index < 268435456) }
    ensures { Stored out.old at (heavy_bytes extra (span_of span)) result out.new }
{
    if out.len().saturating_sub(at) < 12 {
        return Err(row::ROOM);
    }
    put_word(out, at, first_word(extra, 1, span));
    put_word(out, at + 4, heavy_second(span));
    put_word(out, at + 8, heavy_third(span));
    Ok(12)
}

// Packs a span that has passed rows 2 and 8 in the form that it is to have.
fn pack_form(
    out: &mut [u8],
    at: usize,
    span: PackedSpan,
    extra: u32,
    heavy: bool,
) -> Result<usize, Row>
    requires { (extra ≤ 3) × (span.index < 268435456) }
    ensures { Stored out.old at (span_form heavy extra (span_of span)) result out.new }
{
    if heavy {
        return pack_heavy(out, at, span, extra);
    }
    if is_below(span, ONE_WORD) {
        return pack_small(out, at, span, extra);
    }
    if is_below(span, TWO_WORDS) {
        return pack_extended(out, at, span, extra);
    }
    pack_heavy(out, at, span, extra)
}

// Packs a span at a place in its smallest form, or in the largest where that is forced: the answer and the run are
// those of `encode_span_no_map`.
#[tactic(auto, using(pack::proofs::PackReturns::encode_span_cases))]
pub fn encode_span_by_form(
    out: &mut [u8],
    at: usize,
    span: PackedSpan,
    extra: u32,
    heavy: bool,
) -> Result<usize, Row>
    ensures { SpanPacked out.old at heavy extra (span_of span) result out.new }
{
    if 3 < extra || !range_fits(span.start, span.len) {
        return Err(row::FIELD);
    }
    if INDEX_END <= span.index {
        return Err(row::INDEX);
    }
    pack_form(out, at, span, extra, heavy)
}
