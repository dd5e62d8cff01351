// Spans and symbols.
ghost use Rattle.export.specs.Code.{SpanStored, SymbolStored, SpanFound, SymbolFound};

use crate::replies::{Code, reply};
use pack::row;
use pack::span::PackedSpan;
use tree::loose::bit;
use tree::unchecked::put_words;

#[unsafe(no_mangle)]
pub extern "C" fn tt_encode_span(
    out: &mut [u8],
    at: usize,
    index: u32,
    start: u32,
    len: u32,
    extra: u32,
    heavy: bool,
) -> u64
    ensures { SpanStored out.old at heavy extra (record { index = index; start = start; len = len })
        result out.new }
{
    let span = PackedSpan { index, start, len };
    reply(pack::span::encode_span_no_map(out, at, span, extra, heavy))
}

#[unsafe(no_mangle)]
pub extern "C" fn tt_encode_symbol(out: &mut [u8], at: usize, tag: u32, index: u32) -> u64
    ensures { SymbolStored out.old at tag index result out.new }
{
    reply(pack::symbol::encode_symbol(out, at, tag, index))
}

// Index, start, length, extra bits and whether a form of fewer bytes holds the span go to five words.
// The answer is the place behind the span, or 2^63 and a refusal's number.
#[unsafe(no_mangle)]
pub extern "C" fn tt_decode_span(b: &[u8], at: usize, words: &mut [u32]) -> u64
    ensures { SpanFound b.now at words.old result words.new }
{
    if words.len() < 5 {
        return row::ROOM.code();
    }
    let Some(y) = pack::span::decode_span(b, at) else {
        return row::SHORT.code();
    };
    let span = y.span;
    let found = [span.index, span.start, span.len, y.extra, bit(y.loose)];
    put_words(words, 0, &found);
    y.next.code()
}

// Index and tag go to two words; the answer is as for a span.
#[unsafe(no_mangle)]
pub extern "C" fn tt_decode_symbol(b: &[u8], at: usize, words: &mut [u32]) -> u64
    ensures { SymbolFound b.now at words.old result words.new }
{
    if words.len() < 2 {
        return row::ROOM.code();
    }
    let Some(y) = pack::symbol::decode_symbol(b, at) else {
        return row::SHORT.code();
    };
    let found = [y.index, y.tag];
    put_words(words, 0, &found);
    y.next.code()
}
