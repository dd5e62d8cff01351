// The spans of a list packed one behind the other from a place on, up to the first that is refused: the bytes written,
// or 2^63 and the refusal's number. The spans before that one stay written; one or two words behind the last span are
// not looked at. One loop over either packer, compiled with each.
ghost use Rattle.std.specs.Prelude.{◌≡◌, ◌+◌, ◌*◌, ◌≤◌, length};
ghost use Rattle.pack.specs.Answer.{span_of};
ghost use Rattle.pack.specs.Packing.{SpanPacked};
ghost use Rattle.reference.specs.Lists.{span_numbers, listed_span, refused_code, AllPacked};

use crate::span::encode_span_by_form;
use pack::row::Row;
use pack::span::{PackedSpan, encode_span_no_map};

// Index, start and length.
const SPAN_NUMBERS: usize = 3;

fn listed_span(spans: &[u32], j: usize) -> PackedSpan
    requires { span_numbers * j + span_numbers ≤ length spans.now }
    ensures { span_of result ≡ listed_span spans.now j }
{
    let from = SPAN_NUMBERS * j;
    PackedSpan {
        index: spans[from],
        start: spans[from + 1],
        len: spans[from + 2],
    }
}

fn refused_code(number: u32) -> u64
    ensures { result ≡ refused_code number }
{
    9223372036854775808 + number as u64
}

// What packs one span of a list.
pub trait SpanPacker {
    fn pack(
        out: &mut [u8],
        at: usize,
        span: PackedSpan,
        extra: u32,
        heavy: bool,
    ) -> Result<usize, Row>
        ensures { SpanPacked out.old at heavy extra (span_of span) result out.new };
}

// The packer that all other crates call.
pub struct ByRests;

impl SpanPacker for ByRests {
    fn pack(
        out: &mut [u8],
        at: usize,
        span: PackedSpan,
        extra: u32,
        heavy: bool,
    ) -> Result<usize, Row> {
        encode_span_no_map(out, at, span, extra, heavy)
    }
}

// The reference.
pub struct ByForm;

impl SpanPacker for ByForm {
    fn pack(
        out: &mut [u8],
        at: usize,
        span: PackedSpan,
        extra: u32,
        heavy: bool,
    ) -> Result<usize, Row> {
        encode_span_by_form(out, at, span, extra, heavy)
    }
}

pub fn pack_all<P: SpanPacker>(
    out: &mut [u8],
    at: usize,
    spans: &[u32],
    extra: u32,
    heavy: bool,
) -> u64
    ensures { AllPacked out.old at spans.now extra heavy result out.new }
{
    let mut place = at;
    for j in 0..spans.len() / SPAN_NUMBERS {
        match P::pack(out, place, listed_span(spans, j), extra, heavy) {
            Err(number) => return refused_code(number),
            Ok(bytes) => place += bytes,
        }
    }
    (place - at) as u64
}
