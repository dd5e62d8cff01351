// What the first word of a span takes of its index, start and length, and what it leaves: the rests. They choose the
// form and fill the other words.
ghost use Rattle.std.specs.Prelude.{◌≡◌, ◌+◌, ◌*◌, ◌-◌, ◌/◌, ◌%◌, ◌≤◌, ◌<◌};
ghost use Rattle.pack.specs.Answer.{span_of, all_below};

use crate::span::{ONE_WORD, PackedSpan, TWO_WORDS};

// The rests are not divided down: so a mask makes them, and they are tested without a shift.
pub(crate) fn rests_of(span: PackedSpan) -> PackedSpan
    ensures { (result.index ≡ span.index - span.index % 16) × (result.start ≡ span.start - span.start % 131072)
        × (result.len ≡ span.len - span.len % 256) }
{
    PackedSpan {
        index: span.index - span.index % ONE_WORD.index,
        start: span.start - span.start % ONE_WORD.start,
        len: span.len - span.len % ONE_WORD.len,
    }
}

pub(crate) fn taken_of(span: PackedSpan, rests: PackedSpan) -> PackedSpan
    requires { (rests.index ≡ span.index - span.index % 16) × (rests.start ≡ span.start - span.start % 131072)
        × (rests.len ≡ span.len - span.len % 256) }
    ensures { (result.index ≡ span.index % 16) × (result.start ≡ span.start % 131072) × (result.len ≡ span.len % 256) }
{
    PackedSpan {
        index: span.index - rests.index,
        start: span.start - rests.start,
        len: span.len - rests.len,
    }
}

pub(crate) fn first_word(extra: u32, extend: u32, taken: PackedSpan) -> u32
    requires { (extra ≤ 3) × (extend ≤ 1) × (taken.index < 16) × (taken.start < 131072) × (taken.len < 256) }
    ensures { result ≡ extra + 4 * taken.index + 64 * taken.len + 16384 * extend + 32768 * taken.start }
{
    extra + 4 * taken.index + 64 * taken.len + 16384 * extend + 32768 * taken.start
}

// Whether there is no rest, in one test: the sum is 0 only if each of the three is. In 32 bits it could wrap.
pub(crate) fn are_none(rests: PackedSpan) -> bool
    ensures { result ≡ all_below (span_of rests) 1 1 1 }
{
    rests.index as u64 + rests.start as u64 + rests.len as u64 == 0
}

// Whether a second word holds the rests. The index is asked by itself, which takes less time where it alone decides;
// what would be left of start and length is one test.
pub(crate) fn fit_second_word(rests: PackedSpan) -> bool
    ensures { result ≡ all_below (span_of rests) 32768 134217728 262144 }
{
    if TWO_WORDS.index <= rests.index {
        return false;
    }
    let start = rests.start - rests.start % TWO_WORDS.start;
    let len = rests.len - rests.len % TWO_WORDS.len;
    start as u64 + len as u64 == 0
}

// Bit 0 is 0, then 11, 10, 10 bits of index, length, start.
pub(crate) fn second_word(rests: PackedSpan) -> u32
    requires { (rests.index < 32768) × (rests.start + 131072 ≤ 134217728) × (rests.len + 256 ≤ 262144) }
    ensures { result ≡ rests.index / 8 + 16 * rests.len + 32 * rests.start }
{
    rests.index / 8 + 16 * rests.len + 32 * rests.start
}

// Bit 0 is 1, then of the length's 24 bits the upper 16, and the 15 of start.
pub(crate) fn heavy_second(rests: PackedSpan) -> u32
    requires { rests.start + 131072 ≤ 4294967296 }
    ensures { result ≡ 1 + 2 * (rests.len / 65536) + rests.start }
{
    1 + 2 * (rests.len / 65536) + rests.start
}

// The 24 bits of index, and of the length's the lower 8.
pub(crate) fn heavy_third(rests: PackedSpan) -> u32
    requires { (rests.index < 268435456) × (rests.len % 256 ≡ 0) }
    ensures { result ≡ rests.index / 16 + 65536 * (rests.len % 65536) }
{
    rests.index / 16 + 65536 * (rests.len % 65536)
}
