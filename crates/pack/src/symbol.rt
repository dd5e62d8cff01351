// Packing and reading of one symbol index with its tag bit: one, two or four bytes.
ghost use Rattle.std.specs.Prelude.{◌≡◌, ◌+◌, ◌≤◌, ◌<◌, length};
ghost use Rattle.format.specs.Word.{put};
ghost use Rattle.format.specs.Span.{symbol_at};
ghost use Rattle.format.specs.Write.{symbol_bytes};
ghost use Rattle.pack.specs.Answer.{symbol_answer};
ghost use Rattle.pack.specs.Packing.{SymbolPacked};

use crate::row::{self, Row};
use crate::unchecked::{byte_at, half_at, put_byte, put_half};

// The indices that take one byte, and those that take at most two, are below these.
const ONE_BYTE: u32 = 64;

const TWO_BYTES: u32 = 8192;

// Row 8: no form holds an index from here on.
pub const INDEX_END: u32 = 536870912;

// A symbol that was read, its tag bit, and the place behind it.
#[derive(Clone, Copy)]
pub struct SymbolAt {
    pub index: u32,
    pub tag: u32,
    pub next: usize,
}

// The symbol at a place, and the place behind it, or None where the buffer ends inside.
#[tactic(auto, using(crate::proofs::SymbolReturns::decode_symbol_cases))]
pub fn decode_symbol(b: &[u8], at: usize) -> Option<SymbolAt>
    ensures { result ≡ symbol_answer (symbol_at b.now at) }
{
    let left = b.len().saturating_sub(at);
    if left < 1 {
        return None;
    }
    let x = byte_at(b, at);
    if x / 2 % 2 == 0 {
        return Some(SymbolAt {
            index: x / 4,
            tag: x % 2,
            next: at + 1,
        });
    }
    if left < 2 {
        return None;
    }
    let y = byte_at(b, at + 1);
    if y % 2 == 0 {
        return Some(SymbolAt {
            index: x / 4 + ONE_BYTE * (y / 2),
            tag: x % 2,
            next: at + 2,
        });
    }
    if left < 4 {
        return None;
    }
    let z = half_at(b, at + 2);
    Some(SymbolAt {
        index: x / 4 + ONE_BYTE * (y / 2) + TWO_BYTES * z,
        tag: x % 2,
        next: at + 4,
    })
}

// The bytes that a symbol takes: the tag bit does not change their number.
#[tactic(auto, using(crate::proofs::Sizes::size_cases))]
pub fn symbol_size(index: u32) -> usize
    ensures { result ≡ length (symbol_bytes 0 index) }
{
    if index < ONE_BYTE {
        return 1;
    }
    if index < TWO_BYTES {
        return 2;
    }
    4
}

#[tactic(auto, using(crate::proofs::SymbolReturns::put_symbol_cases))]
fn put_symbol(out: &mut [u8], at: usize, tag: u32, index: u32)
    requires { (at + length (symbol_bytes 0 index) ≤ length out.old) × (tag ≤ 1) × (index < 536870912) }
    ensures { out.new ≡ put out.old at (symbol_bytes tag index) }
{
    if index < ONE_BYTE {
        put_byte(out, at, tag + 4 * index);
        return;
    }
    put_byte(out, at, tag + 2 + 4 * (index % ONE_BYTE));
    if index < TWO_BYTES {
        put_byte(out, at + 1, 2 * (index / ONE_BYTE));
        return;
    }
    put_byte(out, at + 1, 1 + 2 * (index / ONE_BYTE % 128));
    put_half(out, at + 2, index / TWO_BYTES);
}

// Packs a symbol index with its tag bit at a place.
#[tactic(auto, using(crate::proofs::PackReturns::encode_symbol_cases))]
pub fn encode_symbol(out: &mut [u8], at: usize, tag: u32, index: u32) -> Result<usize, Row>
    ensures { SymbolPacked out.old at tag index result out.new }
{
    if 1 < tag {
        return Err(row::FIELD);
    }
    if INDEX_END <= index {
        return Err(row::INDEX);
    }
    let n = symbol_size(index);
    if out.len().saturating_sub(at) < n {
        return Err(row::ROOM);
    }
    put_symbol(out, at, tag, index);
    Ok(n)
}
