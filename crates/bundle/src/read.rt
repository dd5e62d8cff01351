// The records of a bundle, counted in place: the tables are not copied, since the check asks no entry of them.
ghost use Rattle.std.specs.Prelude.{◌≡◌, ◌+◌, ◌≤◌, length};
ghost use Rattle.format.specs.Bundle.{marked, is_last_record, bundle_at};
ghost use Rattle.bundle.specs.Answer.{is_entry, last_answer, read_answer};

use pack::unchecked::{byte_at, word_at};
use tree::raw::place;
use width::PART_WORDS;

// The second byte of a mark that begins with S, and the bytes of such a record with its mark.
const PART: u32 = 0x50;

const PART_BYTES: usize = 2 + 4 * PART_WORDS;

const SYMBOL: u32 = 0x59;

const SYMBOL_BYTES: usize = 6;

// What a bundle holds: its tree count, the sizes of its tables, and the place where its bytes begin.
#[derive(Clone, Copy)]
pub struct Contents {
    pub trees: u32,
    pub parts: usize,
    pub symbols: usize,
    pub start: usize,
}

// Whether these two bytes stand at a place.
fn is_marked(b: &[u8], x: u32, y: u32, at: usize) -> bool
    requires { at + 2 ≤ length b.now }
    ensures { result ≡ marked b.now x y at }
{
    byte_at(b, at) == x && byte_at(b, at + 1) == y
}

// Whether a part or a symbol stands whole at a place.
#[tactic(auto, unfolding(crate::specs::Answer::is_entry))]
fn is_entry(b: &[u8], second: u32, bytes: usize, at: usize) -> bool
    requires at_in_bounds { at ≤ length b.now }
    requires le_bytes { 2 ≤ bytes }
    ensures { result ≡ is_entry b.now second bytes at }
{
    bytes <= b.len() - at && is_marked(b, 0x53, second, at)
}

// Whether the last record stands at a place, its bytes up to the bundle's end.
fn is_last(b: &[u8], at: usize) -> bool
    requires { at ≤ length b.now }
    ensures { result ≡ is_last_record b.now at }
{
    if b.len() - at < 10 {
        return false;
    }
    place(word_at(b, at + 6)) == b.len() - at - 10 && is_marked(b, 0x42, 0x54, at)
}

// What is read behind so many parts and symbols, where neither stands.
#[tactic(auto, unfolding(crate::specs::Answer::last_answer))]
fn last_record(b: &[u8], parts: usize, symbols: usize, at: usize) -> Option<Contents>
    requires { at ≤ length b.now }
    ensures { result ≡ last_answer b.now parts symbols at }
{
    if !is_last(b, at) {
        return None;
    }
    Some(Contents {
        trees: word_at(b, at + 2),
        parts,
        symbols,
        start: at + 10,
    })
}

pub fn read_bundle(b: &[u8]) -> Option<Contents>
    ensures { result ≡ read_answer b.now (bundle_at b.now) }
{
    let mut parts: usize = 0;
    let mut symbols: usize = 0;
    let mut at: usize = 0;
    while at < b.len() {
        if is_entry(b, PART, PART_BYTES, at) {
            parts += 1;
            at += PART_BYTES;
        } else if is_entry(b, SYMBOL, SYMBOL_BYTES, at) {
            symbols += 1;
            at += SYMBOL_BYTES;
        } else {
            return last_record(b, parts, symbols, at);
        }
    }
    None
}
