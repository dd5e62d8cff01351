// Keys: the entries of a table, and what the trees of a list look for in it.
ghost use Rattle.std.specs.Prelude.{◌≡◌, ◌+◌, ◌<◌, ◌≤◌, length};
ghost use Rattle.format.specs.Width.{part_size};
ghost use Rattle.format.specs.Part.{same_part};
ghost use Rattle.places.specs.Key.{part_of, symbol_part, part_in, key_at, key_count, named};

use width::sort::{IDENT, LITERAL};
use width::{CLOSE_AT, OPEN_AT, PART_WORDS, TREE_WORDS};

// The words of a part, or a symbol and zeros.
#[derive(Clone, Copy, PartialEq, Eq, Debug)]
pub struct Key {
    pub file: u32,
    pub ast_id: u32,
    pub context: u32,
}

// How keys stand in a run of words.
#[derive(Clone, Copy, PartialEq, Eq, Debug)]
pub enum Layout {
    // The entries of a table.
    Parts,
    Symbols,
    // Of the trees of a list.
    Open,
    Close,
    Name,
}

// The part whose words begin at a place.
pub fn words_key(t: &[u32], at: usize) -> Key
    requires { at + part_size ≤ length t.now }
    ensures { part_of result ≡ part_in t.now at }
{
    Key {
        file: t[at],
        ast_id: t[at + 1],
        context: t[at + 2],
    }
}

pub(crate) fn symbol_key(y: u32) -> Key
    ensures { part_of result ≡ symbol_part y }
{
    Key {
        file: y,
        ast_id: 0,
        context: 0,
    }
}

#[tactic(auto, using(crate::proofs::KeyReturns::key_cases))]
pub(crate) fn key_at(t: &[u32], layout: Layout, i: usize) -> Key
    requires { i < key_count t.now layout }
    ensures { part_of result ≡ key_at t.now layout i }
{
    match layout {
        Layout::Parts => words_key(t, PART_WORDS * i),
        Layout::Symbols => symbol_key(t[i]),
        Layout::Open => words_key(t, TREE_WORDS * i + OPEN_AT),
        Layout::Close => words_key(t, TREE_WORDS * i + CLOSE_AT),
        Layout::Name => symbol_key(t[TREE_WORDS * i + 1]),
    }
}

#[tactic(auto, using(crate::proofs::KeyReturns::key_cases))]
pub fn same_key(x: Key, y: Key) -> bool
    ensures { result ≡ same_part (part_of x) (part_of y) }
{
    x == y
}

// Whether a tree of this sort has a symbol: an ident or a literal.
#[tactic(auto, using(crate::proofs::KeyReturns::key_cases))]
pub(crate) fn is_named(sort: u32) -> bool
    ensures { result ≡ named sort }
{
    sort == IDENT || sort == LITERAL
}
