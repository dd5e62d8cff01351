// Row 1: how many trees, parts and symbols there may be.
ghost use Rattle.std.specs.Prelude.{◌≡◌, ◌&&◌, leb};
ghost use Rattle.format.specs.Tables.{tables_sized, own_tables};

use width::PART_WORDS;

const MOST_TREES: u32 = 1048576;

// The last two parts are the root's.
const LEAST_PARTS: usize = 2;

const MOST_PARTS: usize = 2097152;

const MOST_SYMBOLS: usize = 1048576;

pub fn trees_sized(trees: u32) -> bool
    ensures { result ≡ (leb 1 trees && leb trees 1048576) }
{
    1 <= trees && trees <= MOST_TREES
}

// So many parts and symbols.
pub fn counts_sized(parts: usize, symbols: usize) -> bool
    ensures { result ≡ tables_sized parts symbols }
{
    LEAST_PARTS <= parts && parts <= MOST_PARTS && symbols <= MOST_SYMBOLS
}

// These part words and symbols.
pub fn tables_sized(parts: &[u32], symbols: &[u32]) -> bool
    ensures { result ≡ (own_tables parts.now symbols.now).sized }
{
    parts.len() % PART_WORDS == 0 && counts_sized(parts.len() / PART_WORDS, symbols.len())
}
