// Walks to the end in one call. A library of its own: with other callers of the reader beside it the reader would not
// be compiled into this loop.
#![tactic(auto)]

ghost use Rattle.std.specs.Prelude.{◌≡◌};
ghost use Rattle.format.specs.Buffer.{own_reader};
ghost use Rattle.format.specs.Walk.{advance, skip};
ghost use Rattle.measure.specs.Sum.{walk_sum};

use measure::walks::walk_sum;
use walk::walk::{Walk, fresh};

// The words of all trees added up, or a refusal.
#[unsafe(no_mangle)]
pub extern "C" fn tt_walk_all(b: &[u8], trees: u32, parts: &[u32], symbols: &[u32]) -> u64
    ensures { result ≡ walk_sum (own_reader b.now trees parts.now symbols.now)
        advance trees (record { place = 0; number = 0; left = trees }) 0 }
{
    walk_sum(b, trees, parts, symbols, fresh(trees), false)
}

// The same of a walk from a place on, past each subtree.
#[unsafe(no_mangle)]
pub extern "C" fn tt_skip_all(
    b: &[u8],
    trees: u32,
    parts: &[u32],
    symbols: &[u32],
    place: usize,
    number: u32,
    left: u32,
) -> u64
    ensures { result ≡ walk_sum (own_reader b.now trees parts.now symbols.now)
        skip trees (record { place = place; number = number; left = left }) 0 }
{
    let walk = Walk {
        place: place,
        number: number,
        left: left,
    };
    walk_sum(b, trees, parts, symbols, walk, true)
}
