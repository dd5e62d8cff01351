// A cursor by value to the end in one call. A library of its own, as `measure_walk` is.
#![tactic(auto)]

ghost use Rattle.std.specs.Prelude.{◌≡◌, ◌*◌};
ghost use Rattle.format.specs.Buffer.{own_reader};
ghost use Rattle.format.specs.Cursor.{fresh_cursor};
ghost use Rattle.measure.specs.Sum.{cursor_sum};

use measure::cursors::value_sum;

// The words of all trees added up, or a refusal.
#[unsafe(no_mangle)]
pub extern "C" fn tt_cursor_by_value_all(
    b: &[u8],
    trees: u32,
    parts: &[u32],
    symbols: &[u32],
) -> u64
    ensures { result ≡ cursor_sum (own_reader b.now trees parts.now symbols.now)
        trees (2 * trees) fresh_cursor 0 }
{
    value_sum(b, trees, parts, symbols)
}
