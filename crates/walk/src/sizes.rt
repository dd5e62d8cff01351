// Row 1: the tree count and the sizes of the tables.
ghost use Rattle.std.specs.Prelude.{◌≡◌};
ghost use Rattle.walk.specs.Source.{sizes};
ghost use Rattle.walk.specs.RowOne.{RowOne};

use crate::buffer::Buffer;
use pack::row;
use tree::own::own_tables;
use tree::refusal::Refusal;
use tree::sizes::{tables_sized, trees_sized};

// Whether row 1 is silent.
pub fn sized(trees: u32, parts: &[u32], symbols: &[u32]) -> bool
    ensures { result ≡ sizes trees parts.now symbols.now }
{
    trees_sized(trees) && tables_sized(parts, symbols)
}

// The buffer with these tables, unless row 1 speaks.
pub fn own_buffer<'a>(
    bytes: &'a [u8],
    trees: u32,
    parts: &'a [u32],
    symbols: &'a [u32],
) -> Result<Buffer<'a>, Refusal>
    ensures { RowOne bytes.now trees parts.now symbols.now result }
{
    if sized(trees, parts, symbols) {
        Ok(Buffer {
            bytes,
            trees,
            tables: own_tables(parts, symbols),
        })
    } else {
        Err(Refusal {
            number: row::SIZE,
            tree: 0,
        })
    }
}
