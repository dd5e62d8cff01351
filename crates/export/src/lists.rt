// Whole lists.
ghost use Rattle.export.specs.Replies.{made_code};
ghost use Rattle.export.specs.Lists.{TablesStored, ListStored};

use crate::replies::{Code, reply};
use tables::make::{Made, compute_span_frequencies_and_symbols};
use writer::write::encode_list;

// The numbers of parts and of symbols, 32 bits each.
impl Code for Made {
    ghost code = { made_code };

    fn code(self) -> u64 {
        4294967296 * ((self.parts % 2147483648) as u64) + ((self.symbols % 4294967296) as u64)
    }
}

// The tables of a list.
#[unsafe(no_mangle)]
pub extern "C" fn tt_tables(
    l: &[u32],
    parts: &mut [u32],
    part_counts: &mut [u32],
    symbols: &mut [u32],
    symbol_counts: &mut [u32],
) -> u64
    ensures { TablesStored l.now
        parts.old part_counts.old symbols.old symbol_counts.old result
        parts.new part_counts.new symbols.new symbol_counts.new }
{
    let v = compute_span_frequencies_and_symbols(l, parts, part_counts, symbols, symbol_counts);
    reply(v)
}

// The bytes of a list over given tables.
#[unsafe(no_mangle)]
pub extern "C" fn tt_encode_list(
    l: &[u32],
    parts: &[u32],
    symbols: &[u32],
    work: &mut [u32],
    out: &mut [u8],
) -> u64
    ensures { ListStored parts.now symbols.now l.now
        work.old out.old result work.new out.new }
{
    reply(encode_list(l, parts, symbols, work, out))
}
