// `tidy` for hosts.
ghost use Rattle.std.specs.Prelude.{◌≡◌};
ghost use Rattle.store.specs.Tidy.{size_list, TidyTold};

use crate::tell::tell;
use tidy::tidy::tidy;

fn number(bytes: usize) -> [usize; 1]
    ensures { result ≡ size_list bytes }
{
    [bytes]
}

#[unsafe(no_mangle)]
pub extern "C" fn tt_tidy(
    b: &[u8],
    trees: u32,
    parts: &[u32],
    symbols: &[u32],
    list: &mut [u32],
    tables: &[u32],
    counts: &mut [u32],
    out: &mut [u8],
    told: &mut [usize; 1],
) -> u32
    ensures { TidyTold b.now trees parts.now symbols.now
        list.old tables.now counts.old out.old result told.new
        list.new counts.new out.new }
{
    let report = tidy(b, trees, parts, symbols, list, tables, counts, out);
    let size = report.map(number);
    tell(size, told)
}
