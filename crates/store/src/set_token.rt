// `set_token` for hosts.
ghost use Rattle.std.specs.Prelude.{◌≡◌};
ghost use Rattle.store.specs.Told.{Told, sizes_list, SetTold};

use crate::tell::tell;
use replace::report::Sizes;
use replace::set_token::set_token_words;
use tree::refusal::Refusal;
use width::TREE_WORDS;

fn numbers(sizes: Sizes) -> [usize; 3]
    ensures { result ≡ sizes_list sizes }
{
    [sizes.bytes, sizes.parts, sizes.symbols]
}

// Bytes, parts and symbols.
pub(crate) fn sizes_told(report: Result<Sizes, Refusal>, told: &mut [usize; 3]) -> u32
    ensures { Told sizes_list 2 report result told.new }
{
    let sizes = report.map(numbers);
    tell(sizes, told)
}

// The new leaf by its list words.
#[unsafe(no_mangle)]
pub extern "C" fn tt_set_token(
    b: &[u8],
    trees: u32,
    parts: &[u32],
    symbols: &[u32],
    number: u32,
    leaf: &[u32; TREE_WORDS],
    list: &mut [u32],
    tables: &mut [u32],
    counts: &mut [u32],
    out: &mut [u8],
    out_parts: &mut [u32],
    out_symbols: &mut [u32],
    told: &mut [usize; 3],
) -> u32
    ensures { SetTold b.now trees parts.now symbols.now number
        leaf.now
        list.old tables.old counts.old
        out.old out_parts.old out_symbols.old result told.new
        list.new tables.new counts.new
        out.new out_parts.new out_symbols.new }
{
    let report = set_token_words(
        b,
        trees,
        parts,
        symbols,
        number,
        leaf,
        list,
        tables,
        counts,
        out,
        out_parts,
        out_symbols,
    );
    sizes_told(report, told)
}
