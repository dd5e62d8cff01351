// The preview of `set_token` for hosts.
ghost use Rattle.store.specs.Preview.{PreviewTold};

use crate::set_token::sizes_told;
use replace::preview::preview_words;
use width::TREE_WORDS;

// The new leaf by its list words.
#[unsafe(no_mangle)]
pub extern "C" fn tt_preview(
    b: &[u8],
    trees: u32,
    parts: &[u32],
    symbols: &[u32],
    number: u32,
    leaf: &[u32; TREE_WORDS],
    list: &mut [u32],
    tables: &mut [u32],
    counts: &mut [u32],
    told: &mut [usize; 3],
) -> u32
    ensures { PreviewTold b.now trees parts.now symbols.now number
        leaf.now
        list.old tables.old counts.old result told.new
        list.new tables.new counts.new }
{
    let report = preview_words(b, trees, parts, symbols, number, leaf, list, tables, counts);
    sizes_told(report, told)
}
