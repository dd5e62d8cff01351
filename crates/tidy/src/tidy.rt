// `tidy`: a buffer with its tables in, the writer's buffer of the same list over the same tables out.
ghost use Rattle.std.specs.Prelude.{◌≡◌, ◌≤◌, length};
ghost use Rattle.format.specs.Verdict.{passed};
ghost use Rattle.format.specs.Buffer.{buffer_check};
ghost use Rattle.format.specs.Unpack.{list_work, count_work};
ghost use Rattle.tidy.specs.Tidied.{WrittenAgain, Tidied};

use checker::check::check_buffer;
use pack::row;
use tree::raw::place;
use tree::refusal::Refusal;
use unpack::list::unpack;
use unpack::work::work_fits;
use width::TREE_WORDS;
use writer::write::write_own;

// Behind all refusals but that of a short output: no row of 1 to 5 is left, so rows 1 to 4 are not asked again.
fn write_again(
    b: &[u8],
    trees: u32,
    parts: &[u32],
    symbols: &[u32],
    list: &mut [u32],
    counts: &mut [u32],
    out: &mut [u8],
) -> Result<usize, Refusal>
    requires passes { buffer_check b.now trees parts.now symbols.now ≡ passed }
    requires room { (list_work trees ≤ length list.old) × (count_work trees ≤ length counts.old) }
    ensures { WrittenAgain b.now trees parts.now symbols.now
        list.old counts.old out.old result
        list.new counts.new out.new }
{
    unpack(b, trees, parts, symbols, list);
    let end = TREE_WORDS * place(trees);
    write_own(&list[0..end], parts, symbols, counts, out)
}

// The work words are those of `set_token`. No tables are made here, so the run for these is only asked how long it is.
pub fn tidy(
    b: &[u8],
    trees: u32,
    parts: &[u32],
    symbols: &[u32],
    list: &mut [u32],
    tables: &[u32],
    counts: &mut [u32],
    out: &mut [u8],
) -> Result<usize, Refusal>
    ensures { Tidied b.now trees parts.now symbols.now
        list.old tables.now counts.old out.old result
        list.new counts.new out.new }
{
    check_buffer(b, trees, parts, symbols)?;
    if !work_fits(trees, list.len(), tables.len(), counts.len()) {
        return Err(Refusal {
            number: row::ROOM,
            tree: 0,
        });
    }
    write_again(b, trees, parts, symbols, list, counts, out)
}
