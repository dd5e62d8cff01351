// Work words: how many are asked for, for a list that is read, its tables and its sizes.
ghost use Rattle.std.specs.Prelude.{◌≡◌};
ghost use Rattle.format.specs.Unpack.{work_fits};

use tree::raw::place;

// For each tree and once more: the list's, its tables', those of counts and sizes.
const LIST_WORK: usize = 16;

const TABLE_WORK: usize = 10;

const COUNT_WORK: usize = 6;

// Whether the three runs of work words suffice.
pub fn work_fits(trees: u32, list: usize, tables: usize, counts: usize) -> bool
    ensures { result ≡ work_fits trees list tables counts }
{
    let k = place(trees);
    LIST_WORK * k + LIST_WORK <= list
        && TABLE_WORK * k + TABLE_WORK <= tables
        && COUNT_WORK * k + COUNT_WORK <= counts
}
