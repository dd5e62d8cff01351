// What `set_token` and its preview begin with: all that is refused but a short output, the new list, its tables.
ghost use Rattle.std.specs.Prelude.{◌≡◌, ◌≤◌, length};
ghost use Rattle.format.specs.Verdict.{passed};
ghost use Rattle.format.specs.Replace.{replace_verdict};
ghost use Rattle.format.specs.Unpack.{list_work, table_work, count_work};
ghost use Rattle.replace.specs.Prepared.{ListPut, NewMade, PreparedIn};

use crate::change::Change;
use crate::fresh::{Counted, make_tables};
use crate::judge::replace_verdict;
use pack::row;
use tree::raw::place;
use tree::refusal::Refusal;
use tree::unchecked::put_words;
use unpack::list::unpack;
use unpack::work::work_fits;
use width::TREE_WORDS;

// The new list, in work words.
fn put_list(change: &Change, list: &mut [u32])
    requires passes { replace_verdict change.now.b.now change.now.trees change.now.parts.now change.now.symbols.now
        change.now.number change.now.leaf.now ≡ passed }
    requires room { list_work change.now.trees ≤ length list.old }
    ensures { ListPut change.now.b.now change.now.trees change.now.parts.now change.now.symbols.now
        change.now.number change.now.leaf.now list.old list.new }
{
    unpack(change.b, change.trees, change.parts, change.symbols, list);
    let leaf = change.leaf;
    put_words(list, TREE_WORDS * place(change.number), leaf);
}

// The new list and its tables, behind all refusals but that of a short output.
fn make_new(change: &Change, list: &mut [u32], tables: &mut [u32], counts: &mut [u32]) -> Counted
    requires passes { replace_verdict change.now.b.now change.now.trees change.now.parts.now change.now.symbols.now
        change.now.number change.now.leaf.now ≡ passed }
    requires room { (list_work change.now.trees ≤ length list.old) × (table_work change.now.trees ≤ length tables.old)
        × (count_work change.now.trees ≤ length counts.old) }
    ensures { NewMade change.now.b.now change.now.trees change.now.parts.now change.now.symbols.now
        change.now.number change.now.leaf.now list.old tables.old counts.old result
        list.new tables.new counts.new }
{
    put_list(change, list);
    let end = TREE_WORDS * place(change.trees);
    make_tables(&list[0..end], tables, counts)
}

// The new list and its tables stand in work words then.
pub(crate) fn prepare(
    change: &Change,
    list: &mut [u32],
    tables: &mut [u32],
    counts: &mut [u32],
) -> Result<Counted, Refusal>
    ensures { PreparedIn change.now.b.now change.now.trees change.now.parts.now change.now.symbols.now
        change.now.number change.now.leaf.now list.old tables.old counts.old result
        list.new tables.new counts.new }
{
    replace_verdict(change)?;
    if !work_fits(change.trees, list.len(), tables.len(), counts.len()) {
        return Err(Refusal {
            number: row::ROOM,
            tree: 0,
        });
    }
    Ok(make_new(change, list, tables, counts))
}
