// The list of a checked buffer in lent words.
ghost use Rattle.std.specs.Prelude.{◌≡◌, ◌+◌, ◌*◌, ◌≤◌, length};
ghost use Rattle.format.specs.Verdict.{passed};
ghost use Rattle.format.specs.Word.{put};
ghost use Rattle.format.specs.Width.{tree_size};
ghost use Rattle.format.specs.Check.{check, next_of};
ghost use Rattle.format.specs.Buffer.{word_shape, buffer_check};
ghost use Rattle.format.specs.Unpack.{list_of};
ghost use Rattle.tree.specs.Tables.{mode_in};
ghost use Rattle.unpack.specs.List.{reader_in, read_at, words_read, list_in};

use crate::words::raw_words;
use decode::judge::tree_in;
use tree::own::own_tables;
use tree::raw::place;
use tree::tables::Tables;
use tree::unchecked::put_words;
use width::TREE_WORDS;

// The words of tree n, which is read at a place. Answers the place behind it.
#[tactic(auto, using(crate::proofs::ListReturns::tree_cases))]
fn put_tree(b: &[u8], tables: &Tables, n: u32, at: usize, list: &mut [u32]) -> usize
    requires { tree_size * n + tree_size ≤ length list.old }
    ensures next { result ≡ next_of (read_at b.now (mode_in tables.now) n at) }
    ensures words { list.new ≡ put list.old (tree_size * n)
        (words_read (read_at b.now (mode_in tables.now) n at)) }
{
    let Ok(here) = tree_in(b, tables.limits, n, at) else {
        // Not in a buffer that the check has passed.
        return 0;
    };
    let words = raw_words(tables, n, here.tree);
    put_words(list, TREE_WORDS * place(n), &words);
    here.next
}

// Over the tables of a mode.
#[tactic(auto, using(crate::proofs::ListReturns::unpacked_cases))]
fn unpack_in(b: &[u8], trees: u32, tables: &Tables, list: &mut [u32])
    requires passed { check word_shape (reader_in b.now trees (mode_in tables.now)) ≡ passed }
    requires room { tree_size * trees ≤ length list.old }
    ensures { list.new ≡ put list.old 0 (list_in b.now trees (mode_in tables.now)) }
{
    let mut at: usize = 0;
    for n in 0..trees {
        at = put_tree(b, tables, n, at, list);
    }
}

#[tactic(auto, using(crate::proofs::ListReturns::unpack_cases))]
pub fn unpack(b: &[u8], trees: u32, parts: &[u32], symbols: &[u32], list: &mut [u32])
    requires passed { buffer_check b.now trees parts.now symbols.now ≡ passed }
    requires room { tree_size * trees ≤ length list.old }
    ensures { list.new ≡ put list.old 0
        (list_of b.now trees parts.now symbols.now) }
{
    let tables = own_tables(parts, symbols);
    unpack_in(b, trees, &tables, list);
}
