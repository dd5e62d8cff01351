// A list's own tables and its bytes over them. Nothing is stored in an output before all have room.
ghost use Rattle.std.specs.Prelude.{◌≡◌, ◌+◌, ◌≤◌, length};
ghost use Rattle.format.specs.Verdict.{passed};
ghost use Rattle.format.specs.WordList.{list_count, list_rows};
ghost use Rattle.format.specs.Unpack.{table_work, count_work};
ghost use Rattle.replace.specs.Fresh.{symbols_at, SymbolsMade, Held, Tabled, Put};
ghost use Rattle.writer.specs.Written.{Written};

use crate::own::Own;
use crate::report::Sizes;
use entries::table::make_table;
use keys::key::Keys;
use pack::row;
use tables::make::make_parts;
use tree::refusal::Refusal;
use tree::unchecked::put_words;
use width::{PART_WORDS, TREE_WORDS};
use writer::write::encode_list;

// How many parts and symbols there are.
#[derive(Clone, Copy)]
pub struct Counted {
    pub parts: usize,
    pub symbols: usize,
}

// The symbols of k trees stand behind room for two parts a tree.
fn symbols_at(k: usize) -> usize
    requires { k ≤ 1048576 }
    ensures { result ≡ symbols_at k }
{
    2 * PART_WORDS * k
}

// The symbol table from a place on.
fn make_symbols(l: &[u32], at: usize, tables: &mut [u32], counts: &mut [u32]) -> usize
    requires rows { list_rows l.now ≡ passed }
    requires room { at + list_count l.now ≤ length tables.old }
    requires counts_room { count_work (list_count l.now) ≤ length counts.old }
    ensures { SymbolsMade l.now at result tables.old tables.new
        counts.old counts.new }
{
    let keys = Keys {
        list: l,
        symbols: true,
    };
    make_table(&keys, &mut tables[at..], counts)
}

// Both tables in one run, one after the other: the counts, which nobody asks for, share another. Not compiled into its
// caller, so that the arrays of the tables get a frame of their own.
#[inline(never)]
pub(crate) fn make_tables(l: &[u32], tables: &mut [u32], counts: &mut [u32]) -> Counted
    requires rows { list_rows l.now ≡ passed }
    requires room { table_work (list_count l.now) ≤ length tables.old }
    requires counts_room { count_work (list_count l.now) ≤ length counts.old }
    ensures { Tabled l.now result tables.old tables.new
        counts.old counts.new }
{
    let from = symbols_at(l.len() / TREE_WORDS);
    let symbols = make_symbols(l, from, tables, counts);
    let parts = make_parts(l, tables, counts);
    Counted { parts, symbols }
}

// The list whose tables stand in work words.
pub(crate) fn own_tables<'a>(l: &'a [u32], made: Counted, tables: &'a [u32]) -> Own<'a>
    requires rows { list_rows l.now ≡ passed }
    requires held { Held l.now made tables.now }
    ensures { result.list.now ≡ l.now }
{
    let from = symbols_at(l.len() / TREE_WORDS);
    let parts_end = PART_WORDS * made.parts;
    let symbols_end = from + made.symbols;
    Own {
        list: l,
        parts: &tables[0..parts_end],
        symbols: &tables[from..symbols_end],
    }
}

// The bytes. Not compiled into its caller, so that the writer's arrays get a frame of their own.
#[inline(never)]
fn put_bytes(own: &Own, counts: &mut [u32], out: &mut [u8]) -> Result<usize, Refusal>
    ensures { Written own.now.parts.now own.now.symbols.now own.now.list.now counts.old out.old
        result counts.new out.new }
{
    encode_list(own.list, own.parts, own.symbols, counts, out)
}

// Bytes, part words and symbols into their outputs.
pub(crate) fn put_fresh(
    own: &Own,
    counts: &mut [u32],
    out: &mut [u8],
    out_parts: &mut [u32],
    out_symbols: &mut [u32],
) -> Result<Sizes, Refusal>
    requires { count_work (list_count own.now.list.now) ≤ length counts.old }
    ensures { Put own.now.list.now out.old out_parts.old out_symbols.old result
        counts.old counts.new out.new out_parts.new
        out_symbols.new }
{
    let parts = own.parts.len();
    let symbols = own.symbols.len();
    if out_parts.len() < parts || out_symbols.len() < symbols {
        return Err(Refusal {
            number: row::ROOM,
            tree: 0,
        });
    }
    let bytes = put_bytes(own, counts, out)?;
    put_words(out_parts, 0, own.parts);
    put_words(out_symbols, 0, own.symbols);
    Ok(Sizes {
        bytes,
        parts: parts / PART_WORDS,
        symbols,
    })
}
