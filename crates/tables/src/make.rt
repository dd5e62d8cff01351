// The tables of a list, made in lent runs.
ghost use Rattle.std.specs.Prelude.{◌≡◌, true, false, ◌*◌, ◌<◌, ◌≤◌, length};
ghost use Rattle.std.proofs.lemmas.List.Edits.{sets};
ghost use Rattle.format.specs.Verdict.{passed};
ghost use Rattle.format.specs.Width.{part_size};
ghost use Rattle.format.specs.WordList.{list_count, list_rows};
ghost use Rattle.format.specs.MakeTables.{key_count, keys_of, root_parts};
ghost use Rattle.distinct.specs.Count.{ample};
ghost use Rattle.tables.specs.Made.{PartsMade, TablesDone};

use distinct::count::has_room;
use entries::table::make_table;
use keys::key::{Keys, put_part};
use list::rows::list_rows;
use pack::row;
use tree::refusal::Refusal;
use width::{CLOSE_AT, OPEN_AT, PART_WORDS};

// How many parts there are, the root's two among them, and how many symbols.
#[derive(Clone, Copy, PartialEq, Eq, Debug)]
pub struct Made {
    pub parts: usize,
    pub symbols: usize,
}

// The root's open and close part.
fn put_root(l: &[u32], out: &mut [u32], at: usize)
    requires { (1 ≤ list_count l.now) × (at ≤ part_size * 4294967294) }
    ensures { out.new ≡ sets out.old at (root_parts l.now) }
{
    put_part(l, OPEN_AT, out, at);
    put_part(l, CLOSE_AT, out, at + PART_WORDS);
}

// The part table: the parts below the root, then the root's two. The answer is how many there are.
pub fn make_parts(l: &[u32], parts: &mut [u32], tallies: &mut [u32]) -> usize
    requires bound { (1 ≤ list_count l.now) × (key_count l.now false < 4294967295) }
    requires tallies_value { ample false (length (keys_of l.now false)) (2 * part_size)
        (length parts.old) (length tallies.old) ≡ true }
    ensures { PartsMade l.now result
        parts.old parts.new tallies.old tallies.new }
{
    let keys = Keys {
        list: l,
        symbols: false,
    };
    let p = make_table(&keys, parts, tallies);
    put_root(l, parts, PART_WORDS * p);
    p + 2
}

// Both tables.
fn make_both(
    l: &[u32],
    parts: &mut [u32],
    part_counts: &mut [u32],
    symbols: &mut [u32],
    symbol_counts: &mut [u32],
) -> Made
    requires l_value { list_rows l.now ≡ passed }
    requires part_counts_value { ample false (length (keys_of l.now false)) (2 * part_size)
        (length parts.old) (length part_counts.old) ≡ true }
    requires symbol_counts_value { ample true (length (keys_of l.now true)) 0
        (length symbols.old) (length symbol_counts.old) ≡ true }
    ensures { TablesDone l.now parts.old
        part_counts.old symbols.old symbol_counts.old
        (Ok result) parts.new part_counts.new symbols.new symbol_counts.new }
{
    let keys = Keys {
        list: l,
        symbols: true,
    };
    let s = make_table(&keys, symbols, symbol_counts);
    let p = make_parts(l, parts, part_counts);
    Made {
        parts: p,
        symbols: s,
    }
}

// The tables of a list that has passed rows 1 to 4. Nothing is stored before both are known to have room.
fn make_if_room(
    l: &[u32],
    parts: &mut [u32],
    part_counts: &mut [u32],
    symbols: &mut [u32],
    symbol_counts: &mut [u32],
) -> Result<Made, Refusal>
    requires { list_rows l.now ≡ passed }
    ensures { TablesDone l.now parts.old
        part_counts.old symbols.old symbol_counts.old
        result parts.new part_counts.new symbols.new symbol_counts.new }
{
    let part_keys = Keys {
        list: l,
        symbols: false,
    };
    let symbol_keys = Keys {
        list: l,
        symbols: true,
    };
    if has_room(&part_keys, 2 * PART_WORDS, parts.len(), part_counts.len())
        && has_room(&symbol_keys, 0, symbols.len(), symbol_counts.len())
    {
        return Ok(make_both(l, parts, part_counts, symbols, symbol_counts));
    }
    Err(Refusal {
        number: row::ROOM,
        tree: 0,
    })
}

pub fn compute_span_frequencies_and_symbols(
    l: &[u32],
    parts: &mut [u32],
    part_counts: &mut [u32],
    symbols: &mut [u32],
    symbol_counts: &mut [u32],
) -> Result<Made, Refusal>
    ensures { TablesDone l.now parts.old
        part_counts.old symbols.old symbol_counts.old
        result parts.new part_counts.new symbols.new symbol_counts.new }
{
    list_rows(l)?;
    make_if_room(l, parts, part_counts, symbols, symbol_counts)
}
