// Row 5 of a list that rows 1 to 4 pass: its parts and symbols have places in their tables.
ghost use Rattle.std.specs.Prelude.{◌≡◌, true, IfOk, IfErr, Err, ◌&&◌, ◌+◌, ◌*◌, ◌<◌, ◌≤◌, length};
ghost use Rattle.format.specs.WordList.{open_part, close_part};
ghost use Rattle.format.specs.Part.{same_part, part_at};
ghost use Rattle.format.specs.Tables.{indexed_below};
ghost use Rattle.format.specs.Width.{part_size};
ghost use Rattle.format.specs.WordList.{word_of, raw_from, list_count};
ghost use Rattle.tree.specs.Refusal.{verdict_answer};
ghost use Rattle.passes.specs.Runs.{mode_by};
ghost use Rattle.passes.specs.Run.{Ready, Run, reach, InTables, first_absent, Kept};
ghost use Rattle.passes.specs.Tail.{five_in, five_from};

use crate::runs::Runs;
use list::sized::refused;
use pack::row;
use places::key::{same_key, words_key};
use places::resolve::resolve;
use tree::raw::place;
use tree::refusal::Refusal;
use tree::sort;
use width::{CLOSE_AT, OPEN_AT, PART_WORDS, TREE_WORDS};

// Whether the pair is the root's.
pub fn root_present(l: &[u32], pair: &[u32]) -> bool
    requires { (1 ≤ list_count l.now) × (2 * part_size ≤ length pair.now) }
    ensures { result ≡ (same_part (part_at pair.now 0) (open_part l.now 0) &&
        same_part (part_at pair.now 1) (close_part l.now 0)) }
{
    same_key(words_key(pair, 0), words_key(l, OPEN_AT))
        && same_key(words_key(pair, PART_WORDS), words_key(l, CLOSE_AT))
}

// Whether three indices are places in tables of these sizes, whichever a tree uses: no branch by its sort.
fn all_present(
    limit: usize,
    symbols: usize,
    open_index: u32,
    close_index: u32,
    symbol_index: u32,
) -> bool
    ensures { (result ≡ true) → InTables limit symbols open_index close_index symbol_index }
{
    place(open_index) < limit && place(close_index) < limit && place(symbol_index) < symbols
}

// Whether the indices of tree n, below the root, are places in tables of these sizes.
fn is_present(
    l: &[u32],
    n: usize,
    limit: usize,
    symbols: usize,
    open_index: u32,
    close_index: u32,
    symbol_index: u32,
) -> bool
    requires { n < list_count l.now }
    ensures { result ≡ indexed_below (reach limit symbols)
        (raw_from open_index close_index symbol_index (word_of l.now n)) }
{
    if all_present(limit, symbols, open_index, close_index, symbol_index) {
        return true;
    }
    if limit <= place(open_index) {
        return false;
    }
    let sort = l[TREE_WORDS * n];
    if sort == sort::PUNCT {
        return true;
    }
    if sort < sort::SUBTREE {
        place(symbol_index) < symbols
    } else {
        place(close_index) < limit
    }
}

// The first tree of a run with a part or a symbol that has no place, or the end of the run.
pub fn first_absent(
    l: &[u32],
    tables: &Runs,
    from: usize,
    stop: usize,
    opens: &[u32],
    closes: &[u32],
    syms: &[u32],
) -> usize
    requires { Run (mode_by tables.now) l.now from stop opens.now closes.now syms.now }
    ensures { result ≡ first_absent (mode_by tables.now) l.now from stop }
{
    for n in from..stop {
        let j = n - from;
        if !is_present(
            l,
            n,
            tables.limits.limit,
            tables.symbols.len(),
            opens[j],
            closes[j],
            syms[j],
        ) {
            return n;
        }
    }
    stop
}

// Row 5 of a run.
fn run_five(
    l: &[u32],
    tables: &Runs,
    from: usize,
    stop: usize,
    opens: &[u32],
    closes: &[u32],
    syms: &[u32],
) -> Result<(), Refusal>
    requires run { Run (mode_by tables.now) l.now from stop opens.now closes.now syms.now }
    requires l_bound { list_count l.now ≤ 1048576 }
    ensures { result ≡ verdict_answer (five_in (mode_by tables.now) l.now from stop) }
{
    let found = first_absent(l, tables, from, stop, opens, closes, syms);
    if found < stop {
        return refused(row::ABSENT, found);
    }
    Ok(())
}

// The end of the run that begins at tree n: as many trees as there are indices for, as far as the list goes.
pub(crate) fn run_end(n: usize, room: usize, count: usize) -> usize
    requires { (n < count) × (1 ≤ room) }
    ensures { (n < result) × (result ≤ count) × (result ≤ n + room) }
{
    n + room.min(count - n)
}

// Row 5 of the run that begins at tree n. Answers where it ends.
fn five_next(
    l: &[u32],
    tables: &Runs,
    n: usize,
    part_slots: &mut [u32],
    symbol_slots: &mut [u32],
    opens: &mut [u32],
    closes: &mut [u32],
    syms: &mut [u32],
) -> Result<usize, Refusal>
    requires le_n { (1 ≤ n) × (n < list_count l.now) × (list_count l.now ≤ 1048576) }
    requires ready { Ready tables.now part_slots.old symbol_slots.old opens.old closes.old syms.old }
    ensures ok { IfOk result (λ stop. (n < stop) × (stop ≤ list_count l.now)
        × (five_from (mode_by tables.now) l.now n ≡ five_from (mode_by tables.now) l.now stop)) }
    ensures err { IfErr result (λ e. Err e ≡ verdict_answer (five_from (mode_by tables.now) l.now n)) }
    ensures still_ready { Ready tables.now part_slots.new symbol_slots.new opens.new closes.new syms.new }
    ensures kept { Kept part_slots.new symbol_slots.new opens.new closes.new syms.new
        part_slots.old symbol_slots.old opens.old closes.old syms.old }
{
    let stop = run_end(n, opens.len(), l.len() / TREE_WORDS);
    resolve(
        l,
        tables.limits.limit,
        tables.parts,
        tables.symbols,
        n,
        part_slots,
        symbol_slots,
        opens,
        closes,
        syms,
    );
    run_five(l, tables, n, stop, opens, closes, syms)?;
    Ok(stop)
}

// Row 5 below the root.
pub fn row_five(
    l: &[u32],
    tables: &Runs,
    part_slots: &mut [u32],
    symbol_slots: &mut [u32],
    opens: &mut [u32],
    closes: &mut [u32],
    syms: &mut [u32],
) -> Result<(), Refusal>
    requires l_bound { list_count l.now ≤ 1048576 }
    requires ready { Ready tables.now part_slots.old symbol_slots.old opens.old closes.old syms.old }
    ensures value { result ≡ verdict_answer (five_from (mode_by tables.now) l.now 1) }
    ensures still_ready { Ready tables.now part_slots.new symbol_slots.new opens.new closes.new syms.new }
    ensures kept { Kept part_slots.new symbol_slots.new opens.new closes.new syms.new
        part_slots.old symbol_slots.old opens.old closes.old syms.old }
{
    let count = l.len() / TREE_WORDS;
    let mut n: usize = 1;
    while n < count {
        n = five_next(l, tables, n, part_slots, symbol_slots, opens, closes, syms)?;
    }
    Ok(())
}
