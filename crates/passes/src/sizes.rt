// The work words of a list that rows 1 to 5 pass, from the last to the first.
ghost use Rattle.std.specs.Prelude.{◌≡◌, ◌+◌, ◌<◌, ◌≤◌, length};
ghost use Rattle.format.specs.WordList.{word_of, raw_from, list_count};
ghost use Rattle.format.specs.Writer.{raw_of};
ghost use Rattle.passes.specs.Runs.{mode_by};
ghost use Rattle.passes.specs.Run.{Ready, Run, children_in, Spanned, Sized, Beyond, Kept};
ghost use Rattle.passes.specs.Passed.{Passed};

use crate::runs::Runs;
use encode::listed::listed_size;
use places::resolve::resolve;
use tree::raw::{ChildrenBytes, place};
use tree::sort;
use width::TREE_WORDS;

// The bytes of the root.
const ROOT_BYTES: u32 = 33;

// The bytes of the descendants of tree n, by the work words behind it.
pub(crate) fn children_of(l: &[u32], n: usize, work: &[u32]) -> ChildrenBytes
    requires { Spanned l.now n work.now }
    ensures { result ≡ record { 0 = children_in l.now n work.now } }
{
    if l[TREE_WORDS * n] < sort::SUBTREE {
        return ChildrenBytes(0);
    }
    let end = n + 1 + place(l[TREE_WORDS * n + 1]);
    ChildrenBytes(work[n + 1] - work[end])
}

// The work word of tree n, below the root, with these indices, which are places in the tables.
fn size_at(
    l: &[u32],
    tables: &Runs,
    n: usize,
    open_index: u32,
    close_index: u32,
    symbol_index: u32,
    work: &mut [u32],
)
    requires passed { Passed (mode_by tables.now) l.now }
    requires le_n { (1 ≤ n) × (n < list_count l.now) }
    requires n_value { raw_from open_index close_index symbol_index (word_of l.now n) ≡ raw_of
        (mode_by tables.now) l.now n }
    requires sized { Sized (mode_by tables.now) l.now (n + 1) work.old }
    ensures filled { Sized (mode_by tables.now) l.now n work.new }
    ensures beyond { Beyond l.now work.new work.old }
{
    let children = children_of(l, n, work);
    let size = listed_size(l, n, open_index, close_index, symbol_index, children) as u32;
    work[n] = size + work[n + 1];
}

// The work words of a run.
fn size_run(
    l: &[u32],
    tables: &Runs,
    from: usize,
    stop: usize,
    opens: &[u32],
    closes: &[u32],
    syms: &[u32],
    work: &mut [u32],
)
    requires passed { Passed (mode_by tables.now) l.now }
    requires run { Run (mode_by tables.now) l.now from stop opens.now closes.now syms.now }
    requires sized { Sized (mode_by tables.now) l.now stop work.old }
    ensures filled { Sized (mode_by tables.now) l.now from work.new }
    ensures beyond { Beyond l.now work.new work.old }
{
    for n in (from..stop).rev() {
        let j = n - from;
        size_at(l, tables, n, opens[j], closes[j], syms[j], work);
    }
}

// The begin of the run that ends before tree n.
fn run_start(n: usize, room: usize) -> usize
    requires { (1 < n) × (1 ≤ room) }
    ensures { (1 ≤ result) × (result < n) × (n ≤ result + room) }
{
    n - room.min(n - 1)
}

// The work words of the run that ends before tree n. Answers where it begins.
fn size_before(
    l: &[u32],
    tables: &Runs,
    n: usize,
    work: &mut [u32],
    part_slots: &mut [u32],
    symbol_slots: &mut [u32],
    opens: &mut [u32],
    closes: &mut [u32],
    syms: &mut [u32],
) -> usize
    requires passed { Passed (mode_by tables.now) l.now }
    requires ready { Ready tables.now part_slots.old symbol_slots.old opens.old closes.old syms.old }
    requires lt_n { (1 < n) × (n ≤ list_count l.now) × Sized (mode_by tables.now) l.now n work.old }
    ensures lower_bound { (1 ≤ result) × (result < n) }
    ensures filled { Sized (mode_by tables.now) l.now result work.new }
    ensures beyond { Beyond l.now work.new work.old }
    ensures still_ready { Ready tables.now part_slots.new symbol_slots.new opens.new closes.new syms.new }
    ensures kept { Kept part_slots.new symbol_slots.new opens.new closes.new syms.new
        part_slots.old symbol_slots.old opens.old closes.old syms.old }
{
    let from = run_start(n, opens.len());
    resolve(
        l,
        tables.limits.limit,
        tables.parts,
        tables.symbols,
        from,
        part_slots,
        symbol_slots,
        opens,
        closes,
        syms,
    );
    size_run(l, tables, from, n, opens, closes, syms, work);
    from
}

// The work words below the root, from that behind the last tree on.
fn size_all(
    l: &[u32],
    tables: &Runs,
    work: &mut [u32],
    part_slots: &mut [u32],
    symbol_slots: &mut [u32],
    opens: &mut [u32],
    closes: &mut [u32],
    syms: &mut [u32],
)
    requires passed { Passed (mode_by tables.now) l.now }
    requires ready { Ready tables.now part_slots.old symbol_slots.old opens.old closes.old syms.old }
    requires sized { Sized (mode_by tables.now) l.now (list_count l.now) work.old }
    ensures filled { Sized (mode_by tables.now) l.now 1 work.new }
    ensures beyond { Beyond l.now work.new work.old }
    ensures still_ready { Ready tables.now part_slots.new symbol_slots.new opens.new closes.new syms.new }
    ensures kept { Kept part_slots.new symbol_slots.new opens.new closes.new syms.new
        part_slots.old symbol_slots.old opens.old closes.old syms.old }
{
    let mut n = l.len() / TREE_WORDS;
    while 1 < n {
        n = size_before(
            l,
            tables,
            n,
            work,
            part_slots,
            symbol_slots,
            opens,
            closes,
            syms,
        );
    }
}

// The work word of the root, which has a size of its own.
fn size_root(l: &[u32], tables: &Runs, work: &mut [u32])
    requires passed { Passed (mode_by tables.now) l.now }
    requires sized { Sized (mode_by tables.now) l.now 1 work.old }
    ensures filled { Sized (mode_by tables.now) l.now 0 work.new }
    ensures beyond { Beyond l.now work.new work.old }
{
    work[0] = ROOT_BYTES + work[1];
}

// All work words: 0 behind the last tree, the total at the root.
pub fn fill_work(
    l: &[u32],
    tables: &Runs,
    work: &mut [u32],
    part_slots: &mut [u32],
    symbol_slots: &mut [u32],
    opens: &mut [u32],
    closes: &mut [u32],
    syms: &mut [u32],
)
    requires passed { Passed (mode_by tables.now) l.now }
    requires ready { Ready tables.now part_slots.old symbol_slots.old opens.old closes.old syms.old }
    requires l_in_bounds { list_count l.now < length work.old }
    ensures sized { Sized (mode_by tables.now) l.now 0 work.new }
    ensures beyond { Beyond l.now work.new work.old }
    ensures still_ready { Ready tables.now part_slots.new symbol_slots.new opens.new closes.new syms.new }
    ensures kept { Kept part_slots.new symbol_slots.new opens.new closes.new syms.new
        part_slots.old symbol_slots.old opens.old closes.old syms.old }
{
    let count = l.len() / TREE_WORDS;
    work[count] = 0;
    size_all(
        l,
        tables,
        work,
        part_slots,
        symbol_slots,
        opens,
        closes,
        syms,
    );
    size_root(l, tables, work);
}

// The same where the trees below the root are one run.
pub fn fill_once(
    l: &[u32],
    tables: &Runs,
    opens: &[u32],
    closes: &[u32],
    syms: &[u32],
    work: &mut [u32],
)
    requires passed { Passed (mode_by tables.now) l.now }
    requires run { Run (mode_by tables.now) l.now 1 (list_count l.now) opens.now closes.now syms.now }
    requires l_in_bounds { list_count l.now < length work.old }
    ensures sized { Sized (mode_by tables.now) l.now 0 work.new }
    ensures beyond { Beyond l.now work.new work.old }
{
    let count = l.len() / TREE_WORDS;
    work[count] = 0;
    size_run(l, tables, 1, count, opens, closes, syms, work);
    size_root(l, tables, work);
}
