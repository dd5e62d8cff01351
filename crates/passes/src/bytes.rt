// The bytes of a list that rows 1 to 5 pass, tree after tree, into an output that holds them.
ghost use Rattle.std.specs.Prelude.{◌≡◌, ◌+◌, ◌-◌, ◌<◌, ◌≤◌, length, get_or};
ghost use Rattle.format.specs.Builder.{holding_all};
ghost use Rattle.format.specs.Word.{put};
ghost use Rattle.format.specs.WordList.{word_of, raw_from, list_count};
ghost use Rattle.format.specs.Writer.{raw_of};
ghost use Rattle.passes.specs.Runs.{mode_by};
ghost use Rattle.passes.specs.Run.{Ready, Run, Falls, Sized, root_of, Advanced, Kept};
ghost use Rattle.passes.specs.Tail.{size_from, head_of};
ghost use Rattle.passes.specs.Passed.{Passed};

use crate::five::run_end;
use crate::runs::Runs;
use crate::sizes::children_of;
use encode::encode::encode_top_subtree;
use encode::listed::put_listed;
use pack::span::PackedSpan;
use places::resolve::resolve;
use tree::raw::{ChildrenBytes, Descendants, RawSubtree, place};
use width::{CLOSE_LEN, CLOSE_START, OPEN_LEN, OPEN_START, TREE_WORDS};

// Where tree n begins: after all bytes but those from it on.
fn begin_of(work: &[u32], n: usize) -> usize
    requires { Falls work.now n }
    ensures { result ≡ get_or work.now 0 0 - get_or work.now n 0 }
{
    place(work[0] - work[n])
}

// Writes tree n, below the root, with these indices, which are places in the tables.
fn put_at(
    l: &[u32],
    tables: &Runs,
    n: usize,
    open_index: u32,
    close_index: u32,
    symbol_index: u32,
    work: &[u32],
    out: &mut [u8],
)
    requires passed { Passed (mode_by tables.now) l.now }
    requires le_n { (1 ≤ n) × (n < list_count l.now) }
    requires n_value { raw_from open_index close_index symbol_index (word_of l.now n) ≡ raw_of
        (mode_by tables.now) l.now n }
    requires sized { Sized (mode_by tables.now) l.now 0 work.now }
    requires room { size_from (mode_by tables.now) l.now 0 ≤ length out.old }
    ensures { Advanced (mode_by tables.now) (holding_all l.now) n (n + 1) out.old out.new }
{
    let at = begin_of(work, n);
    let children = children_of(l, n, work);
    put_listed(
        out,
        at,
        l,
        n,
        open_index,
        close_index,
        symbol_index,
        children,
    );
}

// Writes a run.
fn put_run(
    l: &[u32],
    tables: &Runs,
    from: usize,
    stop: usize,
    opens: &[u32],
    closes: &[u32],
    syms: &[u32],
    work: &[u32],
    out: &mut [u8],
)
    requires passed { Passed (mode_by tables.now) l.now }
    requires run { Run (mode_by tables.now) l.now from stop opens.now closes.now syms.now }
    requires sized { Sized (mode_by tables.now) l.now 0 work.now }
    requires room { size_from (mode_by tables.now) l.now 0 ≤ length out.old }
    ensures { Advanced (mode_by tables.now) (holding_all l.now) from stop out.old out.new }
{
    for n in from..stop {
        let j = n - from;
        put_at(l, tables, n, opens[j], closes[j], syms[j], work, out);
    }
}

// Writes the run that begins at tree n, before tree `count`. Answers where it ends.
fn put_from(
    l: &[u32],
    tables: &Runs,
    n: usize,
    count: usize,
    work: &[u32],
    out: &mut [u8],
    part_slots: &mut [u32],
    symbol_slots: &mut [u32],
    opens: &mut [u32],
    closes: &mut [u32],
    syms: &mut [u32],
) -> usize
    requires passed { Passed (mode_by tables.now) l.now }
    requires ready { Ready tables.now part_slots.old symbol_slots.old opens.old closes.old syms.old }
    requires sized { Sized (mode_by tables.now) l.now 0 work.now }
    requires le_n { (1 ≤ n) × (n < count) × (count ≤ list_count l.now) ×
        (size_from (mode_by tables.now) l.now 0 ≤ length out.old) }
    ensures lower_bound { (n < result) × (result ≤ count) }
    ensures advanced { Advanced (mode_by tables.now) (holding_all l.now) n result out.old out.new }
    ensures still_ready { Ready tables.now part_slots.new symbol_slots.new opens.new closes.new syms.new }
    ensures kept { Kept part_slots.new symbol_slots.new opens.new closes.new syms.new
        part_slots.old symbol_slots.old opens.old closes.old syms.old }
{
    let stop = run_end(n, opens.len(), count);
    resolve(
        l,
        tables.limits.limit,
        tables.parts,
        tables.symbols,
        n,
        part_slots,
        symbol_slots,
        opens,
        closes,
        syms,
    );
    put_run(l, tables, n, stop, opens, closes, syms, work, out);
    stop
}

// Writes the trees below the root, before tree `count`.
fn put_all(
    l: &[u32],
    tables: &Runs,
    count: usize,
    work: &[u32],
    out: &mut [u8],
    part_slots: &mut [u32],
    symbol_slots: &mut [u32],
    opens: &mut [u32],
    closes: &mut [u32],
    syms: &mut [u32],
)
    requires passed { Passed (mode_by tables.now) l.now }
    requires ready { Ready tables.now part_slots.old symbol_slots.old opens.old closes.old syms.old }
    requires sized { Sized (mode_by tables.now) l.now 0 work.now }
    requires le_count { (1 ≤ count) × (count ≤ list_count l.now) ×
        (size_from (mode_by tables.now) l.now 0 ≤ length out.old) }
    ensures advanced { Advanced (mode_by tables.now) (holding_all l.now) 1 count out.old out.new }
    ensures kept { Kept part_slots.new symbol_slots.new opens.new closes.new syms.new
        part_slots.old symbol_slots.old opens.old closes.old syms.old }
{
    let mut n: usize = 1;
    while n < count {
        n = put_from(
            l,
            tables,
            n,
            count,
            work,
            out,
            part_slots,
            symbol_slots,
            opens,
            closes,
            syms,
        );
    }
}

// The root by its words and the index of its open part. It holds all others, whatever count is stored.
fn root_of(l: &[u32], root: usize) -> RawSubtree
    requires { (1 ≤ list_count l.now) × (list_count l.now ≤ 1048576) × (root ≤ 2097152) }
    ensures { result ≡ root_of l.now root }
{
    let opening = PackedSpan {
        index: root as u32,
        start: l[OPEN_START],
        len: l[OPEN_LEN],
    };
    let closing = PackedSpan {
        index: (root + 1) as u32,
        start: l[CLOSE_START],
        len: l[CLOSE_LEN],
    };
    RawSubtree {
        opening,
        closing,
        len: Descendants((l.len() / TREE_WORDS - 1) as u32),
        kind: l[2],
    }
}

// Writes the root.
fn put_root(l: &[u32], tables: &Runs, work: &[u32], out: &mut [u8])
    requires passed { Passed (mode_by tables.now) l.now }
    requires sized { Sized (mode_by tables.now) l.now 0 work.now }
    requires room { size_from (mode_by tables.now) l.now 0 ≤ length out.old }
    ensures { Advanced (mode_by tables.now) (holding_all l.now) 0 1 out.old out.new }
{
    let root = root_of(l, tables.limits.root);
    let _ = encode_top_subtree(out, 0, root, ChildrenBytes(work[1]));
}

// Writes the first `count` trees: the root, then those below it.
pub fn put_list(
    l: &[u32],
    tables: &Runs,
    count: usize,
    work: &[u32],
    out: &mut [u8],
    part_slots: &mut [u32],
    symbol_slots: &mut [u32],
    opens: &mut [u32],
    closes: &mut [u32],
    syms: &mut [u32],
)
    requires passed { Passed (mode_by tables.now) l.now }
    requires ready { Ready tables.now part_slots.old symbol_slots.old opens.old closes.old syms.old }
    requires sized { Sized (mode_by tables.now) l.now 0 work.now }
    requires count_bound { (count ≤ list_count l.now) × (size_from (mode_by tables.now) l.now 0
        ≤ length out.old) }
    ensures bytes { out.new ≡ put out.old 0 (head_of (mode_by tables.now) (holding_all l.now) count) }
    ensures kept { Kept part_slots.new symbol_slots.new opens.new closes.new syms.new
        part_slots.old symbol_slots.old opens.old closes.old syms.old }
{
    if count == 0 {
        return;
    }
    put_root(l, tables, work, out);
    put_all(
        l,
        tables,
        count,
        work,
        out,
        part_slots,
        symbol_slots,
        opens,
        closes,
        syms,
    );
}

// The same where the trees below the root are one run.
pub fn put_once(
    l: &[u32],
    tables: &Runs,
    count: usize,
    opens: &[u32],
    closes: &[u32],
    syms: &[u32],
    work: &[u32],
    out: &mut [u8],
)
    requires passed { Passed (mode_by tables.now) l.now }
    requires run { Run (mode_by tables.now) l.now 1 (list_count l.now) opens.now closes.now syms.now }
    requires sized { Sized (mode_by tables.now) l.now 0 work.now }
    requires count_bound { (count ≤ list_count l.now) × (size_from (mode_by tables.now) l.now 0
        ≤ length out.old) }
    ensures { out.new ≡ put out.old 0 (head_of (mode_by tables.now) (holding_all l.now) count) }
{
    if count == 0 {
        return;
    }
    put_root(l, tables, work, out);
    put_run(l, tables, 1, count, opens, closes, syms, work, out);
}
