// A list whose trees below the root are one run: their indices are found once, for row 5, the sizes and the bytes.
ghost use Rattle.std.specs.Prelude.{◌≤◌, length};
ghost use Rattle.format.specs.Builder.{holding_all};
ghost use Rattle.format.specs.WordList.{list_count};
ghost use Rattle.passes.specs.Passed.{Passed};
ghost use Rattle.passes.specs.Runs.{mode_by};
ghost use Rattle.passes.specs.Run.{Ready, Run, Sized};
ghost use Rattle.writer.specs.Written.{WrittenIn, Ruled, Finished};

use crate::refuse::refuse;
use pack::row;
use passes::bytes::put_once;
use passes::five::first_absent;
use passes::runs::Runs;
use passes::sizes::fill_once;
use places::resolve::resolve;
use tree::raw::place;
use tree::refusal::Refusal;
use width::TREE_WORDS;

// Row 6 for the output, then its bytes.
fn finish_once(
    l: &[u32],
    tables: &Runs,
    opens: &[u32],
    closes: &[u32],
    syms: &[u32],
    work: &[u32],
    out: &mut [u8],
) -> Result<usize, Refusal>
    requires passed { Passed (mode_by tables.now) l.now }
    requires run { Run (mode_by tables.now) l.now 1 (list_count l.now) opens.now closes.now syms.now }
    requires sized { Sized (mode_by tables.now) l.now 0 work.now }
    ensures { Finished (mode_by tables.now) (holding_all l.now) out.old result out.new }
{
    let total = place(work[0]);
    if out.len() < total {
        return refuse(row::ROOM);
    }
    put_once(
        l,
        tables,
        l.len() / TREE_WORDS,
        opens,
        closes,
        syms,
        work,
        out,
    );
    Ok(total)
}

// Row 6 for the work words, then those, then the output.
fn write_sized(
    l: &[u32],
    tables: &Runs,
    opens: &[u32],
    closes: &[u32],
    syms: &[u32],
    work: &mut [u32],
    out: &mut [u8],
) -> Result<usize, Refusal>
    requires passed { Passed (mode_by tables.now) l.now }
    requires run { Run (mode_by tables.now) l.now 1 (list_count l.now) opens.now closes.now syms.now }
    ensures { WrittenIn (mode_by tables.now) (holding_all l.now) work.old out.old result work.new out.new }
{
    if work.len() <= l.len() / TREE_WORDS {
        return refuse(row::ROOM);
    }
    fill_once(l, tables, opens, closes, syms, work);
    finish_once(l, tables, opens, closes, syms, work, out)
}

// Row 5 below the root, then row 6.
fn write_run(
    l: &[u32],
    tables: &Runs,
    opens: &[u32],
    closes: &[u32],
    syms: &[u32],
    work: &mut [u32],
    out: &mut [u8],
) -> Result<usize, Refusal>
    requires ruled { Ruled (mode_by tables.now) l.now }
    requires run { Run (mode_by tables.now) l.now 1 (list_count l.now) opens.now closes.now syms.now }
    ensures { WrittenIn (mode_by tables.now) (holding_all l.now) work.old out.old result work.new out.new }
{
    let count = l.len() / TREE_WORDS;
    let found = first_absent(l, tables, 1, count, opens, closes, syms);
    if found < count {
        return Err(Refusal {
            number: row::ABSENT,
            tree: found as u32,
        });
    }
    write_sized(l, tables, opens, closes, syms, work, out)
}

// Finds the indices, then writes.
pub(crate) fn write_once(
    l: &[u32],
    tables: &Runs,
    work: &mut [u32],
    out: &mut [u8],
    part_slots: &mut [u32],
    symbol_slots: &mut [u32],
    opens: &mut [u32],
    closes: &mut [u32],
    syms: &mut [u32],
) -> Result<usize, Refusal>
    requires ruled { Ruled (mode_by tables.now) l.now }
    requires ready { Ready tables.now part_slots.old symbol_slots.old opens.old closes.old syms.old }
    requires l_in_bounds { list_count l.now ≤ length opens.old }
    ensures { WrittenIn (mode_by tables.now) (holding_all l.now) work.old out.old result work.new out.new }
{
    resolve(
        l,
        tables.limits.limit,
        tables.parts,
        tables.symbols,
        1,
        part_slots,
        symbol_slots,
        opens,
        closes,
        syms,
    );
    write_run(l, tables, opens, closes, syms, work, out)
}
