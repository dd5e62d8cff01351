// The writer: rows 1 to 6 in turn, the work words, the bytes.
ghost use Rattle.std.specs.Prelude.{◌≡◌, true, ◌&&◌, ◌<◌, ◌≤◌};
ghost use Rattle.format.specs.Builder.{holding_all};
ghost use Rattle.format.specs.Verdict.{passed};
ghost use Rattle.format.specs.Tables.{own_tables};
ghost use Rattle.format.specs.WordList.{list_sized, list_rules};
ghost use Rattle.passes.specs.Passed.{Within, Passed};
ghost use Rattle.passes.specs.Runs.{mode_by};
ghost use Rattle.passes.specs.Run.{Ready, Sized};
ghost use Rattle.writer.specs.Written.{Written, WrittenIn, Ruled, Finished};

use crate::once::write_once;
use crate::refuse::refuse;
use list::rows::list_sized;
use list::sized::{list_rules, list_rules_holding};
use pack::row;
use passes::bytes::put_list;
use passes::five::{root_present, row_five};
use passes::runs::Runs;
use passes::sizes::fill_work;
use places::resolve::build;
use tree::limits::own_limits;
use tree::raw::place;
use tree::refusal::Refusal;
use tree::sizes::tables_sized;
use width::{PART_WORDS, TREE_WORDS};

// Row 6 for the output, then its bytes.
fn finish(
    l: &[u32],
    tables: &Runs,
    work: &[u32],
    out: &mut [u8],
    part_slots: &mut [u32],
    symbol_slots: &mut [u32],
    opens: &mut [u32],
    closes: &mut [u32],
    syms: &mut [u32],
) -> Result<usize, Refusal>
    requires passed { Passed (mode_by tables.now) l.now }
    requires ready { Ready tables.now part_slots.old symbol_slots.old opens.old closes.old syms.old }
    requires sized { Sized (mode_by tables.now) l.now 0 work.now }
    ensures { Finished (mode_by tables.now) (holding_all l.now) out.old result out.new }
{
    let total = place(work[0]);
    if out.len() < total {
        return refuse(row::ROOM);
    }
    put_list(
        l,
        tables,
        l.len() / TREE_WORDS,
        work,
        out,
        part_slots,
        symbol_slots,
        opens,
        closes,
        syms,
    );
    Ok(total)
}

// Row 6 for the work words, then those, then the output.
fn write_passed(
    l: &[u32],
    tables: &Runs,
    work: &mut [u32],
    out: &mut [u8],
    part_slots: &mut [u32],
    symbol_slots: &mut [u32],
    opens: &mut [u32],
    closes: &mut [u32],
    syms: &mut [u32],
) -> Result<usize, Refusal>
    requires passed { Passed (mode_by tables.now) l.now }
    requires ready { Ready tables.now part_slots.old symbol_slots.old opens.old closes.old syms.old }
    ensures { WrittenIn (mode_by tables.now) (holding_all l.now) work.old out.old result work.new out.new }
{
    if work.len() <= l.len() / TREE_WORDS {
        return refuse(row::ROOM);
    }
    fill_work(
        l,
        tables,
        work,
        part_slots,
        symbol_slots,
        opens,
        closes,
        syms,
    );
    finish(
        l,
        tables,
        work,
        out,
        part_slots,
        symbol_slots,
        opens,
        closes,
        syms,
    )
}

// Row 5 below the root, then row 6.
fn write_built(
    l: &[u32],
    tables: &Runs,
    work: &mut [u32],
    out: &mut [u8],
    part_slots: &mut [u32],
    symbol_slots: &mut [u32],
    opens: &mut [u32],
    closes: &mut [u32],
    syms: &mut [u32],
) -> Result<usize, Refusal>
    requires ruled { Ruled (mode_by tables.now) l.now }
    requires ready { Ready tables.now part_slots.old symbol_slots.old opens.old closes.old syms.old }
    ensures { WrittenIn (mode_by tables.now) (holding_all l.now) work.old out.old result work.new out.new }
{
    if l.len() / TREE_WORDS <= opens.len() {
        return write_once(
            l,
            tables,
            work,
            out,
            part_slots,
            symbol_slots,
            opens,
            closes,
            syms,
        );
    }
    row_five(l, tables, part_slots, symbol_slots, opens, closes, syms)?;
    write_passed(
        l,
        tables,
        work,
        out,
        part_slots,
        symbol_slots,
        opens,
        closes,
        syms,
    )
}

// Rows 5 and 6 over slots that it builds, with room for the indices of so many trees.
fn write_with<const PART_SLOTS: usize, const SYMBOL_SLOTS: usize, const TREES: usize>(
    l: &[u32],
    tables: &Runs,
    work: &mut [u32],
    out: &mut [u8],
) -> Result<usize, Refusal>
    requires ruled { Ruled (mode_by tables.now) l.now }
    requires of_parts { (0 < PART_SLOTS) × (PART_SLOTS ≤ 1048576) }
    requires of_symbols { (0 < SYMBOL_SLOTS) × (SYMBOL_SLOTS ≤ 1048576) }
    requires some_trees { (1 ≤ TREES) × (TREES ≤ 1048576) }
    ensures { WrittenIn (mode_by tables.now) (holding_all l.now) work.old out.old result work.new out.new }
{
    let mut part_slots = [0u32; PART_SLOTS];
    let mut symbol_slots = [0u32; SYMBOL_SLOTS];
    let mut opens = [0u32; TREES];
    let mut closes = [0u32; TREES];
    let mut syms = [0u32; TREES];
    build(
        tables.limits.limit,
        tables.parts,
        tables.symbols,
        &mut part_slots,
        &mut symbol_slots,
    );
    write_built(
        l,
        tables,
        work,
        out,
        &mut part_slots,
        &mut symbol_slots,
        &mut opens,
        &mut closes,
        &mut syms,
    )
}

// The words of 1,024 parts, of 1,024 trees.
const SMALL_PARTS: usize = 1024 * PART_WORDS;

const SMALL_TREES: usize = 1024 * TREE_WORDS;

// The arrays that the tables and the list need: those of any size, or slots for at most 1,024 parts and 1,024 symbols at
// half load, and room for up to 32,768 trees, whose indices are then found once. They share one frame of less than 1 MB.
fn write_by_size(
    l: &[u32],
    tables: &Runs,
    work: &mut [u32],
    out: &mut [u8],
) -> Result<usize, Refusal>
    requires { Ruled (mode_by tables.now) l.now }
    ensures { WrittenIn (mode_by tables.now) (holding_all l.now) work.old out.old result work.new out.new }
{
    if SMALL_PARTS < tables.parts.len() || 1024 < tables.symbols.len() {
        write_with::<65536, 131072, 8192>(l, tables, work, out)
    } else if SMALL_TREES < l.len() {
        write_with::<2048, 2048, 32768>(l, tables, work, out)
    } else {
        write_with::<2048, 2048, 1024>(l, tables, work, out)
    }
}

// Row 5 for the root, whose parts are not looked for.
fn write_ruled(l: &[u32], tables: &Runs, work: &mut [u32], out: &mut [u8]) -> Result<usize, Refusal>
    requires within { Within (mode_by tables.now) l.now }
    requires l_value { list_rules (holding_all l.now) ≡ passed }
    ensures { WrittenIn (mode_by tables.now) (holding_all l.now) work.old out.old result work.new out.new }
{
    if !root_present(l, tables.pair) {
        return refuse(row::ABSENT);
    }
    write_by_size(l, tables, work, out)
}

// Over a part table whose last two are the root's, behind rows 1 to 4, which the caller has asked or knows to be
// silent. The root is taken to hold all others.
pub fn write_own(
    l: &[u32],
    parts: &[u32],
    symbols: &[u32],
    work: &mut [u32],
    out: &mut [u8],
) -> Result<usize, Refusal>
    requires symbols_value { (list_sized l.now && (own_tables parts.now symbols.now).sized) ≡ true }
    requires l_value { list_rules (holding_all l.now) ≡ passed }
    ensures { Written parts.now symbols.now (holding_all l.now)
        work.old out.old result work.new out.new }
{
    let limits = own_limits(parts.len() / PART_WORDS, symbols.len());
    let pair = &parts[PART_WORDS * limits.limit..];
    let tables = Runs {
        limits,
        parts,
        pair,
        symbols,
    };
    write_ruled(l, &tables, work, out)
}

// Writes the buffer of a list over given tables. Answers how many bytes, or the first of rows 1 to 6 that it breaks.
pub fn encode_list(
    l: &[u32],
    parts: &[u32],
    symbols: &[u32],
    work: &mut [u32],
    out: &mut [u8],
) -> Result<usize, Refusal>
    ensures { Written parts.now symbols.now l.now work.old
        out.old result work.new out.new }
{
    if !list_sized(l) {
        return refuse(row::SIZE);
    }
    if !tables_sized(parts, symbols) {
        return refuse(row::SIZE);
    }
    list_rules(l)?;
    write_own(l, parts, symbols, work, out)
}

// The same of a list whose root, where it is a subtree, is taken to hold all others, whatever count it has stored.
pub fn encode_holding(
    l: &[u32],
    parts: &[u32],
    symbols: &[u32],
    work: &mut [u32],
    out: &mut [u8],
) -> Result<usize, Refusal>
    ensures { Written parts.now symbols.now (holding_all l.now)
        work.old out.old result work.new out.new }
{
    if !list_sized(l) {
        return refuse(row::SIZE);
    }
    if !tables_sized(parts, symbols) {
        return refuse(row::SIZE);
    }
    list_rules_holding(l)?;
    write_own(l, parts, symbols, work, out)
}
