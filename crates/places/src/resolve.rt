// The indices of a run of trees: each key's first place in its table.
ghost use Rattle.std.specs.Prelude.{◌≡◌, ◌&&◌, ◌+◌, ◌<◌, ◌≤◌, leb, length};
ghost use Rattle.format.specs.WordList.{list_count};
ghost use Rattle.places.specs.Index.{portion, Ready};
ghost use Rattle.places.specs.Places.{below_root, Resolved, Roomy, Indexed, Streamed};
ghost use Rattle.places.specs.Tables.{mode_below};

use crate::closes::stream_closes;
use crate::index::{load, portion_of};
use crate::key::Layout;
use crate::keys::Keys;
use crate::stream::place_run;
use crate::table::Table;
use crate::tables::Tables;
use crate::whole::resolve_whole;
use width::TREE_WORDS;

// The index of a table that is one portion.
#[inline(always)]
#[tactic(auto, using(crate::proofs::ResolveReturns::build_one_cases))]
fn build_one(table: Table, slots: &mut [u32])
    requires { (0 < length slots.old) × (length slots.old ≤ 1048576) }
    ensures { Ready table.entry.words.now table.entry.layout table.entry.len slots.new }
{
    if table.len <= portion_of(slots.len()) {
        let keys = Keys {
            words: table.words,
            layout: table.layout,
            base: 0,
        };
        load(keys, slots, table.len);
    }
}

fn build_both(tables: Tables, part_slots: &mut [u32], symbol_slots: &mut [u32])
    requires some_slots { (0 < length part_slots.old) × (0 < length symbol_slots.old) }
    requires most_slots { (length part_slots.old ≤ 1048576) × (length symbol_slots.old ≤ 1048576) }
    ensures { Indexed tables.entry.limit tables.entry.parts.now tables.entry.symbols.now part_slots.new symbol_slots.new }
{
    build_one(tables.part_table(), part_slots);
    build_one(tables.symbol_table(), symbol_slots);
}

// Indexes the tables that are one portion of their slots, for any number of calls of resolve: of the parts those below
// the limit.
pub fn build(
    limit: usize,
    parts: &[u32],
    symbols: &[u32],
    part_slots: &mut [u32],
    symbol_slots: &mut [u32],
)
    requires { Roomy limit (length parts.now) (length symbols.now) (length part_slots.old)
        (length symbol_slots.old) }
    ensures { Indexed limit parts.now symbols.now part_slots.new
        symbol_slots.new }
{
    let tables = Tables {
        limit,
        parts,
        symbols,
    };
    build_both(tables, part_slots, symbol_slots);
}

// Whether both tables are one portion of their slots.
fn are_whole(n: usize, part_slots: usize, m: usize, symbol_slots: usize) -> bool
    requires { (0 < part_slots) × (part_slots ≤ 1048576) × (0 < symbol_slots) × (symbol_slots ≤ 1048576) }
    ensures { result ≡ (leb n (portion part_slots) && leb m (portion symbol_slots)) }
{
    n <= portion_of(part_slots) && m <= portion_of(symbol_slots)
}

// The indices of m trees: each table is read through once.
#[tactic(auto, using(crate::proofs::ResolveReturns::stream_cases))]
fn stream(
    tables: Tables,
    l: &[u32],
    from: usize,
    m: usize,
    part_slots: &mut [u32],
    symbol_slots: &mut [u32],
    opens: &mut [u32],
    closes: &mut [u32],
    syms: &mut [u32],
)
    requires some_slots { (0 < length part_slots.old) × (0 < length symbol_slots.old) }
    requires most_slots { (length part_slots.old ≤ 1048576) × (length symbol_slots.old ≤ 1048576) }
    requires m_bound { from + m ≤ list_count l.now }
    requires m_in_bounds { (m ≤ length opens.old) × (m ≤ length closes.old) × (m ≤ length syms.old) }
    ensures { Streamed tables.entry.limit tables.entry.parts.now tables.entry.symbols.now l.now from m
        opens.new closes.new syms.new }
{
    let parts = tables.part_table();
    let opening = Keys {
        words: l,
        layout: Layout::Open,
        base: from,
    };
    place_run(parts, opening, part_slots, m, opens);
    stream_closes(parts, l, from, part_slots, m, opens, closes);
    let name = Keys {
        words: l,
        layout: Layout::Name,
        base: from,
    };
    place_run(tables.symbol_table(), name, symbol_slots, m, syms);
}

#[tactic(auto, using(crate::proofs::ResolveReturns::resolve_stream_cases))]
fn resolve_stream(
    tables: Tables,
    l: &[u32],
    from: usize,
    part_slots: &mut [u32],
    symbol_slots: &mut [u32],
    opens: &mut [u32],
    closes: &mut [u32],
    syms: &mut [u32],
)
    requires some_slots { (0 < length part_slots.old) × (0 < length symbol_slots.old) }
    requires most_slots { (length part_slots.old ≤ 1048576) × (length symbol_slots.old ≤ 1048576) }
    requires indexed { Indexed tables.limit tables.parts.now tables.symbols.now part_slots.old symbol_slots.old }
    requires le_from { (1 ≤ from) × (length closes.old ≡ length opens.old) ×
        (length syms.old ≡ length opens.old) }
    ensures resolved { Resolved (mode_below tables.entry) l.now from (length opens.old) opens.new closes.new syms.new }
    ensures still_indexed { Indexed tables.entry.limit tables.entry.parts.now tables.entry.symbols.now part_slots.new symbol_slots.new }
{
    let k = l.len() / TREE_WORDS;
    if k <= from {
        return;
    }
    let m = opens.len().min(k - from);
    stream(
        tables,
        l,
        from,
        m,
        part_slots,
        symbol_slots,
        opens,
        closes,
        syms,
    );
    build_both(tables, part_slots, symbol_slots);
}

// The indices of trees from, from + 1, .., none of them the root: as many as opens, closes and syms are long, as far
// as they exist.
pub fn resolve(
    l: &[u32],
    limit: usize,
    parts: &[u32],
    symbols: &[u32],
    from: usize,
    part_slots: &mut [u32],
    symbol_slots: &mut [u32],
    opens: &mut [u32],
    closes: &mut [u32],
    syms: &mut [u32],
)
    requires roomy { Roomy limit (length parts.now) (length symbols.now) (length part_slots.old)
        (length symbol_slots.old) }
    requires indexed { Indexed limit parts.now symbols.now part_slots.old symbol_slots.old }
    requires le_from { (1 ≤ from) × (length closes.old ≡ length opens.old) ×
        (length syms.old ≡ length opens.old) }
    ensures resolved { Resolved (below_root limit parts.now symbols.now) l.now from
        (length opens.old) opens.new closes.new syms.new }
    ensures still_indexed { Indexed limit parts.now symbols.now part_slots.new
        symbol_slots.new }
{
    let tables = Tables {
        limit,
        parts,
        symbols,
    };
    if are_whole(limit, part_slots.len(), symbols.len(), symbol_slots.len()) {
        resolve_whole(
            tables,
            part_slots,
            symbol_slots,
            l,
            from,
            opens,
            closes,
            syms,
        );
    } else {
        resolve_stream(
            tables,
            l,
            from,
            part_slots,
            symbol_slots,
            opens,
            closes,
            syms,
        );
    }
}
