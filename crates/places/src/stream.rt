// A table too large for its slots: the keys of the trees are indexed instead, and the table is read through once.
ghost use Rattle.std.specs.Prelude.{◌≡◌, ◌+◌, ◌<◌, ◌≤◌, eqb, length, get_or, set, if◌then◌else◌};
ghost use Rattle.places.specs.Key.{key_count};
ghost use Rattle.places.specs.Portion.{placed, midway};

use crate::index::{Index, load, portion_of};
use crate::key::key_at;
use crate::keys::Keys;
use crate::portion::Portion;
use crate::table::Table;

// Place e for number i, unless it had one.
#[tactic(auto, using(crate::proofs::StreamReturns::put_first_cases))]
fn put_first(out: &mut [u32], i: usize, none: usize, e: usize)
    requires { (i < length out.old) × (e < 2097152) }
    ensures { out.new ≡ (if eqb (get_or out.old i 0) none then set out.old i e else out.old) }
{
    if out[i] as usize == none {
        out[i] = e as u32;
    }
}

// Entry e meets the keys: the first of those that it is has its place.
#[tactic(auto, using(crate::proofs::StreamReturns::meet_cases))]
fn meet(p: &Portion, e: usize, out: &mut [u32])
    requires e_in_table { e < p.now.table.len }
    requires midway { midway p.now p.now.first e out.old }
    ensures { midway p.now p.now.first (e + 1) out.new }
{
    let k = key_at(p.table.words, p.table.layout, e);
    if let Some(j) = p.index.find(k) {
        put_first(out, p.first + j, p.table.len, e);
    }
}

// Key i of the portion has the place of the first of its like.
#[tactic(auto, using(crate::proofs::StreamReturns::spread_one_cases))]
fn spread_one(p: &Portion, i: usize, out: &mut [u32])
    requires i_in_portion { i < p.now.index.len }
    requires midway { midway p.now (p.now.first + i) p.now.table.len out.old }
    ensures { midway p.now (p.now.first + (i + 1)) p.now.table.len out.new }
{
    let k = p.index.keys.at(i);
    if let Some(j) = p.index.find(k) {
        out[p.first + i] = out[p.first + j];
    }
}

// The keys of a portion, behind those that have their places.
#[inline(always)]
#[tactic(auto, using(crate::proofs::StreamReturns::spread_begin))]
fn place_portion(p: Portion, out: &mut [u32])
    requires begun { midway p p.first 0 out.old }
    ensures { midway p.entry (p.entry.first + p.entry.index.len) p.entry.table.len out.new }
{
    for e in 0..p.table.len {
        meet(&p, e, out);
    }
    for i in 0..p.index.len {
        spread_one(&p, i, out);
    }
}

// How many of the keys that are left are taken next. Few of the entries are among them: with a quarter of the slots
// taken, most meet an empty slot first.
fn next_keys(left: usize, slots: usize) -> usize
    requires { (0 < left) × (0 < slots) × (slots ≤ 1048576) }
    ensures { (0 < result) × (result ≤ left) × (result ≤ slots) }
{
    left.min(portion_of(portion_of(slots)))
}

// The first places among the entries of the keys of m trees. Compiled into its callers, which know both layouts: so
// they are not asked for at each entry.
#[inline(always)]
#[tactic(auto, using(crate::proofs::StreamReturns::run_cases))]
pub(crate) fn place_run<'a>(
    table: Table<'a>,
    run: Keys<'a>,
    slots: &mut [u32],
    m: usize,
    out: &mut [u32],
)
    requires m_in_bounds { m ≤ length out.old }
    requires m_bound { (run.base + m ≤ key_count run.words.now run.layout) × (run.base + m ≤ length run.words.now) }
    requires slots_nonzero { (0 < length slots.old) × (length slots.old ≤ 1048576) }
    ensures { placed table.entry run.entry m out.new }
{
    out.fill(table.len as u32);
    let mut first: usize = 0;
    while first < m {
        let len = next_keys(m - first, slots.len());
        let keys = Keys {
            base: run.base + first,
            ..run
        };
        load(keys, slots, len);
        let p = Portion {
            table,
            from: run.base,
            first,
            index: Index { keys, len, slots },
        };
        place_portion(p, out);
        first += len;
    }
}
