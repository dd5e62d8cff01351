// The distinct keys of a list, or of one class of it, with their counts: gathered through a hash table of ranks.
ghost use Rattle.std.specs.Prelude.{◌≡◌, true, ◌+◌, ◌≤◌, ◌<◌, length, set};
ghost use Rattle.format.specs.MakeTables.{key_count};
ghost use Rattle.keys.specs.Keys.{live_in};
ghost use Rattle.distinct.specs.Gathered.{like_rank, UpTo, Under, Filled, FilledIf};
ghost use Rattle.distinct.specs.Select.{number_of, trees_of, Selected};
ghost use Rattle.slots.specs.Probe.{probe};

use crate::select::{number, select};
use keys::key::Keys;
use keys::run::{raise, set_at};
use slots::probe::{Looked, next_slot};

// How many trees' keys are chosen before they are entered.
const STRETCH: usize = 512;

// Looks for key v from a slot on, among p ranks.
fn look(keys: &Keys, v: usize, p: usize, table: &[u32], firsts: &[u32], start: usize) -> Looked
    requires v_bound { v < key_count keys.now.list.now keys.now.symbols }
    requires start_in_bounds { (start < length table.now) × (p ≤ length firsts.now) }
    requires up_to { UpTo p table.now × Under p (key_count keys.now.list.now keys.now.symbols) firsts.now }
    ensures { result ≡ probe (length table.now) table.now
        (like_rank keys.now.list.now keys.now.symbols firsts.now v) start (length table.now) }
{
    let mut s = start;
    for _left in (0..table.len()).rev() {
        let e = table[s] as usize;
        if e == 0 {
            return Looked::Empty(s);
        }
        let u = firsts[e - 1] as usize;
        if keys.alike(u, v) {
            return Looked::Found(e - 1);
        }
        s = next_slot(s, table.len());
    }
    Looked::Full
}

// Key v is the first of rank p, and slot s is its.
fn join(
    v: usize,
    p: usize,
    s: usize,
    table: &mut [u32],
    firsts: &mut [u32],
    counts: &mut [u32],
) -> usize
    requires { (v < 4294967295) × (p < 4294967295) }
    ensures value { result ≡ p + 1 }
    ensures table_after { table.new ≡ set table.old s (p + 1) }
    ensures firsts_after { firsts.new ≡ set firsts.old p v }
    ensures counts_after { counts.new ≡ set counts.old p 1 }
{
    let next = p + 1;
    set_at(table, s, next as u32);
    set_at(firsts, p, v as u32);
    set_at(counts, p, 1);
    next
}

// Enters key v, which is one. The answer is the number of distinct keys, if there is room for them.
fn enter_key(
    keys: &Keys,
    classes: usize,
    class: usize,
    v: usize,
    p: usize,
    table: &mut [u32],
    firsts: &mut [u32],
    counts: &mut [u32],
) -> Option<usize>
    requires v_bound { (v < key_count keys.now.list.now keys.now.symbols) × (classes ≤ 1048576) }
    requires table_nonzero { (0 < length table.old) × (length table.old ≤ 1048576) }
    requires p_in_bounds { (p ≤ length firsts.old) × (length firsts.old ≤ 1048576)
        × (length counts.old ≡ length firsts.old) }
    requires filled { Filled keys.now.list.now keys.now.symbols classes class (length table.old) v p table.old firsts.old
        counts.old }
    requires v_value { live_in keys.now.list.now keys.now.symbols classes class v ≡ true }
    ensures { FilledIf (length firsts.old) keys.now.list.now keys.now.symbols classes class
        (length table.old)
        (v + 1) result table.new firsts.new counts.new }
{
    let start = keys.slot(v, table.len());
    match look(keys, v, p, table, firsts, start) {
        Looked::Found(e) => {
            raise(counts, e);
            Some(p)
        }
        Looked::Empty(s) => {
            if p == firsts.len() {
                return None;
            }
            Some(join(v, p, s, table, firsts, counts))
        }
        Looked::Full => None,
    }
}

// Enters the m chosen numbers, which are the keys from one number to before another.
fn enter_chosen(
    keys: &Keys,
    classes: usize,
    class: usize,
    from: usize,
    to: usize,
    m: usize,
    chosen: &[u32],
    p: usize,
    table: &mut [u32],
    firsts: &mut [u32],
    counts: &mut [u32],
) -> Option<usize>
    requires to_bound { (to ≤ key_count keys.now.list.now keys.now.symbols) × (classes ≤ 1048576) }
    requires table_nonzero { (0 < length table.old) × (length table.old ≤ 1048576) }
    requires p_in_bounds { (p ≤ length firsts.old) × (length firsts.old ≤ 1048576)
        × (length counts.old ≡ length firsts.old) }
    requires chosen { (to ≤ from + length chosen.now)
        × Selected (live_in keys.now.list.now keys.now.symbols classes class) from to m chosen.now }
    requires filled { Filled keys.now.list.now keys.now.symbols classes class (length table.old) from p table.old firsts.old
        counts.old }
    ensures { FilledIf (length firsts.old) keys.now.list.now keys.now.symbols classes class
        (length table.old)
        to result table.new firsts.new counts.new }
{
    let mut k = p;
    for j in 0..m {
        let v = chosen[j] as usize;
        k = enter_key(keys, classes, class, v, k, table, firsts, counts)?;
    }
    Some(k)
}

// Enters the keys of the trees from the t-th below the root to before another.
fn enter_stretch(
    keys: &Keys,
    classes: usize,
    class: usize,
    t: usize,
    end: usize,
    p: usize,
    table: &mut [u32],
    firsts: &mut [u32],
    counts: &mut [u32],
) -> Option<usize>
    requires t_le_end { (t ≤ end) × (end ≤ t + STRETCH) × (number_of keys.now.symbols end ≤ key_count keys.now.list.now keys.now.symbols) }
    requires symbols_bound { classes ≤ 1048576 }
    requires table_nonzero { (0 < length table.old) × (length table.old ≤ 1048576) }
    requires p_in_bounds { (p ≤ length firsts.old) × (length firsts.old ≤ 1048576)
        × (length counts.old ≡ length firsts.old) }
    requires filled { Filled keys.now.list.now keys.now.symbols classes class (length table.old) (number_of keys.now.symbols t) p
        table.old firsts.old counts.old }
    ensures { FilledIf (length firsts.old) keys.now.list.now keys.now.symbols classes class
        (length table.old)
        (number_of keys.now.symbols end) result table.new firsts.new counts.new }
{
    let mut chosen = [0u32; 2 * STRETCH];
    let m = select(keys, classes, class, t, end, &mut chosen);
    let from = number(keys.symbols, t);
    let to = number(keys.symbols, end);
    enter_chosen(
        keys, classes, class, from, to, m, &chosen, p, table, firsts, counts,
    )
}

// How many trees have n numbers.
fn tree_count(symbols: bool, n: usize) -> usize
    ensures { result ≡ trees_of symbols n }
{
    if symbols {
        return n;
    }
    n / 2
}

// Enters all n keys, stretch by stretch. The answer is the number of distinct keys, if there is room for them.
pub fn gather(
    keys: &Keys,
    classes: usize,
    class: usize,
    table: &mut [u32],
    firsts: &mut [u32],
    counts: &mut [u32],
) -> Option<usize>
    requires classes_bound { classes ≤ 1048576 }
    requires table_nonzero { (0 < length table.old) × (length table.old ≤ 1048576) }
    requires firsts_len_bound { (length firsts.old ≤ 1048576) × (length counts.old ≡ length firsts.old) }
    requires filled { Filled keys.now.list.now keys.now.symbols classes class (length table.old) 0 0 table.old firsts.old
        counts.old }
    ensures { FilledIf (length firsts.old) keys.now.list.now keys.now.symbols classes class
        (length table.old)
        (key_count keys.now.list.now keys.now.symbols) result table.new firsts.new counts.new }
{
    let trees = tree_count(keys.symbols, keys.count());
    let mut t: usize = 0;
    let mut p: usize = 0;
    while t < trees {
        let end = t + (trees - t).min(STRETCH);
        p = enter_stretch(keys, classes, class, t, end, p, table, firsts, counts)?;
        t = end;
    }
    Some(p)
}
