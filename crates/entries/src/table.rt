// The table of one kind of keys, stored into runs that have room for it.
ghost use Rattle.std.specs.Prelude.{◌≡◌, ◌≤◌, ◌<◌, length, set};
ghost use Rattle.std.proofs.lemmas.List.Edits.{sets};
ghost use Rattle.format.specs.MakeTables.{key_count, key_words, times_of};
ghost use Rattle.keys.specs.Keys.{place_in};
ghost use Rattle.distinct.specs.Gathered.{Filled};
ghost use Rattle.order.specs.Arrange.{Counted};
ghost use Rattle.entries.specs.Runs.{key_at, Ready, Made, MadeIf};
ghost use Rattle.keys.specs.Runs.{Room};

use crate::settle::settle;
use distinct::classes::by_classes;
use distinct::gather::gather;
use distinct::scan::scan;
use distinct::sizes::{
    MIDDLE_MOST, MIDDLE_ROOM, MIDDLE_SLOTS, SMALL_ROOM, SMALL_SLOTS, WIDE_ROOM, WIDE_SLOTS,
};
use keys::key::{Keys, limit_of};
use keys::run::{get_at, set_at};
use order::arrange::arrange;

// Counts below these are counted themselves when the keys are put in order.
const SMALL_STARTS: usize = 1024;

const MOST_STARTS: usize = 4096;

// Stores the table's k-th key and its count.
fn emit_one(
    keys: &Keys,
    p: usize,
    k: usize,
    firsts: &[u32],
    counts: &[u32],
    order: &[u32],
    words: &mut [u32],
    tallies: &mut [u32],
)
    requires k_lt_p { (k < p) × (p < 4294967295) }
    requires ready { Ready keys.now.list.now keys.now.symbols p firsts.now counts.now order.now }
    ensures words_after { words.new ≡ sets words.old (place_in keys.now.symbols k)
        (key_words keys.now.list.now keys.now.symbols (key_at keys.now.list.now keys.now.symbols k)) }
    ensures tallies_after { tallies.new ≡ set tallies.old k
        (times_of keys.now.list.now keys.now.symbols (key_at keys.now.list.now keys.now.symbols k)) }
{
    let r = get_at(order, k) as usize;
    let v = get_at(firsts, r) as usize;
    let x = get_at(counts, r);
    keys.put(v, words, k);
    set_at(tallies, k, x);
}

fn emit(
    keys: &Keys,
    p: usize,
    firsts: &[u32],
    counts: &[u32],
    order: &[u32],
    words: &mut [u32],
    tallies: &mut [u32],
)
    requires p_bound { p < 4294967295 }
    requires ready { Ready keys.now.list.now keys.now.symbols p firsts.now counts.now order.now }
    requires room { Room keys.now.list.now keys.now.symbols words.old tallies.old }
    ensures { Made keys.now.list.now keys.now.symbols p
        words.old words.new tallies.old tallies.new }
{
    for k in 0..p {
        emit_one(keys, p, k, firsts, counts, order, words, tallies);
    }
}

// The table, with all keys gathered.
fn finish(
    keys: &Keys,
    p: usize,
    words: &mut [u32],
    tallies: &mut [u32],
    table: &mut [u32],
    firsts: &[u32],
    counts: &[u32],
    starts: &mut [u32],
)
    requires p_bound { p < 4294967295 }
    requires p_in_bounds { (p ≤ length table.old) × (p ≤ length counts.now) × Counted counts.now 0 starts.old }
    requires filled { Filled keys.now.list.now keys.now.symbols 1 0 (length table.old)
        (key_count keys.now.list.now keys.now.symbols) p table.old firsts.now counts.now }
    requires room { Room keys.now.list.now keys.now.symbols words.old tallies.old }
    ensures { Made keys.now.list.now keys.now.symbols p
        words.old words.new tallies.old tallies.new }
{
    arrange(counts, p, limit_of(keys.symbols), starts, table);
    emit(keys, p, firsts, counts, table, words, tallies);
}

// The table, with the arrays that it takes. The answer is the number of keys, if the arrays have room for them.
fn through(
    keys: &Keys,
    words: &mut [u32],
    tallies: &mut [u32],
    table: &mut [u32],
    firsts: &mut [u32],
    counts: &mut [u32],
    starts: &mut [u32],
) -> Option<usize>
    requires table_nonzero { (0 < length table.old) × (length table.old ≤ 1048576)
        × (length firsts.old ≤ length table.old) }
    requires counts_len { (length counts.old ≡ length firsts.old) × Counted counts.old 0 starts.old }
    requires filled { Filled keys.now.list.now keys.now.symbols 1 0 (length table.old) 0 0 table.old firsts.old counts.old }
    requires room { Room keys.now.list.now keys.now.symbols words.old tallies.old }
    ensures { MadeIf keys.now.list.now keys.now.symbols result
        words.old words.new tallies.old tallies.new }
{
    let p = gather(keys, 1, 0, table, firsts, counts)?;
    finish(keys, p, words, tallies, table, firsts, counts, starts);
    Some(p)
}

// The table, if there is room for its keys in arrays of these sizes, which are in a frame of their own.
#[inline(never)]
fn table_in<const SLOTS: usize, const ROOM: usize, const STARTS: usize>(
    keys: &Keys,
    words: &mut [u32],
    tallies: &mut [u32],
) -> Option<usize>
    requires sizes { (0 < SLOTS) × (SLOTS ≤ 1048576) × (ROOM ≤ SLOTS)
        × (STARTS ≤ 1048576) }
    requires room { Room keys.now.list.now keys.now.symbols words.old tallies.old }
    ensures { MadeIf keys.now.list.now keys.now.symbols result
        words.old words.new tallies.old tallies.new }
{
    let mut table = [0u32; SLOTS];
    let mut firsts = [0u32; ROOM];
    let mut counts = [0u32; ROOM];
    let mut starts = [0u32; STARTS];
    through(
        keys,
        words,
        tallies,
        &mut table,
        &mut firsts,
        &mut counts,
        &mut starts,
    )
}

// The table, for any keys: slow.
fn slow(keys: &Keys, words: &mut [u32], tallies: &mut [u32]) -> usize
    requires room { Room keys.now.list.now keys.now.symbols words.old tallies.old }
    ensures { Made keys.now.list.now keys.now.symbols result
        words.old words.new tallies.old tallies.new }
{
    let p = scan(keys, words, tallies);
    settle(keys, p, words, tallies);
    p
}

// The table, however many keys there are.
fn large(keys: &Keys, words: &mut [u32], tallies: &mut [u32]) -> usize
    requires room { Room keys.now.list.now keys.now.symbols words.old tallies.old }
    ensures { Made keys.now.list.now keys.now.symbols result
        words.old words.new tallies.old tallies.new }
{
    if let Some(p) = by_classes(keys, words, tallies) {
        settle(keys, p, words, tallies);
        return p;
    }
    slow(keys, words, tallies)
}

// The table of one kind of keys, with small arrays first, then larger ones, then class by class. The answer is the
// number of keys.
pub fn make_table(keys: &Keys, words: &mut [u32], tallies: &mut [u32]) -> usize
    requires room { Room keys.now.list.now keys.now.symbols words.old tallies.old }
    ensures upper_bound { result < 4294967295 }
    ensures made { Made keys.now.list.now keys.now.symbols result
        words.old words.new tallies.old tallies.new }
{
    if let Some(p) = table_in::<SMALL_SLOTS, SMALL_ROOM, SMALL_STARTS>(keys, words, tallies) {
        return p;
    }
    if keys.count() <= MIDDLE_MOST {
        if let Some(p) = table_in::<MIDDLE_SLOTS, MIDDLE_ROOM, MOST_STARTS>(keys, words, tallies) {
            return p;
        }
    }
    if let Some(p) = table_in::<WIDE_SLOTS, WIDE_ROOM, MOST_STARTS>(keys, words, tallies) {
        return p;
    }
    large(keys, words, tallies)
}
